//! What are the lines of a single name or number?

ghost use Rattle.std.specs.Prelude.{◌≡◌, ◌++◌, IfOk, codes, decimal, string_bytes};
ghost use Rattle.serde_json.specs.Data.{string};
ghost use Rattle.serde_json.specs.View.{view};
ghost use Rattle.hb_json.specs.Line.{line};
ghost use Rattle.hb_wire.specs.WireLine.{name_data};

use crate::spelling::push_number;
use hb_io::Name;
use hb_json::line_text;
use serde_json::{Map, Value, put};
use std::alloc::{AllocError, Global};

/// Few lines of a number are longer, in bytes; such a line takes memory once more.
const USUAL_LEN: usize = 32;

/// A text as a value.
pub(crate) fn text_value(alloc: Global, text: &str) -> Result<Value, AllocError>
    ensures { IfOk result (λ v. view v ≡ string text.now) }
{
    Ok(Value::String(String::from_str(alloc, text)?))
}

/// An object with one key, which has a name.
fn name_value(alloc: Global, key: &str, name: Name) -> Result<Value, AllocError>
    ensures { IfOk result (λ v. view v ≡ name_data key.now name) }
{
    let mut map = Map::new(alloc);
    put(&mut map, alloc, key, text_value(alloc, name.as_str())?)?;
    Ok(Value::Object(map))
}

/// A line whose object has one key, with a name.
pub(crate) fn name_text(
    alloc: Global,
    word: &str,
    key: &str,
    name: Name,
) -> Result<String, AllocError>
    ensures { IfOk result (λ s. string_bytes s ≡ line word.now (name_data key.now name)) }
{
    let value = name_value(alloc, key, name)?;
    line_text(alloc, word, &value)
}

/// A line whose object has one key, with a number: all that stands before the number, the number,
/// and the closing brace.
pub(crate) fn number_text(alloc: Global, before: &str, n: u64) -> Result<String, AllocError>
    ensures { IfOk result (λ s. string_bytes s ≡ before.now ++ (decimal n ++ codes "}")) }
{
    let mut text = String::with_capacity(alloc, USUAL_LEN)?;
    push_number(&mut text, before, n)?;
    text.push('}')?;
    Ok(text)
}
