//! Which lines answer a message?

ghost use Rattle.std.specs.Prelude.{◌≡◌, IfOk, OnOk, codes, string_bytes};
ghost use Rattle.serde_json.specs.View.{view, members_view};
ghost use Rattle.hb_json.specs.Line.{line};
ghost use Rattle.hb_request.specs.declared.errors.WireError.TheVariants as error;
ghost use Rattle.hb_wire.specs.WireLine.{bad_data, refused_data, with_whole};

use crate::objects::{number_text, text_value};
use hb_json::line_text;
use hb_request::{FieldName, WireError};
use serde_json::{Map, Value, json, put};
use std::alloc::{AllocError, Global};

/// The line of a message that asks nothing.
#[tactic(auto, unfolding(hb_json::specs::Line::line, json::specs::Print::escape_byte))]
pub(crate) fn bad_text(alloc: Global, error: WireError) -> Result<String, AllocError>
    ensures { IfOk result (λ s. string_bytes s ≡ line (codes "bad") (bad_data error)) }
{
    match error {
        WireError::Field(field) => field_text(alloc, field),
        _ => number_text(alloc, "bad {\"code\":", u64::from(error.number())),
    }
}

/// What the line of a message with a wrong field says, which it names.
fn field_value(alloc: Global, field: FieldName) -> Result<Value, AllocError>
    ensures { IfOk result (λ v. view v ≡ bad_data (error.Field field)) }
{
    let name = text_value(alloc, field.text())?;
    json!(in alloc; {"code": 4, "field": name})
}

/// The line of a message with a wrong field.
fn field_text(alloc: Global, field: FieldName) -> Result<String, AllocError>
    ensures { IfOk result (λ s. string_bytes s
        ≡ line (codes "bad") (bad_data (error.Field field))) }
{
    let value = field_value(alloc, field)?;
    line_text(alloc, "bad", &value)
}

/// Puts a number into an object if there is one.
fn put_whole(
    map: &mut Map<String, Value>,
    alloc: Global,
    key: &str,
    n: Option<u64>,
) -> Result<(), AllocError>
    ensures { OnOk result (members_view map.new.entries
        ≡ with_whole key.now n (members_view map.old.entries)) }
{
    match n {
        Some(n) => put(map, alloc, key, Value::from(n)),
        None => Ok(()),
    }
}

/// What the line of a refusal says.
fn refused_value(
    alloc: Global,
    code: u8,
    number: u32,
    review: Option<u8>,
    rule: Option<u8>,
    table: Option<u32>,
) -> Result<Value, AllocError>
    ensures { IfOk result (λ v. view v ≡ refused_data code number review rule table) }
{
    let mut map = Map::new(alloc);
    put(&mut map, alloc, "code", Value::from(code))?;
    put(&mut map, alloc, "number", Value::from(number))?;
    put_whole(&mut map, alloc, "review", review.map(u64::from))?;
    put_whole(&mut map, alloc, "rule", rule.map(u64::from))?;
    put_whole(&mut map, alloc, "table", table.map(u64::from))?;
    Ok(Value::Object(map))
}

/// The line of a refusal.
pub(crate) fn refused_text(
    alloc: Global,
    code: u8,
    number: u32,
    review: Option<u8>,
    rule: Option<u8>,
    table: Option<u32>,
) -> Result<String, AllocError>
    ensures { IfOk result (λ s. string_bytes s
        ≡ line (codes "refused") (refused_data code number review rule table)) }
{
    let value = refused_value(alloc, code, number, review, rule, table)?;
    line_text(alloc, "refused", &value)
}
