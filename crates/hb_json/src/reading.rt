//! What is there in a JSON value, and which whole number below 256 is it?

ghost use Rattle.std.specs.Prelude.{◌≡◌, option_map};
ghost use Rattle.serde_json.specs.View.{view};
ghost use Rattle.hb_json.specs.JsonReading.{below_of, present as present_of};

use serde_json::Value;

/// What is there; null counts as absent.
pub fn present(found: Option<&Value>) -> Option<&Value>
    ensures { option_map (λ v. view v.now) result
        ≡ present_of (option_map (λ v. view v.now) found.entry) }
{
    match found {
        Some(Value::Null) => None,
        other => other,
    }
}

/// A whole number of 0 to 255.
pub fn byte(value: &Value) -> Option<u8>
    ensures { result ≡ below_of 256 (view value.now) }
{
    u8::try_from(value.as_u64()?).ok()
}
