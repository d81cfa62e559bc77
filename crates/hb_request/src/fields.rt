//! What does a single field of a request's JSON object say, or which field is wrong?

ghost use Rattle.std.specs.Prelude.{◌≡◌, ◌≤◌, length, IfOk, MatchResult, Ok, Err};
ghost use Rattle.serde_json.specs.View.{view};
ghost use Rattle.hb_request.specs.declared.limits.TheConstants.{HIGHEST_ID, HIGHEST_ORDER, HIGHEST_SEAT, KEY_LIMIT};
ghost use Rattle.hb_request.specs.Fields.{number_in, text_in, key_in, room_in, table_in, request_number_in, order_in, seat_in, id_in, turn_in, shadow_in};
ghost use Rattle.hb_request.specs.Parsed.{Gives, fielded};
ghost use Rattle.hb_request.specs.Ranges.{IsPositive, IsShadow};

use crate::errors::{FieldName, WireError};
use crate::limits::{HIGHEST_ID, HIGHEST_ORDER, HIGHEST_SEAT, KEY_LIMIT};
use hb_io::Text;
use hb_json::present;
use serde_json::Value;
use std::alloc::Global;

/// A field that is a whole number of low to high.
fn number(value: &Value, field: FieldName, low: u64, high: u64) -> Result<u64, FieldName>
    ensures found { result ≡ number_in field low high (view value.now) }
    ensures range { IfOk result (λ n. (low ≤ n) × (n ≤ high)) }
{
    let found = value
        .get(field.text())
        .and_then(Value::as_u64)
        .ok_or(field)?;
    if low <= found && found <= high {
        Ok(found)
    } else {
        Err(field)
    }
}

/// The room.
pub(crate) fn room(value: &Value) -> Result<u32, FieldName>
    ensures { result ≡ room_in (view value.now) }
{
    Ok(number(value, FieldName::Room, 0, u64::from(u32::MAX))? as u32)
}

/// The number of the table in its room.
pub(crate) fn table(value: &Value) -> Result<u32, FieldName>
    ensures found { result ≡ table_in (view value.now) }
    ensures range { IfOk result IsPositive }
{
    Ok(number(value, FieldName::Table, 1, u64::from(u32::MAX))? as u32)
}

/// The number of the request.
pub(crate) fn request_number(value: &Value) -> Result<u32, FieldName>
    ensures found { result ≡ request_number_in (view value.now) }
    ensures range { IfOk result IsPositive }
{
    Ok(number(value, FieldName::Number, 1, u64::from(u32::MAX))? as u32)
}

/// The order of a card.
pub(crate) fn order(value: &Value) -> Result<u8, FieldName>
    ensures found { result ≡ order_in (view value.now) }
    ensures range { IfOk result (λ n. n ≤ HIGHEST_ORDER) }
{
    Ok(number(value, FieldName::Order, 0, HIGHEST_ORDER)? as u8)
}

/// The seat that a clue is given to.
pub(crate) fn seat(value: &Value) -> Result<u8, FieldName>
    ensures found { result ≡ seat_in (view value.now) }
    ensures range { IfOk result (λ n. n ≤ HIGHEST_SEAT) }
{
    Ok(number(value, FieldName::To, 0, HIGHEST_SEAT)? as u8)
}

/// The id of a kept game.
pub(crate) fn id(value: &Value) -> Result<u64, FieldName>
    ensures found { result ≡ id_in (view value.now) }
    ensures range { IfOk result (λ n. (1 ≤ n) × (n ≤ HIGHEST_ID)) }
{
    number(value, FieldName::Id, 1, HIGHEST_ID)
}

/// The turn of a review.
pub(crate) fn turn(value: &Value) -> Result<u16, FieldName>
    ensures { result ≡ turn_in (view value.now) }
{
    Ok(number(value, FieldName::Turn, 0, u64::from(u16::MAX))? as u16)
}

/// The seat whose sight is shared, if one is said.
pub(crate) fn shadow(value: &Value) -> Result<Option<u8>, FieldName>
    ensures found { result ≡ shadow_in (view value.now) }
    ensures range { IfOk result IsShadow }
{
    let Some(found) = present(value.get(FieldName::Shadow.text())) else {
        return Ok(None);
    };
    match found.as_u64() {
        Some(seat) if seat <= HIGHEST_SEAT => Ok(Some(seat as u8)),
        _ => Err(FieldName::Shadow),
    }
}

/// A field that is a text.
fn text_slice(value: &Value, field: FieldName) -> Result<&str, FieldName>
    ensures { MatchResult result
        (λ text. text_in field (view value.now) ≡ Ok text.now)
        (λ e. text_in field (view value.now) ≡ Err e) }
{
    value.get(field.text()).and_then(Value::as_str).ok_or(field)
}

/// A copy of a field that is a text.
pub(crate) fn text(alloc: Global, value: &Value, field: FieldName) -> Result<Text, WireError>
    ensures { Gives result (fielded (text_in field (view value.now))) }
{
    Ok(Text::copy_of(alloc, text_slice(value, field)?)?)
}

/// The key that a name is kept by.
pub(crate) fn key(alloc: Global, value: &Value) -> Result<Text, WireError>
    ensures found { Gives result (fielded (key_in (view value.now))) }
    ensures range { IfOk result (λ key. (1 ≤ length key) × (length key ≤ KEY_LIMIT)) }
{
    let text = text_slice(value, FieldName::Key)?;
    if text.is_empty() || text.len() > KEY_LIMIT {
        return Err(WireError::Field(FieldName::Key));
    }
    Ok(Text::copy_of(alloc, text)?)
}
