//! What does a message ask?

ghost use Rattle.std.specs.Prelude.{◌≡◌, IfOk, option_map};
ghost use Rattle.serde_json.specs.View.{view};
ghost use Rattle.hb_request.specs.Fields.{hello_in, request_in, table_request_in};
ghost use Rattle.hb_request.specs.Parsed.{Gives, fielded, parsed, rest_of, said_by, word_of};
ghost use Rattle.hb_request.specs.Ranges.{IsRequest};

use crate::asks::ask;
use crate::commands::{Command, TableCommand};
use crate::errors::{FieldName, WireError};
use crate::fields::{key, request_number, room, table, text};
use crate::limits::MESSAGE_LIMIT;
use crate::requests::Request;
use serde_json::Value;
use std::alloc::Global;

/// A name and its key.
fn hello(alloc: Global, value: &Value) -> Result<Request, WireError>
    ensures found { Gives result (fielded (hello_in (view value.now))) }
    ensures range { IfOk result IsRequest }
{
    let name = text(alloc, value, FieldName::Name)?;
    let key = key(alloc, value)?;
    Ok(Request::Hello { name, key })
}

/// A request to a table of a room.
fn table_request(alloc: Global, command: TableCommand, value: &Value) -> Result<Request, WireError>
    ensures found { Gives result (fielded (table_request_in command (view value.now))) }
    ensures range { IfOk result IsRequest }
{
    let room = room(value)?;
    let table = table(value)?;
    let number = request_number(value)?;
    let ask = ask(alloc, command, value)?;
    Ok(Request::Room {
        room,
        table,
        number,
        ask,
    })
}

/// What a command asks, or the first field that is missing or out of its range.
#[tactic(auto, unfolding(crate::specs::Fields::request_in))]
fn request(alloc: Global, command: Command, value: &Value) -> Result<Request, WireError>
    ensures found { Gives result (fielded (request_in command (view value.now))) }
    ensures range { IfOk result IsRequest }
{
    match command {
        Command::Hello => hello(alloc, value),
        Command::Look => Ok(Request::Look { room: room(value)? }),
        Command::Table(command) => table_request(alloc, command, value),
    }
}

/// The word of a message, and what follows the first space, if there is one.
fn split(text: &str) -> (&str, Option<&str>)
    ensures word { result.0.now ≡ word_of text.now }
    ensures rest { option_map (λ rest. rest.now) result.1 ≡ rest_of text.now }
{
    match text.split_once(' ') {
        Some((word, rest)) => (word, Some(rest)),
        None => (text, None),
    }
}

/// What a command asks with the JSON object that a text is.
fn said(alloc: Global, command: Command, text: &str) -> Result<Request, WireError>
    ensures found { Gives result (said_by command text.now) }
    ensures range { IfOk result IsRequest }
{
    match Value::from_str(alloc, text) {
        Ok(value) if value.is_object() => request(alloc, command, &value),
        Ok(_) => Err(WireError::Json),
        Err(e) if e.is_memory() => Err(WireError::NoMemory),
        Err(_) => Err(WireError::Json),
    }
}

/// What a message asks, or the first reason why it asks nothing: `TooLong`, and then the others in
/// the order of [`WireError`]. If memory runs out it answers `NoMemory`.
///
/// A message above [`MESSAGE_LIMIT`] is refused by its length alone. Any other is gone over once.
/// Its JSON makes at most one value for each two bytes, and the reader refuses the 128th list or
/// object round each other, so time, memory and the depth of calls are bounded by the length alone,
/// whatever the nesting.
#[tactic(auto, unfolding(crate::specs::Parsed::parsed))]
pub fn parse(alloc: Global, text: &str) -> Result<Request, WireError>
    ensures asks { Gives result (parsed text.now) }
    ensures range { IfOk result IsRequest }
{
    if text.len() > MESSAGE_LIMIT {
        return Err(WireError::TooLong);
    }
    let (word, rest) = split(text);
    if word.is_empty() {
        return Err(WireError::NoCommand);
    }
    let command = Command::with_word(word).ok_or(WireError::UnknownCommand)?;
    let rest = rest.ok_or(WireError::Json)?;
    said(alloc, command, rest)
}
