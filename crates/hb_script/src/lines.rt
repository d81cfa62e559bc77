//! What does a line say, behind those of the seed and the deck?

ghost use Rattle.std.specs.Prelude.{◌≡◌, IfOk, IfSome};
ghost use Rattle.hb_talk.specs.Scripts.{HasConnection};
ghost use Rattle.hb_script.specs.ScriptLines.{at_space, got_of, line_of, said_in};

use crate::fields::{number, place};
use hb_io::{Got, Text};
use hb_talk::{MOST_CONNECTION, ScriptLine};
use hb_timer::MOMENT_LIMIT;
use std::alloc::{AllocError, Global};

/// What a connection gives; none if that is outside the grammar.
fn got(alloc: Global, message: &[u8]) -> Result<Option<Got>, AllocError>
    ensures { IfOk result (λ got. got ≡ got_of message.now) }
{
    if message.is_empty() {
        return Ok(None);
    }
    if message == b"~".as_slice() {
        return Ok(Some(Got::Idle));
    }
    match str::from_utf8(message) {
        Ok(text) => match Text::copy_of(alloc, text) {
            Ok(copy) => Ok(Some(Got::Text(copy))),
            Err(e) => Err(e),
        },
        Err(_) => Ok(None),
    }
}

/// The line of a connection, behind its moment; none if that is outside the grammar.
fn said(alloc: Global, moment: u64, rest: &[u8]) -> Result<Option<ScriptLine>, AllocError>
    ensures is { IfOk result (λ line. line ≡ said_in moment (at_space rest.now)) }
    ensures conn { IfOk result (λ line. IfSome line HasConnection) }
{
    let at = place(rest, b' ');
    if at == rest.len() {
        return Ok(None);
    }
    let conn = match number(&rest[..at], MOST_CONNECTION as u64) {
        None => return Ok(None),
        Some(conn) => conn,
    };
    if conn == 0 {
        return Ok(None);
    }
    match got(alloc, &rest[at + 1..]) {
        Ok(Some(got)) => Ok(Some(ScriptLine::Says {
            moment,
            conn: conn as u32,
            got,
        })),
        Ok(None) => Ok(None),
        Err(e) => Err(e),
    }
}

/// What a line says; none if it is outside the grammar. The error comes only if memory is refused.
pub fn line(alloc: Global, text: &[u8]) -> Result<Option<ScriptLine>, AllocError>
    ensures is { IfOk result (λ line. line ≡ line_of text.now) }
    ensures conn { IfOk result (λ line. IfSome line HasConnection) }
{
    let at = place(text, b' ');
    if at == text.len() {
        return Ok(None);
    }
    let moment = match number(&text[..at], MOMENT_LIMIT) {
        None => return Ok(None),
        Some(moment) => moment,
    };
    let rest = &text[at + 1..];
    if rest == b"clerk".as_slice() {
        return Ok(Some(ScriptLine::Clerk { moment }));
    }
    match said(alloc, moment, rest) {
        Ok(line) => Ok(line),
        Err(e) => Err(e),
    }
}
