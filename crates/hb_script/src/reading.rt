//! Which script is a text?

ghost use Rattle.std.specs.Prelude.{◌≡◌, ◌≤◌, ◌+◌, drop, length, All, IfErr, IfOk, Ok, Some};
ghost use Rattle.hb_talk.specs.Scripts.{HasConnection};
ghost use Rattle.hb_script.specs.ScriptGrammar.{IsUnread, behind_seed, script_of};
ghost use Rattle.hb_script.specs.ScriptLines.{lines_of};
ghost use Rattle.hb_script.specs.ScriptReading.{IsUnreadAs};

use crate::fields::place;
use crate::heads::{deck, seed};
use crate::scripts::{Script, ScriptError};
use crate::texts::further;
use hb_club::Shoe;
use std::alloc::Global;

/// What stands behind a line that ends at this place.
fn after(text: &[u8], end: usize) -> &[u8]
    requires { end ≤ length text.now }
    ensures { result.now ≡ drop (end + 1) text.now }
{
    if end == text.len() {
        &text[end..]
    } else {
        &text[end + 1..]
    }
}

/// The script of a seed and of what stands behind its line.
fn behind(alloc: Global, seed: [u8; 32], rest: &[u8]) -> Result<Script, ScriptError>
    ensures ok { IfOk result (λ script. behind_seed (Some seed) (lines_of rest.now) ≡ Ok script) }
    ensures conns { IfOk result (λ script. All HasConnection script.lines) }
    ensures err { IfErr result (IsUnreadAs (behind_seed (Some seed) (lines_of rest.now))) }
{
    let end = place(rest, b'\n');
    match deck(alloc, &rest[..end]) {
        Err(_) => Err(ScriptError::NoMemory),
        Ok(None) => match further(alloc, rest, 2) {
            Ok(lines) => Ok(Script {
                shoe: Shoe {
                    seed,
                    written: None,
                },
                lines,
            }),
            Err(e) => Err(e),
        },
        Ok(Some(cards)) => {
            let next = after(rest, end);
            match further(alloc, next, 3) {
                Ok(lines) => Ok(Script {
                    shoe: Shoe {
                        seed,
                        written: Some(cards),
                    },
                    lines,
                }),
                Err(e) => Err(e),
            }
        }
    }
}

/// The script that a text is. Its lines name connections from 1 to
/// [`MOST_CONNECTION`](hb_talk::MOST_CONNECTION) alone.
///
/// `Line(n)` if the line with the number `n`, from 1, is the first outside the grammar: line 1 is
/// `seed ` and 64 hexadecimal digits in lower case; line 2 may be `deck ` and 25 to 60 identities,
/// each a letter a to f and a digit 1 to 5; each further line is `MOMENT clerk`, `MOMENT CONN ~` or
/// `MOMENT CONN MESSAGE`, with a moment of at most 2^53 milliseconds, a connection from 1 to 256,
/// both without leading zeros, and a message in UTF-8 that is not empty. A text of no bytes is
/// outside the grammar at line 1. `NoMemory` if memory runs out.
pub fn read_script(alloc: Global, text: &[u8]) -> Result<Script, ScriptError>
    ensures ok { IfOk result (λ script. script_of text.now ≡ Ok script) }
    ensures conns { IfOk result (λ script. All HasConnection script.lines) }
    ensures err { IfErr result (IsUnread text.now) }
{
    let end = place(text, b'\n');
    let seed = match seed(&text[..end]) {
        None => return Err(ScriptError::Line(1)),
        Some(seed) => seed,
    };
    let next = after(text, end);
    match behind(alloc, seed, next) {
        Ok(script) => Ok(script),
        Err(e) => Err(e),
    }
}
