//! What do the lines of a text say?

ghost use Rattle.std.specs.Prelude.{◌≡◌, ◌≤◌, All, IfErr, IfOk, Ok};
ghost use Rattle.hb_talk.specs.Scripts.{HasConnection};
ghost use Rattle.hb_script.specs.ScriptGrammar.{read_lines};
ghost use Rattle.hb_script.specs.ScriptLines.{lines_of};
ghost use Rattle.hb_script.specs.ScriptReading.{IsUnreadFrom};

use crate::fields::place;
use crate::lines::line;
use crate::scripts::ScriptError;
use hb_io::Sequence;
use hb_talk::ScriptLine;
use std::alloc::Global;

/// What the lines of a text say, of which the first has the number `first`.
pub fn further(
    alloc: Global,
    bytes: &[u8],
    first: usize,
) -> Result<Sequence<ScriptLine>, ScriptError>
    requires { first ≤ 3 }
    ensures ok { IfOk result (λ lines. read_lines first (lines_of bytes.now) ≡ Ok lines) }
    ensures conns { IfOk result (λ lines. All HasConnection lines) }
    ensures err { IfErr result (IsUnreadFrom first bytes.now) }
{
    let mut lines = Sequence::new(alloc);
    let mut number = first;
    let mut at = 0;
    while at < bytes.len() {
        let rest = &bytes[at..];
        let end = place(rest, b'\n');
        let said = match line(alloc, &rest[..end]) {
            Err(_) => return Err(ScriptError::NoMemory),
            Ok(None) => return Err(ScriptError::Line(number)),
            Ok(Some(said)) => said,
        };
        match lines.push(said) {
            Ok(()) => {}
            Err(_) => return Err(ScriptError::NoMemory),
        }
        at += end + 1;
        number += 1;
    }
    Ok(lines)
}
