//! Which command do the words of the command line ask for?

ghost use Rattle.std.specs.Prelude.{IfNone, IfOk, IfSome};
ghost use Rattle.hb_words.specs.Commands.{IsCommand, texts_of};
ghost use Rattle.hb_words.specs.declared.commands.Command.{Command as TheCommand};

use crate::asked::asked;
use crate::commands::Command;
use crate::parser::parts;
use std::alloc::{AllocError, Global};

/// The command that the words, without the program's name, ask for; none if they are outside the
/// grammar. `AllocError` says that memory ran out, which may be whatever the words are.
pub fn command(alloc: Global, words: &[&str]) -> Result<Option<Command>, AllocError>
    ensures found { IfOk result (λ answer. IfSome answer (IsCommand (texts_of words.now))) }
    ensures none { IfOk result (λ answer.
        IfNone answer ((c : TheCommand) → IsCommand (texts_of words.now) c → ⊥)) }
{
    match parts(alloc, words)? {
        Some(parts) => asked(alloc, &parts),
        None => Ok(None),
    }
}
