//! Which command do the word of a command and its values ask for?

ghost use Rattle.std.specs.Prelude.{◌↔◌, ◌∷◌, [], codes, All, IfNone, IfOk, IfSome, IsTrue};
ghost use Rattle.hb_words.specs.Commands.{IsCommand, IsReplayCommand, IsStore};
ghost use Rattle.hb_words.specs.PartsOf.{parts_of};
ghost use Rattle.hb_words.specs.PlainWords.{IsPlain};
ghost use Rattle.hb_words.specs.declared.commands.Command.{Command as TheCommand};
ghost use Rattle.hb_words.specs.declared.commands.ReplayCommand.{ReplayCommand as TheReplayCommand};

use crate::commands::{Command, LAST_SEAT, MOST_STORE, MOST_TABLES, MOST_TURNS, ReplayCommand};
use crate::numbers::{number, number_up_to};
use crate::parts::{Parts, Values};
use hb_io::{Text, name};
use std::alloc::{AllocError, Global};

/// The command over a replay that the parts ask for, if they ask for one.
fn replay_command(parts: &Parts<'_>) -> Option<ReplayCommand>
    ensures found { IfSome result (IsReplayCommand (parts_of parts.now)) }
    ensures none { IfNone result ((c : TheReplayCommand)
        → IsReplayCommand (parts_of parts.now) c → ⊥) }
{
    match (parts.name, parts.values) {
        ("watch", Values::One(seat)) => Some(ReplayCommand::Watch {
            seat: number_up_to(seat, LAST_SEAT)?,
        }),
        ("look", Values::Two(seat, turn)) => Some(ReplayCommand::Look {
            seat: number_up_to(seat, LAST_SEAT)?,
            turn: number_up_to(turn, MOST_TURNS)?,
        }),
        ("check", Values::Zero) => Some(ReplayCommand::Check),
        ("copy", Values::Zero) => Some(ReplayCommand::Copy),
        _ => None,
    }
}

/// Whether a word that does not begin with `-` names a store.
pub(crate) fn is_store(word: &str) -> bool
    requires { IsPlain word.now }
    ensures { IsTrue result ↔ IsStore word.now }
{
    !word.is_empty() && word.len() <= MOST_STORE
}

/// The command `script` with this word, if the word is right.
fn script(alloc: Global, store: &str) -> Result<Option<Command>, AllocError>
    requires { IsPlain store.now }
    ensures found { IfOk result (λ answer.
        IfSome answer (IsCommand (codes "script" ∷ store.now ∷ []))) }
    ensures none { IfOk result (λ answer. IfNone answer ((c : TheCommand)
        → IsCommand (codes "script" ∷ store.now ∷ []) c → ⊥)) }
{
    if !is_store(store) {
        return Ok(None);
    }
    let store = Text::copy_of(alloc, store)?;
    Ok(Some(Command::Script { store }))
}

/// The command `games` with these two words, if they are right.
fn games(alloc: Global, store: &str, member: &str) -> Result<Option<Command>, AllocError>
    requires store { IsPlain store.now }
    requires member { IsPlain member.now }
    ensures found { IfOk result (λ answer.
        IfSome answer (IsCommand (codes "games" ∷ store.now ∷ member.now ∷ []))) }
    ensures none { IfOk result (λ answer. IfNone answer ((c : TheCommand)
        → IsCommand (codes "games" ∷ store.now ∷ member.now ∷ []) c → ⊥)) }
{
    let Some(name) = name(member) else {
        return Ok(None);
    };
    if !is_store(store) {
        return Ok(None);
    }
    let store = Text::copy_of(alloc, store)?;
    Ok(Some(Command::Games { store, name }))
}

/// The command `make` with these two words, if they are right.
fn make(tables: &str, seed: &str) -> Option<Command>
    ensures found { IfSome result (IsCommand (codes "make" ∷ tables.now ∷ seed.now ∷ [])) }
    ensures none { IfNone result ((c : TheCommand)
        → IsCommand (codes "make" ∷ tables.now ∷ seed.now ∷ []) c → ⊥) }
{
    let tables = number_up_to(tables, MOST_TABLES)?;
    if tables == 0 {
        return None;
    }
    let seed = number(seed)?;
    Some(Command::Make { tables, seed })
}

/// The command that the parts, none of which begins with `-`, ask for, if they ask for one.
pub(crate) fn asked(alloc: Global, parts: &Parts<'_>) -> Result<Option<Command>, AllocError>
    requires { All IsPlain (parts_of parts.now) }
    ensures found { IfOk result (λ answer. IfSome answer (IsCommand (parts_of parts.now))) }
    ensures none { IfOk result (λ answer.
        IfNone answer ((c : TheCommand) → IsCommand (parts_of parts.now) c → ⊥)) }
{
    match (parts.name, parts.values) {
        ("script", Values::One(store)) => script(alloc, store),
        ("games", Values::Two(store, member)) => games(alloc, store, member),
        ("make", Values::Two(tables, seed)) => Ok(make(tables, seed)),
        _ => Ok(replay_command(parts).map(Command::Replay)),
    }
}
