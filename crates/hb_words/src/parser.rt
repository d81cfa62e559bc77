//! Which parts does the parser of command lines find in the words?

ghost use Rattle.std.specs.Prelude.{◌≡◌, ◌↔◌, [], ◌∷◌, ◌++◌, List, Some, All, IfNone, IfOk, IfSome, IsSomeAnd, IsTrue};
ghost use Rattle.clap.specs.Words.{Row, Text, fault_of, subcommand_rows_of};
ghost use Rattle.hb_words.specs.Commands.{IsCommand, texts_of};
ghost use Rattle.hb_words.specs.Interface.{IsTaken, all_commands, row_texts};
ghost use Rattle.hb_words.specs.PartsOf.{parts_of, texts_in, values_of};
ghost use Rattle.hb_words.specs.PlainWords.{IsPlain};
ghost use Rattle.hb_words.specs.declared.commands.Command.{Command as TheCommand};

use crate::interface::{FIRST, SECOND, interface};
use crate::parts::{Parts, Values};
use clap::ArgMatches;
use clap::error::ErrorKind;
use std::alloc::{AllocError, Global};

/// Whether a word does not begin with `-`.
pub(crate) fn is_plain(word: &str) -> bool
    ensures { IsTrue result ↔ IsPlain word.now }
{
    word.as_bytes().first() != Some(&b'-')
}

/// Whether no word begins with `-`.
fn are_plain(words: &[&str]) -> bool
    ensures { IsTrue result ↔ All (λ word. IsPlain word.now) words.now }
{
    words.iter().all(|word| is_plain(word))
}

/// What the parser makes of the words; none if it refuses them for another cause than memory.
fn parsed<'a>(alloc: Global, words: &'a [&'a str]) -> Result<Option<ArgMatches<'a>>, AllocError>
    ensures taken { IfOk result (λ answer. IfSome answer (IsTaken (texts_of words.entry.now))) }
    ensures refused { IfOk result (λ answer. IfNone answer
        (fault_of all_commands (texts_of words.entry.now) ≡ [] → ⊥)) }
{
    match interface(alloc)?.try_get_matches_from(words) {
        Ok(matches) => Ok(Some(matches)),
        Err(error) if error.kind() == ErrorKind::OutOfMemory => Err(AllocError),
        Err(_) => Ok(None),
    }
}

/// The values that are there, in their order.
fn values<'a>(first: Option<&'a str>, second: Option<&'a str>) -> Values<'a>
    ensures { values_of result ≡ texts_in first.entry ++ texts_in second.entry }
{
    match (first, second) {
        (Some(first), Some(second)) => Values::Two(first, second),
        (Some(only), None) | (None, Some(only)) => Values::One(only),
        (None, None) => Values::Zero,
    }
}

/// The parts that were met: the word of the command and its values.
fn parts_met<'a>(matches: &ArgMatches<'a>) -> Option<Parts<'a>>
    ensures { (name : Text) (rows : List Row) → subcommand_rows_of matches.now ≡ Some (name, rows)
        → IsSomeAnd result (λ parts. parts_of parts ≡ name ∷ row_texts rows) }
{
    let (name, found) = matches.subcommand()?;
    let values = values(found.get_str(FIRST), found.get_str(SECOND));
    Some(Parts { name, values })
}

/// The parts of the words, none of which begins with `-`; none if the words ask for no command.
pub(crate) fn parts<'a>(
    alloc: Global,
    words: &'a [&'a str],
) -> Result<Option<Parts<'a>>, AllocError>
    ensures found { IfOk result (λ answer.
        IfSome answer (λ parts. texts_of words.entry.now ≡ parts_of parts)) }
    ensures plain { IfOk result (λ answer. IfSome answer (λ parts. All IsPlain (parts_of parts))) }
    ensures none { IfOk result (λ answer.
        IfNone answer ((c : TheCommand) → IsCommand (texts_of words.entry.now) c → ⊥)) }
{
    if !are_plain(words) {
        return Ok(None);
    }
    let Some(matches) = parsed(alloc, words)? else {
        return Ok(None);
    };
    Ok(parts_met(&matches))
}
