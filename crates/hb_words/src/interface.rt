//! Which commands does the parser of command lines take, and how many values has each?

ghost use Rattle.std.specs.Prelude.{◌≡◌, IfOk};
ghost use Rattle.clap.specs.Words.{App, app_of, with_rule};
ghost use Rattle.hb_words.specs.Interface.{IsForm, all_commands, no_commands, value_rule};
ghost use Rattle.hb_words.specs.Interface.{with_one, with_two};

use clap::{Arg, Command};
use std::alloc::{AllocError, Global};

/// The id of a command's first value.
pub(crate) const FIRST: &str = "first";

/// The id of a command's second value.
pub(crate) const SECOND: &str = "second";

/// The command with one more value, which must be there.
fn with_value<'a>(
    alloc: Global,
    command: Command<'a>,
    id: &'a str,
) -> Result<Command<'a>, AllocError>
    ensures { (a : App) → IsForm a command.entry
        → IfOk result (IsForm (with_rule a (value_rule id.entry.now))) }
{
    command.arg(Arg::new(alloc, id).required(true))
}

/// A command of one value.
fn one<'a>(alloc: Global, name: &'a str) -> Result<Command<'a>, AllocError>
    ensures { IfOk result (IsForm (with_one name.entry.now)) }
{
    with_value(alloc, Command::new(alloc, name), FIRST)
}

/// A command of two values.
fn two<'a>(alloc: Global, name: &'a str) -> Result<Command<'a>, AllocError>
    ensures { IfOk result (IsForm (with_two name.entry.now)) }
{
    with_value(alloc, one(alloc, name)?, SECOND)
}

/// A program that wants the word of a command. It has no help, since neither words that begin with
/// `-` nor `help` ask for anything.
fn program<'a>(alloc: Global) -> Command<'a>
    ensures { app_of result ≡ no_commands }
{
    Command::new(alloc, "hanabi")
        .no_binary_name(true)
        .disable_help_flag(true)
        .disable_help_subcommand(true)
        .subcommand_required(true)
}

/// The program with all its commands.
pub(crate) fn interface<'a>(alloc: Global) -> Result<Command<'a>, AllocError>
    ensures { IfOk result (λ c. app_of c ≡ all_commands) }
{
    program(alloc)
        .subcommand(one(alloc, "watch")?)?
        .subcommand(two(alloc, "look")?)?
        .subcommand(Command::new(alloc, "check"))?
        .subcommand(Command::new(alloc, "copy"))?
        .subcommand(one(alloc, "script")?)?
        .subcommand(two(alloc, "games")?)?
        .subcommand(two(alloc, "make")?)
}
