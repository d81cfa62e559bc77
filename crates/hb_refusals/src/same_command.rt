//! Are two commands the same?

ghost use Rattle.std.specs.Prelude.{◌≡◌};
ghost use Rattle.hb_club.specs.SameCommand.{same_action, same_command, same_options};

use hb_club::Command;
use hb_rules::{Action, Options};

/// Whether two commands are the same, with all that they ask for.
// Written out, since `==` is not proved to be this over so many variants.
pub fn is_same_command(a: &Command, b: &Command) -> bool
    ensures { result ≡ same_command a.now b.now }
{
    match a {
        Command::Open { name, options } => match b {
            Command::Open {
                name: n,
                options: o,
            } => name == n && is_same_options(options, o),
            _ => false,
        },
        Command::Sit => matches!(b, Command::Sit),
        Command::Rise => matches!(b, Command::Rise),
        Command::Start => matches!(b, Command::Start),
        Command::Act { action } =>
            matches!(b, Command::Act { action: x } if is_same_action(*action, *x)),
        Command::Note { order, text } => match b {
            Command::Note { order: n, text: t } => order == n && text == t,
            _ => false,
        },
        Command::Pause => matches!(b, Command::Pause),
        Command::Resume => matches!(b, Command::Resume),
        Command::Terminate => matches!(b, Command::Terminate),
        Command::Watch { shadow } => matches!(b, Command::Watch { shadow: s } if s == shadow),
        Command::Leave => matches!(b, Command::Leave),
        Command::Load { id } => matches!(b, Command::Load { id: n } if n == id),
        Command::Go { turn } => matches!(b, Command::Go { turn: n } if n == turn),
        Command::Hypo { action } =>
            matches!(b, Command::Hypo { action: x } if is_same_action(*action, *x)),
        Command::Undo => matches!(b, Command::Undo),
        Command::Close => matches!(b, Command::Close),
        Command::Look => matches!(b, Command::Look),
    }
}

fn is_same_options(a: &Options, b: &Options) -> bool
    ensures { result ≡ same_options a.now b.now }
{
    a.starting == b.starting
        && a.empty_clues == b.empty_clues
        && a.extra_card == b.extra_card
        && a.less_card == b.less_card
        && a.timed == b.timed
        && a.base_s == b.base_s
        && a.per_turn_s == b.per_turn_s
}

fn is_same_action(a: Action, b: Action) -> bool
    ensures { result ≡ same_action a b }
{
    a == b
}
