//! Which command does a request ask for?

ghost use Rattle.std.specs.Prelude.{◌≡◌};
ghost use Rattle.hb_request.specs.Printed.{game_action};
ghost use Rattle.hb_talk.specs.Errands.{command_of, game_clue};

use hb_club::Command;
use hb_request::{Ask, WireAction, WireClue};
use hb_rules::{Action, Clue, Options};

fn clue_of(given: WireClue) -> Clue
    ensures { result ≡ game_clue given }
{
    match given {
        WireClue::Color(index) => Clue::Color(index),
        WireClue::Rank(rank) => Clue::Rank(rank),
    }
}

fn action_of(asked: WireAction) -> Action
    ensures { result ≡ game_action asked }
{
    match asked {
        WireAction::Play { order } => Action::Play { order },
        WireAction::Discard { order } => Action::Discard { order },
        WireAction::Color { to, index } => Action::Clue {
            to,
            clue: Clue::Color(index),
        },
        WireAction::Rank { to, rank } => Action::Clue {
            to,
            clue: Clue::Rank(rank),
        },
    }
}

/// An act of the game.
fn act(action: Action) -> Command
    ensures { result ≡ Command.Act action }
{
    Command::Act { action }
}

/// The command that is asked for.
pub(crate) fn command(ask: Ask) -> Command
    ensures { result ≡ command_of ask }
{
    match ask {
        Ask::Open {
            variant: name,
            empty_clues,
            extra_card,
            less_card,
            timed,
            base_s,
            per_turn_s,
        } => {
            let options = Options {
                starting: 0,
                empty_clues,
                extra_card,
                less_card,
                timed,
                base_s,
                per_turn_s,
            };
            Command::Open { name, options }
        }
        Ask::Sit => Command::Sit,
        Ask::Rise => Command::Rise,
        Ask::Start => Command::Start,
        Ask::Play { order } => act(Action::Play { order }),
        Ask::Discard { order } => act(Action::Discard { order }),
        Ask::Clue { to, clue } => {
            let clue = clue_of(clue);
            act(Action::Clue { to, clue })
        }
        Ask::Note { order, text } => Command::Note { order, text },
        Ask::Pause => Command::Pause,
        Ask::Resume => Command::Resume,
        Ask::Terminate => Command::Terminate,
        Ask::Watch { shadow } => Command::Watch { shadow },
        Ask::Leave => Command::Leave,
        Ask::Load { id } => Command::Load { id },
        Ask::Go { turn } => Command::Go { turn },
        Ask::Hypo { action } => {
            let action = action_of(action);
            Command::Hypo { action }
        }
        Ask::Undo => Command::Undo,
        Ask::Close => Command::Close,
    }
}
