//! Which command does a request ask a room?

use hb_club::Command;
use hb_request::{Ask, WireAction, WireClue};
use hb_rules::{Action, Clue, Options};

/// The command that is asked.
pub(crate) fn command(ask: Ask) -> Command {
    match ask {
        Ask::Open {
            variant: name,
            empty_clues,
            extra_card,
            less_card,
            timed,
            base_s,
            per_turn_s,
        } => Command::Open {
            name,
            options: Options {
                starting: 0,
                empty_clues,
                extra_card,
                less_card,
                timed,
                base_s,
                per_turn_s,
            },
        },
        Ask::Sit => Command::Sit,
        Ask::Rise => Command::Rise,
        Ask::Start => Command::Start,
        Ask::Play { order } => act(WireAction::Play { order }),
        Ask::Discard { order } => act(WireAction::Discard { order }),
        Ask::Clue { to, clue } => act(match clue {
            WireClue::Color(index) => WireAction::Color { to, index },
            WireClue::Rank(rank) => WireAction::Rank { to, rank },
        }),
        Ask::Note { order, text } => Command::Note { order, text },
        Ask::Pause => Command::Pause,
        Ask::Resume => Command::Resume,
        Ask::Terminate => Command::Terminate,
        Ask::Watch { shadow } => Command::Watch { shadow },
        Ask::Leave => Command::Leave,
        Ask::Load { id } => Command::Load { id },
        Ask::Go { turn } => Command::Go { turn },
        Ask::Hypo { action } => Command::Hypo {
            action: action_of(action),
        },
        Ask::Undo => Command::Undo,
        Ask::Close => Command::Close,
    }
}

fn act(action: WireAction) -> Command {
    Command::Act {
        action: action_of(action),
    }
}

fn action_of(asked: WireAction) -> Action {
    match asked {
        WireAction::Play { order } => Action::Play { order },
        WireAction::Discard { order } => Action::Discard { order },
        WireAction::Color { to, index } => Action::Clue {
            to,
            clue: Clue::Color(index),
        },
        WireAction::Rank { to, rank } => Action::Clue {
            to,
            clue: Clue::Rank(rank),
        },
    }
}
