//! What does a room read of the game of its table, and how does it take an act?

ghost use Rattle.std.specs.Prelude.{◌≡◌};
ghost use Rattle.hb_club.specs.CommandKinds as kinds;
ghost use Rattle.hb_playing.specs.Games.{acted_by, cards_by, ended_by, players_by, rule_by};

use hb_club::Command;
use hb_rules::{Act, Action, EndHow, Rule};
use hb_turns::Game;

/// Whether there is a game, and it has ended.
pub fn is_ended(game: &Option<Game>) -> bool
    ensures { result ≡ ended_by game.now }
{
    match game {
        Some(game) => game.ended().is_some(),
        None => false,
    }
}

/// The number of cards in the deck; 0 if there is no game.
pub fn card_count(game: &Option<Game>) -> usize
    ensures { result ≡ cards_by game.now }
{
    match game {
        Some(game) => game.deck().len(),
        None => 0,
    }
}

/// The number of players; 0 if there is no game.
pub fn player_count(game: &Option<Game>) -> u8
    ensures { result ≡ players_by game.now }
{
    match game {
        Some(game) => game.players(),
        None => 0,
    }
}

/// The first rule of the game that an action of a seat breaks; none if there is no game or no
/// action.
pub fn broken(game: &Option<Game>, seat: u8, action: Option<Action>) -> Option<Rule>
    ensures { result ≡ rule_by game.now seat action }
{
    match game {
        Some(game) => match action {
            Some(action) => game.broken(seat, action),
            None => None,
        },
        None => None,
    }
}

/// The action of the game that a command asks for.
pub fn asked_action(c: &Command) -> Option<Action>
    ensures { result ≡ kinds.asked_action c.now }
{
    match c {
        Command::Act { action } => Some(*action),
        Command::Terminate => Some(Action::End {
            how: EndHow::Terminated,
        }),
        _ => None,
    }
}

/// Takes an act, if there is a game and the act breaks no rule of it.
pub fn take(game: &mut Option<Game>, act: Act)
    ensures { game.new ≡ acted_by act game.old }
{
    if let Some(game) = game {
        let _ = game.act(act.who, act.action);
    }
}
