//! Games for the tests: which cards a text stands for, and how a game stands after given acts.

use hb_rules::{Action, Clue, EndHow, Identity, Options};
use hb_suits::variant;
use hb_turns::Game;
use std::test::Fail;

/// The cards of five suits in order: seat 0 of two is dealt a1 a1 a1 a2 a2, orders 0 to 4, and seat
/// 1 a3 a3 a4 a4 a5, orders 5 to 9. Then b1 b1 b1 b2 b2 are drawn.
pub const IN_ORDER: &str = "a1a1a1a2a2a3a3a4a4a5b1b1b1b2b2b3b3b4b4b5c1c1c1c2c2c3c3c4c4c5\
     d1d1d1d2d2d3d3d4d4d5e1e1e1e2e2e3e3e4e4e5";

pub fn play(order: u8) -> Action {
    Action::Play { order }
}

pub fn discard(order: u8) -> Action {
    Action::Discard { order }
}

pub fn rank(to: u8, rank: u8) -> Action {
    let clue = Clue::Rank(rank);
    Action::Clue { to, clue }
}

pub fn color(to: u8, color: u8) -> Action {
    let clue = Clue::Color(color);
    Action::Clue { to, clue }
}

pub fn end(how: EndHow) -> Action {
    Action::End { how }
}

/// The cards of a text, in which each is the letter `a` to `f` of its suit's index and its rank.
pub fn cards(rt: &HostRuntime, text: &str) -> Result<Vec<Identity>, Fail> {
    let mut cards = Vec::new(rt.alloc());
    for card in text.as_bytes().chunks(2) {
        cards.push(Identity {
            suit: card.first().copied().unwrap_or(0).wrapping_sub(b'a'),
            rank: card.last().copied().unwrap_or(0).wrapping_sub(b'0'),
        })?;
    }
    Ok(cards)
}

/// A game of a variant with default options after these acts, each by the seat whose turn it is.
pub fn played(
    rt: &HostRuntime,
    name: &str,
    players: u8,
    deck: &str,
    acts: &[Action],
) -> Result<Game, Fail> {
    let deck = cards(rt, deck)?;
    let mut game = Game::start(
        &variant(name)?,
        &Options::default(),
        players,
        deck.as_slice(),
    )?;
    for action in acts {
        let who = game.seat();
        game.act(who, *action)?;
    }
    Ok(game)
}

/// A game of two players on the cards in order, after these acts.
pub fn in_order(rt: &HostRuntime, acts: &[Action]) -> Result<Game, Fail> {
    played(rt, "No Variant", 2, IN_ORDER, acts)
}
