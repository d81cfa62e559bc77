//! The turn machine of Hanabi: a [`Game`] is a setup and the acts so far, and always a legal
//! history.
//!
//! Contracts see a game as its setup and its acts, the newest first, and say of each call which
//! definition of `hb_rules` it computes. [`Game::start`] answers a game exactly if the number of
//! players, the options and the deck allow one, and else the first condition that fails.
//! [`Game::act`] answers the first rule that the act breaks and changes nothing, or takes the act
//! and tells the order that was drawn and whether the game has ended. Each reader answers its
//! definition's value after the acts so far. So no state is promised beside the history: that what
//! a game keeps is that of its acts is the invariant of its type.
//!
//! No call takes memory. A game has room for every act that can still be legal.
//!
//! ```
//! /// The score after seat 0 has clued the 1s of seat 1, and seat 1 has played its oldest card.
//! fn first_score(variant: &Variant, deck: &[Identity]) -> Option<u8> {
//!     let mut game = Game::start(variant, &Options::default(), 2, deck).ok()?;
//!     let clue = Clue::Rank(1);
//!     game.act(0, Action::Clue { to: 1, clue }).ok()?;
//!     game.act(1, Action::Play { order: 5 }).ok()?;
//!     Some(game.score())
//! }
//! ```
#![tactic(auto)]

mod deals;
mod game;
mod masks;
mod table;

pub use game::{Game, Outcome, are_options, are_players};
pub use hb_rules::{
    Act, Action, Clue, EndHow, Identity, Kind, Options, Rule, Setup, Special, StartError, Suit,
    Variant,
};
