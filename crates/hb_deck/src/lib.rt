//! Decks: which lists of cards are a deck of a variant, and the deck that a seed gives.
//!
//! `is_deck` is true exactly if each identity stands in the list as often as the variant has
//! copies of it, and so nothing else does. `shuffled` gives a deck that depends on the variant, the
//! seed and the stream alone: the list that the clauses of `rand` and `rand_chacha` name, proved to
//! be a deck of the variant. How well it is mixed is not said.
#![tactic(auto)]

mod cards;
mod decks;
mod shuffles;

pub use cards::all_cards;
pub use decks::{Deck, is_deck};
pub use hb_rules::{Identity, Variant};
pub use shuffles::shuffled;
