//! Which identities a card can have, as far as a blind set can tell: neither more nor fewer.
//!
//! A blind set is a set of seats whose hands are not seen. It observes the events of a game without
//! the identities that these seats are dealt or draw. An identity is possible for a card if some
//! full deck, played from the deal on by the same acts, gives the same observation and has that
//! identity at the card's order. `IsPossible` of `hb_rules` says so.
//!
//! The contracts promise, in the words of `specs/Exact.antt`:
//! - `identities` answers exactly the possible identities of a card in a hand, and `None` for every
//!   other order. The set holds the card's own identity, so it is never empty. A card that the
//!   blind set sees has its one identity, and so has every card after the end, when the whole deck
//!   is shown.
//! - `hand_sets` answers the same for each card of a hand. Bit `n` of a set stands for the identity
//!   with number `n`.
//! - `deals_are_choices` is a law: while the game runs, the decks that give an observation are the
//!   ways to choose identities for the hidden cards that meet each card's clues and use no identity
//!   beyond its copies.
//!
//! ```
//! /// How many cards of its own hand seat 1 can name.
//! fn named_cards(game: &Game) -> usize {
//!     let blind = Blind::none().with(1); // seat 1 does not see its own cards
//!     let sets = hand_sets(game, blind, 1);
//!     let cards = sets.as_slice().iter();
//!     cards.filter(|(_, set)| set.count_ones() == 1).count()
//! }
//! ```
//!
//! No contract except that of the law speaks of clues or copies. The code goes by the law: it takes
//! the marks that the clues have left on each hidden card and the copies that the blind set has not
//! seen, and asks one matching for all of them. For one card alone, marks and copies would leave
//! too much: of two cards that can only be c5 or d5, each of which has one copy left, every other
//! card learns that it is neither.
//!
//! The numbers of an exact set are also the list `possible` of `hb_rules`, by which lines that
//! print them are functions of what was seen. No call takes memory, and a hand takes one matching.
#![tactic(auto)]

mod hidden;
mod laws;
mod sets;

pub use hb_sight::Blind;
pub use hb_turns::{Game, Identity};
pub use laws::deals_are_choices;
pub use sets::{hand_sets, identities};
