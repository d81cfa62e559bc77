//! Suits, the cards of a variant, and variants by their names.
//!
//! A variant is three to six suits in order, and perhaps a special rank; every value of the type
//! `Variant` is one. This crate says what a variant has: its suits and clue colours, how many
//! copies there are of an identity, how many cards the deck has, and the set of its identities.
//! `variant` finds a variant by its name, or says why there is none.
//!
//! Each contract gives the exact result, by the definitions of `hb_rules` and by those in `specs/`:
//! `Variants` (the variant that a list of suits makes) and `VariantNames` (the listed names, and
//! those that are spelled by their suits). No call takes memory.
#![tactic(auto)]

mod cards;
mod names;
mod numbers;
mod suits;
mod variants;

pub use cards::{copies, deck_size, identities, in_range};
pub use hb_rules::{Identity, Kind, Special, Suit, Variant};
pub use names::{VariantError, variant};
pub use numbers::{identity, number};
pub use suits::{color_suits, colors, kind_of, suit_at, suit_count};
