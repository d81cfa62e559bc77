//! The rules of Hanabi: the plain types that they speak of, and the definitions that every contract
//! above cites.
//!
//! There is little code here: the limits, the default options, and the numbers by which ends and
//! rules are written. `specs/` holds the definitions, which docs/READING.md lists in the order in
//! which a reader needs them, and worked games that are computed on them. `Deals` is their aim:
//! which identities an observation leaves possible, as a relation and as a list.
//! [`possible_are_listed`] is the law that the list is that of the relation, and
//! [`heights_count_plays`] says what a height counts. `proofs/` holds the laws of these definitions
//! that several crates use.
#![tactic(auto)]

pub mod acts;
pub mod events;
mod laws;
pub mod limits;
pub mod setups;
pub mod suits;
pub mod variants;

pub use acts::{Act, Action, Clue, EndHow, Options, Rule, StartError};
pub use events::Event;
pub use laws::{heights_count_plays, possible_are_listed};
pub use limits::{
    DEFAULT_BASE_SECONDS, DEFAULT_TURN_SECONDS, FEWEST_CARDS, FEWEST_PLAYERS, FEWEST_SUITS,
    FULL_TOKENS, HIGHEST_RANK, IDENTITIES, MOST_ACTS, MOST_CARDS, MOST_HAND, MOST_PLAYERS,
    MOST_SECONDS, MOST_SUITS, STRIKES_TO_LOSE,
};
pub use setups::Setup;
pub use suits::{Identity, Kind, Special, Suit};
pub use variants::Variant;
