//! What can be read of a game off what a blind set has observed of it?
//!
//! A blind set observes the events of a game without the identities that its seats are dealt or
//! draw. `specs/SeenSetup.antt` reads a setup off these events, with no card at the orders that
//! they do not show. The laws say that the definitions of the rules give on that setup what they
//! give on the game's own: how the game stands after each number of acts, which cards a clue to a
//! seen hand touches, and which rule an act breaks. So who answers a seat from what that seat may
//! see answers as the game does, and no hidden card comes in.
//!
//! There is no code here, and nothing to call: each law is a function with an empty body, and what
//! is proved is its contract.
#![tactic(auto)]

mod laws;

pub use laws::{pieces_are_seen, rules_are_seen, standing_is_seen};
