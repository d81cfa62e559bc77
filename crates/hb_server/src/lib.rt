//! The server: what `serve` does with its words, its door, its threads, its clock, its dice, its
//! error output and its keeper.
//!
//! [`serve`] begins a run of the keeper, takes a seed from the dice, and opens a house of so many
//! rooms. Then it serves all links of the door in it, until the door is closed, and says on the
//! error output how it ended.
//!
//! Its contract says what it did (`specs/Deeds`), by how it ended, and what it then wrote and
//! answered (`specs/Ends`). `Houses` has how a house is opened, or why it is not, and `Counters`
//! what the counts of the door, of the spawner and of the keeper say of what came of the links.
//! Whom it served, and with what, is said by `Serving` of hb_serve, from no events on.
#![tactic(auto)]

mod ends;
mod houses;
mod serves;
mod works;

pub use ends::Unserved;
pub use serves::serve;
