//! How are finished games kept? What a keeper of games contains and answers, and one in memory.
//!
//! A [`Keeper`] keeps the number of the server's last run, and games under keys. Each game that it
//! keeps gets an id, the next number from 1. A game is put once: under a kept key nothing is added,
//! and the answer is the kept id. So a caller that met a fault puts the same game again under the
//! same key.
//!
//! # What the contracts promise
//!
//! A keeper may tell its content: the number of the last run, and the list of keys with their
//! games. `specs/KeptGames.antt` defines each call as a function from a content to an answer and
//! the content that the call leaves. If a keeper tells its content, each call answers and does
//! that, or it answers [`KeepError::NoMemory`] and does nothing, or it answers [`KeepError::Fault`]
//! and does all of it or nothing. This holds as long as the keeper is sure of what it keeps, as one
//! in memory always is. A fault is answered only if the keeper's count of faults rose.
//!
//! [`KeeperMemory`] tells its content, and fails exactly at the calls that its maker names: before
//! its work, which is then not done, or after it. It finds a game by its key, by its id and by a
//! player's name without a walk over all games.
#![tactic(auto)]

mod errors;
mod fails;
mod keeper;
mod kept;
mod listing;
mod memory;
mod rows;

pub use errors::KeepError;
pub use fails::{Fails, When};
pub use keeper::Keeper;
pub use memory::KeeperMemory;
pub use rows::{GameRow, Key, Line, Lines, Names};
