//! What does a session do at a turn? It reads what came, calls the lobby or a room, and writes the
//! reply and what is new of the room.
//!
//! A [`Desk`] serves one connection, over any [`Hall`](hb_house::Hall). Between its turns it keeps
//! the name that was bound, the room that is followed, and how far the items of that room were
//! written. `specs/Desks.antt` says when this fits the lists for which the hall stands; a new desk
//! fits any lists, and each turn leaves the desk so that it fits. What a turn writes is said by the
//! definitions of `hb_talk`.
#![tactic(auto)]

mod answers;
mod commands;
mod desks;
mod errands;
mod replies;
mod streams;

pub use desks::Desk;
