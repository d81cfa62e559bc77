//! What does a room answer at each event, and what does it keep between events?
#![tactic(auto)]

mod accepting;
mod adding;
mod answers;
mod clerk;
mod entries;
mod lists;
mod moments;
mod openings;
mod readers;
mod room;
mod starts;
mod stepping;

pub use room::Room;
