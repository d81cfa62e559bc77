//! Who answers members from several threads at once? A hall whose rooms and lobby stand each behind
//! a turnstile of their own.
//!
//! Each thread calls a [`TurnHall`] of its own, and all halls of a house call the same rooms and
//! lobby. A call waits until its room or the lobby is free, and then takes one turn there. A hall
//! is [split](TurnHall::split) for each further thread, and [joined](TurnHall::join) again. A
//! [`TurnHouse`] says which halls are of one house.
//!
//! A hall stands for lists of events, as every hall does: for those that its own passes have seen,
//! except the calls for which a room had no memory. So what a hall says of its lists is true in
//! every schedule of the threads, and the lists of two halls of a house begin those of the hall
//! into which they are joined.
//!
//! `specs/` has the definitions: `Entrances` (a turnstile with a pass), `MachineTurns` (a room and
//! the lobby behind a turnstile), `TurnFronts` (for which lists a hall stands), `TurnReplies` (what
//! a hall answers) and `HouseHalls` (what is split off, and what is joined).
#![tactic(auto)]

mod answers;
mod copies;
mod entrances;
mod guarded;
mod halls;
mod houses;
mod places;

pub use entrances::Entrance;
pub use guarded::{GuardedLobby, GuardedRoom, LobbyTurn, RoomCall, RoomReply};
pub use halls::TurnHall;
pub use houses::TurnHouse;
