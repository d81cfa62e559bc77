//! Who answers members, and who keeps their games? What a hall of rooms is, the hall that nobody
//! else calls, the lobby, and the clerk who moves games between rooms and a keeper.
//!
//! A hall keeps no list of what happened. It stands for such lists, one for each room and one for
//! the lobby, and the contract of each of its calls says for which longer lists it stands then and
//! what it answers there. So does the contract of [`clerk`], for all that the clerk asks and notes
//! in one call.
#![tactic(auto)]

mod clerks;
mod halls;
mod laws;
mod lobby;
mod machines;
mod plain;
mod reports;
mod rooms;
mod rounds;

pub use clerks::clerk;
pub use halls::Hall;
pub use laws::{differs_only, due_are_saved, kept_once, notes_add, used_up_only};
pub use lobby::Lobby;
pub use machines::RoomMachine;
pub use plain::{MOST_ROOMS, PlainHall};
pub use reports::{ClerkError, Report};
