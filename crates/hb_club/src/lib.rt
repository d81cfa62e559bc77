//! What is a table, what may a member ask of it, and what does a member see of it? The words of the
//! club: what members ask of a room, what it replies, the public record of its tables, what the
//! clerk asks and notes, the lobby's words, and what a hall answers.
//!
//! There is no room here, only what rooms are by definition. The definitions in `specs/` say what a
//! room answers as a function of what it was made with and of the list of all that it was ever
//! asked: `answer_to` of `specs/Rooms.antt`. The reply to an entry is the first row that holds of a
//! table of refusals (`specs/TableRefusals.antt`); the facts that the rows read are read off the
//! items of the latest table (`specs/TableItems.antt`, `specs/Seating.antt`,
//! `specs/TableClock.antt`).
//!
//! `specs/Views.antt` says what a member may observe. [`answers_see_the_view`] is the law that each
//! reply is a function of that and of the member's own entries, and [`views_see_the_game`] that the
//! game, its clock and its review can be read off it as they stand.
#![tactic(auto)]

mod answers;
mod clerks;
mod commands;
mod items;
mod laws;
mod limits;
mod lobby;
mod replies;
mod shoes;

pub use answers::{Answered, HallError, Head, Seen};
pub use clerks::{ClerkNote, Noted, Todo};
pub use commands::{Command, Entry};
pub use items::{Item, Items, PLACES, Viewer, What};
pub use laws::{answers_see_the_view, items_only_grow, names_are_tested, views_see_the_game};
pub use limits::{KEPT_NUMBERS, MOST_KEPT_NUMBERS, MOST_NAMES, MOST_WATCHERS, NOTE_LIMIT};
pub use lobby::{LobbyEntry, LobbyReply};
pub use replies::{Refusal, Reply};
pub use shoes::Shoe;
