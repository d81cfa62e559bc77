//! Which refusal is the first that holds, by the facts at hand, and which reply is kept?
//!
//! `hb_club` defines the reply to an entry as the first row that holds of a table of refusals, read
//! off the items of a table and the member's own entries there. Here the rows are read off
//! [`Facts`], which cost the same however long a table goes on, and [`KeptReplies`] has the reply
//! of each number by a look-up.
//!
//! # What the contracts promise
//!
//! [`first_reply`] answers the first row that holds of the rows on facts (`specs/FactRows.antt`),
//! in the groups and the order of `hb_club`. That these rows are those of the table of refusals,
//! on the facts that a table shows of a member (`specs/Facts.antt`), is the law
//! [`rows_are_the_table`].
//!
//! [`KeptReplies`] is seen by its look-ups alone: the kept reply of each member's number, and for
//! how many numbers of a member a reply is kept. That [`KeptReplies::keep`] moves both as one more
//! own entry moves what `hb_club` says is kept is the law [`replies_stand_for_entries`].
#![tactic(auto)]

mod command_kinds;
mod facts;
mod kept_replies;
mod laws;
mod rows;
mod same_command;

pub use command_kinds::{is_look, is_open, is_review_step, is_start, opens_next};
pub use facts::Facts;
pub use kept_replies::{KeptReplies, KeptReply};
pub use laws::{replies_stand_for_entries, rows_are_the_table};
pub use rows::first_reply;
pub use same_command::is_same_command;
