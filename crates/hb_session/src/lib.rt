//! What does a session do that is held on a link?
//!
//! [`session`] takes turns: for each answer of a [`Link`](hb_edge::Link) it reads the clock once,
//! has a [`Desk`](hb_desk::Desk) take the turn over a [`Hall`](hb_house::Hall), and sends what the
//! turn says. [`hold`] does so to the end of a link that it is handed, and gives back the hall and
//! what stays of the link.
//!
//! `specs/Conversations.antt` says what the turns of a session are and what they say, and
//! `specs/Ends.antt` what was exchanged on the link, by how the session ended. Both are said over
//! any hall, link and clock; of a link that does not tell what it gave and was sent, and of a clock
//! that does not tell its moments, the clauses say the less.
#![tactic(auto)]

mod ends;
mod holds;
mod sessions;
mod turns;

pub use ends::End;
pub use holds::{Held, SESSION_BUDGET, hold};
pub use sessions::session;
