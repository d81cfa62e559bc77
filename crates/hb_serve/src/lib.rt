//! How are the links of a door served, all at once?
//!
//! [`serve_all`] accepts links until the door is closed. Each gets a session in a job of its own,
//! which a [`Spawner`](hb_edge::Spawner) starts, over a hall that is split off from the server's
//! own: a [`SharedHall`], as a hall behind turnstiles is. Behind each answer of the door the clerk
//! goes through the rooms. Once no more links are accepted the server waits for all sessions, joins
//! their halls into its own and gives the stubs of their links back to the door; then the clerk
//! goes through the rooms once more. [`Outcome::end`] says how the server ends.
//!
//! `specs/Serving.antt` says what was served: there are lists of the rooms and of the lobby, for
//! which the server's hall stands, over which all that the links tell is explained. It cites
//! `Explanations` (what the exchange on a link says of its session), `Clerking` (what a call of the
//! clerk did) and, of hb_session, what a session does. `Counting` has what the counts of the door
//! and of the spawner say, `Comings` how lists come on while others call, `Closings` whose word
//! ended the accepting, and `Verdicts` how a server ends.
//!
//! No clause says that a job runs or ends, or that two run at once.
#![tactic(auto)]

mod accepts;
mod jobs;
mod serving;
mod shared;
mod tends;
mod turn_halls;
mod verdicts;
mod waits;

pub use accepts::Closing;
pub use jobs::HoldJob;
pub use serving::{Outcome, serve_all};
pub use shared::SharedHall;
pub use verdicts::ServeEnd;
