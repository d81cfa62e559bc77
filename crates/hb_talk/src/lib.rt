//! What is said on connections: what a message asks of a hall, and what a session is sent at its
//! turns.
//!
//! Hardly any code is here. The definitions in `specs/` say each text as a function of what was
//! heard: of the lobby's reply, or of the room's answer and of what the session's member may
//! observe. No deck is among their arguments: `specs/Streams.antt` says which texts are written of
//! a view, `specs/Turns.antt` what a session writes at a turn.
#![tactic(auto)]

mod errands;
mod laws;
mod scripts;
mod sessions;

pub use errands::{Denial, Errand};
pub use laws::turns_see_the_view;
pub use scripts::{MOST_CONNECTION, ScriptLine};
pub use sessions::{Marks, Next, Session, TurnError};
