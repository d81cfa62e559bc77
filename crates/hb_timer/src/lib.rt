//! Banks of time for a game whose seats take turns.
//!
//! A [`Timer`] keeps a bank of milliseconds for each of two to six seats. The bank of the seat
//! whose turn it is runs down. The end of a turn adds a gain to it, up to [`BANK_LIMIT`], and the
//! turn goes to the next seat. Time can be paused and resumed, and stopped for good.
//! [`Timer::deadline`] is the moment at which the running bank is used up, and [`Timer::state`]
//! tells which calls a timer takes. The rules of time are this project's own.
//!
//! # What the contracts promise
//!
//! Contracts see a timer as a history: what it was made with, and the calls that it accepted since,
//! each with its moment. `specs/Banks.antt` defines banks and deadlines on that history alone. The
//! effective moment of a call is the greatest moment accepted up to it, so a moment below an
//! earlier one counts as that one. The own time of a turn is the sum of the intervals between calls
//! in which time ran in that turn, each from one effective moment to the next. A bank begins as the
//! base. The end of each own turn takes that turn's own time off it and adds the gain, up to the
//! limit. Within an own turn the bank is less by the own time so far, and at least 0.
//!
//! Proved for every history: each bank and each deadline is the one so defined, no bank is above
//! the limit, and the running bank is 0 from the deadline on and more than 0 before it.
//!
//! No call takes memory. The list of calls is there for contracts alone, and has no bytes.
#![tactic(auto)]

mod calls;
mod clock;
mod timer;
mod timing;

pub use timer::{Timer, TimerState};
pub use timing::{BANK_LIMIT, MOMENT_LIMIT, MOST_SEATS, TimerCall, Timing};
