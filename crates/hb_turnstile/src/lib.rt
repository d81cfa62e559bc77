//! A turnstile: a machine that threads call one at a time, in the order in which they drew tickets.
//!
//! Who wants to call holds a [`Pass`]. The first comes from [`Turnstile::new`], each further one
//! from [`Turnstile::split`], and [`Turnstile::join`] takes one in again. A pass takes no bytes and
//! may go to another thread. [`Turnstile::call`] draws a ticket, waits until that ticket is served,
//! lets the machine take its turn, and serves the next ticket. It is the only public function that
//! may wait, and so the only one that asks for `Wait`.
//!
//! The contracts speak of one history: the list of all calls, each with its reply and the number of
//! its pass, in the order in which the machine took them. It is legal, which is to say that the
//! machine at the start may answer each call so, one after another. Each pass has seen a beginning
//! of it. A call that is answered:
//!
//! - stands at the end of what the pass has seen then, which begins with all that the pass had seen
//!   before;
//! - is answered as the machine answers at that place;
//! - is one more of the pass's own calls, which stand in what it has seen each once and in their
//!   order.
//!
//! A pass that was split off has seen as much as the pass that it comes from. After a join the pass
//! that stays has seen the longer of the two lists, and the shorter is a beginning of it.
//!
//! A turnstile gives [`MOST_TICKETS`] tickets. A call that finds all of them given is refused as
//! [`Worn`]: it never reaches the machine, and marks its pass.
//!
//! No contract says that a call returns, how long it waits, or which of two calls comes first where
//! neither pass had seen the other's.
//!
//! `specs/` has the definitions: `History` (entries, and when a history is legal), `Known` (what a
//! pass knows, and what each function does to it), and, for the proofs alone, `Rule` (what holds
//! between two atomic steps, and what each step tells the pass that takes it).
#![tactic(auto)]

mod machine;
mod plays;
mod steps;
mod turnstile;
mod view;

pub use machine::Machine;
pub use turnstile::{MOST_TICKETS, NoMemory, Pass, Turnstile, Worn};
pub use view::Entry;
