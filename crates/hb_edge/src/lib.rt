//! What does a server meet outside? A clock, dice, links to clients, a door that gives the links,
//! and a spawner that starts jobs.
//!
//! Each trait but [`Clock`] has a count of faults, which never falls. A call answers a fault only
//! if the count rose in that call, or stands at the largest `u64`, past which it is not kept. So
//! code that is generic over a link or a door cannot claim a fault that did not come, and its
//! contract can say whose fault it was.
//!
//! A clock may tell the moments that it will answer, dice their next seed, a [`Link`] what it gave
//! and was sent, a [`Door`] how many links it gave and which stubs were given back, and a
//! [`Spawner`] how many jobs it started and how many tasks were waited for. An object may stop
//! telling, and never begins to, so what is told at the end of a call was told all the way.
//!
//! The forms in memory ([`ClockMemory`], [`DiceMemory`], [`LinkMemory`], [`DoorMemory`]) tell it,
//! and fail at the calls that their maker lists. The adapters over the system ([`SystemClock`],
//! [`SystemDice`]) tell nothing of what they give, and [`ThreadSpawner`] tells its two numbers.
//!
//! `specs/` has the definitions: `Telling` (what is told before and after a call), `Counts` (what a
//! count says of an answer), `Talk` (what a link gave and was sent), `Memory` (what the forms in
//! memory hold) and `Spawning` (what a job promises).
#![tactic(auto)]

mod calls;
mod clock;
mod dice;
mod door;
mod link;
mod spawners;

pub use clock::{Clock, ClockMemory, SystemClock};
pub use dice::{Dice, DiceMemory, SEED_LEN, SystemDice};
pub use door::{Accepted, Door, DoorMemory};
pub use link::{Link, LinkError, LinkMemory};
pub use spawners::{Job, Ran, Refused, Spawner, Task, ThreadSpawner, start, wait};
