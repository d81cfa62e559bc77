//! Tests of the crates that know no game: reading and writing, matching, timers and turnstiles,
//! each with values from outside the program.
#![tactic(auto)]

#[cfg(test)]
mod io;
#[cfg(test)]
mod matching;
#[cfg(test)]
mod timer;
#[cfg(test)]
mod turnstile;
