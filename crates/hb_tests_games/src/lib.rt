//! Tests of games by their calls: cards and clues, acts, events, identity sets, reviews, each with
//! values from outside the program, and the callers that the heads of crates show.
#![tactic(auto)]

#[cfg(test)]
mod callers;
#[cfg(test)]
mod cards;
#[cfg(test)]
mod empathy;
#[cfg(test)]
mod events;
#[cfg(test)]
mod games;
#[cfg(test)]
mod review;
#[cfg(test)]
mod turns;
