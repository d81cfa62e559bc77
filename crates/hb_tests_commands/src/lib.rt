//! Tests of whole replays and commands: each call that takes memory once on its happy path, and
//! what faults of streams leave. The worked examples of whole commands are cases of the program
//! (`cases/`).
#![tactic(auto)]

#[cfg(test)]
mod commands;
#[cfg(test)]
mod replays;
