//! Tests of clocks, dice, links, doors and spawners, in memory and over a WebSocket, each with
//! calls that fail.
#![tactic(auto)]

#[cfg(test)]
mod memory;
#[cfg(test)]
mod spawners;
#[cfg(test)]
mod web;
