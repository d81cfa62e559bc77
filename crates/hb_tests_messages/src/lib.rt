//! Tests of messages both ways: requests and lines, each with texts from outside the program.
#![tactic(auto)]

#[cfg(test)]
mod lines;
#[cfg(test)]
mod requests;
