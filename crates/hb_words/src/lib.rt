//! Which command, or which server, do the words of the command line ask for?
//!
//! [`command()`] reads the words. Its contract is exact: it answers the one command for which the
//! words are right, or that there is none. [`Command::store`] says in which store of kept games the
//! command works, if it works in one. [`words_ask_for_one`] is the law that words ask for at most
//! one command.
//!
//! The words of `serve` are read apart by [`server_command`], as exactly: a server is no
//! [`Command`]. [`words_ask_for_one_server`] is the law that words ask for at most one, and then
//! for no command.
#![tactic(auto)]

mod asked;
mod commands;
mod interface;
mod laws;
mod numbers;
mod parser;
mod parts;
mod servers;
mod words;

pub use commands::{Command, ReplayCommand, Store};
pub use laws::{words_ask_for_one, words_ask_for_one_server};
pub use servers::{MOST_ADDRESS, MOST_SERVED_ROOMS, ServerCommand, server_command};
pub use words::command;
