//! Requests: what a connection may ask, and the messages that say it.
//!
//! A message is a command word, one space and a JSON object. `specs/Parsed.antt` says what a
//! message asks, or the first reason why it asks nothing, as a function of its bytes, and [`parse`]
//! answers exactly that. [`print_request`] makes the message of a request, and its contract says
//! that this message asks that request.
#![tactic(auto)]

mod asks;
mod commands;
mod errors;
mod fields;
mod limits;
mod parsing;
mod printing;
mod requests;

pub use errors::{FieldName, WireError};
pub use limits::{
    HIGHEST_COLOR, HIGHEST_ID, HIGHEST_ORDER, HIGHEST_SEAT, KEY_LIMIT, MESSAGE_LIMIT,
};
pub use parsing::parse;
pub use printing::print_request;
pub use requests::{Ask, Request, WireAction, WireClue};
