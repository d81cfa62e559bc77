//! How do clients reach a server over the network? Links over WebSocket, and the door on TCP that
//! gives them.
//!
//! A [`WsLink`] is a [`Link`](hb_edge::Link) over a WebSocket on any stream. A [`TcpDoor`] listens
//! at an address, greets each client, and gives a link to it. Both raise their count of faults at
//! each fault, and neither tells what was exchanged. What a receive answers to each message and
//! each error is a table (`specs/Answers`), and so is what a send answers.
//!
//! A server ends by a [`Stop`], which its owner makes and shares: from then on the door answers
//! Closed, and so does each link at its next receive.
//!
//! # Limits
//!
//! - [`MESSAGE_LIMIT`], 65,536 bytes of a message or a frame: above the longest request, so that
//!   one that is somewhat too long is still answered. A longer message ends the link.
//! - [`OUTPUT_LIMIT`], 1 MiB that wait to be sent: a client that pings and does not read would else
//!   fill the memory.
//! - [`PLACE_COUNT`], 512 open links: an accept fails if the process has too many open files.
//! - [`WAIT_MS`], 100 ms for a client or a message: a player sees a partner's move after 50 ms in
//!   the mean.
//! - [`SEND_MS`], 5 s for a client that does not read, which would else hold its thread for ever.
//! - [`GREETING_LOOKS`] times [`GREETING_MS`], 0.2 s for a client's greeting: one that greets byte
//!   by byte would else hold the door.
#![tactic(auto)]

mod held_stream;
mod places;
mod stop;
mod tables;
mod tcp_door;
mod waits;
mod ws_link;

pub use held_stream::HeldStream;
pub use places::PLACE_COUNT;
pub use stop::Stop;
pub use tcp_door::TcpDoor;
pub use waits::{GREETING_LOOKS, GREETING_MS, SEND_MS, WAIT_MS};
pub use ws_link::{MESSAGE_LIMIT, OUTPUT_LIMIT, READ_LEN, WsLink, WsStub, limits};
