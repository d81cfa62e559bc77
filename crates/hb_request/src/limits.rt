//! Which limits have messages and their numbers? Each is named once. They are this server's own.

use hb_rules::{MOST_CARDS, MOST_PLAYERS, MOST_SUITS};

/// The most bytes that a message has.
pub const MESSAGE_LIMIT: usize = 16_384;

/// The most bytes that a key has.
pub const KEY_LIMIT: usize = 64;

/// The greatest id of a kept game that a request can name.
pub const HIGHEST_ID: u64 = 1 << 53;

/// The greatest order of a card.
pub const HIGHEST_ORDER: u64 = MOST_CARDS as u64 - 1;

/// The greatest seat.
pub const HIGHEST_SEAT: u64 = MOST_PLAYERS as u64 - 1;

/// The greatest index of a clue colour.
pub const HIGHEST_COLOR: u64 = MOST_SUITS as u64 - 1;
