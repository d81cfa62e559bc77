//! What is the public record of a table, and how does a member see the table?

use hb_io::{Name, Sequence};
use hb_rules::{Act, Action, MOST_PLAYERS};

/// The most players, as the size of a list.
pub const PLACES: usize = MOST_PLAYERS as usize;

/// What happened at a table.
#[derive(Clone, Copy, PartialEq, Eq, Debug)]
pub enum What {
    /// The host opened it.
    Opened {
        host: Name,
    },
    /// A member took a seat.
    Sat {
        name: Name,
    },
    /// A member gave the seat up.
    Rose {
        name: Name,
    },
    /// A member watches, or watches otherwise than before: as the shadow of a seat, or plainly.
    Watching {
        name: Name,
        shadow: Option<u8>,
    },
    /// A member watches no more.
    Left {
        name: Name,
    },
    /// The game started, with these players by seat.
    Started {
        names: [Option<Name>; PLACES],
    },
    /// An act of the game.
    Acted {
        act: Act,
    },
    /// A player stopped the clock.
    Paused {
        by: Name,
    },
    /// A player let the clock run again.
    Resumed {
        by: Name,
    },
    /// The game that ended is kept under this id.
    Saved {
        id: u64,
    },
    /// The kept game with this id was loaded.
    Loaded {
        id: u64,
    },
    /// No game that has ended is kept under this id.
    NoGame {
        id: u64,
    },
    /// The review moved: it stands at a turn, with so many actions that were tried, of which the
    /// last was just tried if it is named.
    Reviewed {
        turn: u16,
        hypos: u16,
        action: Option<Action>,
    },
    /// The table was closed.
    Closed,
}

/// What happened at a table, with its stamp: a moment in milliseconds, at most 2^53.
#[derive(Clone, Copy, PartialEq, Eq, Debug)]
pub struct Item {
    pub moment: u64,
    pub what: What,
}

/// How a member sees a table.
#[derive(Clone, Copy, PartialEq, Eq, Debug)]
pub enum Viewer {
    /// From a seat: one who was seated when the game started. All hands but the own are seen.
    Seat(u8),
    /// As a watcher: with a shadow as that seat, and without one all hands are seen.
    Watcher { shadow: Option<u8> },
    /// As everybody else. No hand is seen.
    Guest,
}

/// A list of items, the oldest first.
pub type Items = Sequence<Item>;
