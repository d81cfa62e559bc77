//! What does a member ask of a room?

use hb_io::{Name, Text};
use hb_rules::{Action, Options};

/// A command of a member.
#[derive(Clone, Debug, PartialEq, Eq, Drop)]
pub enum Command {
    /// Opens the next table of the room, whose host the member then is. The name is a variant's,
    /// the starting player is seat 0, and a game of two players may start with the options.
    Open { name: Text, options: Options },
    /// Takes a seat, behind those who are seated.
    Sit,
    /// Gives the seat up.
    Rise,
    /// Starts the game of those who are seated.
    Start,
    /// Acts in the game. The action is no called end.
    Act { action: Action },
    /// Notes a text at a card, for the kept game.
    Note { order: u8, text: Text },
    /// Stops the clock of a timed game.
    Pause,
    /// Lets the clock run again.
    Resume,
    /// Ends the game by Terminated.
    Terminate,
    /// Watches: with a shadow as that seat sees the game, and without one as who sees all hands.
    Watch { shadow: Option<u8> },
    /// Watches no more.
    Leave,
    /// Asks for the kept game with this id, to review it.
    Load { id: u64 },
    /// Reviews the game from this turn on.
    Go { turn: u16 },
    /// Tries an action in the review, by the seat whose turn it is there. It is no called end.
    Hypo { action: Action },
    /// Takes the last action that was tried in the review back.
    Undo,
    /// Closes the table.
    Close,
    /// Only looks.
    Look,
}

/// A command of a member at a moment, in milliseconds.
///
/// A look has table 0 and number 0. Every other command names a table of the room by its serial,
/// from 1, and has a number of the member's own choice, from 1: the first command of a member with
/// that number at that table is done and its reply kept, and the same command again gets that
/// reply.
#[derive(Clone, Debug, PartialEq, Eq, Drop)]
pub struct Entry {
    pub moment: u64,
    pub member: Name,
    pub table: u32,
    pub number: u32,
    pub command: Command,
}
