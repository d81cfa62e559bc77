//! What is a kept game, what is it kept under, and what does a member's list say of it?

ghost use Rattle.std.specs.Prelude.{◌≡◌};
ghost use Rattle.hb_keeper.specs.KeptGames.{line_of};

use hb_io::{Name, Sequence, Text};

/// What a game is kept under. Two games with equal keys are the same game.
#[derive(Clone, Copy, Debug, PartialEq, Eq, Hash)]
pub struct Key {
    /// The number of the server's run, from 1; below 2^63.
    pub run: u64,
    /// The number of the room.
    pub room: u32,
    /// The place of the game among the games of the room.
    pub serial: u32,
}

/// A kept game.
#[derive(Clone, Debug, PartialEq, Eq, Drop)]
pub struct GameRow {
    /// The players, in order of seats.
    pub names: Names,
    /// The game's canonical replay.
    pub text: Text,
    /// The number of its end.
    pub how: u8,
    /// Its score.
    pub score: u8,
}

impl GameRow {
    /// The line of this game, if it has this id.
    pub(crate) fn line(&self, id: u64) -> Line
        ensures { result ≡ line_of id self.now }
    {
        Line {
            id,
            score: self.score,
            how: self.how,
        }
    }
}

/// A line of a member's list of games.
#[derive(Clone, Copy, Debug, PartialEq, Eq)]
pub struct Line {
    /// The game's id, from 1.
    pub id: u64,
    /// Its score.
    pub score: u8,
    /// The number of its end.
    pub how: u8,
}

/// A list of names.
pub type Names = Sequence<Name>;

/// A list of lines.
pub type Lines = Sequence<Line>;
