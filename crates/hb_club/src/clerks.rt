//! What does the clerk ask of a room and note there? The clerk moves games between rooms and a
//! keeper.

use hb_io::Text;
use hb_keeper::{GameRow, Key};

/// What a room has for the clerk.
#[derive(Debug, Drop)]
pub struct Todo {
    /// A game that ended and is to be kept, with its key.
    pub save: Option<(Key, GameRow)>,
    /// The serial of the table that asks for a kept game, and the id of that game.
    pub load: Option<(u32, u64)>,
}

/// What the clerk notes at a room.
#[derive(Debug, Drop)]
pub enum ClerkNote {
    /// The game of this table is kept under this id.
    Saved {
        table: u32,
        id: u64,
    },
    /// The kept game for which this table asked, by the text of its replay; no text if no game is
    /// kept under the id.
    Loaded {
        table: u32,
        id: u64,
        text: Option<Text>,
    },
}

/// The item that a note of the clerk added.
#[derive(Clone, Copy, PartialEq, Eq, Debug)]
pub enum Noted {
    /// None.
    Nothing,
    /// That the game is kept.
    Saved,
    /// That the kept game was loaded.
    Loaded,
    /// That there is no such game.
    NoGame,
}
