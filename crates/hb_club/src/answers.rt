//! What does a hall answer for a room?

ghost use Rattle.std.specs.Prelude.{◌+◌, ◌<◌, ◌^◌, length};

use crate::items::{Items, Viewer};
use crate::replies::Reply;
use hb_io::{Text, Texts};
use hb_rules::Options;
use hb_turns::Game;

/// What a caller has seen of a room so far: a table by its serial, as this viewer, and so many of
/// its items.
#[derive(Clone, Copy, PartialEq, Eq, Debug)]
pub struct Seen {
    pub table: u32,
    pub viewer: Viewer,
    pub count: u32,
}

/// What a table was opened with, and the game that was started or loaded there, if there is one.
#[derive(Debug, Drop)]
pub struct Head {
    /// The name of the variant with which the table was opened.
    pub name: Text,
    /// The options with which it was opened.
    pub options: Options,
    /// The name of the game's variant, and its players by seat.
    pub game: Option<(Text, Texts)>,
}

/// The answer to an entry: the reply, and what its member may observe of the latest table.
#[derive(Drop)]
pub struct Answered {
    pub reply: Reply,
    /// The serial of the latest table; 0 if no table was opened.
    pub table: u32,
    pub viewer: Viewer,
    /// None if no table was opened.
    pub head: Option<Head>,
    /// The game that was started or loaded.
    pub game: Option<Game>,
    /// The number of the first of `items`, counted from 0: what the caller had seen, if it had seen
    /// this table as this viewer, else 0.
    pub from: u32,
    /// The items of the table from that number on.
    pub items: Items,
    ghost few: { from + length items < 2 ^ 32 },
}

/// Why a hall does not answer.
#[derive(Clone, Copy, PartialEq, Eq, Debug)]
pub enum HallError {
    /// 1: there is no room with this number.
    NoSuchRoom,
    /// 2: the hall can call the room, or the lobby, no more.
    Worn,
    /// 3: memory ran out. No event of the call stands.
    NoMemory,
}
