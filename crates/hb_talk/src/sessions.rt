//! What does a session keep between its turns?

use hb_club::Viewer;
use hb_io::Name;

/// How far a session has written the items of a room: of which table, for which viewer, and how
/// many of them.
#[derive(Clone, Copy, PartialEq, Eq, Debug)]
pub struct Marks {
    pub room: u32,
    /// The table's serial, from 1.
    pub table: u32,
    pub viewer: Viewer,
    pub count: u32,
}

/// What a session keeps, as contracts see it.
#[derive(Clone, Copy, PartialEq, Eq, Debug)]
pub struct Session {
    /// The name that a welcome bound.
    pub name: Option<Name>,
    /// The room that was called last, at which the session looks when nothing comes.
    pub followed: Option<u32>,
    /// The marks of that room; none if no table was opened there.
    pub marks: Option<Marks>,
}

/// Whether a session goes on.
#[derive(Clone, Copy, PartialEq, Eq, Debug)]
pub enum Next {
    /// It goes on.
    Goes,
    /// Its connection is closed.
    Closed,
}

/// Why a turn wrote nothing.
#[derive(Clone, Copy, PartialEq, Eq, Debug)]
pub enum TurnError {
    /// The hall can call the room, or the lobby, no more.
    Worn,
    /// Memory ran out.
    NoMemory,
}
