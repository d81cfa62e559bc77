//! What is a session to do about what came?

ghost use Rattle.std.specs.Prelude.{◌≡◌};
ghost use Rattle.hb_talk.specs.Replies.{denial_number};

use hb_club::{Entry, LobbyEntry};
use hb_request::WireError;

/// Why a request is not for a session or its hall.
#[derive(Clone, Copy, PartialEq, Eq, Debug)]
pub enum Denial {
    /// 1: the text is no name.
    BadName,
    /// 2: the name is bound to another key.
    WrongKey,
    /// 3: the name is not bound, and the lobby binds no more names.
    HouseFull,
    /// 4: there is no room with this number.
    NoSuchRoom,
    /// 5: the session has no name yet, and the request is no hello.
    NotBound,
    /// 6: the session has a name, and the request is a hello.
    AlreadyBound,
}

impl Denial {
    /// The number of the denial, 1 to 6.
    pub fn number(self) -> u8
        ensures { result ≡ denial_number self }
    {
        match self {
            Denial::BadName => 1,
            Denial::WrongKey => 2,
            Denial::HouseFull => 3,
            Denial::NoSuchRoom => 4,
            Denial::NotBound => 5,
            Denial::AlreadyBound => 6,
        }
    }
}

/// What a session is to do about what came: nothing, to write one line, or to call the hall.
#[derive(Debug, Drop)]
pub enum Errand {
    /// Nothing.
    Nothing,
    /// To write that the message asks nothing.
    Bad(WireError),
    /// To write that the request is denied.
    Denied(Denial),
    /// To call the lobby.
    Enters(LobbyEntry),
    /// To call a room.
    Calls { room: u32, entry: Entry },
}
