//! What is asked of the lobby, and what does it reply?

use hb_io::{Name, Text};

/// A request to be known by a name, with a key.
#[derive(Clone, Debug, PartialEq, Eq, Drop)]
pub struct LobbyEntry {
    pub name: Text,
    pub key: Text,
}

/// What the lobby replies.
#[derive(Clone, Copy, PartialEq, Eq, Debug)]
pub enum LobbyReply {
    /// The name is bound to the key.
    Welcome(Name),
    /// The text is no name.
    BadName,
    /// The name is bound to another key.
    WrongKey,
    /// The name is not bound, and 256 names are.
    HouseFull,
}
