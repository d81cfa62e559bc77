//! How does the lobby keep who was welcomed?

ghost use Rattle.std.specs.Prelude.{◌≡◌, [], None, IfOk, OnErr, bytes_eq, option_map};
ghost use Rattle.hb_club.specs.Lobby.{bound_after, bound_with, key_of, lobby_reply, reply_to};
ghost use Rattle.hb_house.specs.Bindings.{bindings};

use hb_club::{LobbyEntry, LobbyReply, MOST_NAMES};
use hb_io::{Name, Text, name};
use std::alloc::{AllocError, Global};
use std::marker::Model;

/// A name with the key to which it is bound.
#[derive(Debug, Drop)]
struct BoundName {
    name: Name,
    key: Text,
}

/// The names that were welcomed, each with its key. Contracts see the list of them, with the
/// newest first.
#[derive(Debug, Drop)]
pub struct Lobby {
    // The newest first.
    bound: Vec<BoundName>,
}

impl Model for Lobby {
    ghost use Rattle.std.specs.Prelude.{List};
    ghost use Rattle.hb_club.specs.Lobby.{Bound};
    ghost use Rattle.hb_house.specs.Bindings.{bindings};

    ghost Value = { List Bound };

    ghost view = { λ l. bindings l.bound.items };
}

impl Lobby {
    /// A lobby that has welcomed nobody.
    pub fn new(alloc: Global) -> Self
        ensures { result ≡ [] }
    {
        Lobby {
            bound: Vec::new(alloc),
        }
    }

    /// Replies to a name with its key, and binds a new name that is welcome to its key. If memory
    /// runs out, the lobby is as before.
    pub fn enter(&mut self, alloc: Global, e: &LobbyEntry) -> Result<LobbyReply, AllocError>
        ensures reply { IfOk result (λ reply. reply ≡ lobby_reply self.old e.now) }
        ensures bound { IfOk result (λ _. self.new ≡ bound_with e.now self.old) }
        ensures err { OnErr result (self.new ≡ self.old) }
    {
        let Some(spelled) = name(e.name.as_str()) else {
            return Ok(LobbyReply::BadName);
        };
        match fits_key(&self.bound, e) {
            Some(true) => Ok(LobbyReply::Welcome(spelled)),
            Some(false) => Ok(LobbyReply::WrongKey),
            None => self.bind(alloc, spelled, e),
        }
    }

    /// Binds a name that is not bound, unless too many names are.
    fn bind(&mut self, alloc: Global, name: Name, e: &LobbyEntry) -> Result<LobbyReply, AllocError>
        requires name { name ≡ e.now.name }
        requires new { key_of e.now.name self.old ≡ None }
        ensures reply { IfOk result (λ reply. reply ≡ reply_to self.old e.now None) }
        ensures bound { IfOk result (λ reply. self.new ≡ bound_after self.old e.now reply) }
        ensures err { OnErr result (self.new ≡ self.old) }
    {
        if self.bound.len() >= MOST_NAMES {
            return Ok(LobbyReply::HouseFull);
        }
        let key = Text::copy_of(alloc, e.key.as_str())?;
        self.bound.insert(0, BoundName { name, key })?;
        Ok(LobbyReply::Welcome(name))
    }
}

/// Whether the key is that of the name, if the name is bound.
fn fits_key(bound: &[BoundName], e: &LobbyEntry) -> Option<bool>
    ensures { result ≡ option_map (λ key. bytes_eq key e.now.key)
        (key_of e.now.name (bindings bound.now)) }
{
    for b in bound {
        if b.name.as_str() == e.name.as_str() {
            return Some(b.key == e.key);
        }
    }
    None
}
