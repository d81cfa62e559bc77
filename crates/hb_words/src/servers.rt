//! Which server do words ask for?

ghost use Rattle.std.specs.Prelude.{◌≡◌, ◌≤◌, ◌↔◌, ◌∷◌, [], ℕ, IfNone, IfSome, IsTrue, codes, decimal};
ghost use Rattle.hb_words.specs.Commands.{IsStore, texts_of};
ghost use Rattle.hb_words.specs.PlainWords.{IsPlain};
ghost use Rattle.hb_words.specs.Servers.{IsAddress, IsServer};
ghost use Rattle.hb_words.specs.declared.servers.ServerCommand.{ServerCommand as TheServerCommand};

use crate::asked::is_store;
use crate::commands::Store;
use crate::numbers::number_up_to;
use crate::parser::is_plain;

/// The most bytes of the word that names the address of a server.
pub const MOST_ADDRESS: usize = 64;

/// The most rooms that a word can ask a server for.
pub const MOST_SERVED_ROOMS: u8 = 16;

/// `serve ADDR ROOMS STORE`: a server of rooms, and where it keeps their games.
#[derive(Clone, Copy, PartialEq, Eq, Debug)]
pub struct ServerCommand<'a> {
    /// The address at which the server waits for its clients, of 1 to 64 bytes. Whether it names
    /// one is for the system to say.
    pub address: &'a str,
    /// The number of rooms, 1 to 16.
    pub rooms: u8,
    /// The store of the games that end in the rooms.
    pub store: Store<'a>,
}

/// Whether a word names an address.
fn is_address(word: &str) -> bool
    ensures { IsTrue result ↔ IsAddress word.now }
{
    !word.is_empty() && word.len() <= MOST_ADDRESS && is_plain(word)
}

/// The number of rooms that a word asks for; none if it asks for none, or for too many.
fn room_count(word: &str) -> Option<u8>
    ensures found { IfSome result (λ rooms.
        (word.now ≡ decimal rooms) × (1 ≤ rooms) × (rooms ≤ MOST_SERVED_ROOMS)) }
    ensures none { IfNone result ((rooms : ℕ)
        → 1 ≤ rooms → rooms ≤ MOST_SERVED_ROOMS → word.now ≡ decimal rooms → ⊥) }
{
    let rooms = number_up_to(word, MOST_SERVED_ROOMS)?;
    if rooms == 0 {
        return None;
    }
    Some(rooms)
}

/// The server with these three words, if they are right.
fn server<'a>(address: &'a str, rooms: &str, store: &'a str) -> Option<ServerCommand<'a>>
    ensures found { IfSome result
        (IsServer (codes "serve" ∷ address.entry.now ∷ rooms.now ∷ store.entry.now ∷ [])) }
    ensures none { IfNone result ((c : TheServerCommand)
        → IsServer (codes "serve" ∷ address.entry.now ∷ rooms.now ∷ store.entry.now ∷ []) c → ⊥) }
{
    if !is_address(address) {
        return None;
    }
    let rooms = room_count(rooms)?;
    if !is_plain(store) {
        return None;
    }
    if !is_store(store) {
        return None;
    }
    Some(ServerCommand {
        address,
        rooms,
        store: Store::named(store),
    })
}

/// The server that the words, without the program's name, ask for; none if they ask for no server.
pub fn server_command<'a>(words: &[&'a str]) -> Option<ServerCommand<'a>>
    ensures found { IfSome result (IsServer (texts_of words.now)) }
    ensures none { IfNone result ((c : TheServerCommand) → IsServer (texts_of words.now) c → ⊥) }
{
    match words {
        ["serve", address, rooms, store] => server(address, rooms, store),
        _ => None,
    }
}
