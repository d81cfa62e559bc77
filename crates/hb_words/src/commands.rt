//! What can be asked for?

ghost use Rattle.std.specs.Prelude.{◌≡◌, ◌↔◌, Option, Some, codes, option_map};

use hb_io::{Name, Text};
use hb_rules::{MOST_ACTS, MOST_PLAYERS};

/// The number of the last seat that a word can name.
pub const LAST_SEAT: u8 = MOST_PLAYERS - 1;

/// The most turns that a word can name.
pub const MOST_TURNS: u8 = MOST_ACTS as u8;

/// The most bytes of the word that names a store.
pub const MOST_STORE: usize = 255;

/// The most tables that a word can ask for.
pub const MOST_TABLES: u8 = 64;

/// The word that names a store in memory.
pub const MEMORY: &str = "mem";

/// A command that reads a replay, with its arguments.
#[derive(Clone, Copy, PartialEq, Eq, Debug)]
pub enum ReplayCommand {
    /// `watch SEAT`: the game of a replay as a seat, 0 to 5, sees it, a line for each event.
    Watch { seat: u8 },
    /// `look SEAT TURN`: how the game stands after the first `turn` acts, 0 to 160, and what the
    /// seat, 0 to 5, can tell of each hand.
    Look { seat: u8, turn: u8 },
    /// `check`: whether the input is a replay, and how its game stands.
    Check,
    /// `copy`: the canonical text of a replay.
    Copy,
}

/// A command with its arguments. A store is a word of 1 to 255 bytes: `mem`, or a path.
#[derive(Clone, Debug, PartialEq, Eq, Drop)]
pub enum Command {
    /// `watch`, `look`, `check` and `copy`.
    Replay(ReplayCommand),
    /// `script STORE`: what the lines of a script do to a hall of rooms.
    Script { store: Text },
    /// `games STORE NAME`: the kept games of a member.
    Games { store: Text, name: Name },
    /// `make N SEED`: in short, what the script that is made of a number of tables, 1 to 64, and a
    /// seed does to a hall of rooms.
    Make { tables: u8, seed: u64 },
}

/// Where kept games stand.
#[derive(Clone, Copy, PartialEq, Eq, Debug)]
pub enum Store<'a> {
    /// `mem`: in memory, so the store ends with the run.
    Memory,
    /// In the file of this path, of 1 to 255 bytes.
    File(&'a str),
}

impl<'a> Store<'a> {
    ghost use Rattle.hb_words.specs.Stores.{word_of};

    /// The store that a word names.
    pub(crate) fn named(word: &'a str) -> Self
        ensures word { word_of result ≡ word.entry.now }
        ensures memory { (result ≡ Store.Memory) ↔ (word.entry.now ≡ codes "mem") }
    {
        if word == MEMORY {
            Store::Memory
        } else {
            Store::File(word)
        }
    }
}

impl Command {
    ghost use Rattle.hb_words.specs.Commands.{store_of};
    ghost use Rattle.hb_words.specs.Stores.{word_of};

    /// The store in which the command works, if its words name one.
    pub fn store(&self) -> Option<Store<'_>>
        ensures word { option_map word_of result ≡ store_of self.now }
        ensures memory { (result ≡ Some Store.Memory) ↔ (store_of self.now ≡ Some (codes "mem")) }
    {
        match self {
            Command::Script { store } | Command::Games { store, .. } => {
                Some(Store::named(store.as_str()))
            }
            Command::Replay(_) | Command::Make { .. } => None,
        }
    }
}
