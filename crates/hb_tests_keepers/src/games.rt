//! Which keys and games do the tests keep?

ghost use Rattle.std.specs.Prelude.{◌≡◌};

use hb_io::{Text, name};
use hb_keeper::{GameRow, Key, Names};
use std::alloc::{AllocError, Global};

/// The key of a game of the first run and the first room.
pub(crate) fn key(serial: u32) -> Key
    ensures { result.run ≡ 1 }
{
    Key {
        run: 1,
        room: 1,
        serial,
    }
}

/// A game of these players. A text that is no name is left out.
pub(crate) fn game(alloc: Global, players: &[&str], score: u8) -> Result<GameRow, AllocError> {
    let mut names = Names::new(alloc);
    for player in players {
        if let Some(player) = name(player) {
            names.push(player)?;
        }
    }
    Ok(GameRow {
        names,
        text: Text::copy_of(alloc, "{}")?,
        how: 1,
        score,
    })
}
