//! Which games does the tool keep?

ghost use Rattle.std.specs.Prelude.{◌≡◌};

use hb_io::{Name, Text, name};
use hb_keeper::{GameRow, Key, Names};
use std::alloc::{AllocError, Global};

/// The players of most games.
const PLAYERS: [&str; 7] = ["Ann", "Bob", "Cleo", "Dan", "Eve", "Finn", "Gus"];

/// The player of a few games: as many as there are below this number.
const RARE: (&str, u32) = ("Zoe", 10);

const TEXT: &str = "{\"actions\":[],\"deck\":[],\"options\":{\"variant\":\"No Variant\"}}";

/// The key of a game by its number: a hundred games in each room.
pub(crate) fn key_of(number: u32) -> Key
    ensures { result.run ≡ 1 }
{
    Key {
        run: 1,
        room: number / 100,
        serial: number % 100,
    }
}

/// A name that players have.
pub(crate) fn player(place: u32) -> Option<Name> {
    name(PLAYERS[(place % 7) as usize])
}

/// A game of these players. A place without a name is left out.
pub(crate) fn game(
    alloc: Global,
    players: &[Option<Name>],
    score: u8,
) -> Result<GameRow, AllocError> {
    let mut names = Names::new(alloc);
    for player in players.iter().flatten() {
        names.push(*player)?;
    }
    Ok(GameRow {
        names,
        text: Text::copy_of(alloc, TEXT)?,
        how: 1,
        score,
    })
}

/// The game with a number: of two neighbours in the list of players, and of the rare player if the
/// number is small.
pub(crate) fn game_of(alloc: Global, number: u32) -> Result<GameRow, AllocError> {
    let (rare, few) = RARE;
    let third = if number < few { name(rare) } else { None };
    let players = [player(number), player((number % 7) + 1), third];
    game(alloc, &players, (number % 26) as u8)
}
