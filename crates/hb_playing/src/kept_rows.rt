//! Which row is kept of a game?

ghost use Rattle.std.specs.Prelude.{◌≡◌, IfOk, IsErrOf, length};
ghost use Rattle.hb_rules.specs.Numbers.{state_number};
ghost use Rattle.hb_replay.specs.Canonical.{canonical_text};
ghost use Rattle.hb_replay.specs.Contents.{contents};
ghost use Rattle.hb_turns.specs.GameInvariant.{IsPlayed};
ghost use Rattle.hb_club.specs.ClerkCalls.{note_lists};
ghost use Rattle.hb_club.specs.EndedReplays.{game_text};
ghost use Rattle.hb_playing.specs.KeptRows.{IsKeepable, row_with};

use crate::notes::Notebook;
use crate::seats::name_texts;
use hb_io::{Name, Text};
use hb_keeper::{GameRow, Names};
use hb_replay::{OfGameError, Replay, of_game, write};
use hb_rules::EndHow;
use hb_turns::Game;
use std::alloc::{AllocError, Global};

/// Why no row is made of a game.
#[derive(Clone, Copy, PartialEq, Eq, Debug)]
pub enum RowError {
    /// 1: the names are not those of the game, or its times are none that a replay can hold. It is
    /// so of no game that a room starts.
    Differs,
    /// 2: memory ran out.
    NoMemory,
}

impl From<AllocError> for RowError {
    ghost use Rattle.hb_playing.specs.declared.kept_rows.RowError.TheVariants as cause;

    ghost from_gives = { λ _ error. error ≡ cause.NoMemory };

    fn from(_: AllocError) -> Self {
        RowError::NoMemory
    }
}

/// The number of how a game stands; 0 while it runs.
fn state_number(ended: Option<EndHow>) -> u8
    ensures { result ≡ state_number ended }
{
    match ended {
        Some(how) => how.number(),
        None => 0,
    }
}

/// The number of cards in the deck.
fn deck_size(game: &Game) -> u8
    ensures size { result ≡ length game.now.setup.deck.items }
    ensures played { IsPlayed game.now }
{
    game.players();
    game.deck().len() as u8
}

/// The replay of a game with the notes of its players.
fn game_replay(
    alloc: Global,
    names: &[Name],
    variant_name: &Text,
    game: &Game,
    notes: &Notebook,
) -> Result<Replay, RowError>
    ensures replay { let size = length game.now.setup.deck.items in
        IfOk result (λ replay. replay ≡ contents names.now variant_name.now game.now
        (note_lists names.now size notes.now.notes)) }
    ensures differs { IsErrOf result RowError.Differs
        → IsKeepable names.now variant_name.now game.now → ⊥ }
{
    let players = name_texts(alloc, names)?;
    let lists = notes.lists(alloc, names, deck_size(game))?;
    match of_game(alloc, &players, variant_name.as_str(), game, &lists) {
        Ok(replay) => Ok(replay),
        Err(OfGameError::NoMemory) => Err(RowError::NoMemory),
        Err(OfGameError::Differs) => Err(RowError::Differs),
    }
}

/// The canonical text of a replay.
fn replay_text(alloc: Global, replay: &Replay) -> Result<Text, AllocError>
    ensures { IfOk result (λ text. text ≡ canonical_text replay.now) }
{
    let bytes = write(alloc, replay)?;
    match String::from_utf8(bytes.into_vec()) {
        Ok(text) => Ok(Text::from_string(text)),
        Err(_) => unreachable!(),
    }
}

/// The canonical text of a game with the notes of its players.
#[tactic(auto, unfolding(hb_club::specs::EndedReplays::game_text))]
fn game_text(
    alloc: Global,
    names: &[Name],
    variant_name: &Text,
    game: &Game,
    notes: &Notebook,
) -> Result<Text, RowError>
    ensures text { let size = length game.now.setup.deck.items in
        IfOk result (λ text. text ≡ game_text names.now variant_name.now game.now
        (note_lists names.now size notes.now.notes)) }
    ensures differs { IsErrOf result RowError.Differs
        → IsKeepable names.now variant_name.now game.now → ⊥ }
{
    let replay = game_replay(alloc, names, variant_name, game, notes)?;
    Ok(replay_text(alloc, &replay)?)
}

/// A copy of the names.
fn copied_names(alloc: Global, names: &[Name]) -> Result<Names, AllocError>
    ensures { IfOk result (λ copy. copy ≡ names.now) }
{
    let mut copy = Names::new(alloc);
    copy.extend(names)?;
    Ok(copy)
}

/// The row that is kept of a game, with the names of its players by seat, the name of its variant,
/// and the notes of the players.
///
/// It takes time and memory in proportion to the text of the game.
pub fn row(
    alloc: Global,
    names: &[Name],
    variant_name: &Text,
    game: &Game,
    notes: &Notebook,
) -> Result<GameRow, RowError>
    ensures row { IfOk result (λ row.
        row ≡ row_with names.now variant_name.now game.now notes.now.notes) }
    ensures differs { IsErrOf result RowError.Differs
        → IsKeepable names.now variant_name.now game.now → ⊥ }
{
    let text = game_text(alloc, names, variant_name, game, notes)?;
    Ok(GameRow {
        names: copied_names(alloc, names)?,
        text,
        how: state_number(game.ended()),
        score: game.score(),
    })
}
