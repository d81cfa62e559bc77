//! Which game that has ended does the text of a kept game say?

ghost use Rattle.std.specs.Prelude.{◌≡◌, ◌≢◌, IfOk, OnOk, is_some};
ghost use Rattle.hb_rules.specs.Positions.{ended};
ghost use Rattle.hb_club.specs.EndedReplays.{finished_when, read_ended};
ghost use Rattle.hb_club.specs.RoomEvents.{read_text};

use hb_io::{Text, Texts};
use hb_replay::{Replay, ReplayError, read};
use hb_turns::Game;
use std::alloc::{AllocError, Global};
use std::marker::Model;

/// A copy of a list of texts.
fn copied_texts(alloc: Global, texts: &Texts) -> Result<Texts, AllocError>
    ensures { IfOk result (λ copy. copy ≡ texts.now) }
{
    let mut copies = Texts::new(alloc);
    for text in texts.as_slice() {
        copies.push(Text::copy_of(alloc, text.as_str())?)?;
    }
    Ok(copies)
}

/// A game that has ended and was loaded, with the name of its variant and the names of its players.
#[derive(Drop)]
pub struct LoadedGame {
    replay: Replay,
}

impl Model for LoadedGame {
    ghost use Rattle.hb_club.specs.EndedReplays.{Finished};

    ghost Value = { Finished };

    ghost use Rattle.hb_playing.specs.Loads.{finished};

    ghost view = { λ l. finished l.replay };
}

impl LoadedGame {
    /// The name of the game's variant.
    pub fn variant_name(&self) -> &Text
        ensures { result.now ≡ self.now.name }
    {
        self.replay.variant_name()
    }

    /// The names of the players, by seat.
    pub fn players(&self) -> &Texts
        ensures { result.now ≡ self.now.players }
    {
        self.replay.players()
    }

    /// Copies of the name of the game's variant and of the names of the players.
    pub fn copied_names(&self, alloc: Global) -> Result<(Text, Texts), AllocError>
        ensures { IfOk result (λ names. names ≡ (self.now.name, self.now.players)) }
    {
        let name = Text::copy_of(alloc, self.variant_name().as_str())?;
        let players = copied_texts(alloc, self.players())?;
        Ok((name, players))
    }

    /// A copy of the game. It takes no memory.
    pub fn game(&self) -> Game
        ensures { result ≡ self.now.game }
    {
        self.replay.game()
    }
}

/// The game of a replay, if it has ended.
fn ended_game(replay: Replay) -> Option<LoadedGame>
    ensures { result ≡ finished_when (is_some (ended replay.game)) replay }
{
    if replay.game().ended().is_some() {
        Some(LoadedGame { replay })
    } else {
        None
    }
}

/// Fails if a text was refused since memory ran out.
fn unless_memory(error: &ReplayError) -> Result<(), AllocError>
    ensures { OnOk result (error.now ≢ ReplayError.NoMemory) }
{
    match error {
        ReplayError::NoMemory => Err(AllocError),
        _ => Ok(()),
    }
}

/// The game that a text says.
fn read_replay(alloc: Global, text: &Text) -> Result<Option<LoadedGame>, AllocError>
    ensures { IfOk result (λ loaded. loaded ≡ read_ended text.now) }
{
    match read(alloc, text.as_str().as_bytes()) {
        Ok(replay) => Ok(ended_game(replay)),
        Err(error) => {
            unless_memory(&error)?;
            Ok(None)
        }
    }
}

/// The game that the text of a kept game says; none if there is no text, if it is no replay, or if
/// the game of the replay has not ended.
///
/// It takes time and memory in proportion to the text.
pub fn read_kept(alloc: Global, text: &Option<Text>) -> Result<Option<LoadedGame>, AllocError>
    ensures { IfOk result (λ loaded. loaded ≡ read_text text.now) }
{
    match text {
        Some(text) => read_replay(alloc, text),
        None => Ok(None),
    }
}
