//! What does a room have for the clerk, and what does it do when the clerk notes something?

ghost use Rattle.std.specs.Prelude.{◌≡◌};
ghost use Rattle.std.specs.Option.{option_map};

use crate::lists::put;
use crate::moments::in_time;
use crate::room::Room;
use hb_club::{ClerkNote, Item, Noted, Todo, What};
use hb_io::Text;
use hb_keeper::{GameRow, Key};
use hb_playing::{GameReview, LoadedGame, RowError, read_kept, row, take};
use hb_turns::Game;
use std::alloc::{AllocError, Global};

/// The load of a table.
fn load_of(serial: u32, load: Option<u64>) -> Option<(u32, u64)>
    ensures { result ≡ option_map (λ id. (serial, id)) load }
{
    match load {
        Some(id) => Some((serial, id)),
        None => None,
    }
}

/// A copy of a game.
pub(crate) fn same(game: &Option<Game>) -> Option<Game>
    ensures { result ≡ game.now }
{
    match game {
        Some(game) => Some(game.same()),
        None => None,
    }
}

impl Room {
    ghost use Rattle.std.specs.Prelude.{◌≡◌, ℕ, ◌<◌, ◌^◌, IfOk, OnErr, Option, Some, false};
    ghost use Rattle.hb_club.specs.ClerkCalls.{is_pending};
    ghost use Rattle.hb_club.specs.EndedReplays.{Finished};
    ghost use Rattle.hb_club.specs.HallAnswers.{HasRun};
    ghost use Rattle.hb_club.specs.RoomEvents.{Added, AsksTodo, Due, Loaded, Notes, Saved, note_event, read_text};
    ghost use Rattle.hb_club.specs.WholeGames.{BringsWhole};
    ghost use Rattle.hb_playing.specs.KeptRows.{IsKeepable, row_with};
    ghost use Rattle.hb_table.specs.Changes.{HasItem, HasRoom, LoadsGame, SameFacts};
    ghost use Rattle.hb_table.specs.Clerk.{Noting, game_in_time, is_due_in, key_in, save_at};
    ghost use Rattle.hb_table.specs.Keeps.{site_in};
    ghost use Rattle.hb_table.specs.Steps.{Answers};

    /// What there is for the clerk to do at a moment: the game that has ended and is to be kept,
    /// and the load that is pending.
    ///
    /// The error comes only if memory is refused. Then nothing changes.
    pub fn todo(&mut self, alloc: Global, moment: u64) -> Result<Todo, AllocError>
        ensures ok { IfOk result (λ todo. Answers (AsksTodo moment) (Due todo) self.old self.new) }
        ensures run { IfOk result (λ todo. HasRun todo.save) }
        ensures site { site_in self.new ≡ site_in self.old }
        ensures err { OnErr result (SameFacts self.old self.new) }
    {
        self.reserve()?;
        let moment = in_time(moment);
        let save = self.save(alloc, moment)?;
        self.apply_time(moment);
        let load = load_of(self.latest, self.load);
        Ok(Todo { save, load })
    }

    /// Takes a note of the clerk: which item it adds. A game is kept once, and a pending load is
    /// answered once; any other note adds no item.
    ///
    /// The error comes only if memory is refused. Then nothing changes, and the note does not
    /// stand.
    pub fn note(&mut self, moment: u64, n: &ClerkNote) -> Result<Noted, AllocError>
        ensures ok { IfOk result (λ noted.
            Answers (note_event moment n.now) (Added noted) self.old self.new) }
        ensures site { site_in self.new ≡ site_in self.old }
        ensures err { OnErr result (SameFacts self.old self.new) }
    {
        match n {
            ClerkNote::Saved { table, id } => self.note_saved(moment, *table, *id),
            ClerkNote::Loaded { table, id, text } => { self.note_loaded(moment, *table, *id, text) }
        }
    }

    /// The game as it stands once time was applied.
    fn game_in_time(&self, moment: u64) -> Option<Game>
        ensures { result ≡ game_in_time self.now moment }
    {
        let mut game = same(&self.game);
        if let Some(lapse) = self.due(moment) {
            take(&mut game, lapse.act());
        }
        game
    }

    /// The game that is to be kept once time was applied, with its key.
    fn save(&self, alloc: Global, moment: u64) -> Result<Option<(Key, GameRow)>, AllocError>
        ensures save { IfOk result (λ save. save ≡ save_at self.now moment) }
        ensures run { IfOk result HasRun }
    {
        let Some(game) = self.game_in_time(moment) else {
            return Ok(None);
        };
        if game.ended().is_none() || self.saved {
            return Ok(None);
        }
        let row = self.row_of(alloc, &game)?;
        Ok(Some((self.key(), row)))
    }

    /// The row that is kept of the game of the latest table.
    fn row_of(&self, alloc: Global, game: &Game) -> Result<GameRow, AllocError>
        requires { IsKeepable self.now.seats.items self.now.name game.now }
        ensures { IfOk result (λ row.
            row ≡ row_with self.now.seats.items self.now.name game.now self.now.notes.notes) }
    {
        match row(alloc, &self.seats, &self.name, game, &self.notes) {
            Ok(row) => Ok(row),
            Err(RowError::NoMemory) => Err(AllocError),
            Err(RowError::Differs) => unreachable!(),
        }
    }

    /// What the game of the latest table is kept under.
    fn key(&self) -> Key
        ensures key { result ≡ key_in self.now }
        ensures run { result.run < 2 ^ 63 }
    {
        Key {
            run: self.run,
            room: self.room,
            serial: self.latest,
        }
    }

    /// The game of the latest table is kept.
    fn note_saved(&mut self, moment: u64, table: u32, id: u64) -> Result<Noted, AllocError>
        ensures ok { IfOk result (λ noted.
            Answers (Notes moment (Saved table id)) (Added noted) self.old self.new) }
        ensures site { site_in self.new ≡ site_in self.old }
        ensures err { OnErr result (SameFacts self.old self.new) }
    {
        self.reserve()?;
        self.apply_time(in_time(moment));
        Ok(self.take_saved(moment, table, id))
    }

    /// The same once time was applied.
    fn take_saved(&mut self, moment: u64, table: u32, id: u64) -> Noted
        requires room { HasRoom self.old }
        ensures done { Noting moment (Saved table id) result self.old self.new }
        ensures site { site_in self.new ≡ site_in self.old }
    {
        if !self.is_due(table) {
            return Noted::Nothing;
        }
        let moment = self.stamp_for(moment);
        let what = What::Saved { id };
        self.add(Item { moment, what });
        Noted::Saved
    }

    /// Whether the game of this table is the latest's, has ended and is not kept.
    fn is_due(&self, table: u32) -> bool
        ensures { result ≡ is_due_in self.now table }
    {
        table == self.latest && self.is_over() && !self.saved
    }

    /// Whether this table asks for the kept game with this id.
    fn is_waiting(&self, table: u32, id: u64) -> bool
        ensures { result ≡ is_pending self.now.latest table id self.now.load }
    {
        match self.load {
            Some(asked) => table == self.latest && id == asked,
            None => false,
        }
    }

    /// The kept game comes for which the table asked, or there is none.
    fn note_loaded(
        &mut self,
        moment: u64,
        table: u32,
        id: u64,
        text: &Option<Text>,
    ) -> Result<Noted, AllocError>
        ensures ok { IfOk result (λ noted. Answers (Notes moment (Loaded table id
            (read_text text.now))) (Added noted) self.old self.new) }
        ensures site { site_in self.new ≡ site_in self.old }
        ensures err { OnErr result (SameFacts self.old self.new) }
    {
        if !self.is_waiting(table, id) {
            return self.note_unasked(moment);
        }
        let game = read_kept(self.alloc, text)?;
        self.reserve()?;
        self.apply_time(in_time(moment));
        Ok(self.take_loaded(moment, id, game))
    }

    /// Takes a note of a game for which the table does not ask.
    fn note_unasked(&mut self, moment: u64) -> Result<Noted, AllocError>
        ensures ok { IfOk result (λ noted. (table id : ℕ) (game : Option Finished)
            → is_pending self.old.latest table id self.old.load ≡ false
            → BringsWhole (Notes moment (Loaded table id game))
            → Answers (Notes moment (Loaded table id game)) (Added noted) self.old self.new) }
        ensures site { site_in self.new ≡ site_in self.old }
        ensures err { OnErr result (SameFacts self.old self.new) }
    {
        self.reserve()?;
        self.apply_time(in_time(moment));
        Ok(Noted::Nothing)
    }

    /// Takes a game for which the table asks, once time was applied; or notes that there is none.
    fn take_loaded(&mut self, moment: u64, id: u64, game: Option<LoadedGame>) -> Noted
        requires room { HasRoom self.old }
        requires waits { self.old.load ≡ Some id }
        ensures done { Noting moment (Loaded self.old.latest id game) result self.old self.new }
        ensures site { site_in self.new ≡ site_in self.old }
    {
        let moment = self.stamp_for(moment);
        match game {
            Some(game) => {
                self.load_with(moment, id, game);
                Noted::Loaded
            }
            None => {
                let what = What::NoGame { id };
                self.add(Item { moment, what });
                Noted::NoGame
            }
        }
    }

    /// The table has the game for which it asked.
    fn load_with(&mut self, moment: u64, id: u64, game: LoadedGame)
        requires { HasItem self.old }
        ensures { LoadsGame moment id game self.old self.new }
    {
        self.review = Some(GameReview::new(&game.game()));
        self.loaded = Some(game);
        self.load = None;
        self.stamp = moment;
        let what = What::Loaded { id };
        put(&mut self.items, Item { moment, what });
    }
}
