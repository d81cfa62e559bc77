//! How does a keeper answer from a database?

ghost use Rattle.std.specs.Prelude.{◌≡◌, ◌⊎◌, ◌^◌, ◌<◌, ◌≤◌, Some, None, Ok, Err, if◌then◌else◌};
ghost use Rattle.sqlite.specs.Held.{state};
ghost use Rattle.hb_io.specs.Causes.{next_count};
ghost use Rattle.hb_keeper.specs.declared.errors.KeepError.TheVariants.{Fault, KeyDiffers, NoMemory};
ghost use Rattle.hb_keeper.specs.declared.rows.Key.{Key};
ghost use Rattle.hb_keeper.specs.KeptGames.{put_by, same_row};
ghost use Rattle.hb_keeper.specs.Told.{Keeps, HasCause};
ghost use Rattle.hb_sqlite.specs.StoreTables.{Tells};
ghost use Rattle.hb_sqlite.specs.StoreSteps.{IsSure};

use crate::errors::Failure;
use crate::members::lines_of;
use crate::numbers::GREATEST;
use crate::reading::{game, id_of_key, ids_are_used_up};
use crate::runs::{last_run, set_last_run};
use crate::writing::write_game;
use hb_io::Name;
use hb_keeper::{GameRow, KeepError, Keeper, Key, Lines};
use sqlite::{Alter, Connection};
use std::alloc::Global;

/// Keeps games in a database.
///
/// Its answers are those of the tables' content, as long as the disk returns what was written and
/// nobody else writes the store. A refused statement, and a row that no call of this keeper writes,
/// raise its count and are answered as [`KeepError::Fault`]; what the call wrote is taken back.
#[derive(Drop)]
pub struct KeeperSql<S: Alter> {
    pub(crate) conn: Connection<S>,
    pub(crate) alloc: Global,
    pub(crate) faults: u64,
}

impl<S: Alter> KeeperSql<S> {
    /// The error of a failed step. A refusal is counted.
    fn error(&mut self, failure: Failure) -> KeepError
        ensures conn { self.new.conn ≡ self.old.conn }
        ensures kind { (result ≡ Fault) ⊎ (result ≡ NoMemory) }
        ensures later { self.old.faults ≤ self.new.faults }
        ensures fault { result ≡ Fault → self.new.faults ≡ next_count self.old.faults }
        ensures kept { result ≡ NoMemory → self.new.faults ≡ self.old.faults }
    {
        match failure {
            Failure::Refused => {
                self.faults = self.faults.saturating_add(1);
                KeepError::Fault
            }
            Failure::NoMemory => KeepError::NoMemory,
        }
    }

    /// Keeps a game under a key that is new.
    fn append(&mut self, key: &Key, row: &GameRow) -> Result<u64, KeepError>
        requires { key.now.run < 2 ^ 63 }
        ensures keeps { IsSure (state S.Store self.new.conn) → Keeps (put_by None key.now row.now)
            (Tells (state S.Store self.old.conn)) (Tells (state S.Store self.new.conn)) result }
        ensures sure { IsSure (state S.Store self.new.conn) → IsSure (state S.Store self.old.conn) }
        ensures cause { HasCause self.old.faults self.new.faults result }
    {
        let failure = match write_game(&mut self.conn, key, row) {
            Ok(id) => return Ok(id),
            Err(failure) => failure,
        };
        match ids_are_used_up(&mut self.conn) {
            Ok(true) => Err(KeepError::UsedUp),
            _ => Err(self.error(failure)),
        }
    }

    /// The answer for a key that is kept under this id, whichever key it is.
    fn again(&mut self, id: u64, row: &GameRow) -> Result<u64, KeepError>
        ensures keeps { IsSure (state S.Store self.new.conn) → (key : Key)
            → Keeps (put_by (Some id) key row.now)
            (Tells (state S.Store self.old.conn)) (Tells (state S.Store self.new.conn)) result }
        ensures sure { IsSure (state S.Store self.new.conn) → IsSure (state S.Store self.old.conn) }
        ensures cause { HasCause self.old.faults self.new.faults result }
    {
        if id > GREATEST {
            return Err(self.error(Failure::Refused));
        }
        match game(&mut self.conn, self.alloc, id) {
            Ok(Some(kept)) => same_or_differs(id, &kept, row),
            Ok(None) => Err(self.error(Failure::Refused)),
            Err(failure) => Err(self.error(failure)),
        }
    }
}

fn same_or_differs(id: u64, kept: &GameRow, row: &GameRow) -> Result<u64, KeepError>
    ensures { result ≡ (if same_row kept.now row.now then Ok id else Err (KeyDiffers id)) }
{
    if *kept == *row {
        return Ok(id);
    }
    Err(KeepError::KeyDiffers(id))
}

impl<S: Alter> Keeper for KeeperSql<S> {
    ghost tells = { λ k content. Tells (state S.Store k.conn) content };

    ghost is_sure = { λ k. IsSure (state S.Store k.conn) };

    ghost plan = { λ _. None };

    ghost faults = { λ k. k.faults };

    fn open_run(&mut self) -> Result<u64, KeepError> {
        let last = match last_run(&mut self.conn) {
            Ok(last) => last,
            Err(failure) => return Err(self.error(failure)),
        };
        if last >= GREATEST {
            return Err(KeepError::UsedUp);
        }
        let run = last + 1;
        match set_last_run(&mut self.conn, run) {
            Ok(_) => Ok(run),
            Err(error) => Err(self.error(Failure::from(error))),
        }
    }

    fn put_once(&mut self, key: &Key, row: &GameRow) -> Result<u64, KeepError> {
        match id_of_key(&mut self.conn, key) {
            Ok(None) => self.append(key, row),
            Ok(Some(id)) => self.again(id, row),
            Err(failure) => Err(self.error(failure)),
        }
    }

    fn get(&mut self, id: u64) -> Result<Option<GameRow>, KeepError> {
        if id > GREATEST {
            return Ok(None);
        }
        match game(&mut self.conn, self.alloc, id) {
            Ok(row) => Ok(row),
            Err(failure) => Err(self.error(failure)),
        }
    }

    fn of_member(&mut self, name: &Name) -> Result<Lines, KeepError> {
        match lines_of(&mut self.conn, self.alloc, name) {
            Ok(lines) => Ok(lines),
            Err(failure) => Err(self.error(failure)),
        }
    }
}
