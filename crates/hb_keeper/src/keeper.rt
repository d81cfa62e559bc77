//! What does every keeper of games answer and leave?

ghost use Rattle.std.specs.Prelude.{ℕ, ◌^◌, ◌<◌, List, IfOk, IfErr};
ghost use Rattle.std.specs.declared.option.Option.{Option};
ghost use Rattle.hb_keeper.specs.declared.fails.When.{When};
ghost use Rattle.hb_keeper.specs.KeptGames.{Content, open_run_on, put_on, get_on, of_member_on, IsNumber};
ghost use Rattle.hb_keeper.specs.Told.{Keeps, HasCause, Plans, FaultsAsPlanned, IsFailure, NeverDiffers};

use crate::{GameRow, KeepError, Key, Lines};
use hb_io::Name;

/// Keeps games.
///
/// A call that answers [`KeepError::Fault`] may have done its work. So the caller calls again with
/// the same arguments.
pub trait Keeper {
    /// It tells that it contains this.
    ghost tells: { Self → Content → Type 0 };

    /// What it tells can be relied on: nobody else has written what it keeps, all that was written
    /// has been read as it was written, and no failure has shut it. Once lost, this does not come
    /// back.
    ghost is_sure: { Self → Type 0 };

    /// Which of the calls to come fail, if it tells that.
    ghost plan: { Self → Option (List (ℕ × When)) };

    /// How many faults it has met.
    ghost faults: { Self → ℕ };

    /// Begins a run, and answers its number: one more than that of the last run, from 1 to
    /// 2^63 - 1. It answers [`KeepError::UsedUp`] exactly if the last run has the greatest number.
    fn open_run(&mut self) -> Result<u64, KeepError>
        ensures keeps { is_sure self.new
            → Keeps open_run_on (tells self.old) (tells self.new) result }
        ensures sure { is_sure self.new → is_sure self.old }
        ensures cause { HasCause (faults self.old) (faults self.new) result }
        ensures plan { Plans (plan self.old) (plan self.new) result }
        ensures planned { is_sure self.new
            → FaultsAsPlanned open_run_on (tells self.old) (tells self.new) (plan self.old) result }
        ensures number { IfOk result IsNumber }
        ensures no_key { NeverDiffers result };

    /// Keeps a game under a key that is new, and answers its id: one more than the number of kept
    /// games. If the key is kept with this very game, it answers the kept id.
    ///
    /// It answers [`KeepError::KeyDiffers`] exactly if the key is kept with another game, and
    /// [`KeepError::UsedUp`] exactly if the key is new and 2^63 - 1 games are kept.
    fn put_once(&mut self, key: &Key, row: &GameRow) -> Result<u64, KeepError>
        requires run { key.now.run < 2 ^ 63 }
        ensures keeps { is_sure self.new
            → Keeps (put_on key.now row.now) (tells self.old) (tells self.new) result }
        ensures sure { is_sure self.new → is_sure self.old }
        ensures cause { HasCause (faults self.old) (faults self.new) result }
        ensures plan { Plans (plan self.old) (plan self.new) result }
        ensures planned { is_sure self.new → FaultsAsPlanned (put_on key.now row.now)
            (tells self.old) (tells self.new) (plan self.old) result };

    /// The game with an id, or `None` exactly if no game has it.
    fn get(&mut self, id: u64) -> Result<Option<GameRow>, KeepError>
        ensures keeps { is_sure self.new
            → Keeps (get_on id) (tells self.old) (tells self.new) result }
        ensures sure { is_sure self.new → is_sure self.old }
        ensures cause { HasCause (faults self.old) (faults self.new) result }
        ensures plan { Plans (plan self.old) (plan self.new) result }
        ensures planned { is_sure self.new
            → FaultsAsPlanned (get_on id) (tells self.old) (tells self.new) (plan self.old) result }
        ensures failure { IfErr result IsFailure };

    /// The games in which a name stands, in order of ids, each once.
    fn of_member(&mut self, name: &Name) -> Result<Lines, KeepError>
        ensures keeps { is_sure self.new
            → Keeps (of_member_on name.now) (tells self.old) (tells self.new) result }
        ensures sure { is_sure self.new → is_sure self.old }
        ensures cause { HasCause (faults self.old) (faults self.new) result }
        ensures plan { Plans (plan self.old) (plan self.new) result }
        ensures planned { is_sure self.new → FaultsAsPlanned (of_member_on name.now)
            (tells self.old) (tells self.new) (plan self.old) result }
        ensures failure { IfErr result IsFailure };
}
