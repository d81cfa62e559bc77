//! Which keeper needs no disk, and fails at just the calls that its maker names?

ghost use Rattle.std.specs.Prelude.{◌≡◌, ◌≤◌, [], IfOk};
ghost use Rattle.hb_io.specs.Causes.{next_count};
ghost use Rattle.hb_keeper.specs.declared.errors.KeepError.TheVariants.{Fault};
ghost use Rattle.hb_keeper.specs.KeptGames.{open_run_on, put_on, get_on, of_member_on};
ghost use Rattle.hb_keeper.specs.MemoryKeeper.{GoesByPlan};

use crate::kept::Kept;
use crate::{Fails, GameRow, KeepError, Keeper, Key, Lines, When};
use hb_io::Name;
use std::alloc::{AllocError, Global};
use std::marker::Model;

/// Keeps games in memory, and fails at the calls that its maker names.
///
/// It tells its content, and which calls fail.
#[derive(Drop)]
pub struct KeeperMemory {
    kept: Kept,
    fails: Fails,
    faults: u64,
}

impl Model for KeeperMemory {
    ghost use Rattle.hb_keeper.specs.MemoryKeeper.{MemoryKeeper};

    ghost Value = { MemoryKeeper };

    ghost view = { λ k. record { content = k.kept; plan = k.fails; faults = k.faults } };
}

impl KeeperMemory {
    /// A keeper without games, whose last run has this number. Each call that `fails` names answers
    /// [`KeepError::Fault`], and no other call does.
    ///
    /// A call that fails after its work answers [`KeepError::NoMemory`] if it is out of memory for
    /// the work.
    pub fn new(alloc: Global, last_run: u64, fails: Fails) -> Result<KeeperMemory, AllocError>
        ensures { IfOk result (λ k. k ≡ record {
          content = record { last_run = last_run; rows = [] };
          plan = fails;
          faults = 0;
        }) }
    {
        Ok(KeeperMemory {
            kept: Kept::new(alloc, last_run),
            fails,
            faults: 0,
        })
    }

    /// Counts a fault.
    fn fault(&mut self) -> KeepError
        ensures answer { result ≡ Fault }
        ensures content { self.new.content ≡ self.old.content }
        ensures plan { self.new.plan ≡ self.old.plan }
        ensures faults { self.new.faults ≡ next_count self.old.faults }
        ensures later { self.old.faults ≤ self.new.faults }
    {
        self.faults = self.faults.saturating_add(1);
        KeepError::Fault
    }

    fn open_by_plan(&mut self) -> Result<u64, KeepError>
        ensures { GoesByPlan open_run_on self.old self.new result }
    {
        match self.fails.next() {
            None => self.kept.open_run(),
            Some(When::Before) => Err(self.fault()),
            Some(When::After) => match self.kept.open_run() {
                Err(KeepError::NoMemory) => Err(KeepError::NoMemory),
                _ => Err(self.fault()),
            },
        }
    }

    fn put_by_plan(&mut self, key: &Key, row: &GameRow) -> Result<u64, KeepError>
        ensures { GoesByPlan (put_on key.now row.now) self.old self.new result }
    {
        match self.fails.next() {
            None => self.kept.put_once(key, row),
            Some(When::Before) => Err(self.fault()),
            Some(When::After) => match self.kept.put_once(key, row) {
                Err(KeepError::NoMemory) => Err(KeepError::NoMemory),
                _ => Err(self.fault()),
            },
        }
    }

    fn get_by_plan(&mut self, id: u64) -> Result<Option<GameRow>, KeepError>
        ensures { GoesByPlan (get_on id) self.old self.new result }
    {
        match self.fails.next() {
            None => Ok(self.kept.get(id)?),
            Some(_) => Err(self.fault()),
        }
    }

    fn list_by_plan(&mut self, name: &Name) -> Result<Lines, KeepError>
        ensures { GoesByPlan (of_member_on name.now) self.old self.new result }
    {
        match self.fails.next() {
            None => Ok(self.kept.of_member(name)?),
            Some(_) => Err(self.fault()),
        }
    }
}

impl Keeper for KeeperMemory {
    ghost use Rattle.std.specs.Prelude.{Some, ⊤};

    ghost tells = { λ k content. k.content ≡ content };

    ghost is_sure = { λ _. ⊤ };

    ghost plan = { λ k. Some k.plan };

    ghost faults = { λ k. k.faults };

    fn open_run(&mut self) -> Result<u64, KeepError> {
        self.open_by_plan()
    }

    fn put_once(&mut self, key: &Key, row: &GameRow) -> Result<u64, KeepError> {
        self.put_by_plan(key, row)
    }

    fn get(&mut self, id: u64) -> Result<Option<GameRow>, KeepError> {
        self.get_by_plan(id)
    }

    fn of_member(&mut self, name: &Name) -> Result<Lines, KeepError> {
        self.list_by_plan(name)
    }
}
