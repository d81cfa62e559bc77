//! Which call of a stream in memory is the next one, and does it fail?

ghost use Rattle.std.specs.Prelude.{◌≡◌, ◌↔◌, IsErr, OnOk, OnErr, Contains};
ghost use Rattle.hb_io.specs.Causes.{next_count};

use crate::Failed;

/// The calls of one method, counted, with the numbers of those that are to fail.
#[derive(Debug, Drop)]
pub(crate) struct Calls {
    pub(crate) fails: Vec<u64>,
    pub(crate) count: u64,
    pub(crate) faults: u64,
}

impl Calls {
    pub(crate) fn new(fails: Vec<u64>) -> Self
        ensures fails { result.fails.items ≡ fails.items }
        ensures count { result.count ≡ 0 }
        ensures faults { result.faults ≡ 0 }
    {
        Calls {
            fails,
            count: 0,
            faults: 0,
        }
    }

    /// Counts one more call, which fails if its number is listed.
    pub(crate) fn begin(&mut self) -> Result<(), Failed>
        ensures listed { IsErr result ↔ Contains self.old.fails.items (next_count self.old.count) }
        ensures fails { self.new.fails.items ≡ self.old.fails.items }
        ensures count { self.new.count ≡ next_count self.old.count }
        ensures ok { OnOk result (self.new.faults ≡ self.old.faults) }
        ensures err { OnErr result (self.new.faults ≡ next_count self.old.faults) }
    {
        self.count = self.count.saturating_add(1);
        if self.fails.contains(&self.count) {
            return Err(self.fault());
        }
        Ok(())
    }

    /// Counts a fault.
    pub(crate) fn fault(&mut self) -> Failed
        ensures fails { self.new.fails.items ≡ self.old.fails.items }
        ensures count { self.new.count ≡ self.old.count }
        ensures faults { self.new.faults ≡ next_count self.old.faults }
    {
        self.faults = self.faults.saturating_add(1);
        Failed
    }
}
