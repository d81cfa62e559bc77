//! Which call of a form in memory is the next one, and does it fail?

ghost use Rattle.std.specs.Prelude.{◌≡◌, ◌↔◌, IsTrue};
ghost use Rattle.hb_edge.specs.Memory.{IsListed, one_more};

use std::marker::Model;

/// The calls of one method, counted, with the numbers of those that are to fail.
#[derive(Clone, Debug, Drop)]
pub(crate) struct Calls {
    fails: Vec<u64>,
    count: u64,
}

impl Model for Calls {
    ghost use Rattle.hb_edge.specs.Memory.{MemoryCalls};

    ghost Value = { MemoryCalls };

    ghost view = { λ c. record { fails = c.fails.items; count = c.count } };
}

impl Calls {
    /// No calls so far. Those whose numbers, from 1, are listed are to fail.
    pub(crate) fn new(fails: Vec<u64>) -> Self
        ensures { result ≡ record { fails = fails.items; count = 0 } }
    {
        Calls { fails, count: 0 }
    }

    /// Counts one more call, and tells whether it is to fail.
    pub(crate) fn next_fails(&mut self) -> bool
        ensures listed { IsTrue result ↔ IsListed self.old }
        ensures counted { self.new ≡ one_more self.old }
    {
        self.count = self.count.saturating_add(1);
        self.fails.contains(&self.count)
    }
}
