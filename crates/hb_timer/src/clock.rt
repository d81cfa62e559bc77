//! Which banks and which moment does a timer keep, and how does time pass on them?

ghost use Rattle.std.specs.Prelude.{◌≡◌, ◌<◌, ◌≤◌, ◌-◌, slice_index, IsTrue};

use crate::timing::MOST_SEATS;

/// Whether time runs.
#[derive(Clone, Copy, PartialEq, Eq)]
pub(crate) enum Phase {
    Running,
    Paused,
    Stopped,
}

/// The banks as they stand at the greatest moment accepted so far.
#[derive(Drop)]
pub(crate) struct Clock {
    /// The bank of each seat. Those past the last seat are not used.
    pub(crate) banks: [u64; MOST_SEATS],
    /// The greatest moment accepted so far.
    pub(crate) last: u64,
    /// The seat whose turn it is.
    pub(crate) seat: u8,
    pub(crate) phase: Phase,
}

impl Clock {
    ghost use Rattle.hb_timer.specs.Clock.{bank_at, runs, Passes};

    /// The bank of a seat at a moment. A moment below `last` counts as `last`.
    pub(crate) fn bank_at(&self, seat: u8, moment: u64) -> u64
        requires { seat < MOST_SEATS }
        ensures { result ≡ bank_at self.now seat moment }
    {
        let bank = self.banks[usize::from(seat)];
        if self.phase == Phase::Running && self.seat == seat {
            bank.saturating_sub(moment.saturating_sub(self.last))
        } else {
            bank
        }
    }

    /// Lets time pass up to a moment, and takes it off a running bank. A moment below `last` counts
    /// as `last`.
    pub(crate) fn pass_to(&mut self, moment: u64)
        requires seat { self.old.seat < MOST_SEATS }
        requires in_time { IsTrue (runs self.old.phase)
            → moment - self.old.last ≤ slice_index self.old.banks self.old.seat }
        ensures { Passes self.old self.new moment }
    {
        let now = moment.max(self.last);
        if self.phase == Phase::Running {
            self.banks[usize::from(self.seat)] -= now - self.last;
        }
        self.last = now;
    }
}
