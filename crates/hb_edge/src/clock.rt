//! What moment is it?

ghost use Rattle.std.specs.Prelude.{◌≡◌, ◌<◌, ℕ, length, Some, None};
ghost use Rattle.std.specs.declared.option.Option.{Option};
ghost use Rattle.hb_edge.specs.Memory.{moment_at};
ghost use Rattle.hb_edge.specs.Telling.{GoesOn};

use std::marker::Model;
use std::time;
use std::time::Instant;

/// Tells the moment.
pub trait Clock {
    /// The moments that it will answer, by the number of the answer from 0, if the clock tells
    /// them.
    ghost coming: { Self → Option (ℕ → ℕ) };

    /// The moment, in milliseconds from a beginning of the clock's own.
    fn now(&mut self) -> u64
        ensures { GoesOn (coming self.old) (coming self.new) result };
}

/// A clock over moments in memory, of which the last is repeated. Contracts see it as the moments
/// that are left.
#[derive(Clone, Debug, Drop)]
pub struct ClockMemory {
    moments: Vec<u64>,
    at: usize,
}

impl Model for ClockMemory {
    ghost use Rattle.std.specs.Prelude.{◌<◌, List, ℕ, length, drop};

    ghost Value = { List ℕ };

    ghost view = { λ c. drop c.at c.moments.items };

    ghost invariant = { λ c. c.at < length c.moments.items };
}

impl ClockMemory {
    /// A clock that answers these moments in order, and then the last of them at each call.
    pub fn new(moments: Vec<u64>) -> Self
        requires { 0 < length moments.items }
        ensures { result ≡ moments.items }
    {
        ClockMemory { moments, at: 0 }
    }
}

impl Clock for ClockMemory {
    ghost coming = { λ c. Some (moment_at c) };

    fn now(&mut self) -> u64 {
        let moment = self.moments[self.at];
        if self.at + 1 < self.moments.len() {
            self.at += 1;
        }
        moment
    }
}

/// The system's clock, in milliseconds since its making. It never goes back, also if somebody sets
/// the time of day. If the system's clock can't be read it answers the last moment again. It tells
/// nothing. Clones count from the same beginning.
#[derive(Clone, Debug, Drop)]
pub struct SystemClock<R> {
    runtime: R,
    // None if the system's clock could not be read at the making.
    start: Option<Instant>,
    // The moment of the last answer.
    last: u64,
}

impl<R: time::Clock> SystemClock<R> {
    /// A clock that begins now.
    pub fn new(runtime: R) -> Self {
        let start = Instant::now(&runtime).ok();
        SystemClock {
            runtime,
            start,
            last: 0,
        }
    }
}

impl<R: time::Clock> Clock for SystemClock<R> {
    ghost coming = { λ _. None };

    fn now(&mut self) -> u64 {
        if let Some(start) = self.start
            && let Ok(time) = start.elapsed(&self.runtime)
        {
            self.last = u64::try_from(time.as_millis()).unwrap_or(u64::MAX);
        }
        self.last
    }
}
