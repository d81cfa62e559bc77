//! What does a timer do at its calls, and what do its readers answer?

ghost use Rattle.std.specs.Prelude.{◌≡◌, ◌<◌, ◌≤◌, [], ◌∷◌, IsTrue, IsFalse, IfSome};
ghost use Rattle.hb_timer.specs.Banks.{bank, deadline, is_running, is_stopped, state_of, IsOnTime, RunsOutAt};

use crate::calls::Calls;
use crate::clock::{Clock, Phase};
use crate::timing::{BANK_LIMIT, MOMENT_LIMIT, MOST_SEATS, TimerCall, Timing};
use std::marker::Model;

/// Whose turn it is, and whether time runs.
#[derive(Clone, Copy, Debug, PartialEq, Eq)]
pub enum TimerState {
    /// It is this seat's turn, and its bank runs.
    Runs(u8),
    /// It is this seat's turn, and time stands still until it is resumed.
    Paused(u8),
    /// Time stands still for good.
    Stopped,
}

/// The banks of seats that take turns.
///
/// Each call that changes a timer names a moment, in milliseconds and at most [`MOMENT_LIMIT`]. One
/// below an earlier moment counts as that one, so time never runs backwards. Which calls a timer
/// takes depends on its state and, while time runs, on its deadline: a caller that does not know
/// these asks [`Timer::state`] and [`Timer::deadline`] first.
#[derive(Drop)]
pub struct Timer {
    timing: Timing,
    clock: Clock,
    calls: Calls,
}

impl Model for Timer {
    ghost use Rattle.hb_timer.specs.Timer.{History, IsKept};

    ghost Value = { History };

    ghost view = { λ t. record { timing = t.timing; calls = t.calls } };

    ghost invariant = { λ t. IsKept t.timing t.calls t.clock };
}

impl Timer {
    /// A timer in which the turn of the seat `first` runs from a moment on.
    ///
    /// The bank of each seat is `base_ms`, and the end of a turn adds `per_turn_ms` to its seat's
    /// bank. Both are in milliseconds and at most [`BANK_LIMIT`]. There are 2 to [`MOST_SEATS`]
    /// seats, and `first` is one of them.
    pub fn new(base_ms: u64, per_turn_ms: u64, seats: u8, first: u8, moment: u64) -> Self
        requires base { base_ms ≤ BANK_LIMIT }
        requires gain { per_turn_ms ≤ BANK_LIMIT }
        requires two_seats { 2 ≤ seats }
        requires most_seats { seats ≤ MOST_SEATS }
        requires first { first < seats }
        requires in_range { moment ≤ MOMENT_LIMIT }
        ensures timing { result.timing
            ≡ record {
              base = base_ms;
              per_turn = per_turn_ms;
              seats = seats;
              first = first;
              start = moment;
            } }
        ensures calls { result.calls ≡ [] }
    {
        Timer {
            timing: Timing {
                base: base_ms,
                per_turn: per_turn_ms,
                seats,
                first,
                start: moment,
            },
            clock: Clock {
                banks: [base_ms; MOST_SEATS],
                last: moment,
                seat: first,
                phase: Phase::Running,
            },
            calls: Calls::new(),
        }
    }

    /// Whose turn it is, and whether time runs.
    pub fn state(&self) -> TimerState
        ensures { result ≡ state_of self.now.timing self.now.calls }
    {
        match self.clock.phase {
            Phase::Running => TimerState::Runs(self.clock.seat),
            Phase::Paused => TimerState::Paused(self.clock.seat),
            Phase::Stopped => TimerState::Stopped,
        }
    }

    /// The bank of a seat at a moment, in milliseconds and at most [`BANK_LIMIT`].
    ///
    /// A moment below the greatest one accepted so far counts as that one. A bank that is used up
    /// is 0.
    #[tactic(auto, using(crate::proofs::Kept::bank_at_within))]
    pub fn bank(&self, seat: u8, moment: u64) -> u64
        requires { seat < self.now.timing.seats }
        ensures exact { result ≡ bank self.now.timing self.now.calls seat moment }
        ensures within { result ≤ BANK_LIMIT }
    {
        self.clock.bank_at(seat, moment)
    }

    /// The moment at which the running bank is used up, or `None` exactly while time is paused or
    /// stopped.
    ///
    /// From this moment on the running bank is 0, and before it more than 0.
    #[tactic(auto, using(crate::proofs::Kept::bank_at_within))]
    pub fn deadline(&self) -> Option<u64>
        ensures exact { result ≡ deadline self.now.timing self.now.calls }
        ensures runs_out { IfSome result (RunsOutAt self.now.timing self.now.calls) }
    {
        match self.clock.phase {
            Phase::Running => {
                let bank = self.clock.bank_at(self.clock.seat, self.clock.last);
                Some(self.clock.last + bank)
            }
            Phase::Paused | Phase::Stopped => None,
        }
    }

    /// Ends the turn: the bank of its seat gains, up to [`BANK_LIMIT`], and the next seat's turn
    /// begins.
    ///
    /// Time runs, and the moment is not past the deadline. At the deadline the bank is 0 before it
    /// gains.
    pub fn turn_ends(&mut self, moment: u64)
        requires running { IsTrue (is_running self.old.calls) }
        requires on_time { IsOnTime self.old.timing self.old.calls moment }
        requires in_range { moment ≤ MOMENT_LIMIT }
        ensures { self.new
            ≡ record self.old { calls = TimerCall.TurnEnds moment ∷ self.old.calls } }
    {
        self.clock.pass_to(moment);
        let seat = usize::from(self.clock.seat);
        self.clock.banks[seat] = BANK_LIMIT.min(self.clock.banks[seat] + self.timing.per_turn);
        self.clock.seat = (self.clock.seat + 1) % self.timing.seats;
        self.calls.add(TimerCall::TurnEnds(moment));
    }

    /// Lets time stand still until it is resumed.
    ///
    /// Time runs, and the moment is not past the deadline.
    pub fn pause(&mut self, moment: u64)
        requires running { IsTrue (is_running self.old.calls) }
        requires on_time { IsOnTime self.old.timing self.old.calls moment }
        requires in_range { moment ≤ MOMENT_LIMIT }
        ensures { self.new ≡ record self.old { calls = TimerCall.Pauses moment ∷ self.old.calls } }
    {
        self.clock.pass_to(moment);
        self.clock.phase = Phase::Paused;
        self.calls.add(TimerCall::Pauses(moment));
    }

    /// Lets time run again in the turn that was paused.
    ///
    /// Time is paused. The pause takes nothing off any bank, however long it was.
    pub fn resume(&mut self, moment: u64)
        requires not_running { IsFalse (is_running self.old.calls) }
        requires not_stopped { IsFalse (is_stopped self.old.calls) }
        requires in_range { moment ≤ MOMENT_LIMIT }
        ensures { self.new ≡ record self.old { calls = TimerCall.Resumes moment ∷ self.old.calls } }
    {
        self.clock.pass_to(moment);
        self.clock.phase = Phase::Running;
        self.calls.add(TimerCall::Resumes(moment));
    }

    /// Lets time stand still for good. No bank gains.
    ///
    /// Time runs or is paused, and the moment is not past the deadline if there is one.
    pub fn stop(&mut self, moment: u64)
        requires not_stopped { IsFalse (is_stopped self.old.calls) }
        requires on_time { IsOnTime self.old.timing self.old.calls moment }
        requires in_range { moment ≤ MOMENT_LIMIT }
        ensures { self.new ≡ record self.old { calls = TimerCall.Stops moment ∷ self.old.calls } }
    {
        self.clock.pass_to(moment);
        self.clock.phase = Phase::Stopped;
        self.calls.add(TimerCall::Stops(moment));
    }
}
