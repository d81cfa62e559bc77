//! How does the clock of a table stand, as its items tell?

ghost use Rattle.std.specs.Prelude.{◌≡◌, ◌<◌, ◌≤◌, [], ◌∷◌, List, Some, None, if◌then◌else◌, map};
ghost use Rattle.std.specs.List.{range_with_len};
ghost use Rattle.hb_timer.specs.declared.timing.TimerCall.{TimerCall as Call};
ghost use Rattle.hb_timer.specs.declared.timing.TimerCall.TheVariants.{TurnEnds};
ghost use Rattle.hb_timer.specs.Banks.{call_moment, is_running, turn_number};
ghost use Rattle.hb_view.specs.StreamClocks.{bank_at, HasPassed, IsClock};

use arrayvec::ArrayVec;
use hb_timer::{BANK_LIMIT, MOST_SEATS, TimerCall, Timing};

/// The banks as they stand at the greatest moment so far. Unlike a timer, a clock takes each call
/// at each moment, since nothing but the items of a table says which calls there were, and it can
/// be copied.
#[derive(Clone, Copy)]
pub(crate) struct Clock {
    timing: Timing,
    /// The bank of each seat. Those past the last seat are not used.
    banks: [u64; MOST_SEATS],
    /// The greatest moment so far.
    last: u64,
    /// The seat whose turn it is.
    seat: u8,
    running: bool,
}

impl Clock {
    /// A clock in which the turn of the first seat runs.
    pub(crate) fn start(timing: Timing) -> Clock
        ensures { 0 < timing.seats → timing.seats ≤ MOST_SEATS → timing.first < timing.seats
            → IsClock timing [] result }
    {
        Clock {
            timing,
            banks: [timing.base; MOST_SEATS],
            last: timing.start,
            seat: timing.first,
            running: true,
        }
    }

    /// The seat whose time runs, if time runs.
    pub(crate) fn running_seat(&self) -> Option<u8>
        ensures { result ≡ if self.now.running then Some self.now.seat else None }
    {
        if self.running { Some(self.seat) } else { None }
    }

    /// The bank of a seat at a moment. A moment below the greatest one so far counts as that one.
    fn bank_at(&self, seat: u8, moment: u64) -> u64
        requires { seat < MOST_SEATS }
        ensures { result ≡ bank_at self.now seat moment }
    {
        let bank = self.banks[usize::from(seat)];
        if self.running && self.seat == seat {
            bank.saturating_sub(moment.saturating_sub(self.last))
        } else {
            bank
        }
    }

    /// The banks of the first seats at a moment.
    pub(crate) fn banks_at(&self, seats: u8, moment: u64) -> ArrayVec<u64, MOST_SEATS>
        requires { seats ≤ MOST_SEATS }
        ensures { result.items
            ≡ map (λ seat. bank_at self.now seat moment) (range_with_len 0 seats) }
    {
        let mut banks = ArrayVec::new();
        for seat in 0..seats {
            banks.push(self.bank_at(seat, moment));
        }
        banks
    }

    /// The clock at a moment, if it is a clock of some seat.
    fn passed(self, moment: u64) -> Clock
        ensures { self.seat < MOST_SEATS → HasPassed self result moment }
    {
        let mut next = self;
        if usize::from(self.seat) < MOST_SEATS {
            next.banks[usize::from(self.seat)] = self.bank_at(self.seat, moment);
        }
        next.last = moment.max(self.last);
        next
    }

    /// The clock after the end of a turn.
    fn turn_ends(self, moment: u64) -> Clock
        ensures { (of : Timing) (calls : List Call) → IsClock of calls self
            → IsClock of (TurnEnds moment ∷ calls) result }
    {
        let mut next = self.passed(moment);
        if usize::from(next.seat) < MOST_SEATS && next.timing.seats > 0 {
            let seat = usize::from(next.seat);
            next.banks[seat] = BANK_LIMIT.min(next.banks[seat].saturating_add(
                next.timing.per_turn,
            ));
            next.seat = (next.seat + 1) % next.timing.seats;
        }
        next.running = true;
        next
    }

    /// The clock from a moment on at which time begins to run or to stand still.
    fn set_running(self, moment: u64, running: bool) -> Clock
        ensures { (of : Timing) (calls : List Call) (call : Call) → moment ≡ call_moment call
            → turn_number (call ∷ calls) ≡ turn_number calls → running ≡ is_running (call ∷ calls)
            → IsClock of calls self → IsClock of (call ∷ calls) result }
    {
        let mut next = self.passed(moment);
        next.running = running;
        next
    }

    /// The clock after a call.
    pub(crate) fn after(self, call: TimerCall) -> Clock
        ensures { (of : Timing) (calls : List Call) → IsClock of calls self
            → IsClock of (call ∷ calls) result }
    {
        match call {
            TimerCall::TurnEnds(moment) => self.turn_ends(moment),
            TimerCall::Pauses(moment) => self.set_running(moment, false),
            TimerCall::Resumes(moment) => self.set_running(moment, true),
            TimerCall::Stops(moment) => self.set_running(moment, false),
        }
    }
}
