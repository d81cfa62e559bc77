//! Which calls did a timer accept? Contracts alone speak of them.

ghost use Rattle.std.specs.Prelude.{◌≡◌, [], ◌∷◌};

use crate::timing::TimerCall;
use std::marker::Model;
use std::snapshot::Snapshot;

/// The newest call, on top of the calls before it.
#[cycle(calls)]
#[derive(Drop)]
enum Newest {
    None,
    Call(TimerCall, Snapshot<Calls>),
}

/// The calls that a timer accepted, which contracts see as a list with the newest first.
///
/// It is for contracts alone and has no bytes: a [`Snapshot`] keeps nothing at run time.
#[cycle(calls)]
#[derive(Drop)]
pub(crate) struct Calls {
    newest: Snapshot<Newest>,
}

impl Model for Calls {
    ghost use Rattle.std.specs.Prelude.{List, length};
    ghost use Rattle.std.proofs.Common.{arith};
    ghost use Rattle.hb_timer.specs.declared.timing.TimerCall.{TimerCall};

    ghost Value = { List TimerCall };

    ghost use Rattle.hb_timer.specs.Calls.{calls_of};

    ghost view = { λ c. calls_of c.newest.value };

    ghost size = { length };

    ghost size_decreases = { λ a h. Prim.grind arith };
}

impl Calls {
    /// No call yet.
    pub(crate) fn new() -> Self
        ensures { result ≡ [] }
    {
        Calls {
            newest: Snapshot::of(&Newest::None),
        }
    }

    /// Adds a call as the newest.
    pub(crate) fn add(&mut self, call: TimerCall)
        ensures { self.new ≡ call ∷ self.old }
    {
        self.newest = Snapshot::of(&Newest::Call(call, Snapshot::of(self)));
    }
}
