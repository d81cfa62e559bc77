//! What are a turnstile and its passes?

ghost use Rattle.std.specs.Prelude.{◌≡◌, false, IfOk, IfErr};
ghost use Rattle.hb_turnstile.specs.Known.{first_pass, with_mark, Calls, IsSplitOff, Joins};

use crate::machine::Machine;
use crate::plays::{Passes, TurnstileRule};
use crate::steps::{PassSeat, draw, see_joined, serve, take_number, wait_for};
use crate::view::View;
use atomic_table::{Seat, Table};
use std::alloc::Global;
use std::marker::{Brand, Model};
use std::snapshot::Snapshot;
use std::sync::Wait;

/// How many tickets a turnstile gives. The tickets are the numbers below this.
pub const MOST_TICKETS: u64 = 1 << 62;

/// Why a call was refused: all [`MOST_TICKETS`] tickets were given. Each later call by this pass is
/// refused too.
#[derive(Clone, Copy, Debug, PartialEq, Eq)]
pub struct Worn;

/// There was no memory.
#[derive(Clone, Copy, Debug, PartialEq, Eq)]
pub struct NoMemory;

/// A machine that passes call in turn. Threads share it by reference.
///
/// In contracts it is its table, by which its passes know it, and the machine that it began with.
#[derive(Drop)]
pub struct Turnstile<M: Machine> {
    table: Table<Option<M>, View<M::Call, M::Reply>, Snapshot<M>, TurnstileRule<M>, Global>,
}

impl<M: Machine> Model for Turnstile<M> {
    ghost use Rattle.std.specs.Prelude.{◌≡◌};
    ghost use Rattle.hb_turnstile.specs.Known.{Guarded};

    ghost Value = { Guarded M };

    ghost view = { λ t. record {
      table = t.table.shared.table_id;
      start = t.table.shared.key.value;
    } };

    ghost invariant = { λ t. t.table.shared.table_id.words ≡ 2 };
}

/// The right to call a turnstile, one call at a time. It takes no bytes, and may go to another
/// thread.
///
/// In contracts it is what its holder knows: its table, its number, the history that it has seen,
/// and whether it has the mark worn.
#[derive(Drop)]
pub struct Pass<M: Machine> {
    seat: Seat<Option<M>, View<M::Call, M::Reply>>,
}

impl<M: Machine> Model for Pass<M> {
    ghost use Rattle.std.specs.Prelude.{◌≡◌, []};
    ghost use Rattle.hb_turnstile.specs.declared.view.Stage.TheVariants.{Idle};
    ghost use Rattle.hb_turnstile.specs.Known.{Known};

    ghost Value = { Known M.Call M.Reply };

    ghost view = { λ p. record {
      table = p.seat.table_id;
      number = p.seat.me.0.number;
      seen = p.seat.me.0.seen;
      worn = p.seat.me.0.worn;
    } };

    ghost invariant = { λ p. (p.seat.me.0.stage ≡ Idle) × (p.seat.me.1 ≡ []) };
}

impl<M: Machine> Turnstile<M> {
    /// A turnstile round this machine, and its first pass, which has seen nothing.
    ///
    /// It answers `NoMemory` if there is no room for the table. The machine is then dropped.
    pub fn new(alloc: Global, machine: M) -> Result<(Turnstile<M>, Pass<M>), NoMemory>
        ensures start { IfOk result (λ made. made.0.start ≡ machine) }
        ensures pass { IfOk result (λ made. made.1 ≡ first_pass made.0.table) }
    {
        let start = Snapshot::of(&machine);
        let mut slots = Vec::new(alloc);
        if slots.push(Some(machine)).is_err() {
            return Err(NoMemory);
        }
        match Table::new(alloc, &[0, 0], slots, &start) {
            Ok((table, seat)) => Ok((Turnstile { table }, Pass { seat })),
            Err(_) => Err(NoMemory),
        }
    }

    /// Calls the machine, once every ticket that was drawn before has been served.
    ///
    /// The reply is the machine's at the call's place in the one history, which is then at the end
    /// of what the pass has seen. The error is `Worn`, exactly if this call found that all
    /// [`MOST_TICKETS`] tickets were given: the machine is not called then, and the pass has the
    /// mark worn, which is never taken off.
    pub fn call<W: Wait>(
        &self,
        rt: &W,
        pass: &mut Pass<M>,
        call: &M::Call,
    ) -> Result<M::Reply, Worn>
        requires { pass.old.table ≡ self.now.table }
        ensures place { IfOk result
            (λ r. Calls M.turns self.now.start pass.old call.now r pass.new) }
        ensures unmarked { IfOk result (λ _. pass.old.worn ≡ false) }
        ensures worn { IfErr result (λ _. pass.new ≡ with_mark pass.old) }
    {
        let table = &self.table.shared;
        let Some(ticket) = draw(rt, table, &mut pass.seat) else {
            return Err(Worn);
        };
        wait_for::<M, W, Brand>(rt, table, &mut pass.seat, ticket);
        Ok(serve(table, &mut pass.seat, call))
    }

    /// A further pass, which has seen what this one has, and has made no calls. It has the mark
    /// worn if this one has.
    ///
    /// The pass that is split stays as it was, also if the answer is `NoMemory`. A pass takes no
    /// bytes, so this body never gives that answer.
    pub fn split(&self, pass: &mut Pass<M>) -> Result<Pass<M>, NoMemory>
        requires { pass.old.table ≡ self.now.table }
        ensures same { pass.new ≡ pass.old }
        ensures new { IfOk result (λ new. IsSplitOff pass.old new) }
    {
        let table = &self.table.shared;
        let mut seat: PassSeat<M> = table.split_seat::<Passes>(&mut pass.seat);
        take_number(table, &mut seat);
        Ok(Pass { seat })
    }

    /// Takes another pass in. The pass that stays has then seen what either had: the longer of the
    /// two lists. Its number, its own calls and its mark are as before.
    pub fn join(&self, pass: &mut Pass<M>, other: Pass<M>)
        requires pass { pass.old.table ≡ self.now.table }
        requires other { other.table ≡ self.now.table }
        ensures { Joins M.turns self.now.start pass.old other pass.new }
    {
        let Pass { seat } = other;
        let table = &self.table.shared;
        table.join_seat::<Passes>(&mut pass.seat, seat);
        see_joined::<M, Brand>(table, &mut pass.seat);
    }
}
