//! Which atomic steps do a call, a split and a join take on the seat of a pass?

ghost use Rattle.std.specs.Prelude.{◌≡◌, true, None, Some, IfSome, IfNone};
ghost use Rattle.hb_turnstile.specs.declared.view.Stage.TheVariants.{New, Idle, Waiting};
ghost use Rattle.hb_turnstile.specs.History.{IsLegal};
ghost use Rattle.hb_turnstile.specs.Rule.{IsSeated, HasDrawn, IsMarked, Finds, IsInside, HasTurned, HasHandedOn, IsNumbered, Meets};

use crate::machine::Machine;
use crate::plays::{
    Draw, HandOn, Look, SeeJoined, SeeTicket, Start, TakeNumber, Told, TurnstileRule,
};
use crate::turnstile::MOST_TICKETS;
use crate::view::View;
use atomic_table::{Seat, Shared};
use std::marker::Brand;
use std::snapshot::Snapshot;
use std::sync::Wait;

/// The word with the ticket that is given next.
const TICKET: usize = 0;

/// The word with the ticket that is served.
const SERVING: usize = 1;

/// The slot of the machine, which is in it while no ticket's call is in progress.
const MACHINE: usize = 0;

/// The words and the slot of a turnstile, as threads share them.
pub(crate) type SharedTable<M> = Shared<
    Option<M>,
    View<<M as Machine>::Call, <M as Machine>::Reply>,
    Snapshot<M>,
    TurnstileRule<M>,
>;

/// The seat of a pass at that table.
pub(crate) type PassSeat<M> = Seat<Option<M>, View<<M as Machine>::Call, <M as Machine>::Reply>>;

/// Draws a ticket. There is none if all were given, and the pass is then marked.
pub(crate) fn draw<M: Machine, W: Wait>(
    rt: &W,
    table: &SharedTable<M>,
    seat: &mut PassSeat<M>,
) -> Option<u64>
    requires own { IsSeated seat.old.table_id table.now.table_id }
    requires idle { seat.old.me.0.stage ≡ Idle }
    ensures own { seat.new.table_id ≡ seat.old.table_id }
    ensures some { IfSome result (λ t. HasDrawn t seat.old.me seat.new.me) }
    ensures none { IfNone result (IsMarked seat.old.me seat.new.me) }
    ensures worn { seat.old.me.0.worn ≡ true → result ≡ None }
{
    for _ in rt.forever() {
        let ticket = table.load::<SeeTicket<M>>(seat, TICKET);
        if ticket >= MOST_TICKETS {
            return None;
        }
        if table.compare_exchange::<Draw<M>>(seat, TICKET, ticket, ticket + 1) == ticket {
            return Some(ticket);
        }
    }
    unreachable!()
}

/// Waits until the ticket that the pass drew is served.
pub(crate) fn wait_for<M: Machine, W: Wait, N: Start<M>>(
    rt: &W,
    table: &SharedTable<M>,
    seat: &mut PassSeat<M>,
    ticket: u64,
)
    requires own { IsSeated seat.old.table_id table.now.table_id }
    requires waiting { seat.old.me.0.stage ≡ Waiting ticket }
    requires start { N.start ≡ Some table.now.key.value }
    ensures own { seat.new.table_id ≡ seat.old.table_id }
    ensures found { Finds M.turns table.now.key.value seat.old.me seat.new.me }
{
    for _ in rt.forever() {
        let served = table.load::<Look<M, N>>(seat, SERVING);
        if served == ticket {
            return;
        }
        // The sleep sees the low 32 bits alone: a pass could miss its turn only behind 2^32 others
        // that wait.
        table.park(rt, SERVING, (served % (1 << 32)) as u32);
    }
    unreachable!()
}

/// Takes the machine, lets it take its turn, gives it back and hands on.
pub(crate) fn serve<M: Machine>(
    table: &SharedTable<M>,
    seat: &mut PassSeat<M>,
    call: &M::Call,
) -> M::Reply
    requires own { IsSeated seat.old.table_id table.now.table_id }
    requires inside { IsInside M.turns table.now.key.value seat.old.me }
    ensures own { seat.new.table_id ≡ seat.old.table_id }
    ensures legal { IsLegal M.turns table.now.key.value seat.new.me.0.seen }
    ensures handed { HasHandedOn seat.old.me call.now result seat.new.me }
{
    let Some(mut machine) = table.exchange(seat, MACHINE, None) else {
        unreachable!()
    };
    let reply = machine.turn(call);
    drop(table.exchange(seat, MACHINE, Some(machine)));
    hand_on::<M, Brand>(table, seat, call, &reply);
    reply
}

/// Serves the next ticket, and wakes those who wait. The call and its reply are for the proof
/// alone.
fn hand_on<M: Machine, N: Told<M::Call, M::Reply>>(
    table: &SharedTable<M>,
    seat: &mut PassSeat<M>,
    call: &M::Call,
    reply: &M::Reply,
)
    requires own { IsSeated seat.old.table_id table.now.table_id }
    requires told { N.told ≡ Some (call.now, reply.now) }
    requires turned { HasTurned M.turns table.now.key.value seat.old.me call.now reply.now }
    ensures own { seat.new.table_id ≡ seat.old.table_id }
    ensures legal { IsLegal M.turns table.now.key.value seat.new.me.0.seen }
    ensures handed { HasHandedOn seat.old.me call.now reply.now seat.new.me }
{
    table.fetch_add::<HandOn<M, N>>(seat, SERVING, 1);
    table.wake_all(SERVING);
}

/// Gives a new pass its number.
pub(crate) fn take_number<M: Machine>(table: &SharedTable<M>, seat: &mut PassSeat<M>)
    requires own { IsSeated seat.old.table_id table.now.table_id }
    requires new { seat.old.me.0.stage ≡ New }
    ensures own { seat.new.table_id ≡ seat.old.table_id }
    ensures numbered { IsNumbered seat.old.me seat.new.me }
{
    table.load::<TakeNumber<M>>(seat, TICKET);
}

/// Lets a pass see what a pass that was joined into it had seen.
pub(crate) fn see_joined<M: Machine, N: Start<M>>(table: &SharedTable<M>, seat: &mut PassSeat<M>)
    requires own { IsSeated seat.old.table_id table.now.table_id }
    requires idle { seat.old.me.0.stage ≡ Idle }
    requires start { N.start ≡ Some table.now.key.value }
    ensures own { seat.new.table_id ≡ seat.old.table_id }
    ensures met { Meets M.turns table.now.key.value seat.old.me seat.new.me }
{
    table.load::<SeeJoined<M, N>>(seat, TICKET);
}
