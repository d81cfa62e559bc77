//! What does each atomic step tell the pass that takes it? The types here name facts for the
//! proofs, and have no values.

ghost use Rattle.std.specs.Prelude.{Option, None};
ghost use Rattle.hb_turnstile.specs.Rule.{SeesTicket, Draws, Looks, HandsOn, TakesNumber, SeesJoined, newcomer, informed, spent};

use crate::machine::Machine;
use crate::view::View;
use atomic_table::{Join, Play, Split, TableRule};
use std::marker::{Brand, PhantomData};
use std::snapshot::Snapshot;

/// The rule of a turnstile's table, which holds between any two steps. It is told the machine at
/// the start.
pub(crate) struct TurnstileRule<M> {
    machine: PhantomData<M>,
}

impl<M: Machine> TableRule<Option<M>, View<M::Call, M::Reply>, Snapshot<M>> for TurnstileRule<M> {
    ghost use Rattle.hb_turnstile.specs.Rule.{IsConsistent, first_view};

    ghost holds = { λ start. IsConsistent M.turns start.value };

    ghost first = { λ _. first_view };
}

/// A load of the ticket word before a ticket is drawn.
pub(crate) struct SeeTicket<M> {
    machine: PhantomData<M>,
}

impl<M: Machine> Play<Option<M>, View<M::Call, M::Reply>> for SeeTicket<M> {
    ghost then = { SeesTicket };
}

/// A compare and exchange on the ticket word, from the ticket that was loaded to the next.
pub(crate) struct Draw<M> {
    machine: PhantomData<M>,
}

impl<M: Machine> Play<Option<M>, View<M::Call, M::Reply>> for Draw<M> {
    ghost then = { Draws };
}

/// The machine that a turnstile began with. A play is told neither the key of the table nor an
/// argument, so the proof of each call picks the machine.
pub(crate) trait Start<M> {
    ghost start: { Option M };
}

impl<M> Start<M> for Brand {
    ghost start = { None };
}

/// A load of the serving word by a pass that waits.
pub(crate) struct Look<M, N> {
    machine: PhantomData<(M, N)>,
}

impl<M: Machine, N: Start<M>> Play<Option<M>, View<M::Call, M::Reply>> for Look<M, N> {
    ghost then = { Looks M.turns N.start };
}

/// The call that is handed on, with its reply. The proof of each call picks them.
pub(crate) trait Told<C, R> {
    ghost told: { Option (C × R) };
}

impl<C, R> Told<C, R> for Brand {
    ghost told = { None };
}

/// An addition of 1 to the serving word.
pub(crate) struct HandOn<M, N> {
    machine: PhantomData<(M, N)>,
}

impl<M: Machine, N: Told<M::Call, M::Reply>> Play<Option<M>, View<M::Call, M::Reply>>
    for HandOn<M, N> {
    ghost then = { HandsOn N.told };
}

/// The load by which a new pass gets its number.
pub(crate) struct TakeNumber<M> {
    machine: PhantomData<M>,
}

impl<M: Machine> Play<Option<M>, View<M::Call, M::Reply>> for TakeNumber<M> {
    ghost then = { TakesNumber };
}

/// The load after a join.
pub(crate) struct SeeJoined<M, N> {
    machine: PhantomData<(M, N)>,
}

impl<M: Machine, N: Start<M>> Play<Option<M>, View<M::Call, M::Reply>> for SeeJoined<M, N> {
    ghost then = { SeesJoined M.turns N.start };
}

/// How a view is cut in two, and how two views are put together.
pub(crate) struct Passes;

impl<C, R> Split<View<C, R>> for Passes {
    ghost left = { λ v. v };

    ghost right = { newcomer };
}

impl<C, R> Join<View<C, R>> for Passes {
    ghost both = { informed };

    ghost spent = { spent };
}
