//! How do new clients reach a server, and what stays of them?

ghost use Rattle.std.specs.Prelude.{◌≡◌, ◌+◌, ℕ, List, ◌∷◌, ◌++◌, [], ◌≤◌, ◌<◌, ◌↔◌, All, length, Some, IsErr, IfOk, OnOk, OnErr};
ghost use Rattle.std.specs.declared.option.Option.{Option};
ghost use Rattle.hb_edge.specs.Counts.{Counts, OnAccepted, OnLink, is_fault, is_closed, links_in};
ghost use Rattle.hb_edge.specs.Memory.{IsListed, next_answer, after_answer, refused_accept};
ghost use Rattle.hb_edge.specs.Talk.{IsNew};
ghost use Rattle.hb_edge.specs.Telling.{Tells, Keeps, NoMoreBack, FewerBack};

use crate::calls::Calls;
use crate::link::{Link, LinkError};
use std::alloc::{AllocError, Global};
use std::collections::VecDeque;
use std::marker::Model;

/// What a door answers.
#[derive(Clone, Debug, PartialEq, Eq, Drop)]
pub enum Accepted<L> {
    /// A link to a new client.
    Link(L),
    /// Nothing for now.
    Idle,
    /// The door is closed.
    Closed,
}

/// Gives links to clients, and takes back what stays of them.
pub trait Door {
    /// What it gives.
    type Link: Link;

    /// How many faults it has met.
    ghost faults: { Self → ℕ };

    /// How many times it answered Closed.
    ghost closes: { Self → ℕ };

    /// How many links it has given, if the door tells that.
    ghost given: { Self → Option ℕ };

    /// The stubs that were given back, in order, if the door tells them.
    ghost back: { Self → Option (List Self.Link.Stub) };

    /// What the door gives next. A link that it gives is new: it has met no fault, and has given
    /// nothing and was sent nothing.
    fn accept(&mut self) -> Result<Accepted<Self::Link>, LinkError>
        ensures new { OnLink result (λ link. IsNew (Self.Link.talk link) (Self.Link.faults link)) }
        ensures cause { Counts (is_fault result) (faults self.old) (faults self.new) }
        ensures closed { Counts (is_closed result) (closes self.old) (closes self.new) }
        ensures given { Tells (given self.old) (given self.new) (λ links. links + links_in result) }
        ensures back { Keeps (back self.old) (back self.new) }

        // Of the door before the call: so the first accept tells what a server needs for its first
        // `give_back`.
        ensures within { NoMoreBack (given self.old) (back self.old) };

    /// Takes back the stub of a link that it gave. It can't be refused.
    fn give_back(&mut self, stub: <Self::Link as Link>::Stub)
        requires { FewerBack (given self.old) (back self.old) }
        ensures back { Tells (back self.old) (back self.new) (λ stubs. stubs ++ stub ∷ []) }
        ensures given { Keeps (given self.old) (given self.new) }
        ensures cause { faults self.new ≡ faults self.old }
        ensures closed { closes self.new ≡ closes self.old };
}

/// A door over a list in memory, which fails at the accepts that its maker lists. Once the list is
/// used up it answers Closed. It has room for the stubs of all its links from its making.
#[derive(Drop)]
pub struct DoorMemory<L: Link> {
    left: VecDeque<Accepted<L>>,
    given: usize,
    back: Vec<L::Stub>,
    calls: Calls,
    faults: u64,
    closes: u64,
}

impl<L: Link> Model for DoorMemory<L> {
    ghost use Rattle.std.specs.Prelude.{◌+◌, ◌≤◌, All, length, vec_capacity};
    ghost use Rattle.hb_edge.specs.Counts.{OnAccepted};
    ghost use Rattle.hb_edge.specs.Memory.{MemoryDoor};
    ghost use Rattle.hb_edge.specs.Talk.{IsNew};
    ghost use Rattle.hb_edge.specs.declared.door.Accepted.{Accepted};

    ghost Value = { MemoryDoor (Accepted L) L.Stub };

    ghost view = { λ d. record {
      left = d.left.items;
      given = d.given;
      back = d.back.items;
      calls = d.calls;
      faults = d.faults;
      closes = d.closes;
    } };

    ghost invariant = { λ d.
        All (OnAccepted (λ link. IsNew (L.talk link) (L.faults link))) d.left.items
        × (length d.back.items ≤ d.given)
        × (d.given + length d.left.items ≤ vec_capacity d.back) };
}

impl<L: Link + Drop> DoorMemory<L> {
    /// A door that gives this list, whose links are new, and then Closed at each accept. The
    /// accepts whose numbers, from 1, are listed fail, and use up nothing. It answers an error only
    /// if there is no memory for the stubs.
    pub fn new(
        alloc: Global,
        answers: Vec<Accepted<L>>,
        fails: Vec<u64>,
    ) -> Result<Self, AllocError>
        requires { All (OnAccepted (λ link. IsNew (L.talk link) (L.faults link))) answers.items }
        ensures { IfOk result (λ door. door ≡ record {
          left = answers.items;
          given = 0;
          back = [];
          calls = record { fails = fails.items; count = 0 };
          faults = 0;
          closes = 0;
        }) }
    {
        let back = Vec::with_capacity(alloc, answers.len())?;
        Ok(DoorMemory {
            left: VecDeque::from(answers),
            given: 0,
            back,
            calls: Calls::new(fails),
            faults: 0,
            closes: 0,
        })
    }

    /// The stubs that were given back, in order.
    pub fn back(&self) -> &[L::Stub]
        ensures { result.now ≡ self.now.back }
    {
        self.back.as_slice()
    }
}

impl<L: Link + Drop> Door for DoorMemory<L>
where
    L::Stub: Drop,
{
    type Link = L;

    ghost faults = { λ d. d.faults };

    ghost closes = { λ d. d.closes };

    ghost given = { λ d. Some d.given };

    ghost back = { λ d. Some d.back };

    fn accept(&mut self) -> Result<Accepted<L>, LinkError>
        ensures new { OnLink result (λ link. IsNew (L.talk link) (L.faults link)) }
        ensures cause { Counts (is_fault result) self.old.faults self.new.faults }
        ensures closed { Counts (is_closed result) self.old.closes self.new.closes }
        ensures given { self.new.given ≡ self.old.given + links_in result }
        ensures back { self.new.back ≡ self.old.back }
        ensures within { length self.old.back ≤ self.old.given }

        // It fails at the listed accepts and at no other.
        ensures listed { IsErr result ↔ IsListed self.old.calls }
        ensures fault { OnErr result (result ≡ Err LinkError.Fault) }
        ensures answer { IfOk result (λ answer. answer ≡ next_answer self.old.left) }
        ensures ok { OnOk result (self.new ≡ after_answer result self.old) }
        ensures err { OnErr result (self.new ≡ refused_accept self.old) }
    {
        if self.calls.next_fails() {
            self.faults = self.faults.saturating_add(1);
            return Err(LinkError::Fault);
        }
        match self.left.pop_front() {
            Some(Accepted::Link(link)) => {
                self.given += 1;
                Ok(Accepted::Link(link))
            }
            Some(Accepted::Idle) => Ok(Accepted::Idle),
            Some(Accepted::Closed) | None => {
                self.closes = self.closes.saturating_add(1);
                Ok(Accepted::Closed)
            }
        }
    }

    fn give_back(&mut self, stub: L::Stub)
        requires { length self.old.back < self.old.given }
        ensures back { self.new.back ≡ self.old.back ++ stub ∷ [] }
        ensures given { self.new.given ≡ self.old.given }
        ensures cause { self.new.faults ≡ self.old.faults }
        ensures closed { self.new.closes ≡ self.old.closes }
        ensures same { self.new ≡ record self.old { back = self.old.back ++ stub ∷ [] } }
    {
        self.back.push(stub).unwrap();
    }
}
