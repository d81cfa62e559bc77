//! How are texts carried to one client and from it?

ghost use Rattle.std.specs.Prelude.{◌≡◌, ◌↔◌, [], ◌∷◌, ◌++◌, ℕ, List, IfOk, OnOk, OnErr, IsTrue};
ghost use Rattle.std.specs.declared.option.Option.{Option};
ghost use Rattle.hb_edge.specs.Counts.{Counts, is_fault};
ghost use Rattle.hb_edge.specs.Memory.{IsListed, memory_talk, next_got, after_gift, after_text, refused_receive, refused_send};
ghost use Rattle.hb_edge.specs.Talk.{Talk, after_recv, after_send};
ghost use Rattle.hb_edge.specs.Telling.{Tells};

use crate::calls::Calls;
use hb_io::{Got, Text};
use std::alloc::Global;
use std::error::Error;
use std::fmt;
use std::marker::Model;

/// Why a link or a door gave no answer.
#[derive(Clone, Copy, Debug, PartialEq, Eq, Hash)]
pub enum LinkError {
    /// The outside failed in this call, and the count of faults rose.
    Fault,
    /// There was no memory.
    NoMemory,
}

impl fmt::Display for LinkError {
    ghost use Rattle.std.specs.Prelude.{Some, codes};
    ghost use Rattle.hb_edge.specs.declared.link.LinkError.TheVariants.{Fault, NoMemory};

    ghost output = { elim [
      | Fault ↦ Some (codes "the link failed")
      | NoMemory ↦ Some (codes "out of memory")
    ] };

    fn fmt<W: fmt::Write>(&self, f: &mut fmt::Formatter<W>) -> fmt::Result {
        f.write_str(match self {
            LinkError::Fault => "the link failed",
            LinkError::NoMemory => "out of memory",
        })
    }
}

impl Error for LinkError {}

/// Carries texts to one client and from it.
pub trait Link {
    /// What stays of a link that was closed.
    type Stub;

    /// What it gave and was sent, if it tells that.
    ghost talk: { Self → Option Talk };

    /// How many faults it has met since it was made.
    ghost faults: { Self → ℕ };

    /// What the link of a stub gave and was sent, if the stub tells that.
    ghost stub_talk: { Self.Stub → Option Talk };

    /// How many faults the link of a stub had met since it was made.
    ghost stub_faults: { Self.Stub → ℕ };

    /// What the link gives next. An error gives nothing and uses up nothing.
    fn recv(&mut self) -> Result<Got, LinkError>
        ensures talk { Tells (talk self.old) (talk self.new) (after_recv result) }
        ensures cause { Counts (is_fault result) (faults self.old) (faults self.new) };

    /// Sends a text. After an error the text counts as not sent.
    fn send(&mut self, text: &str) -> Result<(), LinkError>
        ensures talk { Tells (talk self.old) (talk self.new) (after_send text.now result) }
        ensures cause { Counts (is_fault result) (faults self.old) (faults self.new) };

    /// Ends the link. It takes no memory and can't be refused.
    fn close(self) -> Self::Stub
        ensures talk { stub_talk result ≡ talk self }
        ensures faults { stub_faults result ≡ faults self };
}

/// A link over a list in memory, which fails at the calls that its maker lists. Once the list is
/// used up it answers Closed.
#[derive(Debug, Drop)]
pub struct LinkMemory {
    alloc: Global,
    gots: Vec<Got>,
    at: usize,
    ended: u64,
    sent: Vec<Text>,
    receives: Calls,
    sends: Calls,
    faults: u64,
}

impl Model for LinkMemory {
    ghost use Rattle.std.specs.Prelude.{◌≡◌, ◌<◌, ◌≤◌, length, take, drop};
    ghost use Rattle.hb_edge.specs.Memory.{MemoryLink};

    ghost Value = { MemoryLink };

    ghost view = { λ l. record {
      left = drop l.at l.gots.items;
      gave = take l.at l.gots.items;
      ended = l.ended;
      sent = l.sent.items;
      receives = l.receives;
      sends = l.sends;
      faults = l.faults;
    } };

    ghost invariant = { λ l. (l.at ≤ length l.gots.items)
        × (l.at < length l.gots.items → l.ended ≡ 0) };
}

impl LinkMemory {
    /// A link that gives this list, and then Closed at each receive. The receives and the sends
    /// whose numbers, from 1, are listed fail, and use up nothing.
    pub fn new(alloc: Global, gots: Vec<Got>, receive_fails: Vec<u64>, send_fails: Vec<u64>) -> Self
        ensures { result ≡ record {
          left = gots.items;
          gave = [];
          ended = 0;
          sent = [];
          receives = record { fails = receive_fails.items; count = 0 };
          sends = record { fails = send_fails.items; count = 0 };
          faults = 0;
        } }
    {
        LinkMemory {
            alloc,
            gots,
            at: 0,
            ended: 0,
            sent: Vec::new(alloc),
            receives: Calls::new(receive_fails),
            sends: Calls::new(send_fails),
            faults: 0,
        }
    }

    /// The texts that it was sent.
    pub fn sent(&self) -> &[Text]
        ensures { result.now ≡ self.now.sent }
    {
        self.sent.as_slice()
    }

    /// How many calls failed, up to the largest `u64`.
    pub fn faults(&self) -> u64
        ensures { result ≡ self.now.faults }
    {
        self.faults
    }
}

impl Link for LinkMemory {
    /// The link itself, which still tells all.
    type Stub = LinkMemory;

    ghost talk = { memory_talk };

    ghost faults = { λ l. l.faults };

    ghost stub_talk = { memory_talk };

    ghost stub_faults = { λ l. l.faults };

    fn recv(&mut self) -> Result<Got, LinkError>
        ensures talk { Tells (memory_talk self.old) (memory_talk self.new) (after_recv result) }
        ensures cause { Counts (is_fault result) self.old.faults self.new.faults }

        // It fails at the listed receives and at no other.
        ensures listed { IsTrue (is_fault result) ↔ IsListed self.old.receives }
        ensures given { IfOk result (λ got. got ≡ next_got self.old.left) }
        ensures ok { OnOk result (self.new ≡ after_gift self.old) }
        ensures err { OnErr result (self.new ≡ refused_receive (is_fault result) self.old) }
    {
        if self.receives.next_fails() {
            self.faults = self.faults.saturating_add(1);
            return Err(LinkError::Fault);
        }
        let Some(next) = self.gots.get(self.at) else {
            self.ended = self.ended.saturating_add(1);
            return Ok(Got::Closed);
        };
        let Ok(got) = next.clone() else {
            return Err(LinkError::NoMemory);
        };
        self.at += 1;
        Ok(got)
    }

    fn send(&mut self, text: &str) -> Result<(), LinkError>
        ensures talk { Tells (memory_talk self.old) (memory_talk self.new)
            (after_send text.now result) }
        ensures cause { Counts (is_fault result) self.old.faults self.new.faults }

        // It fails at the listed sends and at no other.
        ensures listed { IsTrue (is_fault result) ↔ IsListed self.old.sends }
        ensures ok { OnOk result (self.new ≡ after_text text.now self.old) }
        ensures err { OnErr result (self.new ≡ refused_send (is_fault result) self.old) }
    {
        if self.sends.next_fails() {
            self.faults = self.faults.saturating_add(1);
            return Err(LinkError::Fault);
        }
        let Ok(copy) = Text::copy_of(self.alloc, text) else {
            return Err(LinkError::NoMemory);
        };
        if self.sent.push(copy).is_err() {
            return Err(LinkError::NoMemory);
        }
        Ok(())
    }

    fn close(self) -> LinkMemory
        ensures talk { memory_talk result ≡ memory_talk self }
        ensures faults { result.faults ≡ self.faults }
        ensures same { result ≡ self }
    {
        self
    }
}
