//! What takes bytes, and what is known of the bytes that it holds?

ghost use Rattle.std.specs.Prelude.{◌≡◌, ◌<◌, ◌++◌, ℕ, List, [], length, min, take, Some, IsErr, IfOk, OnErr};
ghost use Rattle.std.specs.declared.option.Option.{Option};
ghost use Rattle.std.specs.Io.{WritesAtMost};
ghost use Rattle.std.specs.Io.KnownBytes.{WriteAppends};
ghost use Rattle.hb_io.specs.Causes.{HasCause};
ghost use Rattle.hb_io.specs.Memory.{after_call, after_fault, IsListed};

use crate::Failed;
use crate::calls::Calls;
use std::alloc::Global;
use std::marker::Model;

/// Takes bytes, piece by piece.
pub trait Sink {
    /// The bytes that it holds, if the sink tells them.
    ghost held: { Self → Option (List ℕ) };

    /// How many faults it has met.
    ghost faults: { Self → ℕ };

    /// Takes bytes from the front of `piece`, and answers how many: at least one, unless `piece` is
    /// empty. A call that fails takes nothing.
    fn write(&mut self, piece: &[u8]) -> Result<usize, Failed>
        ensures bound { WritesAtMost result piece.now }
        ensures progress { 0 < length piece.now → IfOk result (λ count. 0 < count) }
        ensures bytes { WriteAppends (held self.old) (held self.new) result piece.now }
        ensures cause { HasCause (faults self.old) (faults self.new) result };
}

/// A sink that keeps its bytes in memory, takes them in pieces, and fails at the calls that its
/// maker lists.
#[derive(Debug, Drop)]
pub struct SinkMemory {
    bytes: Vec<u8>,
    piece_len: usize,
    calls: Calls,
}

impl Model for SinkMemory {
    ghost use Rattle.std.specs.Prelude.{◌<◌};
    ghost use Rattle.hb_io.specs.Memory.{MemoryStream};

    ghost Value = { MemoryStream };

    ghost view = { λ s. record {
      bytes = s.bytes.items;
      piece_len = s.piece_len;
      fails = s.calls.fails.items;
      calls = s.calls.count;
      faults = s.calls.faults;
    } };

    ghost invariant = { λ s. 0 < s.piece_len };
}

impl SinkMemory {
    /// An empty sink that takes at most `piece_len` bytes in a call. Each call whose number, from
    /// 1, is in `fails` fails, and takes nothing.
    pub fn new(alloc: Global, piece_len: usize, fails: Vec<u64>) -> Self
        requires { 0 < piece_len }
        ensures { result ≡ record {
          bytes = [];
          piece_len = piece_len;
          fails = fails.items;
          calls = 0;
          faults = 0;
        } }
    {
        SinkMemory {
            bytes: Vec::new(alloc),
            piece_len,
            calls: Calls::new(fails),
        }
    }

    /// The bytes that it holds.
    pub fn as_slice(&self) -> &[u8]
        ensures { result.now ≡ self.now.bytes }
    {
        self.bytes.as_slice()
    }

    /// The bytes that it held.
    pub fn into_vec(self) -> Vec<u8>
        ensures { result.items ≡ self.bytes }
    {
        self.bytes
    }

    /// How many calls failed.
    pub fn faults(&self) -> u64
        ensures { result ≡ self.now.faults }
    {
        self.calls.faults
    }
}

impl Sink for SinkMemory {
    ghost held = { λ s. Some s.bytes };

    ghost faults = { λ s. s.faults };

    /// A call fails too if there is no memory for the bytes that it would take.
    fn write(&mut self, piece: &[u8]) -> Result<usize, Failed>
        ensures bound { WritesAtMost result piece.now }
        ensures progress { 0 < length piece.now → IfOk result (λ count. 0 < count) }
        ensures bytes { WriteAppends (Some self.old.bytes) (Some self.new.bytes) result piece.now }
        ensures cause { HasCause self.old.faults self.new.faults result }

        // It fails at the listed calls, and at others only if it is out of memory.
        ensures listed { IsListed self.old → IsErr result }
        ensures count { IfOk result (λ n. n ≡ min (length piece.now) self.old.piece_len) }
        ensures taken { IfOk result (λ n.
            self.new ≡ after_call self.old (self.old.bytes ++ take n piece.now)) }
        ensures err { OnErr result (self.new ≡ after_fault self.old) }
    {
        self.calls.begin()?;
        let count = piece.len().min(self.piece_len);
        if self.bytes.extend_from_slice(&piece[..count]).is_err() {
            return Err(self.calls.fault());
        }
        Ok(count)
    }
}
