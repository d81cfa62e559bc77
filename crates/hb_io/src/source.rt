//! What gives bytes, and what is known of the bytes that it has left?

ghost use Rattle.std.specs.Prelude.{◌≡◌, ◌<◌, ◌↔◌, ◌++◌, ℕ, List, length, min, take, drop, Some, IsErr, IfOk, OnErr};
ghost use Rattle.std.specs.declared.option.Option.{Option};
ghost use Rattle.std.specs.Io.{ReadsAtMost};
ghost use Rattle.std.specs.Io.KnownBytes.{ReadConsumes};
ghost use Rattle.hb_io.specs.Causes.{HasCause};
ghost use Rattle.hb_io.specs.Memory.{after_call, after_fault, IsListed};

use crate::Failed;
use crate::calls::Calls;
use std::marker::Model;

/// Gives bytes, piece by piece.
pub trait Source {
    /// The bytes that are left, if the source tells them.
    ghost left: { Self → Option (List ℕ) };

    /// How many faults it has met.
    ghost faults: { Self → ℕ };

    /// Reads the next bytes into the front of `buf`, and answers how many. 0 for a buffer that is
    /// not empty is the end of the input. A call that fails uses up nothing.
    fn read(&mut self, buf: &mut [u8]) -> Result<usize, Failed>
        ensures bound { ReadsAtMost result buf.new }
        ensures bytes { ReadConsumes (left self.old) (left self.new) result buf.new }
        ensures cause { HasCause (faults self.old) (faults self.new) result };
}

/// A source over bytes in memory, which gives them in pieces, and fails at the calls
/// that its maker lists.
#[derive(Debug, Drop)]
pub struct SourceMemory {
    bytes: Vec<u8>,
    at: usize,
    piece_len: usize,
    calls: Calls,
}

impl Model for SourceMemory {
    ghost use Rattle.std.specs.Prelude.{◌<◌, ◌≤◌, length, drop};
    ghost use Rattle.hb_io.specs.Memory.{MemoryStream};

    ghost Value = { MemoryStream };

    ghost view = { λ s. record {
      bytes = drop s.at s.bytes.items;
      piece_len = s.piece_len;
      fails = s.calls.fails.items;
      calls = s.calls.count;
      faults = s.calls.faults;
    } };

    ghost invariant = { λ s. (s.at ≤ length s.bytes.items) × (0 < s.piece_len) };
}

impl SourceMemory {
    /// A source of `bytes` that gives at most `piece_len` of them in a call. Each call whose
    /// number, from 1, is in `fails` fails, and uses up nothing.
    pub fn new(bytes: Vec<u8>, piece_len: usize, fails: Vec<u64>) -> Self
        requires { 0 < piece_len }
        ensures { result ≡ record {
          bytes = bytes.items;
          piece_len = piece_len;
          fails = fails.items;
          calls = 0;
          faults = 0;
        } }
    {
        SourceMemory {
            bytes,
            at: 0,
            piece_len,
            calls: Calls::new(fails),
        }
    }

    /// How many calls failed.
    pub fn faults(&self) -> u64
        ensures { result ≡ self.now.faults }
    {
        self.calls.faults
    }
}

impl Source for SourceMemory {
    ghost left = { λ s. Some s.bytes };

    ghost faults = { λ s. s.faults };

    fn read(&mut self, buf: &mut [u8]) -> Result<usize, Failed>
        ensures bound { ReadsAtMost result buf.new }
        ensures bytes { ReadConsumes (Some self.old.bytes) (Some self.new.bytes) result buf.new }
        ensures cause { HasCause self.old.faults self.new.faults result }

        // It fails at the listed calls and at no other.
        ensures listed { IsErr result ↔ IsListed self.old }
        ensures count { IfOk result (λ n.
            n ≡ min (min (length self.old.bytes) self.old.piece_len) (length buf.old)) }
        ensures given { IfOk result (λ n. buf.new ≡ take n self.old.bytes ++ drop n buf.old) }
        ensures rest { IfOk result (λ n. self.new ≡ after_call self.old (drop n self.old.bytes)) }
        ensures err { OnErr result (self.new ≡ after_fault self.old) }
        ensures same { OnErr result (buf.new ≡ buf.old) }
    {
        self.calls.begin()?;
        let rest = &self.bytes[self.at..];
        let count = rest.len().min(self.piece_len).min(buf.len());
        buf[..count].copy_from_slice(&rest[..count]);
        self.at += count;
        Ok(count)
    }
}
