//! How is a source read to its end, or refused if it has too much?

ghost use Rattle.std.specs.Prelude.{◌≡◌, ◌≢◌, ◌<◌, ◌≤◌, ◌↔◌, ℕ, List, length, IfSome, IfOk, OnOk, IsErrOf};
ghost use Rattle.std.specs.Io.KnownBytes.{IsAtEnd, Consumes};
ghost use Rattle.hb_io.specs.Causes.{Rose};

use crate::{Bytes, Source};
use std::alloc::Global;
use std::error::Error;
use std::fmt;

/// The most bytes that one read asks for.
const READ_LEN: usize = 65_536;

/// Why not all could be read.
#[derive(Clone, Copy, Debug, PartialEq, Eq, Hash)]
pub enum ReadAll {
    /// The source failed.
    Fault,
    /// The source gave more bytes than the limit.
    TooLong,
    /// There was no memory for the bytes.
    NoMemory,
}

impl fmt::Display for ReadAll {
    ghost use Rattle.std.specs.Prelude.{Some, codes};
    ghost use Rattle.hb_io.specs.declared.read.ReadAll.TheVariants.{Fault, TooLong, NoMemory};

    ghost output = { elim [
      | Fault ↦ Some (codes "the source failed")
      | TooLong ↦ Some (codes "the input is longer than the limit")
      | NoMemory ↦ Some (codes "out of memory")
    ] };

    fn fmt<W: fmt::Write>(&self, f: &mut fmt::Formatter<W>) -> fmt::Result {
        f.write_str(match self {
            ReadAll::Fault => "the source failed",
            ReadAll::TooLong => "the input is longer than the limit",
            ReadAll::NoMemory => "out of memory",
        })
    }
}

impl Error for ReadAll {}

/// Reads all bytes to the end of the input, of which there are at most `limit`.
///
/// The bytes that were read before an error are lost to the source and to the caller.
pub fn read_all<S: Source>(alloc: Global, src: &mut S, limit: usize) -> Result<Bytes, ReadAll>
    ensures all { IfOk result (λ bytes. IfSome (S.left src.old) (λ told. bytes ≡ told)) }
    ensures end { OnOk result (IsAtEnd (S.left src.new)) }
    ensures within { IfOk result (λ bytes. length bytes ≤ limit) }

    // Each error has its cause. No contract can say when memory runs out.
    ensures fault { IsErrOf result ReadAll.Fault → Rose (S.faults src.old) (S.faults src.new) }
    ensures too_long { IsErrOf result ReadAll.TooLong
        → IfSome (S.left src.old) (λ told. limit < length told) }

    // At any answer but a fault the count is as before.
    ensures kept { result ≢ Err ReadAll.Fault → S.faults src.new ≡ S.faults src.old }
    ensures later { S.faults src.old ≤ S.faults src.new }

    // At any answer the source has lost a front of its bytes, which is longer than the limit at
    // `TooLong`, and at no other answer.
    ensures front { (front : List ℕ) × Consumes (S.left src.old) (S.left src.new) front
        × (IsErrOf result ReadAll.TooLong ↔ (limit < length front)) }
{
    let mut bytes = Bytes::new(alloc);
    let mut buf = [0; READ_LEN];
    loop {
        let Ok(count) = src.read(&mut buf) else {
            return Err(ReadAll::Fault);
        };
        if count == 0 {
            return Ok(bytes);
        }
        if count > limit - bytes.len() {
            return Err(ReadAll::TooLong);
        }
        if bytes.extend(&buf[..count]).is_err() {
            return Err(ReadAll::NoMemory);
        }
    }
}
