//! How are all bytes written, or exactly so many of them?

ghost use Rattle.std.specs.Prelude.{◌<◌, length, take, IfErr, OnOk};
ghost use Rattle.std.specs.Io.KnownBytes.{Appends};
ghost use Rattle.hb_io.specs.Causes.{HasCause};

use crate::Sink;
use std::error::Error;
use std::fmt;

/// The sink failed.
#[derive(Clone, Copy, Debug, PartialEq, Eq, Hash)]
pub struct WriteAll {
    /// How many bytes it took before.
    pub written: usize,
}

impl fmt::Display for WriteAll {
    ghost use Rattle.std.specs.Prelude.{◌++◌, Some, codes, decimal};

    ghost output = { λ e.
        Some (codes "the sink failed after " ++ (decimal e.written ++ codes " bytes")) };

    fn fmt<W: fmt::Write>(&self, f: &mut fmt::Formatter<W>) -> fmt::Result {
        write!(f, "the sink failed after {} bytes", self.written)
    }
}

impl Error for WriteAll {}

/// Writes all bytes, in order, or as many as the error says. It takes no memory.
pub fn write_all<O: Sink>(sink: &mut O, bytes: &[u8]) -> Result<(), WriteAll>
    ensures all { OnOk result (Appends (O.held sink.old) (O.held sink.new) bytes.now) }
    ensures front { IfErr result (λ e.
        Appends (O.held sink.old) (O.held sink.new) (take e.written bytes.now)) }
    ensures within { IfErr result (λ e. e.written < length bytes.now) }
    ensures cause { HasCause (O.faults sink.old) (O.faults sink.new) result }
{
    let mut written = 0;
    while written < bytes.len() {
        match sink.write(&bytes[written..]) {
            Ok(count) => written += count,
            Err(_) => return Err(WriteAll { written }),
        }
    }
    Ok(())
}
