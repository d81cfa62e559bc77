//! How do std's readers and writers serve as sources and sinks that count their faults?

ghost use Rattle.std.specs.Prelude.{◌≡◌, ◌<◌, length, IfOk, OnErr};
ghost use Rattle.std.specs.Io.{ReadsAtMost, WritesAtMost};
ghost use Rattle.std.specs.Io.KnownBytes.{ReadConsumes, WriteAppends};
ghost use Rattle.hb_io.specs.Causes.{HasCause, next_count};

use crate::{Failed, Sink, Source};
use std::io::{Read, Write};

/// A reader as a source. Each of its errors is a fault. It tells what the reader tells, which is
/// nothing for a file, a socket or a standard stream.
#[derive(Debug, Drop)]
pub struct StdSource<R> {
    inner: R,
    faults: u64,
}

impl<R> StdSource<R> {
    ghost use Rattle.hb_io.specs.Adapters.{source_inner, source_faults};

    /// A source that has met no fault yet.
    pub fn new(inner: R) -> Self
        ensures inner { source_inner result ≡ inner }
        ensures fresh { source_faults result ≡ 0 }
    {
        StdSource { inner, faults: 0 }
    }

    /// How many calls failed, up to the largest `u64`.
    pub fn faults(&self) -> u64
        ensures { result ≡ source_faults self.now }
    {
        self.faults
    }

    /// The reader.
    pub fn into_inner(self) -> R
        ensures { result ≡ source_inner self }
    {
        self.inner
    }
}

impl<R: Read> Source for StdSource<R> {
    ghost use Rattle.hb_io.specs.Adapters.{source_inner, source_faults};

    ghost left = { λ s. R.remaining (source_inner s) };

    ghost faults = { λ s. source_faults s };

    fn read(&mut self, buf: &mut [u8]) -> Result<usize, Failed>
        ensures bound { ReadsAtMost result buf.new }
        ensures bytes { ReadConsumes (R.remaining (source_inner self.old))
            (R.remaining (source_inner self.new)) result buf.new }
        ensures cause { HasCause (source_faults self.old) (source_faults self.new) result }
        ensures raised { OnErr result
            (source_faults self.new ≡ next_count (source_faults self.old)) }
    {
        let Ok(count) = self.inner.read(buf) else {
            self.faults = self.faults.saturating_add(1);
            return Err(Failed);
        };
        Ok(count)
    }
}

/// A writer as a sink. Each of its errors is a fault, and so is an answer of 0 for a piece that is
/// not empty. It tells what the writer tells, which is nothing for a file, a socket or a standard
/// stream.
#[derive(Debug, Drop)]
pub struct StdSink<W> {
    inner: W,
    faults: u64,
}

impl<W> StdSink<W> {
    ghost use Rattle.hb_io.specs.Adapters.{sink_inner, sink_faults};

    /// A sink that has met no fault yet.
    pub fn new(inner: W) -> Self
        ensures inner { sink_inner result ≡ inner }
        ensures fresh { sink_faults result ≡ 0 }
    {
        StdSink { inner, faults: 0 }
    }

    /// How many calls failed, up to the largest `u64`.
    pub fn faults(&self) -> u64
        ensures { result ≡ sink_faults self.now }
    {
        self.faults
    }

    /// The writer.
    pub fn into_inner(self) -> W
        ensures { result ≡ sink_inner self }
    {
        self.inner
    }
}

impl<W: Write> Sink for StdSink<W> {
    ghost use Rattle.hb_io.specs.Adapters.{sink_inner, sink_faults};

    ghost held = { λ s. W.contents (sink_inner s) };

    ghost faults = { λ s. sink_faults s };

    fn write(&mut self, piece: &[u8]) -> Result<usize, Failed>
        ensures bound { WritesAtMost result piece.now }
        ensures progress { 0 < length piece.now → IfOk result (λ count. 0 < count) }
        ensures bytes { WriteAppends (W.contents (sink_inner self.old))
            (W.contents (sink_inner self.new)) result piece.now }
        ensures cause { HasCause (sink_faults self.old) (sink_faults self.new) result }
        ensures raised { OnErr result
            (sink_faults self.new ≡ next_count (sink_faults self.old)) }
    {
        match self.inner.write(piece) {
            Ok(count) if count > 0 || piece.is_empty() => Ok(count),
            _ => {
                self.faults = self.faults.saturating_add(1);
                Err(Failed)
            }
        }
    }
}
