//! How does a stream give nothing more once a stop is asked for?

ghost use Rattle.hb_socket.specs.Links.{held_stream};

use crate::Stop;
use std::io;
use std::io::{ErrorKind, Read, Write};

/// A stream whose reads answer that they would wait once a stop is asked for. So a client that
/// sends without end can't keep a receive from ending. It tells what the stream inside tells.
#[derive(Drop)]
pub struct HeldStream<S> {
    pub(crate) stream: S,
    pub(crate) stop: Stop,
}

impl<S: Read> Read for HeldStream<S> {
    ghost remaining = { λ s. S.remaining (held_stream s) };

    fn read(&mut self, buf: &mut [u8]) -> io::Result<usize> {
        if self.stop.is_asked() {
            return Err(io::Error::from(ErrorKind::WouldBlock));
        }
        self.stream.read(buf)
    }
}

impl<S: Write> Write for HeldStream<S> {
    ghost contents = { λ s. S.contents (held_stream s) };

    fn write(&mut self, buf: &[u8]) -> io::Result<usize> {
        self.stream.write(buf)
    }

    fn flush(&mut self) -> io::Result<()> {
        self.stream.flush()
    }
}
