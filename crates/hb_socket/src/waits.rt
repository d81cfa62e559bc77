//! How long does a server wait for its clients, and which errors of an accept pass by?

ghost use Rattle.std.specs.Prelude.{◌≡◌};
ghost use Rattle.std.specs.IoError.{error_kind, raw_os_error};
ghost use Rattle.hb_socket.specs.Passing.{is_passing};

use std::io;
use std::io::ErrorKind;
use std::net::TcpStream;
use std::time::Duration;

/// How long an accept waits for a client, and a receive for a message, before it answers Idle, in
/// milliseconds.
pub const WAIT_MS: u64 = 100;

/// How long a send waits for a client that does not read, in milliseconds.
pub const SEND_MS: u64 = 5_000;

/// How often an accept looks for the rest of a client's greeting.
pub const GREETING_LOOKS: u32 = 20;

/// How long an accept waits between two such looks, in milliseconds.
pub const GREETING_MS: u64 = 10;

/// The number of Linux for too many open files in the system.
const FILES_OF_SYSTEM: i32 = 23;

/// The number of Linux for too many open files in the process.
const FILES_OF_PROCESS: i32 = 24;

/// Whether an accept may go well later: no client was there, one has gone again, or too many files
/// are open.
pub(crate) fn is_passing(error: &io::Error) -> bool
    ensures { result ≡ is_passing (error_kind error.now) (raw_os_error error.now) }
{
    match error.kind() {
        ErrorKind::WouldBlock | ErrorKind::ConnectionAborted | ErrorKind::Interrupted => true,
        _ => matches!(
            error.raw_os_error(),
            Some(FILES_OF_SYSTEM | FILES_OF_PROCESS)
        ),
    }
}

/// Has reads and writes of a stream wait for a while. It answers the error of the system, if that
/// takes no such waits.
pub(crate) fn set_waits(stream: &TcpStream) -> io::Result<()> {
    stream.set_nonblocking(false)?;
    stream.set_nodelay(true)?;
    stream.set_read_timeout(Some(Duration::from_millis(WAIT_MS)))?;
    stream.set_write_timeout(Some(Duration::from_millis(SEND_MS)))
}
