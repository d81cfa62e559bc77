//! What does a link answer to each message and each error of its socket?

ghost use Rattle.std.specs.Prelude.{◌≡◌, IfOk, false};
ghost use Rattle.std.specs.IoError.{error_kind};
ghost use Rattle.hb_io.specs.declared.got.Got.TheVariants as got;
ghost use Rattle.hb_edge.specs.Counts.{is_fault};
ghost use Rattle.hb_socket.specs.Answers.{Answers, is_wait, send_error, farewell_number};
ghost use Rattle.tungstenite.specs.CloseCode.{close_code_number};

use hb_edge::LinkError;
use hb_io::{Got, Text};
use std::alloc::Global;
use std::io;
use std::io::ErrorKind;
use tungstenite::{CloseCode, Error, Message};

/// The text as a link gives it.
fn text_got(alloc: Global, text: &str) -> Result<Got, LinkError>
    ensures no_fault { is_fault result ≡ false }
    ensures text { IfOk result (λ answer. answer ≡ got.Text text.now) }
{
    match Text::copy_of(alloc, text) {
        Ok(text) => Ok(Got::Text(text)),
        Err(_) => Err(LinkError::NoMemory),
    }
}

/// Whether the stream had nothing to give for now.
fn is_wait(cause: &io::Error) -> bool
    ensures { result ≡ is_wait (error_kind cause.now) }
{
    matches!(cause.kind(), ErrorKind::WouldBlock | ErrorKind::Interrupted)
}

/// What a link answers to a read of its socket. No memory is answered only if there is none for the
/// text, or if the socket answered so.
pub(crate) fn answer_to(alloc: Global, read: Result<Message, Error>) -> Result<Got, LinkError>
    ensures { Answers read result }
{
    match read {
        Ok(Message::Text(text)) => text_got(alloc, text.as_str()),
        Ok(Message::Binary(_)) => text_got(alloc, ""),
        Ok(Message::Ping(_) | Message::Pong(_)) => Ok(Got::Idle),
        Ok(Message::Close(_)) => Ok(Got::Closed),
        Err(Error::ConnectionClosed | Error::AlreadyClosed) => Ok(Got::Closed),
        Err(Error::Io(cause)) => {
            if is_wait(&cause) {
                Ok(Got::Idle)
            } else {
                Err(LinkError::Fault)
            }
        }
        Err(Error::OutOfMemory) => Err(LinkError::NoMemory),
        Err(_) => Err(LinkError::Fault),
    }
}

/// What a link answers to a send that failed.
pub(crate) fn send_error(error: &Error) -> LinkError
    ensures { result ≡ send_error error.now }
{
    if matches!(error, Error::OutOfMemory) {
        LinkError::NoMemory
    } else {
        LinkError::Fault
    }
}

/// What a client is told at the end of its link, after this error of a read.
pub(crate) fn farewell_for(error: &Error) -> CloseCode
    ensures { close_code_number result ≡ farewell_number error.now }
{
    match error {
        Error::Capacity(_) => CloseCode::Size,
        Error::Utf8 => CloseCode::Invalid,
        Error::Protocol(_) => CloseCode::Protocol,
        _ => CloseCode::Away,
    }
}
