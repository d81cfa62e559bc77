//! How does a WebSocket serve as a link?

ghost use Rattle.std.specs.Prelude.{◌≡◌, [], None, IfOk, OnOk, Err};
ghost use Rattle.tungstenite.specs.Config.{HasLimits};
ghost use Rattle.tungstenite.specs.Socket.{Writes};
ghost use Rattle.tungstenite.specs.Connection.{write_step};
ghost use Rattle.tungstenite.specs.Content.{text as text_content};
ghost use Rattle.hb_edge.specs.Counts.{Counts, is_fault};
ghost use Rattle.hb_edge.specs.declared.link.LinkError.TheVariants as refused;
ghost use Rattle.hb_socket.specs.Answers.{Receives};
ghost use Rattle.hb_socket.specs.Limits.{link_limits};
ghost use Rattle.hb_socket.specs.Links.{link_faults, link_socket, stub_faults};

use crate::Stop;
use crate::places::Place;
use crate::tables::{answer_to, farewell_for, send_error};
use hb_edge::{Link, LinkError};
use hb_io::Got;
use std::alloc::Global;
use std::io::{Read, Write};
use tungstenite::{CloseCode, CloseFrame, Message, NoMask, Utf8Bytes, WebSocket, WebSocketConfig};

/// The most bytes of a message that a link reads. A longer one ends the link. It is above the
/// longest request, so that a request that is somewhat too long is still answered.
pub const MESSAGE_LIMIT: usize = 65_536;

/// How many bytes one read of a link's stream asks for.
pub const READ_LEN: usize = 8_192;

/// The most bytes of a link that wait to be sent. Without such a limit the pongs to a client that
/// does not read would fill the memory.
pub const OUTPUT_LIMIT: usize = 1_048_576;

/// The limits of a link's socket.
pub fn limits() -> WebSocketConfig
    ensures { result ≡ link_limits }
{
    WebSocketConfig {
        read_buffer_size: READ_LEN,
        write_buffer_size: 0,
        max_write_buffer_size: OUTPUT_LIMIT,
        max_message_size: Some(MESSAGE_LIMIT),
        max_frame_size: Some(MESSAGE_LIMIT),
        accept_unmasked_frames: false,
    }
}

/// A link over a WebSocket. It tells nothing.
#[derive(Drop)]
pub struct WsLink<S> {
    alloc: Global,
    socket: WebSocket<S, NoMask>,
    stop: Stop,
    // The place at the door that gave the link.
    place: Option<Place>,
    // What a client that has not closed is told at the end.
    farewell: CloseCode,
    faults: u64,
}

/// What stays of a [`WsLink`]: how many of its calls failed.
#[derive(Clone, Copy, Debug, PartialEq, Eq)]
pub struct WsStub {
    faults: u64,
}

impl WsStub {
    /// How many calls of the link failed, up to the largest `u64`.
    pub fn faults(&self) -> u64
        ensures { result ≡ stub_faults self.now }
    {
        self.faults
    }
}

impl<S: Drop> WsLink<S> {
    /// A link over a socket whose handshake is done, which gets the [`limits`] of a link. It gives
    /// Closed once a stop is asked for.
    pub fn new(alloc: Global, mut socket: WebSocket<S, NoMask>, stop: Stop) -> Self
        ensures fresh { link_faults result ≡ 0 }
        ensures limits { HasLimits (link_socket result).conn.config link_limits }
        ensures stream { (link_socket result).stream ≡ socket.stream }
        ensures input { (link_socket result).input ≡ socket.input }
        ensures output { (link_socket result).output ≡ socket.output }
    {
        socket.set_config(limits());
        WsLink {
            alloc,
            socket,
            stop,
            place: None,
            farewell: CloseCode::Away,
            faults: 0,
        }
    }

    /// The link with its place at a door.
    pub(crate) fn at_place(mut self, place: Place) -> Self
        ensures faults { link_faults result ≡ link_faults self }
        ensures socket { link_socket result ≡ link_socket self }
    {
        self.place = Some(place);
        self
    }

    /// The answer, whose fault is counted.
    fn counted<T>(&mut self, answer: Result<T, LinkError>) -> Result<T, LinkError>
        ensures same { result ≡ answer }
        ensures cause { Counts (is_fault answer) (link_faults self.old) (link_faults self.new) }
        ensures socket { link_socket self.new ≡ link_socket self.old }
    {
        if matches!(answer, Err(LinkError::Fault)) {
            self.faults = self.faults.saturating_add(1);
        }
        answer
    }
}

impl<S: Read + Write + Drop> Link for WsLink<S> {
    type Stub = WsStub;

    ghost talk = { λ _. None };

    ghost faults = { λ l. link_faults l };

    ghost stub_talk = { λ _. None };

    ghost stub_faults = { λ s. stub_faults s };

    /// A binary message is the empty text. A ping, a pong and a read that would wait are Idle. A
    /// close, a socket that was closed, and a stop that was asked for are Closed. No memory is
    /// answered if there is none for the message, which is then lost.
    fn recv(&mut self) -> Result<Got, LinkError>
        ensures cause { Counts (is_fault result) (link_faults self.old) (link_faults self.new) }
        ensures read { Receives S.remaining (link_socket self.old) (link_socket self.new) result }
    {
        if self.stop.is_asked() {
            return Ok(Got::Closed);
        }
        let read = self.socket.read();
        if let Err(error) = &read {
            self.farewell = farewell_for(error);
        }
        let answer = answer_to(self.alloc, read);
        self.counted(answer)
    }

    /// Once it answers that the text was sent, the stream has taken all that waited, and the text's
    /// frame at the end. If it answers that there is no memory, nothing was sent.
    fn send(&mut self, text: &str) -> Result<(), LinkError>
        ensures cause { Counts (is_fault result) (link_faults self.old) (link_faults self.new) }
        ensures sent { OnOk result (Writes S.contents (link_socket self.old) (link_socket self.new)
            (write_step (link_socket self.old).conn (text_content text.now))) }
        ensures whole { OnOk result ((link_socket self.new).output ≡ []) }
        ensures no_memory { result ≡ Err refused.NoMemory
            → link_socket self.new ≡ link_socket self.old }
    {
        let Ok(message) = Message::text(self.alloc, text) else {
            return Err(LinkError::NoMemory);
        };
        match self.socket.send(message) {
            Ok(()) => Ok(()),
            Err(error) => self.counted(Err(send_error(&error))),
        }
    }

    /// A client that has not closed is told why the link ends, as far as its stream takes that now.
    fn close(mut self) -> WsStub {
        let farewell = CloseFrame {
            code: self.farewell,
            reason: Utf8Bytes::from_static(""),
        };
        let _ = self.socket.close(Some(farewell));
        WsStub {
            faults: self.faults,
        }
    }
}
