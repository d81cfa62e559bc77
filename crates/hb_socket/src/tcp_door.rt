//! How do clients reach a server over TCP?

ghost use Rattle.std.specs.Prelude.{◌≡◌, None, false, IfOk};
ghost use Rattle.tungstenite.specs.Config.{HasLimits};
ghost use Rattle.hb_edge.specs.Counts.{Counts, OnLink, is_fault, is_closed};
ghost use Rattle.hb_edge.specs.declared.door.Accepted.TheVariants as accepted;
ghost use Rattle.hb_socket.specs.Limits.{link_limits};
ghost use Rattle.hb_socket.specs.Links.{link_faults, link_socket, door_faults, door_closes};

use crate::held_stream::HeldStream;
use crate::places::Places;
use crate::waits::{GREETING_LOOKS, GREETING_MS, WAIT_MS, is_passing, set_waits};
use crate::{Stop, WsLink, WsStub, limits};
use hb_edge::{Accepted, Door, LinkError};
use std::alloc::Global;
use std::io::ErrorKind;
use std::net::{Net, TcpListener, TcpStream, ToSocketAddrs};
use std::time::{Clock, Duration};
use std::{io, thread};
use tungstenite::handshake::server::{NoCallback, start};
use tungstenite::{Error, HandshakeError, NoMask, WebSocket};

/// A door over a TCP listener, which greets each client by the handshake of WebSocket. It tells
/// nothing.
///
/// A client whose greeting fails or takes too long is dropped, and that accept answers Idle. Idle
/// too is an accept while [`PLACE_COUNT`](crate::PLACE_COUNT) links are open, and one that the
/// system refuses for want of files or since the client has gone: any client could else end the
/// server.
#[derive(Drop)]
pub struct TcpDoor<C> {
    alloc: Global,
    clock: C,
    listener: TcpListener,
    stop: Stop,
    places: Places,
    faults: u64,
    closes: u64,
}

/// Listens at the first address of those that a text names which can be bound. It answers
/// [`ErrorKind::InvalidInput`] at an address that clients of other machines could reach.
fn listen<R: Net<Listener = TcpListener, Stream = TcpStream>>(
    rt: &R,
    addr: &str,
) -> io::Result<TcpListener> {
    let mut last = io::Error::from(ErrorKind::AddrNotAvailable);
    for addr in addr.to_socket_addrs(rt)? {
        if !addr.ip().is_loopback() {
            return Err(io::Error::from(ErrorKind::InvalidInput));
        }
        match TcpListener::bind(rt, addr) {
            Ok(listener) => return Ok(listener),
            Err(error) => last = error,
        }
    }
    Err(last)
}

impl<C: Clock + Drop> TcpDoor<C> {
    /// A door at a loopback address, which is closed once a stop is asked for. It answers
    /// [`ErrorKind::InvalidInput`] for an address that clients of other machines could reach, the
    /// error of the system if that can't bind the address, and that memory ran out if there is none
    /// for the door.
    pub fn bind<R: Net<Listener = TcpListener, Stream = TcpStream>>(
        rt: &R,
        alloc: Global,
        clock: C,
        addr: &str,
        stop: Stop,
    ) -> io::Result<Self>
        ensures faults { IfOk result (λ door. door_faults door ≡ 0) }
        ensures closes { IfOk result (λ door. door_closes door ≡ 0) }
    {
        let listener = listen(rt, addr)?;
        listener.set_nonblocking(true)?;
        let places = Places::new(alloc)?;
        Ok(TcpDoor {
            alloc,
            clock,
            listener,
            stop,
            places,
            faults: 0,
            closes: 0,
        })
    }

    /// Idle, after a while.
    fn pause(&self) -> Accepted<WsLink<HeldStream<TcpStream>>>
        ensures { result ≡ accepted.Idle }
    {
        thread::sleep(&self.clock, Duration::from_millis(WAIT_MS));
        Accepted::Idle
    }

    /// The socket of a client whose handshake ends in time; none if it fails.
    fn greet(
        &self,
        stream: TcpStream,
    ) -> Result<Option<WebSocket<HeldStream<TcpStream>, NoMask>>, LinkError>
        ensures { is_fault result ≡ false }
    {
        if stream.set_nonblocking(true).is_err() {
            return Ok(None);
        }
        let Ok(stop) = self.stop.share() else {
            return Err(LinkError::NoMemory);
        };
        let stream = HeldStream { stream, stop };
        let mut greeting = start(self.alloc, stream, NoCallback, Some(limits()));
        for _ in 0..GREETING_LOOKS {
            match greeting.handshake() {
                Ok(socket) => return Ok(Some(socket)),
                Err(HandshakeError::Interrupted(rest)) => greeting = rest,
                Err(HandshakeError::Failure(Error::OutOfMemory)) => {
                    return Err(LinkError::NoMemory);
                }
                Err(HandshakeError::Failure(_)) => return Ok(None),
            }
            thread::sleep(&self.clock, Duration::from_millis(GREETING_MS));
        }
        Ok(None)
    }

    /// The link to a client that has connected; Idle if its handshake fails.
    fn welcome(
        &self,
        stream: TcpStream,
    ) -> Result<Accepted<WsLink<HeldStream<TcpStream>>>, LinkError>
        ensures new { OnLink result (λ link. link_faults link ≡ 0) }
        ensures limits { OnLink result (λ link.
            HasLimits (link_socket link).conn.config link_limits) }
        ensures no_fault { is_fault result ≡ false }
        ensures not_closed { is_closed result ≡ false }
    {
        let Some(socket) = self.greet(stream)? else {
            return Ok(Accepted::Idle);
        };
        if set_waits(&socket.get_ref().stream).is_err() {
            return Ok(Accepted::Idle);
        }
        let Ok(stop) = self.stop.share() else {
            return Err(LinkError::NoMemory);
        };
        let Ok(place) = self.places.take() else {
            return Err(LinkError::NoMemory);
        };
        let link = WsLink::new(self.alloc, socket, stop).at_place(place);
        Ok(Accepted::Link(link))
    }
}

impl<C: Clock + Drop> Door for TcpDoor<C> {
    type Link = WsLink<HeldStream<TcpStream>>;

    ghost faults = { λ d. door_faults d };

    ghost closes = { λ d. door_closes d };

    ghost given = { λ _. None };

    ghost back = { λ _. None };

    fn accept(&mut self) -> Result<Accepted<WsLink<HeldStream<TcpStream>>>, LinkError>
        ensures new { OnLink result (λ link. link_faults link ≡ 0) }
        ensures cause { Counts (is_fault result) (door_faults self.old) (door_faults self.new) }
        ensures closed { Counts (is_closed result) (door_closes self.old) (door_closes self.new) }
        ensures limits { OnLink result (λ link.
            HasLimits (link_socket link).conn.config link_limits) }
    {
        if self.stop.is_asked() {
            self.closes = self.closes.saturating_add(1);
            return Ok(Accepted::Closed);
        }
        if self.places.are_taken() {
            return Ok(self.pause());
        }
        match self.listener.accept() {
            Ok((stream, _)) => self.welcome(stream),
            Err(error) if is_passing(&error) => Ok(self.pause()),
            Err(_) => {
                self.faults = self.faults.saturating_add(1);
                Err(LinkError::Fault)
            }
        }
    }

    fn give_back(&mut self, _stub: WsStub) {}
}
