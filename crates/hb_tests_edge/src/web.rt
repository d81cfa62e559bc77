//! What does a link over a WebSocket answer to the frames of a client?

use hb_edge::{Link, LinkError};
use hb_io::Got;
use hb_socket::{Stop, WsLink, limits};
use std::test::*;
use tungstenite::{Duplex, NoMask, Role, WebSocket};

/// What a client sends, with the masking key 0, and what the link then answers to each receive.
const CASES: [(&[u8], [&str; 3]); 8] = [
    // A text; behind the last frame the stream ends with no close.
    (
        b"\x81\x8f\0\0\0\0look {\"room\":1}",
        ["look {\"room\":1}", "(fault)", "(closed)"],
    ),
    // A binary message, a ping and a close.
    (
        b"\x82\x81\0\0\0\0x\x89\x80\0\0\0\0\x88\x82\0\0\0\0\x03\xe8",
        ["", "(idle)", "(closed)"],
    ),
    // A text in two fragments with a pong between, and half a frame.
    (
        b"\x01\x82\0\0\0\0lo\x8a\x80\0\0\0\0\x80\x82\0\0\0\0ok\x81",
        ["(idle)", "look", "(fault)"],
    ),
    // A frame with no mask.
    (b"\x81\x01x", ["(fault)", "(closed)", "(closed)"]),
    // A text that is no UTF-8.
    (b"\x81\x81\0\0\0\0\xff", ["(fault)", "(closed)", "(closed)"]),
    // The head of a frame of 65,537 bytes, and of one of 2^40.
    (
        b"\x81\xff\0\0\0\0\0\x01\0\x01\0\0\0\0",
        ["(fault)", "(closed)", "(closed)"],
    ),
    (
        b"\x81\xff\0\0\x01\0\0\0\0\0\0\0\0\0",
        ["(fault)", "(closed)", "(closed)"],
    ),
    // Nothing at all.
    (b"", ["(fault)", "(closed)", "(closed)"]),
];

/// Whether this is the answer that a case names.
fn is_answer(answer: &Result<Got, LinkError>, expected: &str) -> bool {
    match answer {
        Ok(Got::Text(text)) => text.as_str() == expected,
        Ok(Got::Idle) => expected == "(idle)",
        Ok(Got::Closed) => expected == "(closed)",
        Err(LinkError::Fault) => expected == "(fault)",
        Err(LinkError::NoMemory) => expected == "(no memory)",
    }
}

/// A link over these bytes.
fn link_over<'a>(
    rt: &HostRuntime,
    frames: &'a [u8],
    stop: Stop,
) -> WsLink<Duplex<&'a [u8], Vec<u8>>> {
    let stream = Duplex {
        reader: frames,
        writer: Vec::new(rt.alloc()),
    };
    let socket = WebSocket::from_raw_socket(
        rt.alloc(),
        stream,
        NoMask,
        Role::Server,
        Some(limits()),
    );
    WsLink::new(rt.alloc(), socket, stop)
}

#[test]
fn frames_come_as_the_link_gives_them(rt: HostRuntime) -> Result<(), Fail> {
    for (frames, answers) in CASES {
        let mut link = link_over(&rt, frames, Stop::new(rt.alloc())?);
        for expected in answers {
            assert!(rt; is_answer(&link.recv(), expected), "{expected}");
        }
        let _stub = link.close();
    }
    Ok(())
}

#[test]
fn a_link_sends_counts_its_faults_and_closes_at_a_stop(rt: HostRuntime) -> Result<(), Fail> {
    let stop = Stop::new(rt.alloc())?;
    let mut link = link_over(&rt, b"\x81", stop.share()?);
    assert!(rt; link.send("denied {\"code\":5}") == Ok(()));
    assert!(rt; link.recv() == Err(LinkError::Fault));
    stop.ask();
    assert!(rt; link.recv() == Ok(Got::Closed));
    assert_eq!(rt; link.close().faults(), 1);
    Ok(())
}
