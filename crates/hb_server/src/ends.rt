//! What does a server say at its end, and with which status does it end?

ghost use Rattle.std.specs.Prelude.{◌≡◌, ◌≢◌, IfOk, IsTrue, Ok, Some, string_bytes};
ghost use Rattle.hb_cli.specs.Written.{sent};
ghost use Rattle.hb_server.specs.Ends.{FailsEnd, SaysEnd, end_text, has_report, report_text, status_at, stop_at, stop_unserved};

use hb_cli::{Status, Stop, report_no_memory, say, stop_text};
use hb_io::Sink;
use hb_serve::{Outcome, ServeEnd};
use std::alloc::{AllocError, Global};

/// Why a server serves no link.
#[derive(Clone, Copy, PartialEq, Eq, Debug)]
pub enum Unserved {
    /// The words ask for no server.
    Usage,
    /// The keeper failed when it was to begin a run.
    KeeperFault,
    /// The keeper's numbers of runs are used up.
    UsedUp,
    /// The dice failed.
    DiceFault,
    /// Memory ran out.
    NoMemory,
}

/// The cause for which no link was served.
pub(crate) fn stop_unserved(why: Unserved) -> Stop
    ensures { result ≡ stop_unserved why }
{
    match why {
        Unserved::Usage => Stop::Usage,
        Unserved::KeeperFault => Stop::KeeperFault,
        Unserved::UsedUp => Stop::UsedUp,
        Unserved::DiceFault => Stop::DiceFault,
        Unserved::NoMemory => Stop::NoMemory,
    }
}

/// The cause for which a server ended that served; none if all was done.
fn stop_at(end: ServeEnd) -> Option<Stop>
    ensures { result ≡ stop_at end }
{
    match end {
        ServeEnd::Done => None,
        ServeEnd::KeeperFault => Some(Stop::KeeperFault),
        ServeEnd::NoMemory => Some(Stop::NoMemory),
        ServeEnd::StoreDiffers(id) => Some(Stop::StoreDiffers(id)),
        ServeEnd::DoorFault => Some(Stop::DoorFault),
        ServeEnd::UsedUp => Some(Stop::UsedUp),
    }
}

/// The status of a cause; `Ok` if there is none.
fn status_at(stop: &Option<Stop>) -> Status
    ensures { result ≡ status_at stop.now }
{
    match stop {
        Some(stop) => stop.status(),
        None => Status::Ok,
    }
}

/// The server reports how many it served: its door was closed, and memory did not run out.
fn has_report(end: ServeEnd) -> bool
    ensures { result ≡ has_report end }
{
    matches!(end, ServeEnd::Done | ServeEnd::KeeperFault)
}

/// How many sessions were held, and how many links were turned away.
fn report_text(alloc: Global, outcome: &Outcome) -> Result<String, AllocError>
    ensures { IfOk result (λ text. string_bytes text ≡ report_text outcome.now) }
{
    let Outcome { served, turned, .. } = outcome;
    format!(in alloc; "served {served} turned {turned}\n")
}

/// What a server says at its end that served: its report, if it has one, and the line of the cause
/// for which it ended, if there is one.
fn end_text(alloc: Global, outcome: &Outcome) -> Result<String, AllocError>
    ensures { IfOk result (λ text. string_bytes text ≡ end_text (Ok outcome.now)) }
{
    let end = outcome.end();
    let mut text = String::new(alloc);
    if has_report(end) {
        let report = report_text(alloc, outcome)?;
        text.push_str(&report)?;
    }
    if let Some(stop) = stop_at(end) {
        let line = stop_text(alloc, &stop)?;
        text.push_str(&line)?;
    }
    Ok(text)
}

/// Says how a server ended that served, and answers its status. If there is no memory for what is
/// to be said, it says that instead.
pub(crate) fn conclude<E: Sink>(alloc: Global, err: &mut E, outcome: &Outcome) -> Status
    ensures said { result ≢ Status.WriteFault
        → SaysEnd (sent E.held E.faults err.old err.new) result (Ok outcome.now) }
    ensures failed { result ≡ Status.WriteFault
        → FailsEnd (sent E.held E.faults err.old err.new) (Ok outcome.now) }
{
    match end_text(alloc, outcome) {
        Ok(text) => say(err, &text, status_at(&stop_at(outcome.end()))),
        Err(_) => report_no_memory(err),
    }
}
