//! With which status does the program end if its store does not open?

use hb_cli::{Status, Stop, report, report_no_memory};
use hb_io::{Sink, StdSink, write_all};
use hb_sqlite::OpenError;

/// Says on the error output why a store did not open, and answers the status.
pub(crate) fn refused(rt: &HostRuntime, error: OpenError) -> Status {
    let mut err = StdSink::new(rt.stderr());
    match error {
        OpenError::Fault => report(rt.alloc(), &mut err, &Stop::KeeperFault),
        OpenError::BadVersion(version) => of_version(rt, &mut err, version),
        OpenError::NoMemory => report_no_memory(&mut err),
    }
}

/// Says that a store is of another version.
fn of_version<E: Sink>(rt: &HostRuntime, err: &mut E, version: i64) -> Status {
    let Ok(line) = format!(in rt.alloc(); "store version {version}\n") else {
        return report_no_memory(err);
    };
    match write_all(err, line.as_bytes()) {
        Ok(()) => Status::StoreVersion,
        Err(_) => Status::WriteFault,
    }
}
