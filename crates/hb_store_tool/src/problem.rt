//! Why was a step not done?

use hb_keeper::KeepError;
use hb_sqlite::OpenError;
use std::alloc::{AllocError, AllocFailed};
use std::{fmt, io};

const USAGE: &str = "STORE, and steps: fill FIRST COUNT, list NAME, get ID, compare COUNT";

/// Why a step was not done.
#[derive(Clone, Copy, Debug)]
pub(crate) enum Problem {
    Words,
    Open(OpenError),
    Keep(KeepError),
    NoMemory,
    Output,
    /// The call with this number, from 0, was answered otherwise by a keeper in memory.
    Differs(u32),
}

impl fmt::Display for Problem {
    fn fmt<W: fmt::Write>(&self, f: &mut fmt::Formatter<W>) -> fmt::Result {
        match self {
            Problem::Words => f.write_str(USAGE),
            Problem::Open(OpenError::Fault) => f.write_str("the store does not open"),
            Problem::Open(OpenError::BadVersion(version)) => write!(f, "store version {version}"),
            Problem::Open(OpenError::NoMemory) => f.write_str("out of memory"),
            Problem::Keep(error) => write!(f, "{error}"),
            Problem::NoMemory => f.write_str("out of memory"),
            Problem::Output => f.write_str("the output failed"),
            Problem::Differs(call) => write!(f, "call {call} is answered otherwise"),
        }
    }
}

impl From<AllocError> for Problem {
    fn from(_: AllocError) -> Self {
        Problem::NoMemory
    }
}

impl<T: Drop> From<AllocFailed<T>> for Problem {
    fn from(_: AllocFailed<T>) -> Self {
        Problem::NoMemory
    }
}

impl From<OpenError> for Problem {
    fn from(error: OpenError) -> Self {
        Problem::Open(error)
    }
}

impl From<KeepError> for Problem {
    fn from(error: KeepError) -> Self {
        Problem::Keep(error)
    }
}

impl From<io::Error> for Problem {
    fn from(_: io::Error) -> Self {
        Problem::Output
    }
}
