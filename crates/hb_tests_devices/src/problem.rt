//! Why does the program stop?

use crate::runs::Device;
use std::alloc::{AllocError, AllocFailed};
use std::{fmt, io};

/// Why the program stops.
#[derive(Clone, Copy, Debug)]
pub(crate) enum Problem {
    /// The input can't be read, or is too long.
    Input,
    /// The input is no script that ends with status 0, or a device has too many calls.
    Script,
    /// The run in which this call of a device failed left something else than it should.
    Wrong(Device, u64),
    Output,
    NoMemory,
}

impl fmt::Display for Problem {
    fn fmt<W: fmt::Write>(&self, f: &mut fmt::Formatter<W>) -> fmt::Result {
        match self {
            Problem::Input => write!(f, "the input can't be read"),
            Problem::Script => write!(f, "the script does not end"),
            Problem::Wrong(device, number) => {
                write!(f, "{}: call {number} leaves something else", device.name())
            }
            Problem::Output => write!(f, "the output failed"),
            Problem::NoMemory => write!(f, "out of memory"),
        }
    }
}

impl From<AllocError> for Problem {
    fn from(_: AllocError) -> Self {
        Problem::NoMemory
    }
}

impl<T: Drop> From<AllocFailed<T>> for Problem {
    fn from(_: AllocFailed<T>) -> Self {
        Problem::NoMemory
    }
}

impl From<io::Error> for Problem {
    fn from(_: io::Error) -> Self {
        Problem::Output
    }
}
