//! Why does the program stop?

use std::alloc::{AllocError, AllocFailed};
use std::num::ParseIntError;
use std::{fmt, io};

/// Why the program stops.
#[derive(Clone, Copy, Debug)]
pub(crate) enum Problem {
    /// The input can't be read, is too long, or is not UTF-8.
    Input,
    /// The line is none of those that there are.
    Line,
    /// A call is refused for a cause that no line has.
    Refused,
    Output,
    NoMemory,
}

impl fmt::Display for Problem {
    fn fmt<W: fmt::Write>(&self, f: &mut fmt::Formatter<W>) -> fmt::Result {
        f.write_str(match self {
            Problem::Input => "the input can't be read",
            Problem::Line => "no such line",
            Problem::Refused => "a call is refused",
            Problem::Output => "the output failed",
            Problem::NoMemory => "out of memory",
        })
    }
}

impl From<AllocError> for Problem {
    fn from(_: AllocError) -> Self {
        Problem::NoMemory
    }
}

impl<T: Drop> From<AllocFailed<T>> for Problem {
    fn from(_: AllocFailed<T>) -> Self {
        Problem::NoMemory
    }
}

impl From<ParseIntError> for Problem {
    fn from(_: ParseIntError) -> Self {
        Problem::Line
    }
}

impl From<io::Error> for Problem {
    fn from(_: io::Error) -> Self {
        Problem::Output
    }
}
