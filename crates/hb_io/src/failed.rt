//! What does a call answer that met a fault?

ghost use Rattle.std.specs.Prelude.{Some, codes};

use std::error::Error;
use std::fmt;

/// The outside failed in this call, and the count of its faults rose.
#[derive(Clone, Copy, Debug, PartialEq, Eq, Hash)]
pub struct Failed;

impl fmt::Display for Failed {
    ghost output = { λ _. Some (codes "the outside failed") };

    fn fmt<W: fmt::Write>(&self, f: &mut fmt::Formatter<W>) -> fmt::Result {
        f.write_str("the outside failed")
    }
}

impl Error for Failed {}
