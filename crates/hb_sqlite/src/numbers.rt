//! How does a number stand in the database?

ghost use Rattle.std.specs.Prelude.{◌≡◌, ◌^◌, ◌<◌, pos};

/// The greatest number of a run or an id.
pub(crate) const GREATEST: u64 = (1 << 63) - 1;

/// A number as a column has it.
pub(crate) fn stored(number: u64) -> i64
    requires { number < 2 ^ 63 }
    ensures { result ≡ pos number }
{
    number as i64
}
