//! Why does a keeper refuse?

use std::alloc::AllocError;
use std::error::Error;
use std::fmt;

/// Why a keeper did not do what it was asked.
#[derive(Clone, Copy, Debug, PartialEq, Eq)]
pub enum KeepError {
    /// The keeper failed, and its count of faults rose. The call's work is done or not.
    Fault,
    /// The key is kept with another game, under this id.
    KeyDiffers(u64),
    /// The next number of a run or an id would pass 2^63 - 1.
    UsedUp,
    /// There was no memory.
    NoMemory,
}

impl fmt::Display for KeepError {
    ghost use Rattle.std.specs.Prelude.{◌++◌, Some, codes, decimal};
    ghost use Rattle.hb_keeper.specs.declared.errors.KeepError.TheVariants.{Fault, KeyDiffers, UsedUp, NoMemory};

    ghost output = { elim [
      | Fault ↦ Some (codes "the keeper failed")
      | KeyDiffers id ↦
          Some (codes "another game is kept under this key with id " ++ decimal id)
      | UsedUp ↦ Some (codes "the numbers are used up")
      | NoMemory ↦ Some (codes "out of memory")
    ] };

    fn fmt<W: fmt::Write>(&self, f: &mut fmt::Formatter<W>) -> fmt::Result {
        match self {
            KeepError::Fault => f.write_str("the keeper failed"),
            KeepError::KeyDiffers(id) => {
                write!(f, "another game is kept under this key with id {}", id)
            }
            KeepError::UsedUp => f.write_str("the numbers are used up"),
            KeepError::NoMemory => f.write_str("out of memory"),
        }
    }
}

impl Error for KeepError {}

impl From<AllocError> for KeepError {
    ghost use Rattle.std.specs.Prelude.{◌≡◌};
    ghost use Rattle.hb_keeper.specs.declared.errors.KeepError.TheVariants.{NoMemory};

    ghost from_gives = { λ _ why. why ≡ NoMemory };

    fn from(_: AllocError) -> Self {
        KeepError::NoMemory
    }
}
