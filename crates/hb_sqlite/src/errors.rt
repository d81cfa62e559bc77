//! Why is a store not opened, or a step of a call not done?

use hb_keeper::KeepError;
use sqlite::{Error, ErrorCode};
use std::alloc::AllocError;

/// Why a store is not opened.
#[derive(Clone, Copy, Debug, PartialEq, Eq)]
pub enum OpenError {
    /// The store could not be opened, refused a statement, or says no single version.
    Fault,
    /// The one row of `version` has this number, which this keeper does not read.
    BadVersion(i64),
    /// There was no memory.
    NoMemory,
}

/// Why a step of a call was not done.
#[derive(Clone, Copy, Debug, PartialEq, Eq)]
pub(crate) enum Failure {
    Refused,
    NoMemory,
}

impl From<AllocError> for Failure {
    ghost use Rattle.std.specs.Prelude.{◌≡◌};
    ghost use Rattle.hb_sqlite.specs.declared.errors.Failure.TheVariants.{NoMemory};

    ghost from_gives = { λ _ why. why ≡ NoMemory };

    fn from(_: AllocError) -> Self {
        Failure::NoMemory
    }
}

impl From<Error> for Failure {
    ghost use Rattle.std.specs.Prelude.{⊤};

    ghost from_gives = { λ _ _. ⊤ };

    fn from(error: Error) -> Self {
        match error {
            Error::SqliteFailure(ErrorCode::OutOfMemory) => Failure::NoMemory,
            _ => Failure::Refused,
        }
    }
}

impl From<Failure> for OpenError {
    ghost use Rattle.std.specs.Prelude.{◌≢◌, ℤ};
    ghost use Rattle.hb_sqlite.specs.declared.errors.OpenError.TheVariants.{BadVersion};

    ghost from_gives = { λ _ why. (n : ℤ) → why ≢ BadVersion n };

    fn from(failure: Failure) -> Self {
        match failure {
            Failure::Refused => OpenError::Fault,
            Failure::NoMemory => OpenError::NoMemory,
        }
    }
}

impl From<Failure> for KeepError {
    ghost use Rattle.hb_keeper.specs.Told.{IsFailure};

    ghost from_gives = { λ _ why. IsFailure why };

    fn from(failure: Failure) -> Self {
        match failure {
            Failure::Refused => KeepError::Fault,
            Failure::NoMemory => KeepError::NoMemory,
        }
    }
}
