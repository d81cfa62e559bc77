//! What does the clerk report, and why does it stop?

ghost use Rattle.std.specs.Prelude.{◌≡◌, ◌-◌, ◌^◌, ◌<◌};
ghost use Rattle.hb_house.specs.ClerkReports.{IsByHall, by_keeper, with_loaded, with_saved};

use hb_club::{HallError, Noted};
use hb_keeper::KeepError;

/// Why the clerk stopped.
#[derive(Clone, Copy, PartialEq, Eq, Debug)]
pub enum ClerkError {
    /// 1: the keeper failed, and its count of faults rose.
    KeeperFault,
    /// 2: the mark of a room is set.
    Worn,
    /// 3: the key of a game that is due is kept with another game, under this id.
    KeyDiffers(u64),
    /// 4: the next id would pass 2^63 - 1.
    UsedUp,
    /// 5: memory ran out.
    NoMemory,
}

/// How many items of each kind the notes of the clerk added.
#[derive(Clone, Copy, PartialEq, Eq, Debug, Default)]
pub struct Report {
    /// Games that are kept.
    pub saved: u32,
    /// Kept games that were brought to a table.
    pub loaded: u32,
    /// Games that a table asked for, and that no keeper has.
    pub missing: u32,
}

/// Why the clerk stops if the hall refuses a call of a room that it has.
pub(crate) fn refused_by_hall(e: HallError) -> ClerkError
    ensures hall { IsByHall result }
    ensures worn { result ≡ ClerkError.Worn → e ≡ HallError.Worn }
{
    match e {
        HallError::Worn => ClerkError::Worn,
        HallError::NoSuchRoom | HallError::NoMemory => ClerkError::NoMemory,
    }
}

/// Why the clerk stops if the keeper refuses.
pub(crate) fn refused_by_keeper(e: KeepError) -> ClerkError
    ensures { result ≡ by_keeper e }
{
    match e {
        KeepError::Fault => ClerkError::KeeperFault,
        KeepError::KeyDiffers(id) => ClerkError::KeyDiffers(id),
        KeepError::UsedUp => ClerkError::UsedUp,
        KeepError::NoMemory => ClerkError::NoMemory,
    }
}

/// Counts what the note of a kept game added.
pub(crate) fn count_saved(report: &mut Report, noted: Noted)
    requires { report.old.saved < 2 ^ 32 - 1 }
    ensures { report.new ≡ with_saved noted report.old }
{
    if noted == Noted::Saved {
        report.saved += 1;
    }
}

/// Counts what the note of a game that was asked for added.
pub(crate) fn count_loaded(report: &mut Report, noted: Noted)
    requires loaded { report.old.loaded < 2 ^ 32 - 1 }
    requires missing { report.old.missing < 2 ^ 32 - 1 }
    ensures { report.new ≡ with_loaded noted report.old }
{
    match noted {
        Noted::Loaded => report.loaded += 1,
        Noted::NoGame => report.missing += 1,
        Noted::Nothing | Noted::Saved => {}
    }
}
