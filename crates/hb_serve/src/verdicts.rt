//! How does a server end?

ghost use Rattle.std.specs.Prelude.{◌≡◌};
ghost use Rattle.hb_serve.specs.Verdicts.{closed_end, end_of};

use crate::{Closing, Outcome};
use hb_house::ClerkError;

/// How a server ended.
#[derive(Clone, Copy, PartialEq, Eq, Debug)]
pub enum ServeEnd {
    /// The door was closed, and all that was to be kept is kept.
    Done,
    /// The door was closed, and the keeper met a fault.
    KeeperFault,
    /// Memory ran out, here or in a session, or a hall can call a room, or the lobby, no more.
    NoMemory,
    /// A game that is due is kept already as another one, under this id.
    StoreDiffers(u64),
    /// The door failed.
    DoorFault,
    /// The keeper's numbers of games are used up.
    UsedUp,
}

/// How a server ends whose door was closed and of whose sessions no turn was refused.
fn last_end(failed: bool, last: Option<Result<(), ClerkError>>) -> ServeEnd
    ensures { result ≡ closed_end failed last }
{
    match last {
        Some(Ok(())) if failed => ServeEnd::KeeperFault,
        Some(Ok(())) => ServeEnd::Done,
        Some(Err(ClerkError::KeeperFault)) => ServeEnd::KeeperFault,
        Some(Err(ClerkError::KeyDiffers(id))) => ServeEnd::StoreDiffers(id),
        Some(Err(ClerkError::UsedUp)) => ServeEnd::UsedUp,
        Some(Err(ClerkError::Worn | ClerkError::NoMemory)) | None => ServeEnd::NoMemory,
    }
}

impl Outcome {
    /// How the server ends: by what ended the accepting of links, if that was not the door's
    /// closing, else by a turn that was refused, else by the clerk's last answer and by the
    /// keeper's faults.
    pub fn end(&self) -> ServeEnd
        ensures { result ≡ end_of self.now }
    {
        match self.closing {
            Closing::DoorFault => ServeEnd::DoorFault,
            Closing::StoreDiffers(id) => ServeEnd::StoreDiffers(id),
            Closing::UsedUp => ServeEnd::UsedUp,
            Closing::NoMemory => ServeEnd::NoMemory,
            Closing::Closed if self.refused => ServeEnd::NoMemory,
            Closing::Closed => last_end(self.failed, self.last),
        }
    }
}
