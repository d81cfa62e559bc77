//! How does a session on a link end?

ghost use Rattle.std.specs.Prelude.{◌≡◌};
ghost use Rattle.hb_session.specs.Ends.{end_of};

use hb_edge::LinkError;

/// How a session ended.
#[derive(Clone, Copy, PartialEq, Eq, Debug)]
pub enum End {
    /// The link said that it is closed.
    Closed,
    /// The link failed, and its count of faults rose.
    LinkFault,
    /// The link gave as many answers as the session may take.
    BudgetSpent,
    /// The hall can call a room, or the lobby, no more: its mark is set.
    Worn,
    /// Memory ran out.
    NoMemory,
}

/// How a session ends if its link refuses a call.
pub(crate) fn ended_by(error: LinkError) -> End
    ensures { result ≡ end_of error }
{
    match error {
        LinkError::Fault => End::LinkFault,
        LinkError::NoMemory => End::NoMemory,
    }
}
