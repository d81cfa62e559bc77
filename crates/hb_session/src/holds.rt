//! What is a session that has a hall, a link and a clock of its own?

ghost use Rattle.std.specs.Prelude.{◌≡◌};
ghost use Rattle.hb_session.specs.Ends.{IsWorn};
ghost use Rattle.hb_session.specs.Holding.{IsHeld};

use crate::{End, session};
use hb_edge::{Clock, Link};
use hb_house::Hall;
use std::alloc::Global;

/// How many answers of a link a session takes that is held to its end.
pub const SESSION_BUDGET: u64 = 1 << 40;

/// What stays of a session: its hall, the stub of its link, and how it ended.
#[derive(Drop)]
pub struct Held<H, S> {
    /// The hall, which stands for what the session did.
    pub hall: H,
    /// The stub of the link, which was closed.
    pub stub: S,
    /// How the session ended.
    pub end: End,
}

/// Holds a session on a link, of at most [`SESSION_BUDGET`] answers, and closes the link.
///
/// The hall is given back, of the same house. The session ends as [`session`] does.
pub fn hold<H: Hall, L: Link, C: Clock + Drop>(
    alloc: Global,
    mut hall: H,
    mut link: L,
    mut clock: C,
) -> Held<H, L::Stub>
    ensures held { IsHeld H.stands H.house H.count H.alone hall result.hall (C.coming clock)
        (L.talk link) (L.stub_talk result.stub) (L.faults link) (L.stub_faults result.stub)
        result.end }
    ensures worn { result.end ≡ End.Worn
        → IsWorn (H.mark result.hall) (H.lobby_mark result.hall) }
{
    let end = session(alloc, &mut hall, &mut link, &mut clock, SESSION_BUDGET);
    let stub = link.close();
    Held { hall, stub, end }
}
