//! How does a session go on from turn to turn?

ghost use Rattle.std.specs.Prelude.{◌≡◌};
ghost use Rattle.hb_club.specs.Fronts.{Fronts};
ghost use Rattle.hb_edge.specs.Counts.{Counts};
ghost use Rattle.hb_session.specs.Conversations.{Converses};
ghost use Rattle.hb_session.specs.Ends.{IsWorn, is_link_fault};

use crate::End;
use crate::turns::step;
use hb_desk::Desk;
use hb_edge::{Clock, Link};
use hb_house::Hall;
use std::alloc::Global;

/// Holds a session on a link, of at most `budget` answers of the link: for each it reads the clock
/// once, takes a turn at that moment, and sends the turn's texts in order.
///
/// It ends [`End::Closed`] exactly if the link said that it is closed, [`End::LinkFault`] only if
/// the link's count of faults rose, [`End::BudgetSpent`] exactly after `budget` answers without
/// another end, and [`End::Worn`] only if the mark of the lobby or of a room is set. What was sent
/// are the texts of all turns, or at [`End::LinkFault`] and [`End::NoMemory`] maybe a front of
/// them. A turn that is refused says nothing; an entry of it that the hall took stands.
pub fn session<H: Hall, L: Link, C: Clock>(
    alloc: Global,
    hall: &mut H,
    link: &mut L,
    clock: &mut C,
    budget: u64,
) -> End
    ensures converses { (f : Fronts) → H.stands hall.old f
        → Converses H.stands (H.house hall.old) (H.count hall.old) (H.alone hall.old) hall.new f
        (C.coming clock.old) budget (L.talk link.old) (L.talk link.new) result }
    ensures cause { Counts (is_link_fault result) (L.faults link.old) (L.faults link.new) }
    ensures worn { result ≡ End.Worn → IsWorn (H.mark hall.new) (H.lobby_mark hall.new) }
    ensures house { H.house hall.new ≡ H.house hall.old }
    ensures count { H.count hall.new ≡ H.count hall.old }
    ensures alone { H.alone hall.new ≡ H.alone hall.old }
{
    let mut desk = Desk::new();
    for _taken in 0..budget {
        match step(alloc, &mut desk, hall, link, clock) {
            Some(end) => return end,
            None => {}
        }
    }
    End::BudgetSpent
}
