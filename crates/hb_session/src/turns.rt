//! What does a session do about one answer of its link?

ghost use Rattle.std.specs.Prelude.{◌≡◌, ℕ, ◌+◌, MatchOption, Some};
ghost use Rattle.std.specs.declared.option.Option.{Option};
ghost use Rattle.hb_club.specs.Fronts.{Fronts};
ghost use Rattle.hb_edge.specs.Counts.{Counts, is_fault};
ghost use Rattle.hb_edge.specs.Talk.{Talk};
ghost use Rattle.hb_session.specs.Conversations.{Converses};
ghost use Rattle.hb_session.specs.Ends.{IsWorn, is_closed};
ghost use Rattle.hb_session.specs.Talking.{Sends, Talks, ends_by_fault};

use crate::End;
use crate::ends::ended_by;
use hb_desk::Desk;
use hb_edge::{Clock, Link, LinkError};
use hb_house::Hall;
use hb_io::{Got, Text, Texts};
use hb_talk::TurnError;
use hb_timer::MOMENT_LIMIT;
use std::alloc::Global;

/// Sends texts in order, up to the first that is refused.
fn send_all<L: Link>(link: &mut L, texts: &[Text]) -> Result<(), LinkError>
    ensures sent { Sends result texts.now (L.talk link.old) (L.talk link.new) }
    ensures cause { Counts (is_fault result) (L.faults link.old) (L.faults link.new) }
{
    for i in 0..texts.len() {
        match link.send(texts[i].as_str()) {
            Ok(()) => {}
            Err(e) => return Err(e),
        }
    }
    Ok(())
}

/// Whether the link said that it is closed.
fn is_end(got: &Got) -> bool
    ensures { result ≡ is_closed got.now }
{
    matches!(got, Got::Closed)
}

/// Takes one answer of the link and one moment of the clock, has the session take its turn, and
/// sends what it says. It answers how the session ends, if it does.
///
/// A closed link ends it whatever memory there is: at such a turn there is nothing to do.
pub(crate) fn step<H: Hall, L: Link, C: Clock>(
    alloc: Global,
    desk: &mut Desk,
    hall: &mut H,
    link: &mut L,
    clock: &mut C,
) -> Option<End>
    ensures talks { (first : Fronts) (start : Option (ℕ → ℕ)) (told : Option Talk)
        (taken budget : ℕ)
        → Talks H.stands (H.house hall.old) (H.count hall.old) (H.alone hall.old) first start told
        taken hall.old (C.coming clock.old) desk.old (L.talk link.old)
        → MatchOption result
        (Talks H.stands (H.house hall.old) (H.count hall.old) (H.alone hall.old) first start told
        (taken + 1) hall.new (C.coming clock.new) desk.new (L.talk link.new))
        (Converses H.stands (H.house hall.old) (H.count hall.old) (H.alone hall.old) hall.new first
        start budget told (L.talk link.new)) }
    ensures cause { Counts (ends_by_fault result) (L.faults link.old) (L.faults link.new) }
    ensures worn { result ≡ Some End.Worn → IsWorn (H.mark hall.new) (H.lobby_mark hall.new) }
    ensures house { H.house hall.new ≡ H.house hall.old }
    ensures count { H.count hall.new ≡ H.count hall.old }
    ensures alone { H.alone hall.new ≡ H.alone hall.old }
{
    let got = match link.recv() {
        Ok(got) => got,
        Err(e) => return Some(ended_by(e)),
    };
    let moment = clock.now().min(MOMENT_LIMIT);
    if is_end(&got) {
        return Some(End::Closed);
    }
    let mut texts = Texts::new(alloc);
    match desk.turn(alloc, hall, moment, &got, &mut texts) {
        Ok(_) => match send_all(link, texts.as_slice()) {
            Ok(()) => None,
            Err(e) => Some(ended_by(e)),
        },
        Err(TurnError::Worn) => Some(End::Worn),
        Err(TurnError::NoMemory) => Some(End::NoMemory),
    }
}
