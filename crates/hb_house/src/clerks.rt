//! What does the clerk do in one call?

ghost use Rattle.std.specs.Prelude.{◌≡◌, ℕ, IfErr, IsErrOf, IsTrue, OnOk};
ghost use Rattle.hb_club.specs.Fronts.{IsRoom};
ghost use Rattle.hb_house.specs.ClerkReports.{FaultCause};
ghost use Rattle.hb_house.specs.ClerkRounds.{AllRounds, AtEach};
ghost use Rattle.hb_house.specs.ClerkStops.{Stopped};
ghost use Rattle.hb_house.specs.KeeperSteps.{Tells};

use crate::rounds::visit;
use crate::{ClerkError, Hall, Report};
use hb_keeper::Keeper;
use std::alloc::Global;

/// Goes through the rooms in order. The clerk asks each room what there is to do, keeps the game
/// that is due and notes its id, and then gets the game that is asked for and brings it. It stops
/// at the first call that is refused.
///
/// The report is set to the numbers of items that the notes of this call added, also if the clerk
/// stops.
///
/// It answers [`ClerkError::KeeperFault`] only if the keeper's count of faults rose,
/// [`ClerkError::Worn`] only if the mark of a room is set, and [`ClerkError::KeyDiffers`] and
/// [`ClerkError::UsedUp`] as the keeper does. A game that the keeper took before it failed, or
/// before its note was refused, is due still; the next call puts it again, under the same key.
pub fn clerk<H: Hall, K: Keeper>(
    alloc: Global,
    hall: &mut H,
    keeper: &mut K,
    moment: u64,
    report: &mut Report,
) -> Result<(), ClerkError>
    ensures ok { OnOk result (AtEach (H.stands hall.old)
        (Tells (K.tells keeper.old) (K.plan keeper.old)) (K.is_sure keeper.new)
        (λ f c. AllRounds (H.stands hall.new) (Tells (K.tells keeper.new) (K.plan keeper.new))
        (H.alone hall.old) (H.house hall.old) (H.count hall.old) moment f c report.new)) }
    ensures err { IfErr result (λ why. AtEach (H.stands hall.old)
        (Tells (K.tells keeper.old) (K.plan keeper.old)) (K.is_sure keeper.new)
        (λ f c. Stopped (H.stands hall.new) (Tells (K.tells keeper.new) (K.plan keeper.new))
        (H.alone hall.old) (H.house hall.old) (H.count hall.old) moment f c report.new
        why)) }
    ensures sure { K.is_sure keeper.new → K.is_sure keeper.old }
    ensures cause { FaultCause (K.faults keeper.old) (K.faults keeper.new) result }
    ensures worn { IsErrOf result ClerkError.Worn
        → (room : ℕ) × IsRoom (H.count hall.old) room × IsTrue (H.mark hall.new room) }
    ensures house { H.house hall.new ≡ H.house hall.old }
    ensures alone { H.alone hall.new ≡ H.alone hall.old }
    ensures count { H.count hall.new ≡ H.count hall.old }
{
    *report = Report::default();
    let rooms = hall.rooms();
    for room in 0..rooms {
        match visit(alloc, hall, keeper, room + 1, moment, report) {
            Ok(()) => {}
            Err(e) => return Err(e),
        }
    }
    Ok(())
}
