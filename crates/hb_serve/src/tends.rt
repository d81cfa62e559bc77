//! What does the clerk of a server do?

ghost use Rattle.std.specs.Prelude.{◌≡◌, ℕ, Option};
ghost use Rattle.hb_house.specs.ClerkReports.{FaultCause};
ghost use Rattle.hb_house.specs.ClerkRounds.{AtEach};
ghost use Rattle.hb_house.specs.KeeperSteps.{Tells};
ghost use Rattle.hb_serve.specs.Clerking.{Tended};
ghost use Rattle.hb_serve.specs.Comings.{IsFrom};

use hb_edge::Clock;
use hb_house::{ClerkError, Hall, Report, clerk};
use hb_keeper::Keeper;
use std::alloc::Global;

/// Has the clerk go through the rooms once, at the clock's next moment.
pub(crate) fn tend<H: Hall, K: Keeper, C: Clock>(
    alloc: Global,
    hall: &mut H,
    keeper: &mut K,
    clock: &mut C,
) -> Result<(), ClerkError>
    ensures tended { AtEach (H.stands hall.old) (Tells (K.tells keeper.old) (K.plan keeper.old))
        (K.is_sure keeper.new) (λ f c. Tended result (H.stands hall.new)
        (Tells (K.tells keeper.new) (K.plan keeper.new)) (H.alone hall.old) (H.house hall.old)
        (H.count hall.old) f c) }
    ensures sure { K.is_sure keeper.new → K.is_sure keeper.old }
    ensures cause { FaultCause (K.faults keeper.old) (K.faults keeper.new) result }
    ensures clock { (from : Option (ℕ → ℕ)) → IsFrom from (C.coming clock.old)
        → IsFrom from (C.coming clock.new) }
    ensures house { H.house hall.new ≡ H.house hall.old }
    ensures count { H.count hall.new ≡ H.count hall.old }
    ensures alone { H.alone hall.new ≡ H.alone hall.old }
{
    let moment = clock.now();
    let mut report = Report::default();
    clerk(alloc, hall, keeper, moment, &mut report)
}
