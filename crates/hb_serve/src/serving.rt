//! What comes of all links of a door?

ghost use Rattle.std.specs.Prelude.{◌≡◌, ◌≢◌, ◌≤◌, ◌⊎◌, ◌+◌, Err, IsTrue, Option, Some, false, is_some};
ghost use Rattle.hb_io.specs.Causes.{Rose};
ghost use Rattle.hb_edge.specs.Counts.{Counts};
ghost use Rattle.hb_house.specs.ClerkRounds.{AtEach};
ghost use Rattle.hb_house.specs.KeeperSteps.{Tells};
ghost use Rattle.hb_serve.specs.Closings.{IsClerkWord, is_door_fault, says_closed};
ghost use Rattle.hb_serve.specs.Comings.{ClonesTell};
ghost use Rattle.hb_serve.specs.Counting.{AreRefused, CountsMore};
ghost use Rattle.hb_serve.specs.Serving.{ClosedBy, Served, has_last_round};

use crate::accepts::accept_all;
use crate::tends::tend;
use crate::waits::wait_all;
use crate::{Closing, SharedHall};
use hb_edge::{Clock, Door, Link, Spawner};
use hb_house::{ClerkError, Hall};
use hb_keeper::Keeper;
use std::alloc::Global;
use std::clone::Clone;
use std::sync::Wait;

/// What came of it.
#[derive(Clone, Copy, PartialEq, Eq, Debug)]
pub struct Outcome {
    /// Why no more links were accepted.
    pub closing: Closing,
    /// How many sessions were begun, for all of which was waited.
    pub served: u64,
    /// How many links were turned away, since their jobs were refused.
    pub turned: u64,
    /// Whether a turn of a session was refused.
    pub refused: bool,
    /// Whether the keeper met a fault while links were accepted.
    pub failed: bool,
    /// What the clerk answered behind the last session; none if it was not called.
    pub last: Option<Result<(), ClerkError>>,
}

/// Has the clerk go through the rooms behind the last session, if the door said that it is closed,
/// or failed.
fn last_round<H: Hall, K: Keeper, C: Clock>(
    alloc: Global,
    hall: &mut H,
    keeper: &mut K,
    clock: &mut C,
    closing: Closing,
) -> Option<Result<(), ClerkError>>
    ensures closed { AtEach (H.stands hall.old) (Tells (K.tells keeper.old) (K.plan keeper.old))
        (K.is_sure keeper.new) (λ f c. ClosedBy result (H.stands hall.new)
        (Tells (K.tells keeper.new) (K.plan keeper.new)) (H.alone hall.old) (H.house hall.old)
        (H.count hall.old) f c) }
    ensures when { is_some result ≡ has_last_round closing }
    ensures sure { K.is_sure keeper.new → K.is_sure keeper.old }
    ensures later { K.faults keeper.old ≤ K.faults keeper.new }
    ensures fault { result ≡ Some (Err ClerkError.KeeperFault)
        → Rose (K.faults keeper.old) (K.faults keeper.new) }
    ensures kept { result ≢ Some (Err ClerkError.KeeperFault)
        → K.faults keeper.new ≡ K.faults keeper.old }
    ensures house { H.house hall.new ≡ H.house hall.old }
    ensures count { H.count hall.new ≡ H.count hall.old }
    ensures alone { H.alone hall.new ≡ H.alone hall.old }
{
    match closing {
        Closing::Closed | Closing::DoorFault => Some(tend(alloc, hall, keeper, clock)),
        Closing::StoreDiffers(_) | Closing::UsedUp | Closing::NoMemory => None,
    }
}

/// Serves all links of a door: holds a session for each, in a job of its own, and waits for them
/// all once no more links are accepted. Then the clerk goes through the rooms once more, if the
/// door said that it is closed, or failed.
///
/// It may wait without end.
pub fn serve_all<W, H, D, P, C, K>(
    rt: &W,
    alloc: Global,
    hall: &mut H,
    door: &mut D,
    spawner: &mut P,
    keeper: &mut K,
    mut clock: C,
) -> Outcome
where
    W: Wait,
    H: SharedHall + Send + Drop + 'static,
    D: Door,
    D::Link: Send + Drop + 'static,
    <D::Link as Link>::Stub: Send + Drop + 'static,
    C: Clock + Clone + Send + Drop + 'static,
    P: Spawner,
    K: Keeper,
    ensures sessions { ClonesTell C.is_clone C.coming → AtEach (H.stands hall.old)
        (Tells (K.tells keeper.old) (K.plan keeper.old)) (K.is_sure keeper.new)
        (λ f c. Served (H.stands hall.new) (Tells (K.tells keeper.new) (K.plan keeper.new))
        D.Link.stub_talk D.Link.stub_faults (H.alone hall.old) (H.house hall.old)
        (H.count hall.old) (C.coming clock) f c result.served result.refused result.last
        (D.back door.old) (D.back door.new)) }
    ensures stopped { AtEach (H.stands hall.old)
        (Tells (K.tells keeper.old) (K.plan keeper.old)) (K.is_sure keeper.new)
        (λ f c. IsClerkWord (Some result.closing) (H.alone hall.old) (H.house hall.old)
        (H.count hall.old) f c) }
    ensures links { result.closing ≢ Closing.NoMemory
        → CountsMore (result.served + result.turned) (D.given door.old) (D.given door.new) }
    ensures closes { Counts (says_closed (Some result.closing)) (D.closes door.old)
        (D.closes door.new) }
    ensures faults { Counts (is_door_fault (Some result.closing)) (D.faults door.old)
        (D.faults door.new) }
    ensures started { CountsMore result.served (P.started spawner.old) (P.started spawner.new) }
    ensures waited { CountsMore result.served (P.waited spawner.old) (P.waited spawner.new) }
    ensures turned { AreRefused result.turned (P.faults spawner.old) (P.faults spawner.new) }
    ensures last { is_some result.last ≡ has_last_round result.closing }
    ensures keeper_fault { IsTrue result.failed
        ⊎ (result.last ≡ Some (Err ClerkError.KeeperFault))
        → Rose (K.faults keeper.old) (K.faults keeper.new) }
    ensures no_keeper_fault { result.failed ≡ false
        → result.last ≢ Some (Err ClerkError.KeeperFault)
        → K.faults keeper.new ≡ K.faults keeper.old }
    ensures sure { K.is_sure keeper.new → K.is_sure keeper.old }
    ensures house { H.house hall.new ≡ H.house hall.old }
    ensures count { H.count hall.new ≡ H.count hall.old }
    ensures alone { H.alone hall.new ≡ H.alone hall.old }
{
    let mut tasks = Vec::new(alloc);
    let arrivals = accept_all(
        rt, alloc, hall, door, spawner, keeper, &mut clock, &mut tasks,
    );
    let served = tasks.len() as u64;
    let refused = wait_all(hall, door, spawner, tasks);
    let last = last_round(alloc, hall, keeper, &mut clock, arrivals.closing);
    Outcome {
        closing: arrivals.closing,
        served,
        turned: arrivals.turned,
        refused,
        failed: arrivals.failed,
        last,
    }
}
