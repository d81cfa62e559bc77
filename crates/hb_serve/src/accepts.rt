//! Which links are served, and until when?

ghost use Rattle.std.specs.Prelude.{◌≡◌, ◌≢◌, ◌≤◌, ◌⊎◌, ◌+◌, ℕ, false, [], IsTrue, OnOk, Option, Some, length};
ghost use Rattle.std.specs.List.{AllByRecursion};
ghost use Rattle.hb_club.specs.Fronts.{Fronts};
ghost use Rattle.hb_io.specs.Causes.{Rose};
ghost use Rattle.hb_edge.specs.Counts.{Counts};
ghost use Rattle.hb_edge.specs.Talk.{IsNew};
ghost use Rattle.hb_edge.specs.Telling.{Keeps};
ghost use Rattle.hb_house.specs.ClerkRounds.{AtEach};
ghost use Rattle.hb_house.specs.KeeperSteps.{Tells};
ghost use Rattle.hb_serve.specs.Closings.{IsClerkWord, is_by_clerk, is_door_fault, says_closed};
ghost use Rattle.hb_serve.specs.Comings.{ClonesTell, ComesTo, IsFrom};
ghost use Rattle.hb_serve.specs.Counting.{AreRefused, CountsMore, GrowsBy, HasRoom, IsOneMore};
ghost use Rattle.hb_serve.specs.Explanations.{IsBegun};

use crate::SharedHall;
use crate::jobs::{HoldTask, begin};
use crate::tends::tend;
use hb_edge::{Accepted, Clock, Door, Link, LinkError, Spawner};
use hb_house::{ClerkError, Hall};
use hb_keeper::Keeper;
use std::alloc::{AllocError, Global};
use std::clone::Clone;
use std::sync::Wait;

/// Why no more links are accepted.
#[derive(Clone, Copy, PartialEq, Eq, Debug)]
pub enum Closing {
    /// The door said that it is closed.
    Closed,
    /// The door failed, and its count of faults rose.
    DoorFault,
    /// A game that is due is kept already as another one, under this id.
    StoreDiffers(u64),
    /// The keeper's numbers of games are used up.
    UsedUp,
    /// Memory ran out.
    NoMemory,
}

/// What came of the links: why no more are accepted, how many were turned away, since their jobs
/// were refused, and whether the keeper met a fault.
#[derive(Clone, Copy)]
pub(crate) struct Arrivals {
    pub(crate) closing: Closing,
    pub(crate) turned: u64,
    pub(crate) failed: bool,
}

/// Begins the session of a new link, or counts it as turned away if its job is refused.
fn welcome<H, L, P, C>(
    alloc: Global,
    hall: &mut H,
    spawner: &mut P,
    clock: &C,
    link: L,
    tasks: &mut Vec<HoldTask<H, L, C>>,
    turned: &mut u64,
) -> Result<(), AllocError>
where
    H: SharedHall + Send + Drop + 'static,
    L: Link + Send + Drop + 'static,
    L::Stub: Send + Drop + 'static,
    C: Clock + Clone + Send + Drop + 'static,
    P: Spawner,
    requires { IsNew (L.talk link) (L.faults link) }
    ensures begun { (f : Fronts) (from : Option (ℕ → ℕ)) → H.stands hall.old f
        → IsFrom from (C.coming clock.now) → ClonesTell C.is_clone C.coming
        → AllByRecursion (λ j. IsBegun H.stands H.house H.count H.alone (H.house hall.old)
        (H.count hall.old) from j.hall (L.talk j.link) (L.faults j.link) (C.coming j.clock))
        tasks.old.items
        → AllByRecursion (λ j. IsBegun H.stands H.house H.count H.alone (H.house hall.old)
        (H.count hall.old) from j.hall (L.talk j.link) (L.faults j.link) (C.coming j.clock))
        tasks.new.items }
    ensures houses { AllByRecursion (λ j. H.house j.hall ≡ H.house hall.old) tasks.old.items
        → AllByRecursion (λ j. H.house j.hall ≡ H.house hall.old) tasks.new.items }
    ensures jobs { IsOneMore (length tasks.old.items) (length tasks.new.items) }
    ensures links { OnOk result (length tasks.new.items + turned.new
        ≡ (length tasks.old.items + turned.old) + 1) }
    ensures started { GrowsBy (length tasks.old.items) (length tasks.new.items)
        (P.started spawner.old) (P.started spawner.new) }
    ensures turned { (first : ℕ) → AreRefused turned.old first (P.faults spawner.old)
        → AreRefused turned.new first (P.faults spawner.new) }
    ensures waited { Keeps (P.waited spawner.old) (P.waited spawner.new) }
    ensures same { (f : Fronts) → H.stands hall.old f → H.stands hall.new f }
    ensures house { H.house hall.new ≡ H.house hall.old }
    ensures count { H.count hall.new ≡ H.count hall.old }
    ensures alone { H.alone hall.new ≡ H.alone hall.old }
{
    match begin(alloc, hall, spawner, clock, link, tasks) {
        Ok(true) => Ok(()),
        Ok(false) => match turned.checked_add(1) {
            Some(more) => {
                *turned = more;
                Ok(())
            }
            None => Err(AllocError),
        },
        Err(e) => Err(e),
    }
}

/// Takes one answer of the door, and begins the session of a link that it gives. It answers why no
/// more links are accepted, if none are.
fn admit<H, D, P, C>(
    alloc: Global,
    hall: &mut H,
    door: &mut D,
    spawner: &mut P,
    clock: &C,
    tasks: &mut Vec<HoldTask<H, D::Link, C>>,
    turned: &mut u64,
) -> Option<Closing>
where
    H: SharedHall + Send + Drop + 'static,
    D: Door,
    D::Link: Send + Drop + 'static,
    <D::Link as Link>::Stub: Send + Drop + 'static,
    C: Clock + Clone + Send + Drop + 'static,
    P: Spawner,
    ensures begun { (f : Fronts) (from : Option (ℕ → ℕ)) → H.stands hall.old f
        → IsFrom from (C.coming clock.now) → ClonesTell C.is_clone C.coming
        → AllByRecursion (λ j. IsBegun H.stands H.house H.count H.alone (H.house hall.old)
        (H.count hall.old) from j.hall (D.Link.talk j.link) (D.Link.faults j.link)
        (C.coming j.clock)) tasks.old.items
        → AllByRecursion (λ j. IsBegun H.stands H.house H.count H.alone (H.house hall.old)
        (H.count hall.old) from j.hall (D.Link.talk j.link) (D.Link.faults j.link)
        (C.coming j.clock)) tasks.new.items }
    ensures houses { AllByRecursion (λ j. H.house j.hall ≡ H.house hall.old) tasks.old.items
        → AllByRecursion (λ j. H.house j.hall ≡ H.house hall.old) tasks.new.items }
    ensures links { result ≢ Some Closing.NoMemory
        → GrowsBy (length tasks.old.items + turned.old) (length tasks.new.items + turned.new)
        (D.given door.old) (D.given door.new) }
    ensures closes { Counts (says_closed result) (D.closes door.old) (D.closes door.new) }
    ensures faults { Counts (is_door_fault result) (D.faults door.old) (D.faults door.new) }
    ensures no_clerk { is_by_clerk result ≡ false }
    ensures back { Keeps (D.back door.old) (D.back door.new) }
    ensures room { HasRoom (length tasks.old.items) (D.given door.old) (D.back door.old)
        → HasRoom (length tasks.new.items) (D.given door.new) (D.back door.new) }
    ensures started { GrowsBy (length tasks.old.items) (length tasks.new.items)
        (P.started spawner.old) (P.started spawner.new) }
    ensures turned { (first : ℕ) → AreRefused turned.old first (P.faults spawner.old)
        → AreRefused turned.new first (P.faults spawner.new) }
    ensures waited { Keeps (P.waited spawner.old) (P.waited spawner.new) }
    ensures same { (f : Fronts) → H.stands hall.old f → H.stands hall.new f }
    ensures house { H.house hall.new ≡ H.house hall.old }
    ensures count { H.count hall.new ≡ H.count hall.old }
    ensures alone { H.alone hall.new ≡ H.alone hall.old }
{
    match door.accept() {
        Err(LinkError::Fault) => Some(Closing::DoorFault),
        Err(LinkError::NoMemory) => Some(Closing::NoMemory),
        Ok(Accepted::Closed) => Some(Closing::Closed),
        Ok(Accepted::Idle) => None,
        Ok(Accepted::Link(link)) => {
            match welcome(alloc, hall, spawner, clock, link, tasks, turned) {
                Ok(()) => None,
                Err(_) => Some(Closing::NoMemory),
            }
        }
    }
}

/// Has the clerk go through the rooms behind an answer of the door. A keeper's fault is noted, and
/// a mark that is set ends nothing. It answers why no more links are accepted, if none are.
fn look_after<H: Hall, K: Keeper, C: Clock>(
    alloc: Global,
    hall: &mut H,
    keeper: &mut K,
    clock: &mut C,
    failed: &mut bool,
) -> Option<Closing>
    ensures comes { AtEach (H.stands hall.old) (Tells (K.tells keeper.old) (K.plan keeper.old))
        (K.is_sure keeper.new) (λ f c. ComesTo (H.stands hall.new)
        (Tells (K.tells keeper.new) (K.plan keeper.new)) (H.house hall.old) f c) }
    ensures stopped { AtEach (H.stands hall.old) (Tells (K.tells keeper.old) (K.plan keeper.old))
        (K.is_sure keeper.new) (λ f c. IsClerkWord result (H.alone hall.old) (H.house hall.old)
        (H.count hall.old) f c) }
    ensures sure { K.is_sure keeper.new → K.is_sure keeper.old }
    ensures later { K.faults keeper.old ≤ K.faults keeper.new }
    ensures failed { IsTrue failed.new → IsTrue failed.old
        ⊎ Rose (K.faults keeper.old) (K.faults keeper.new) }
    ensures kept { failed.new ≡ false → (failed.old ≡ false)
        × (K.faults keeper.new ≡ K.faults keeper.old) }
    ensures open_still { says_closed result ≡ false }
    ensures no_fault { is_door_fault result ≡ false }
    ensures clock { (from : Option (ℕ → ℕ)) → IsFrom from (C.coming clock.old)
        → IsFrom from (C.coming clock.new) }
    ensures house { H.house hall.new ≡ H.house hall.old }
    ensures count { H.count hall.new ≡ H.count hall.old }
    ensures alone { H.alone hall.new ≡ H.alone hall.old }
{
    match tend(alloc, hall, keeper, clock) {
        Ok(()) | Err(ClerkError::Worn) => None,
        Err(ClerkError::KeeperFault) => {
            *failed = true;
            None
        }
        Err(ClerkError::KeyDiffers(id)) => Some(Closing::StoreDiffers(id)),
        Err(ClerkError::UsedUp) => Some(Closing::UsedUp),
        Err(ClerkError::NoMemory) => Some(Closing::NoMemory),
    }
}

/// Accepts links until none more are to be accepted, and begins a session for each. Behind each
/// answer of the door that leaves it open the clerk goes through the rooms.
pub(crate) fn accept_all<W, H, D, P, C, K>(
    rt: &W,
    alloc: Global,
    hall: &mut H,
    door: &mut D,
    spawner: &mut P,
    keeper: &mut K,
    clock: &mut C,
    tasks: &mut Vec<HoldTask<H, D::Link, C>>,
) -> Arrivals
where
    W: Wait,
    H: SharedHall + Send + Drop + 'static,
    D: Door,
    D::Link: Send + Drop + 'static,
    <D::Link as Link>::Stub: Send + Drop + 'static,
    C: Clock + Clone + Send + Drop + 'static,
    P: Spawner,
    K: Keeper,
    requires { tasks.old.items ≡ [] }
    ensures begun { (f : Fronts) → H.stands hall.old f → ClonesTell C.is_clone C.coming
        → AllByRecursion (λ j. IsBegun H.stands H.house H.count H.alone (H.house hall.old)
        (H.count hall.old) (C.coming clock.old) j.hall (D.Link.talk j.link)
        (D.Link.faults j.link) (C.coming j.clock)) tasks.new.items }
    ensures houses { AllByRecursion (λ j. H.house j.hall ≡ H.house hall.old) tasks.new.items }
    ensures comes { AtEach (H.stands hall.old) (Tells (K.tells keeper.old) (K.plan keeper.old))
        (K.is_sure keeper.new) (λ f c. ComesTo (H.stands hall.new)
        (Tells (K.tells keeper.new) (K.plan keeper.new)) (H.house hall.old) f c) }
    ensures stopped { AtEach (H.stands hall.old) (Tells (K.tells keeper.old) (K.plan keeper.old))
        (K.is_sure keeper.new) (λ f c. IsClerkWord (Some result.closing) (H.alone hall.old)
        (H.house hall.old) (H.count hall.old) f c) }
    ensures sure { K.is_sure keeper.new → K.is_sure keeper.old }
    ensures later { K.faults keeper.old ≤ K.faults keeper.new }
    ensures failed { IsTrue result.failed → Rose (K.faults keeper.old) (K.faults keeper.new) }
    ensures kept { result.failed ≡ false → K.faults keeper.new ≡ K.faults keeper.old }
    ensures links { result.closing ≢ Closing.NoMemory
        → CountsMore (length tasks.new.items + result.turned) (D.given door.old)
        (D.given door.new) }
    ensures closes { Counts (says_closed (Some result.closing)) (D.closes door.old)
        (D.closes door.new) }
    ensures faults { Counts (is_door_fault (Some result.closing)) (D.faults door.old)
        (D.faults door.new) }
    ensures back { Keeps (D.back door.old) (D.back door.new) }
    ensures room { HasRoom (length tasks.new.items) (D.given door.new) (D.back door.new) }
    ensures started { CountsMore (length tasks.new.items) (P.started spawner.old)
        (P.started spawner.new) }
    ensures turned { AreRefused result.turned (P.faults spawner.old) (P.faults spawner.new) }
    ensures waited { Keeps (P.waited spawner.old) (P.waited spawner.new) }
    ensures clock { (from : Option (ℕ → ℕ)) → IsFrom from (C.coming clock.old)
        → IsFrom from (C.coming clock.new) }
    ensures house { H.house hall.new ≡ H.house hall.old }
    ensures count { H.count hall.new ≡ H.count hall.old }
    ensures alone { H.alone hall.new ≡ H.alone hall.old }
{
    let mut turned = 0;
    let mut failed = false;
    for _ in rt.forever() {
        match admit(alloc, hall, door, spawner, clock, tasks, &mut turned) {
            Some(closing) => {
                return Arrivals {
                    closing,
                    turned,
                    failed,
                };
            }
            None => {}
        }
        match look_after(alloc, hall, keeper, clock, &mut failed) {
            Some(closing) => {
                return Arrivals {
                    closing,
                    turned,
                    failed,
                };
            }
            None => {}
        }
    }
    unreachable!()
}
