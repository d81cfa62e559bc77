//! What does each link get? A job that holds its session.

ghost use Rattle.std.specs.Prelude.{◌≡◌, ℕ, Option, IfOk, OnErr, length};
ghost use Rattle.std.specs.List.{AllByRecursion};
ghost use Rattle.hb_club.specs.Fronts.{Fronts};
ghost use Rattle.hb_edge.specs.Talk.{IsNew};
ghost use Rattle.hb_edge.specs.Telling.{Keeps};
ghost use Rattle.hb_session.specs.Holding.{IsHeld};
ghost use Rattle.hb_serve.specs.Comings.{ClonesTell, IsFrom};
ghost use Rattle.hb_serve.specs.Counting.{Begins};
ghost use Rattle.hb_serve.specs.Explanations.{IsBegun};

use crate::SharedHall;
use hb_edge::{Clock, Job, Link, Spawner, Task, start};
use hb_house::Hall;
use hb_session::{Held, hold};
use std::alloc::{AllocError, Global};
use std::clone::Clone;

/// The job of one link: to hold its session, over a hall and at a clock of its own.
#[derive(Drop)]
pub struct HoldJob<H, L, C> {
    pub(crate) alloc: Global,
    pub(crate) hall: H,
    pub(crate) link: L,
    pub(crate) clock: C,
}

impl<H: Hall + Drop, L: Link + Drop, C: Clock + Drop> Job<Held<H, L::Stub>> for HoldJob<H, L, C> {
    ghost answers = { λ job held. IsHeld H.stands H.house H.count H.alone job.hall held.hall
        (C.coming job.clock) (L.talk job.link) (L.stub_talk held.stub) (L.faults job.link)
        (L.stub_faults held.stub) held.end };

    fn run(self) -> Held<H, L::Stub> {
        let HoldJob {
            alloc,
            hall,
            link,
            clock,
        } = self;
        hold(alloc, hall, link, clock)
    }
}

/// A job that was started, for which is still to be waited.
pub(crate) type HoldTask<H, L, C> = Task<Held<H, <L as Link>::Stub>, HoldJob<H, L, C>>;

/// Starts the job of a new link, with a hall that is split off and a clone of the clock. It answers
/// whether the job was started; a link whose job is refused is dropped.
pub(crate) fn begin<H, L, P, C>(
    alloc: Global,
    hall: &mut H,
    spawner: &mut P,
    clock: &C,
    link: L,
    tasks: &mut Vec<HoldTask<H, L, C>>,
) -> Result<bool, AllocError>
where
    H: SharedHall + Send + Drop + 'static,
    L: Link + Send + Drop + 'static,
    L::Stub: Send + Drop + 'static,
    C: Clock + Clone + Send + Drop + 'static,
    P: Spawner,
    requires { IsNew (L.talk link) (L.faults link) }
    ensures begun { (f : Fronts) (from : Option (ℕ → ℕ)) → H.stands hall.old f
        → IsFrom from (C.coming clock.now) → ClonesTell C.is_clone C.coming
        → AllByRecursion (λ j. IsBegun H.stands H.house H.count H.alone (H.house hall.old)
        (H.count hall.old) from j.hall (L.talk j.link) (L.faults j.link) (C.coming j.clock))
        tasks.old.items
        → AllByRecursion (λ j. IsBegun H.stands H.house H.count H.alone (H.house hall.old)
        (H.count hall.old) from j.hall (L.talk j.link) (L.faults j.link) (C.coming j.clock))
        tasks.new.items }
    ensures houses { AllByRecursion (λ j. H.house j.hall ≡ H.house hall.old) tasks.old.items
        → AllByRecursion (λ j. H.house j.hall ≡ H.house hall.old) tasks.new.items }
    ensures counts { IfOk result (λ done. Begins done (length tasks.old.items)
        (length tasks.new.items) (P.started spawner.old) (P.started spawner.new)
        (P.faults spawner.old) (P.faults spawner.new)) }
    ensures refused { OnErr result (tasks.new.items ≡ tasks.old.items) }
    ensures unasked { OnErr result (spawner.new ≡ spawner.old) }
    ensures waited { Keeps (P.waited spawner.old) (P.waited spawner.new) }
    ensures same { (f : Fronts) → H.stands hall.old f → H.stands hall.new f }
    ensures house { H.house hall.new ≡ H.house hall.old }
    ensures count { H.count hall.new ≡ H.count hall.old }
    ensures alone { H.alone hall.new ≡ H.alone hall.old }
{
    tasks.reserve(1)?;
    let clock = clock.clone()?;
    let hall = hall.split()?;
    let job = HoldJob {
        alloc,
        hall,
        link,
        clock,
    };
    match start(spawner, job) {
        Ok(task) => {
            tasks.push_reserved(task);
            Ok(true)
        }
        Err(_) => Ok(false),
    }
}
