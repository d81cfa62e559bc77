//! What comes of the sessions that were begun?

ghost use Rattle.std.specs.Prelude.{◌≡◌, ◌||◌, ℕ, Option, length};
ghost use Rattle.std.specs.List.{AllByRecursion};
ghost use Rattle.hb_club.specs.Fronts.{Fronts};
ghost use Rattle.hb_edge.specs.Telling.{Keeps};
ghost use Rattle.hb_session.specs.Ends.{is_refused};
ghost use Rattle.hb_serve.specs.Counting.{CountsMore, HasRoom};
ghost use Rattle.hb_serve.specs.Explanations.{IsBegun};
ghost use Rattle.hb_serve.specs.Waiting.{Waited};

use crate::SharedHall;
use crate::jobs::HoldTask;
use hb_edge::{Clock, Door, Link, Spawner, wait};
use hb_session::{End, Held};

/// Whether a turn was refused, in this session or before.
fn refused_by(end: End, before: bool) -> bool
    ensures { result ≡ (is_refused end || before) }
{
    match end {
        End::Worn | End::NoMemory => true,
        End::Closed | End::LinkFault | End::BudgetSpent => before,
    }
}

/// Waits for all jobs. After each it joins the job's hall into this one, and gives the stub back to
/// the door. It answers whether a turn of a session was refused.
pub(crate) fn wait_all<H, D, P, C>(
    hall: &mut H,
    door: &mut D,
    spawner: &mut P,
    mut tasks: Vec<HoldTask<H, D::Link, C>>,
) -> bool
where
    H: SharedHall + Send + Drop + 'static,
    D: Door,
    D::Link: Send + Drop + 'static,
    <D::Link as Link>::Stub: Send + Drop + 'static,
    C: Clock + Send + Drop + 'static,
    P: Spawner,
    requires house { AllByRecursion (λ j. H.house j.hall ≡ H.house hall.old) tasks.items }
    requires room { HasRoom (length tasks.items) (D.given door.old) (D.back door.old) }
    ensures waited { (f : Fronts) (start : Option (ℕ → ℕ)) → H.stands hall.old f
        → AllByRecursion (λ j. IsBegun H.stands H.house H.count H.alone (H.house hall.old)
        (H.count hall.old) start j.hall (D.Link.talk j.link) (D.Link.faults j.link)
        (C.coming j.clock)) tasks.items
        → Waited (H.stands hall.new) D.Link.stub_talk D.Link.stub_faults (H.house hall.old)
        (H.count hall.old) start f (length tasks.items) result (D.back door.old) (D.back door.new) }
    ensures house { H.house hall.new ≡ H.house hall.old }
    ensures count { H.count hall.new ≡ H.count hall.old }
    ensures alone { H.alone hall.new ≡ H.alone hall.old }
    ensures closes { D.closes door.new ≡ D.closes door.old }
    ensures faults { D.faults door.new ≡ D.faults door.old }
    ensures given { Keeps (D.given door.old) (D.given door.new) }
    ensures tasks { CountsMore (length tasks.items) (P.waited spawner.old) (P.waited spawner.new) }
    ensures started { Keeps (P.started spawner.old) (P.started spawner.new) }
    ensures refusals { P.faults spawner.new ≡ P.faults spawner.old }
{
    let mut refused = false;
    while let Some(task) = tasks.pop() {
        let Held {
            hall: other,
            stub,
            end,
        } = wait(spawner, task);
        hall.join(other);
        door.give_back(stub);
        refused = refused_by(end, refused);
    }
    refused
}
