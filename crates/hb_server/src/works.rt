//! What does a server do?

ghost use Rattle.std.specs.Prelude.{◌≡◌, Err, None, Some};
ghost use Rattle.hb_io.specs.Causes.{Rose};
ghost use Rattle.hb_cli.specs.declared.status.Stop.TheVariants as stop;
ghost use Rattle.hb_house.specs.KeeperSteps.{Tells};
ghost use Rattle.hb_serve.specs.Comings.{ClonesTell};
ghost use Rattle.hb_server.specs.Counters.{counted};
ghost use Rattle.hb_server.specs.Deeds.{Did};
ghost use Rattle.hb_server.specs.Ends.{end_stop};
ghost use Rattle.hb_words.specs.Commands.{texts_of};

use crate::Unserved;
use crate::houses::open_house;
use hb_edge::{Clock, Dice, Door, Link, Spawner};
use hb_hall::TurnHall;
use hb_house::RoomMachine;
use hb_keeper::Keeper;
use hb_serve::{Outcome, serve_all};
use hb_words::server_command;
use std::alloc::Global;
use std::clone::Clone;
use std::sync::Wait;

/// Opens the house that the words ask for, and serves all links of a door in it. It answers what
/// came of them, or why none was served.
///
/// It may wait without end.
pub(crate) fn work<R, W, D, P, C, Z, K>(
    rt: &W,
    alloc: Global,
    words: &[&str],
    door: &mut D,
    spawner: &mut P,
    clock: C,
    dice: &mut Z,
    keeper: &mut K,
) -> Result<Outcome, Unserved>
where
    R: RoomMachine + Send + 'static,
    W: Wait + Clone + Send + Drop + 'static,
    D: Door,
    D::Link: Send + Drop + 'static,
    <D::Link as Link>::Stub: Send + Drop + 'static,
    P: Spawner,
    C: Clock + Clone + Send + Drop + 'static,
    Z: Dice,
    K: Keeper,
    ensures did { Did (Tells (K.tells keeper.old) (K.plan keeper.old))
        (Tells (K.tells keeper.new) (K.plan keeper.new)) (K.is_sure keeper.new)
        (ClonesTell C.is_clone C.coming) D.Link.stub_talk D.Link.stub_faults (record {
          words = texts_of words.now;
          seed = Z.next dice.old;
          clock = C.coming clock;
          back = D.back door.old;
          back_now = D.back door.new;
          counters = record {
            given = counted D.given door.old door.new;
            closes = counted D.closes door.old door.new;
            door = counted D.faults door.old door.new;
            started = counted P.started spawner.old spawner.new;
            waited = counted P.waited spawner.old spawner.new;
            refused = counted P.faults spawner.old spawner.new;
            keeper = counted K.faults keeper.old keeper.new;
          };
        }) result }
    ensures sure { K.is_sure keeper.new → K.is_sure keeper.old }
    ensures unserved { result ≡ Err Unserved.Usage → (keeper.new ≡ keeper.old)
        × (dice.new ≡ dice.old) × (door.new ≡ door.old) × (spawner.new ≡ spawner.old) }
    ensures done { end_stop result ≡ None → Rose (D.closes door.old) (D.closes door.new)
        × (K.faults keeper.new ≡ K.faults keeper.old) }
    ensures keeper_fault { end_stop result ≡ Some stop.KeeperFault
        → Rose (K.faults keeper.old) (K.faults keeper.new) }
    ensures door_fault { end_stop result ≡ Some stop.DoorFault
        → Rose (D.faults door.old) (D.faults door.new) }
    ensures dice_fault { end_stop result ≡ Some stop.DiceFault
        → Rose (Z.faults dice.old) (Z.faults dice.new) }
{
    let Some(command) = server_command(words) else {
        return Err(Unserved::Usage);
    };
    let mut hall: TurnHall<W, R> = match open_house(rt, alloc, command.rooms, dice, keeper) {
        Ok(hall) => hall,
        Err(why) => return Err(why),
    };
    Ok(serve_all(rt, alloc, &mut hall, door, spawner, keeper, clock))
}
