//! What does the server do with all that it is given?

ghost use Rattle.std.specs.Prelude.{◌≡◌, ◌≢◌, Result};
ghost use Rattle.hb_io.specs.Causes.{Rose};
ghost use Rattle.hb_cli.specs.Written.{sent};
ghost use Rattle.hb_house.specs.KeeperSteps.{Tells};
ghost use Rattle.hb_house.specs.KeptOnce.{NoLaterRun};
ghost use Rattle.hb_keeper.specs.KeptGames.{Content};
ghost use Rattle.hb_serve.specs.Comings.{ClonesTell};
ghost use Rattle.hb_serve.specs.declared.serving.Outcome.{Outcome};
ghost use Rattle.hb_server.specs.Counters.{counted};
ghost use Rattle.hb_server.specs.Deeds.{Did};
ghost use Rattle.hb_server.specs.Ends.{FailsEnd, SaysEnd};
ghost use Rattle.hb_server.specs.declared.ends.Unserved.{Unserved};
ghost use Rattle.hb_words.specs.Commands.{texts_of};

use crate::ends::{conclude, stop_unserved};
use crate::works::work;
use hb_cli::{Status, report};
use hb_edge::{Clock, Dice, Door, Link, Spawner};
use hb_io::Sink;
use hb_keeper::Keeper;
use hb_table::Room;
use std::alloc::Global;
use std::clone::Clone;
use std::sync::Wait;

/// Serves as the words `serve ADDR ROOMS STORE` ask for: begins a run of the keeper, takes a seed
/// from the dice, and serves all links of the door, each in a thread of its own, in a house of so
/// many rooms, until the door is closed. It says on `err` how it ended.
///
/// Words are those of the command line without the program's name. The door is that of the address
/// which they name, and the keeper that of their store. If a door, a link, a spawner, dice, a
/// clock, a keeper or a sink does not tell its content, the clauses say nothing of these; what they
/// say of words, causes and counts of faults holds of any. `NoMemory` alone may come at any time; a
/// room or a lobby that can be called no more counts as that.
///
/// It may wait without end.
pub fn serve<W, D, P, C, Z, E, K>(
    rt: &W,
    alloc: Global,
    words: &[&str],
    door: &mut D,
    spawner: &mut P,
    clock: C,
    dice: &mut Z,
    err: &mut E,
    keeper: &mut K,
) -> Status
where
    W: Wait + Clone + Send + Drop + 'static,
    D: Door,
    D::Link: Send + Drop + 'static,
    <D::Link as Link>::Stub: Send + Drop + 'static,
    P: Spawner,
    C: Clock + Clone + Send + Drop + 'static,
    Z: Dice,
    E: Sink,
    K: Keeper,
    // What was done, and what was then said and answered.
    ensures end { (e : Result Outcome Unserved)
        × Did (Tells (K.tells keeper.old) (K.plan keeper.old))
        (Tells (K.tells keeper.new) (K.plan keeper.new)) (K.is_sure keeper.new)
        (ClonesTell C.is_clone C.coming) D.Link.stub_talk D.Link.stub_faults (record {
          words = texts_of words.now;
          seed = Z.next dice.old;
          clock = C.coming clock;
          back = D.back door.old;
          back_now = D.back door.new;
          counters = record {
            given = counted D.given door.old door.new;
            closes = counted D.closes door.old door.new;
            door = counted D.faults door.old door.new;
            started = counted P.started spawner.old spawner.new;
            waited = counted P.waited spawner.old spawner.new;
            refused = counted P.faults spawner.old spawner.new;
            keeper = counted K.faults keeper.old keeper.new;
          };
        }) e
        × (result ≢ Status.WriteFault → SaysEnd (sent E.held E.faults err.old err.new) result e)
        × (result ≡ Status.WriteFault → FailsEnd (sent E.held E.faults err.old err.new) e) }
    ensures sure { K.is_sure keeper.new → K.is_sure keeper.old }

    // The causes of the statuses.
    ensures usage { result ≡ Status.Usage → (keeper.new ≡ keeper.old) × (dice.new ≡ dice.old)
        × (door.new ≡ door.old) × (spawner.new ≡ spawner.old) }
    ensures ok { result ≡ Status.Ok → Rose (D.closes door.old) (D.closes door.new)
        × (K.faults keeper.new ≡ K.faults keeper.old) }
    ensures write_fault { result ≡ Status.WriteFault → Rose (E.faults err.old) (E.faults err.new) }
    ensures keeper_fault { result ≡ Status.KeeperFault
        → Rose (K.faults keeper.old) (K.faults keeper.new) }
    ensures door_fault { result ≡ Status.DoorFault → Rose (D.faults door.old) (D.faults door.new) }
    ensures dice_fault { result ≡ Status.DiceFault → Rose (Z.faults dice.old) (Z.faults dice.new) }

    // A store that tells its content, in which no game is of a run behind its last one, is never
    // found to differ.
    ensures sound { ClonesTell C.is_clone C.coming → (c : Content) → K.tells keeper.old c
        → NoLaterRun c → K.is_sure keeper.new → result ≢ Status.StoreDiffers }
{
    match work::<Room, _, _, _, _, _, _>(rt, alloc, words, door, spawner, clock, dice, keeper) {
        Ok(outcome) => conclude(alloc, err, &outcome),
        Err(why) => report(alloc, err, &stop_unserved(why)),
    }
}
