//! How is a house opened?

ghost use Rattle.std.specs.Prelude.{◌≡◌, ◌≤◌, Err, IfErr, IfOk, false, length};
ghost use Rattle.hb_club.specs.Fronts.{no_events};
ghost use Rattle.hb_io.specs.Causes.{Rose};
ghost use Rattle.hb_cli.specs.Works.{AtTold};
ghost use Rattle.hb_hall.specs.TurnFronts.{TurnStands, house_of};
ghost use Rattle.hb_house.specs.KeeperSteps.{Tells};
ghost use Rattle.hb_server.specs.Houses.{OpensHouse, OpensNone, not_begun};
ghost use Rattle.hb_words.specs.declared.servers.TheConstants.{MOST_SERVED_ROOMS};

use crate::Unserved;
use hb_club::Shoe;
use hb_edge::Dice;
use hb_hall::TurnHall;
use hb_house::RoomMachine;
use hb_keeper::{KeepError, Keeper};
use std::alloc::Global;
use std::clone::Clone;

/// Why no house is opened if the keeper refuses to begin a run, which it never does for a key.
fn not_begun(error: KeepError) -> Unserved
    ensures { result ≡ not_begun error }
{
    match error {
        KeepError::Fault => Unserved::KeeperFault,
        KeepError::UsedUp => Unserved::UsedUp,
        KeepError::KeyDiffers(_) | KeepError::NoMemory => Unserved::NoMemory,
    }
}

/// Begins a run of the keeper, takes a seed from the dice, and makes the first hall of a new house
/// of so many rooms.
pub(crate) fn open_house<W, R, Z, K>(
    rt: &W,
    alloc: Global,
    rooms: u8,
    dice: &mut Z,
    keeper: &mut K,
) -> Result<TurnHall<W, R>, Unserved>
where
    W: Clone + Drop,
    R: RoomMachine,
    Z: Dice,
    K: Keeper,
    requires { rooms ≤ MOST_SERVED_ROOMS }
    ensures opened { IfOk result (λ hall. AtTold (Tells (K.tells keeper.old) (K.plan keeper.old))
        (K.is_sure keeper.new) (OpensHouse (Tells (K.tells keeper.new) (K.plan keeper.new))
        (Z.next dice.old) (house_of hall))) }
    ensures empty { IfOk result (λ hall. TurnStands R.site R.stands hall no_events) }
    ensures count { IfOk result (λ hall. length hall.rooms ≡ rooms) }
    ensures none { IfErr result (OpensNone (Tells (K.tells keeper.old) (K.plan keeper.old))
        (Tells (K.tells keeper.new) (K.plan keeper.new)) (K.is_sure keeper.new)) }
    ensures sure { K.is_sure keeper.new → K.is_sure keeper.old }
    ensures kept { IfOk result (λ hall. K.faults keeper.new ≡ K.faults keeper.old) }
    ensures keeper_fault { result ≡ Err Unserved.KeeperFault
        → Rose (K.faults keeper.old) (K.faults keeper.new) }
    ensures dice_fault { result ≡ Err Unserved.DiceFault
        → Rose (Z.faults dice.old) (Z.faults dice.new) }
{
    let run = match keeper.open_run() {
        Ok(run) => run,
        Err(error) => return Err(not_begun(error)),
    };
    let Ok(seed) = dice.seed() else {
        return Err(Unserved::DiceFault);
    };
    let shoe = Shoe {
        seed,
        written: None,
    };
    match TurnHall::new(rt, alloc, u32::from(rooms), &shoe, run) {
        Ok(hall) => Ok(hall),
        Err(_) => Err(Unserved::NoMemory),
    }
}
