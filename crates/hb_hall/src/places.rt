//! How are the rooms of a hall made, split and joined?

ghost use Rattle.std.specs.Prelude.{◌≡◌, ◌<◌, ◌^◌, length, map, IfOk};
ghost use Rattle.hb_club.specs.Fronts.{House};
ghost use Rattle.hb_hall.specs.HouseHalls.{AreNew, IsMadeWith, JoinsRooms, without_number};
ghost use Rattle.hb_hall.specs.TurnFronts.{room_code};

use crate::{Entrance, GuardedRoom};
use hb_club::Shoe;
use hb_house::RoomMachine;
use std::alloc::{AllocError, Global};

/// So many rooms, numbered from 1, each at a turnstile of its own.
pub(crate) fn new_rooms<R: RoomMachine>(
    alloc: Global,
    count: u32,
    shoe: &Shoe,
    run: u64,
) -> Result<Vec<Entrance<GuardedRoom<R>>>, AllocError>
    requires { run < 2 ^ 63 }
    ensures count { IfOk result (λ made. length made.items ≡ count) }
    ensures new { IfOk result (λ made. (h : House) → IsMadeWith shoe.now run h
        → AreNew R.site R.stands h made.items) }
{
    let mut made = Vec::new(alloc);
    for room in 0..count {
        let room = R::new(alloc, room + 1, shoe, run)?;
        let entrance = Entrance::new(alloc, GuardedRoom { room, alloc })?;
        made.push(entrance)?;
    }
    Ok(made)
}

/// A further entrance to each room.
pub(crate) fn split_rooms<R: RoomMachine>(
    alloc: Global,
    rooms: &mut Vec<Entrance<GuardedRoom<R>>>,
) -> Result<Vec<Entrance<GuardedRoom<R>>>, AllocError>
    ensures same { rooms.new.items ≡ rooms.old.items }
    ensures new { IfOk result
        (λ made. map without_number made.items ≡ map without_number rooms.old.items) }
{
    let mut made = Vec::new(alloc);
    for i in 0..rooms.len() {
        let half = rooms[i].split()?;
        made.push(half)?;
    }
    Ok(made)
}

/// Takes in another entrance to each room.
pub(crate) fn join_rooms<R: RoomMachine>(
    rooms: &mut Vec<Entrance<GuardedRoom<R>>>,
    mut others: Vec<Entrance<GuardedRoom<R>>>,
)
    requires { map room_code others.items ≡ map room_code rooms.old.items }
    ensures joined { JoinsRooms R.site R.stands rooms.old.items others.items rooms.new.items }
    ensures codes { map room_code rooms.new.items ≡ map room_code rooms.old.items }
{
    while let Some(other) = others.pop() {
        rooms[others.len()].join(other);
    }
}
