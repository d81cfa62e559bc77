//! How is a house opened, and how are its halls split and joined?

ghost use Rattle.std.specs.Prelude.{◌≡◌, ◌<◌, ◌≤◌, ◌^◌, length, IfOk};
ghost use Rattle.hb_club.specs.Fronts.{Fronts, no_events};
ghost use Rattle.hb_hall.specs.HouseHalls.{IsMadeWith, IsUnworn, JoinedFronts, SameMarks};
ghost use Rattle.hb_hall.specs.TurnFronts.{TurnStands, house_of};

use crate::places::{join_rooms, new_rooms, split_rooms};
use crate::{Entrance, GuardedLobby, TurnHall};
use hb_club::Shoe;
use hb_house::{Lobby, MOST_ROOMS, RoomMachine};
use std::alloc::{AllocError, Global};
use std::marker::Model;
use std::snapshot::Snapshot;

impl<W: Clone + Drop, R: RoomMachine> TurnHall<W, R> {
    /// The first hall of a new house of so many rooms, with no table in any of them and nobody
    /// welcomed in its lobby.
    pub fn new(rt: &W, alloc: Global, rooms: u32, shoe: &Shoe, run: u64) -> Result<Self, AllocError>
        requires rooms { rooms ≤ MOST_ROOMS }
        requires run { run < 2 ^ 63 }
        ensures count { IfOk result (λ made. length made.rooms ≡ rooms) }
        ensures empty { IfOk result (λ made. TurnStands R.site R.stands made no_events) }
        ensures house { IfOk result (λ made. IsMadeWith shoe.now run (house_of made)) }
        ensures unworn { IfOk result (λ made. IsUnworn made) }
    {
        let rt = rt.clone()?;
        let rooms = new_rooms(alloc, rooms, shoe, run)?;
        let lobby = GuardedLobby {
            lobby: Lobby::new(alloc),
            alloc,
            shoe: Snapshot::of(shoe),
            run,
        };
        let lobby = Entrance::new(alloc, lobby)?;
        Ok(TurnHall {
            rt,
            alloc,
            rooms,
            lobby,
        })
    }

    /// A further hall of the house, for another thread, which has seen what this one has. A mark
    /// that is set here is set there.
    ///
    /// If memory runs out, the passes that were made are dropped, and this hall is as before.
    pub fn split(&mut self) -> Result<Self, AllocError>
        ensures same { self.new ≡ self.old }
        ensures house { IfOk result (λ made. house_of made ≡ house_of self.old) }
        ensures count { IfOk result (λ made. length made.rooms ≡ length self.old.rooms) }
        ensures stands { IfOk result (λ made. (f : Fronts)
            → TurnStands R.site R.stands self.old f → TurnStands R.site R.stands made f) }
        ensures marks { IfOk result (λ made. SameMarks self.old made) }
    {
        let rt = self.rt.clone()?;
        let rooms = split_rooms(self.alloc, &mut self.rooms)?;
        let lobby = self.lobby.split()?;
        Ok(TurnHall {
            rt,
            alloc: self.alloc,
            rooms,
            lobby,
        })
    }

    /// Takes another hall of the house in. The lists of both begin those for which this hall then
    /// stands. Its marks are as before.
    pub fn join(&mut self, other: Self)
        requires { house_of other ≡ house_of self.old }
        ensures lists { (f g : Fronts) → TurnStands R.site R.stands self.old f
            → TurnStands R.site R.stands other g
            → JoinedFronts (TurnStands R.site R.stands self.new) f g }
        ensures house { house_of self.new ≡ house_of self.old }
        ensures count { length self.new.rooms ≡ length self.old.rooms }
        ensures marks { SameMarks self.old self.new }
    {
        let TurnHall { rooms, lobby, .. } = other;
        join_rooms(&mut self.rooms, rooms);
        self.lobby.join(lobby);
    }
}

/// A house: a handle to the turnstiles that its halls call.
///
/// In contracts it is the house of its halls.
#[derive(Drop)]
pub struct TurnHouse<W: Drop, R: RoomMachine> {
    // Never called.
    hall: TurnHall<W, R>,
}

impl<W: Drop, R: RoomMachine> Model for TurnHouse<W, R> {
    ghost use Rattle.hb_club.specs.Fronts.{House};
    ghost use Rattle.hb_hall.specs.TurnFronts.{house_of};

    ghost Value = { House };

    ghost view = { λ h. house_of h.hall };
}

impl<W: Clone + Drop, R: RoomMachine> TurnHouse<W, R> {
    /// A new house of so many rooms, and its first hall. There is no table in any of the rooms, and
    /// nobody was welcomed in the lobby.
    pub fn new(
        rt: &W,
        alloc: Global,
        rooms: u32,
        shoe: &Shoe,
        run: u64,
    ) -> Result<(Self, TurnHall<W, R>), AllocError>
        requires rooms { rooms ≤ MOST_ROOMS }
        requires run { run < 2 ^ 63 }
        ensures house { IfOk result (λ made. made.0 ≡ house_of made.1) }
        ensures count { IfOk result (λ made. length made.1.rooms ≡ rooms) }
        ensures empty { IfOk result (λ made. TurnStands R.site R.stands made.1 no_events) }
        ensures with { IfOk result (λ made. IsMadeWith shoe.now run made.0) }
        ensures unworn { IfOk result (λ made. IsUnworn made.1) }
    {
        let mut hall = TurnHall::new(rt, alloc, rooms, shoe, run)?;
        let handle = hall.split()?;
        Ok((TurnHouse { hall: handle }, hall))
    }

    /// A further hall of the house, for another thread: [`TurnHall::split`].
    pub fn split(&self, hall: &mut TurnHall<W, R>) -> Result<TurnHall<W, R>, AllocError>
        requires { house_of hall.old ≡ self.now }
        ensures same { hall.new ≡ hall.old }
        ensures house { IfOk result (λ made. house_of made ≡ self.now) }
        ensures count { IfOk result (λ made. length made.rooms ≡ length hall.old.rooms) }
        ensures stands { IfOk result (λ made. (f : Fronts)
            → TurnStands R.site R.stands hall.old f → TurnStands R.site R.stands made f) }
        ensures marks { IfOk result (λ made. SameMarks hall.old made) }
    {
        hall.split()
    }

    /// Takes one hall of the house into another: [`TurnHall::join`].
    pub fn join(&self, hall: &mut TurnHall<W, R>, other: TurnHall<W, R>)
        requires hall { house_of hall.old ≡ self.now }
        requires other { house_of other ≡ self.now }
        ensures lists { (f g : Fronts) → TurnStands R.site R.stands hall.old f
            → TurnStands R.site R.stands other g
            → JoinedFronts (TurnStands R.site R.stands hall.new) f g }
        ensures house { house_of hall.new ≡ self.now }
        ensures count { length hall.new.rooms ≡ length hall.old.rooms }
        ensures marks { SameMarks hall.old hall.new }
    {
        hall.join(other);
    }
}
