//! How does a hall that nobody else calls keep its rooms and its lobby?

ghost use Rattle.std.specs.Prelude.{◌≡◌, ◌<◌, ◌≤◌, ◌^◌, IfOk};
ghost use Rattle.std.specs.Vec.{vec_len};
ghost use Rattle.hb_club.specs.Fronts.{no_events};
ghost use Rattle.hb_house.specs.PlainHalls.{house_with};

use crate::{Hall, Lobby, RoomMachine};
use hb_club::{
    Answered, ClerkNote, Entry, HallError, LobbyEntry, LobbyReply, Noted, Seen, Shoe, Todo,
};
use std::alloc::{AllocError, Global};
use std::snapshot::Snapshot;

/// The most rooms of a hall.
pub const MOST_ROOMS: u32 = 16;

/// A hall that nobody else calls. No mark of it is ever set.
#[derive(Drop)]
pub struct PlainHall<R: RoomMachine> {
    rooms: Vec<R>,
    lobby: Lobby,
    shoe: Snapshot<Shoe>,
    run: u64,
    ghost few: { vec_len rooms ≤ 16 },
}

impl<R: RoomMachine> PlainHall<R> {
    /// A hall of so many rooms, with no table in any of them and nobody welcomed in its lobby.
    pub fn new(alloc: Global, rooms: u32, shoe: &Shoe, run: u64) -> Result<Self, AllocError>
        requires rooms { rooms ≤ MOST_ROOMS }
        requires run { run < 2 ^ 63 }
        ensures count { IfOk result (λ made. ⟦<PlainHall<R> as Hall>⟧.count made ≡ rooms) }
        ensures empty { IfOk result (λ made. ⟦<PlainHall<R> as Hall>⟧.stands made no_events) }
        ensures house { IfOk result (λ made.
            ⟦<PlainHall<R> as Hall>⟧.house made ≡ house_with shoe.now run) }
    {
        let mut made = Vec::new(alloc);
        for room in 0..rooms {
            made.push(R::new(alloc, room + 1, shoe, run)?)?;
        }
        Ok(PlainHall {
            rooms: made,
            lobby: Lobby::new(alloc),
            shoe: Snapshot::of(shoe),
            run,
        })
    }
}

impl<R: RoomMachine> Hall for PlainHall<R> {
    ghost use Rattle.std.specs.Prelude.{false, true};
    ghost use Rattle.std.specs.Vec.{vec_len};
    ghost use Rattle.hb_house.specs.PlainHalls.{PlainStands, house_with};

    ghost stands = { λ h f. PlainStands R.site R.stands (house_with h.shoe.value h.run)
        h.rooms.items h.lobby f };

    ghost house = { λ h. house_with h.shoe.value h.run };

    ghost count = { λ h. vec_len h.rooms };

    ghost mark = { λ h room. false };

    ghost lobby_mark = { λ h. false };

    ghost alone = { λ h. true };

    fn rooms(&self) -> u32 {
        self.rooms.len() as u32
    }

    fn lobby(&mut self, alloc: Global, e: &LobbyEntry) -> Result<LobbyReply, HallError> {
        match self.lobby.enter(alloc, e) {
            Ok(reply) => Ok(reply),
            Err(_) => Err(HallError::NoMemory),
        }
    }

    fn room(
        &mut self,
        alloc: Global,
        room: u32,
        e: &Entry,
        seen: &Seen,
    ) -> Result<Answered, HallError> {
        if room == 0 || room as usize > self.rooms.len() {
            return Err(HallError::NoSuchRoom);
        }
        match self.rooms[room as usize - 1].answer(alloc, e, seen) {
            Ok(answered) => Ok(answered),
            Err(_) => Err(HallError::NoMemory),
        }
    }

    fn todo(&mut self, alloc: Global, room: u32, moment: u64) -> Result<Todo, HallError> {
        if room == 0 || room as usize > self.rooms.len() {
            return Err(HallError::NoSuchRoom);
        }
        match self.rooms[room as usize - 1].todo(alloc, moment) {
            Ok(todo) => Ok(todo),
            Err(_) => Err(HallError::NoMemory),
        }
    }

    fn note(
        &mut self,
        _alloc: Global,
        room: u32,
        moment: u64,
        note: &ClerkNote,
    ) -> Result<Noted, HallError> {
        if room == 0 || room as usize > self.rooms.len() {
            return Err(HallError::NoSuchRoom);
        }
        match self.rooms[room as usize - 1].note(moment, note) {
            Ok(noted) => Ok(noted),
            Err(_) => Err(HallError::NoMemory),
        }
    }
}
