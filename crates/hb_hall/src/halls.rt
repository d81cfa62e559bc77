//! How does a hall call rooms and a lobby that other threads call too?

ghost use Rattle.std.specs.Prelude.{◌≡◌, ◌↔◌, IsTrue, if◌then◌else◌, length};
ghost use Rattle.hb_club.specs.Fronts.{IsRoom};
ghost use Rattle.hb_hall.specs.Entrances.{CallsAt};
ghost use Rattle.hb_hall.specs.MachineTurns.{LobbyTurns};
ghost use Rattle.hb_hall.specs.TurnFronts.{CallsRoom, mark_at};

use crate::answers::{answer_to_entry, answer_to_name, answer_to_note, answer_to_question};
use crate::copies::{copy_of_entry, copy_of_lobby_entry, copy_of_note};
use crate::{Entrance, GuardedLobby, GuardedRoom, LobbyTurn, RoomCall, RoomReply};
use hb_club::{Answered, ClerkNote, Entry, HallError, LobbyEntry, LobbyReply, Noted, Seen, Todo};
use hb_house::{Hall, RoomMachine};
use std::alloc::Global;
use std::marker::Model;
use std::sync::Wait;

/// A hall for one thread, of a house whose rooms and lobby other threads call too. Each call waits
/// for its turn.
///
/// It keeps the runtime by which it waits, so its calls take none, and it may go to another thread.
/// The mark of a room or of the lobby is set once a call found that all 2^62 tickets of its
/// turnstile were given.
///
/// In contracts it is its rooms and its lobby, each with the machine that its turnstile began with
/// and with what the pass of this hall knows.
#[derive(Drop)]
pub struct TurnHall<W: Drop, R: RoomMachine> {
    pub(crate) rt: W,
    pub(crate) alloc: Global,
    pub(crate) rooms: Vec<Entrance<GuardedRoom<R>>>,
    pub(crate) lobby: Entrance<GuardedLobby>,
}

impl<W: Drop, R: RoomMachine> Model for TurnHall<W, R> {
    ghost use Rattle.std.specs.Prelude.{◌≤◌, length};
    ghost use Rattle.hb_house.specs.declared.plain.TheConstants.{MOST_ROOMS};
    ghost use Rattle.hb_hall.specs.TurnFronts.{Places};

    ghost Value = { Places R };

    ghost view = { λ h. record { rooms = h.rooms.items; lobby = h.lobby } };

    ghost invariant = { λ h. length h.rooms.items ≤ MOST_ROOMS };
}

impl<W: Drop, R: RoomMachine> TurnHall<W, R> {
    /// Whether there is such a room.
    fn has_room(&self, room: u32) -> bool
        ensures { IsTrue result ↔ IsRoom (length self.now.rooms) room }
    {
        room > 0 && room as usize <= self.rooms.len()
    }

    /// Why a room was not called, if there was no memory for the call. The mark comes first.
    fn refused_by_room(&self, room: u32) -> HallError
        requires { IsRoom (length self.now.rooms) room }
        ensures { result ≡ (if mark_at self.now.rooms room then HallError.Worn
            else HallError.NoMemory) }
    {
        if self.rooms[room as usize - 1].is_worn() {
            HallError::Worn
        } else {
            HallError::NoMemory
        }
    }

    /// Why the lobby was not called, if there was no memory for the call. The mark comes first.
    fn refused_by_lobby(&self) -> HallError
        ensures { result ≡ (if self.now.lobby.pass.worn then HallError.Worn
            else HallError.NoMemory) }
    {
        if self.lobby.is_worn() {
            HallError::Worn
        } else {
            HallError::NoMemory
        }
    }
}

impl<W: Wait + Drop, R: RoomMachine> TurnHall<W, R> {
    /// Calls a room. `None` comes exactly if it is worn.
    fn call_room(&mut self, room: u32, call: &RoomCall) -> Option<RoomReply>
        requires { IsRoom (length self.old.rooms) room }
        ensures { CallsRoom R.site R.stands self.old room call.now result self.new }
    {
        self.rooms[room as usize - 1].call(&self.rt, call)
    }

    /// Calls the lobby. `None` comes exactly if it is worn.
    fn call_lobby(&mut self, entry: &LobbyEntry) -> Option<LobbyTurn>
        ensures rooms { self.new.rooms ≡ self.old.rooms }
        ensures called { CallsAt (λ before call reply after.
            LobbyTurns before.lobby call reply after.lobby)
            self.old.lobby entry.now result self.new.lobby }
    {
        self.lobby.call(&self.rt, entry)
    }
}

impl<W: Wait + Drop, R: RoomMachine> Hall for TurnHall<W, R> {
    ghost use Rattle.std.specs.Prelude.{false, length};
    ghost use Rattle.hb_hall.specs.TurnFronts.{TurnStands, house_of, mark_at};

    ghost stands = { TurnStands R.site R.stands };

    ghost house = { house_of };

    ghost count = { λ h. length h.rooms };

    ghost mark = { λ h room. mark_at h.rooms room };

    ghost lobby_mark = { λ h. h.lobby.pass.worn };

    ghost alone = { λ h. false };

    fn rooms(&self) -> u32 {
        self.rooms.len() as u32
    }

    fn lobby(&mut self, _alloc: Global, e: &LobbyEntry) -> Result<LobbyReply, HallError> {
        let Ok(entry) = copy_of_lobby_entry(e) else {
            return Err(self.refused_by_lobby());
        };
        answer_to_name(self.call_lobby(&entry))
    }

    fn room(
        &mut self,
        _alloc: Global,
        room: u32,
        e: &Entry,
        seen: &Seen,
    ) -> Result<Answered, HallError> {
        if !self.has_room(room) {
            return Err(HallError::NoSuchRoom);
        }
        let Ok(entry) = copy_of_entry(e) else {
            return Err(self.refused_by_room(room));
        };
        let call = RoomCall::Enter { entry, seen: *seen };
        answer_to_entry(self.call_room(room, &call))
    }

    fn todo(&mut self, _alloc: Global, room: u32, moment: u64) -> Result<Todo, HallError> {
        if !self.has_room(room) {
            return Err(HallError::NoSuchRoom);
        }
        let call = RoomCall::AskTodo { moment };
        answer_to_question(self.call_room(room, &call))
    }

    fn note(
        &mut self,
        alloc: Global,
        room: u32,
        moment: u64,
        note: &ClerkNote,
    ) -> Result<Noted, HallError> {
        if !self.has_room(room) {
            return Err(HallError::NoSuchRoom);
        }
        let Ok(note) = copy_of_note(alloc, note) else {
            return Err(self.refused_by_room(room));
        };
        let call = RoomCall::TakeNote { moment, note };
        answer_to_note(self.call_room(room, &call))
    }
}
