//! How do a room and a lobby take turns behind a turnstile?

ghost use Rattle.hb_hall.specs.MachineTurns.{LobbyTurns, RoomTurns};

use hb_club::{Answered, ClerkNote, Entry, LobbyEntry, LobbyReply, Noted, Seen, Shoe, Todo};
use hb_house::{Lobby, RoomMachine};
use hb_turnstile::Machine;
use std::alloc::Global;
use std::snapshot::Snapshot;

/// What a room is asked in one turn.
#[derive(Drop)]
pub enum RoomCall {
    /// To take the entry of a member, who has seen so much of the room.
    Enter { entry: Entry, seen: Seen },
    /// What there is for the clerk to do, at a moment in milliseconds.
    AskTodo { moment: u64 },
    /// To take a note of the clerk, at a moment in milliseconds.
    TakeNote { moment: u64, note: ClerkNote },
}

/// What a room answers in one turn.
#[derive(Drop)]
pub enum RoomReply {
    /// To an entry.
    Entered(Answered),
    /// To the clerk's question.
    Owes(Todo),
    /// To a note of the clerk.
    Noted(Noted),
    /// There was no memory for the call, and nothing happened.
    NoMemory,
}

/// A room behind a turnstile, with the allocator for its turns.
#[derive(Drop)]
pub struct GuardedRoom<R: RoomMachine> {
    pub(crate) room: R,
    pub(crate) alloc: Global,
}

impl<R: RoomMachine> Machine for GuardedRoom<R> {
    type Call = RoomCall;

    type Reply = RoomReply;

    ghost turns = { λ before call reply after.
        RoomTurns R.site R.stands before.room call reply after.room };

    fn turn(&mut self, call: &RoomCall) -> RoomReply {
        match call {
            RoomCall::Enter { entry, seen } => match self.room.answer(self.alloc, entry, seen) {
                Ok(answered) => RoomReply::Entered(answered),
                Err(_) => RoomReply::NoMemory,
            },
            RoomCall::AskTodo { moment } => match self.room.todo(self.alloc, *moment) {
                Ok(todo) => RoomReply::Owes(todo),
                Err(_) => RoomReply::NoMemory,
            },
            RoomCall::TakeNote { moment, note } => match self.room.note(*moment, note) {
                Ok(noted) => RoomReply::Noted(noted),
                Err(_) => RoomReply::NoMemory,
            },
        }
    }
}

/// What the lobby answers in one turn.
#[derive(Drop)]
pub enum LobbyTurn {
    /// The reply to an entry.
    Told(LobbyReply),
    /// There was no memory for the entry, and nothing happened.
    NoMemory,
}

/// The lobby behind a turnstile, with the allocator for its turns.
///
/// All halls of a house call the one lobby, so contracts read off the lobby at its start what the
/// rooms of the house were made with.
#[derive(Drop)]
pub struct GuardedLobby {
    pub(crate) lobby: Lobby,
    pub(crate) alloc: Global,
    pub(crate) shoe: Snapshot<Shoe>,
    pub(crate) run: u64,
}

impl Machine for GuardedLobby {
    type Call = LobbyEntry;

    type Reply = LobbyTurn;

    ghost turns = { λ before call reply after. LobbyTurns before.lobby call reply after.lobby };

    fn turn(&mut self, call: &LobbyEntry) -> LobbyTurn {
        match self.lobby.enter(self.alloc, call) {
            Ok(reply) => LobbyTurn::Told(reply),
            Err(_) => LobbyTurn::NoMemory,
        }
    }
}
