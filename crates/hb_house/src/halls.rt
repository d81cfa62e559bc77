//! What is a hall, and what does each of its calls answer?

ghost use Rattle.std.specs.Prelude.{◌≡◌, ◌↔◌, ℕ, Bool, IfOk, OnOk, OnErr, IsTrue, IsErrOf};
ghost use Rattle.hb_club.specs.Fronts.{Fronts, House, IsRoom, site_of};
ghost use Rattle.hb_club.specs.HallAnswers.{HasRun, IsLobbyAnswer, IsNoted, IsRoomAnswer, IsTodo, LobbyAnswers, NothingOwn, NothingOwnLobby, RoomAnswers};
ghost use Rattle.hb_club.specs.RoomEvents.{AsksTodo, Call, note_event};

use hb_club::{Answered, ClerkNote, Entry, HallError, LobbyEntry, LobbyReply, Noted, Seen, Todo};
use std::alloc::Global;

/// A lobby, and rooms that are numbered from 1.
///
/// Others may call the same rooms and lobby: a call may find events of theirs before its own. A
/// call that is refused adds no event of its own.
///
/// The lobby and each room have a mark that says whether they are worn. A mark that is set stays
/// set.
pub trait Hall {
    /// It stands for these lists.
    ghost stands: { Self → Fronts → Type 0 };

    /// Which house it is of, and what its rooms were made with.
    ghost house: { Self → House };

    /// How many rooms there are.
    ghost count: { Self → ℕ };

    /// The mark of a room is set.
    ghost mark: { Self → ℕ → Bool };

    /// The mark of the lobby is set.
    ghost lobby_mark: { Self → Bool };

    /// Nobody else calls its rooms and lobby, so that no events of others come.
    ghost alone: { Self → Bool };

    /// How many rooms there are.
    fn rooms(&self) -> u32
        ensures { result ≡ count self.now };

    /// Asks the lobby to welcome a name with its key.
    ///
    /// It answers [`HallError::Worn`] exactly if the mark of the lobby is set then, and never
    /// [`HallError::NoSuchRoom`].
    fn lobby(&mut self, alloc: Global, e: &LobbyEntry) -> Result<LobbyReply, HallError>
        ensures ok { IfOk result (λ reply. (f : Fronts) → stands self.old f
            → LobbyAnswers stands (alone self.old) self.new e.now (IsLobbyAnswer reply) f) }
        ensures err { OnErr result ((f : Fronts) → stands self.old f
            → NothingOwnLobby stands (alone self.old) self.new f) }
        ensures no_room { IsErrOf result HallError.NoSuchRoom → ⊥ }
        ensures worn { IsErrOf result HallError.Worn ↔ IsTrue (lobby_mark self.new) }
        ensures house { house self.new ≡ house self.old }
        ensures count { count self.new ≡ count self.old }
        ensures alone { alone self.new ≡ alone self.old }
        ensures marks { (room : ℕ) → mark self.new room ≡ mark self.old room }
        ensures lobby_marks { IsTrue (lobby_mark self.old) → IsTrue (lobby_mark self.new) };

    /// Hands a room the entry of a member. The answer has what is new since the caller saw the
    /// room last.
    ///
    /// It answers [`HallError::NoSuchRoom`] exactly if there is no such room, and
    /// [`HallError::Worn`] exactly if the mark of the room is set then.
    fn room(
        &mut self,
        alloc: Global,
        room: u32,
        e: &Entry,
        seen: &Seen,
    ) -> Result<Answered, HallError>
        ensures ok { IfOk result (λ answered. (f : Fronts) → stands self.old f
            → RoomAnswers stands (alone self.old) self.new room (Call e.now)
            (IsRoomAnswer (site_of (house self.old) room) e.now seen.now answered) f) }
        ensures err { OnErr result ((f : Fronts) → stands self.old f
            → NothingOwn stands (alone self.old) self.new room f) }
        ensures room { OnOk result (IsRoom (count self.old) room) }
        ensures no_room { IsErrOf result HallError.NoSuchRoom
            ↔ ¬ IsRoom (count self.old) room }
        ensures worn { IsErrOf result HallError.Worn ↔ IsTrue (mark self.new room) }
        ensures house { house self.new ≡ house self.old }
        ensures count { count self.new ≡ count self.old }
        ensures alone { alone self.new ≡ alone self.old }
        ensures marks { (other : ℕ) → IsTrue (mark self.old other)
            → IsTrue (mark self.new other) }
        ensures lobby_marks { lobby_mark self.new ≡ lobby_mark self.old };

    /// Asks a room what there is for the clerk to do.
    ///
    /// It is refused as [`room`](Hall::room) is.
    fn todo(&mut self, alloc: Global, room: u32, moment: u64) -> Result<Todo, HallError>
        ensures ok { IfOk result (λ todo. (f : Fronts) → stands self.old f
            → RoomAnswers stands (alone self.old) self.new room (AsksTodo moment)
            (IsTodo (site_of (house self.old) room) todo) f) }
        ensures run { IfOk result (λ todo. HasRun todo.save) }
        ensures err { OnErr result ((f : Fronts) → stands self.old f
            → NothingOwn stands (alone self.old) self.new room f) }
        ensures room { OnOk result (IsRoom (count self.old) room) }
        ensures no_room { IsErrOf result HallError.NoSuchRoom
            ↔ ¬ IsRoom (count self.old) room }
        ensures worn { IsErrOf result HallError.Worn ↔ IsTrue (mark self.new room) }
        ensures house { house self.new ≡ house self.old }
        ensures count { count self.new ≡ count self.old }
        ensures alone { alone self.new ≡ alone self.old }
        ensures marks { (other : ℕ) → IsTrue (mark self.old other)
            → IsTrue (mark self.new other) }
        ensures lobby_marks { lobby_mark self.new ≡ lobby_mark self.old };

    /// Hands a room a note of the clerk. The answer is the item that the note added.
    ///
    /// It is refused as [`room`](Hall::room) is.
    fn note(
        &mut self,
        alloc: Global,
        room: u32,
        moment: u64,
        note: &ClerkNote,
    ) -> Result<Noted, HallError>
        ensures ok { IfOk result (λ noted. (f : Fronts) → stands self.old f
            → RoomAnswers stands (alone self.old) self.new room (note_event moment note.now)
            (IsNoted (site_of (house self.old) room) noted) f) }
        ensures err { OnErr result ((f : Fronts) → stands self.old f
            → NothingOwn stands (alone self.old) self.new room f) }
        ensures room { OnOk result (IsRoom (count self.old) room) }
        ensures no_room { IsErrOf result HallError.NoSuchRoom
            ↔ ¬ IsRoom (count self.old) room }
        ensures worn { IsErrOf result HallError.Worn ↔ IsTrue (mark self.new room) }
        ensures house { house self.new ≡ house self.old }
        ensures count { count self.new ≡ count self.old }
        ensures alone { alone self.new ≡ alone self.old }
        ensures marks { (other : ℕ) → IsTrue (mark self.old other)
            → IsTrue (mark self.new other) }
        ensures lobby_marks { lobby_mark self.new ≡ lobby_mark self.old };
}
