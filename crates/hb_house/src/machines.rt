//! What does a hall need of the rooms that it keeps?

ghost use Rattle.std.specs.Prelude.{◌≡◌, ◌<◌, ◌^◌, List, [], ◌∷◌, IfOk, OnErr};
ghost use Rattle.hb_club.specs.HallAnswers.{HasRun, IsNoted, IsRoomAnswer, IsTodo};
ghost use Rattle.hb_club.specs.RoomEvents.{AsksTodo, Call, RoomEvent, Site, note_event};

use hb_club::{Answered, ClerkNote, Entry, Noted, Seen, Shoe, Todo};
use std::alloc::{AllocError, Global};

/// A room. It stands for lists of events, and each call adds one event.
///
/// If memory runs out in a call, the room stands for the lists for which it stood before.
pub trait RoomMachine: Drop {
    /// What the room was made with.
    ghost site: { Self → Site };

    /// It stands for this list, with the newest event first.
    ghost stands: { Self → List RoomEvent → Type 0 };

    /// A room with this number in which no table was opened.
    fn new(alloc: Global, room: u32, shoe: &Shoe, run: u64) -> Result<Self, AllocError>
        requires { run < 2 ^ 63 }
        ensures site { IfOk result (λ made. site made ≡ record {
          room = room;
          seed = shoe.now.seed;
          written = shoe.now.written;
          run = run;
        }) }
        ensures empty { IfOk result (λ made. stands made []) };

    /// Takes the entry of a member. The answer has what is new since what was seen.
    fn answer(&mut self, alloc: Global, e: &Entry, seen: &Seen) -> Result<Answered, AllocError>
        ensures site { site self.new ≡ site self.old }
        ensures ok { IfOk result (λ answered. (events : List RoomEvent) → stands self.old events
            → stands self.new (Call e.now ∷ events)
            × IsRoomAnswer (site self.old) e.now seen.now answered (Call e.now ∷ events)) }
        ensures err { OnErr result ((events : List RoomEvent) → stands self.old events
            → stands self.new events) };

    /// Answers what there is for the clerk to do.
    fn todo(&mut self, alloc: Global, moment: u64) -> Result<Todo, AllocError>
        ensures site { site self.new ≡ site self.old }
        ensures ok { IfOk result (λ todo. (events : List RoomEvent) → stands self.old events
            → stands self.new (AsksTodo moment ∷ events)
            × IsTodo (site self.old) todo (AsksTodo moment ∷ events)) }
        ensures run { IfOk result (λ todo. HasRun todo.save) }
        ensures err { OnErr result ((events : List RoomEvent) → stands self.old events
            → stands self.new events) };

    /// Takes a note of the clerk, and answers which item it added.
    fn note(&mut self, moment: u64, note: &ClerkNote) -> Result<Noted, AllocError>
        ensures site { site self.new ≡ site self.old }
        ensures ok { IfOk result (λ noted. (events : List RoomEvent) → stands self.old events
            → stands self.new (note_event moment note.now ∷ events)
            × IsNoted (site self.old) noted (note_event moment note.now ∷ events)) }
        ensures err { OnErr result ((events : List RoomEvent) → stands self.old events
            → stands self.new events) };
}
