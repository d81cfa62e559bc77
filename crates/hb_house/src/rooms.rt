//! How is a room the machine that a hall keeps?

use crate::RoomMachine;
use hb_club::{Answered, ClerkNote, Entry, Noted, Seen, Shoe, Todo};
use hb_table::Room;
use std::alloc::{AllocError, Global};

impl RoomMachine for Room {
    ghost use Rattle.hb_table.specs.Keeps.{StandsFor, site_in};

    ghost site = { site_in };

    ghost stands = { StandsFor };

    fn new(alloc: Global, room: u32, shoe: &Shoe, run: u64) -> Result<Self, AllocError> {
        Room::new(alloc, room, shoe, run)
    }

    fn answer(&mut self, alloc: Global, e: &Entry, seen: &Seen) -> Result<Answered, AllocError> {
        Room::answer(self, alloc, e, seen)
    }

    fn todo(&mut self, alloc: Global, moment: u64) -> Result<Todo, AllocError> {
        Room::todo(self, alloc, moment)
    }

    fn note(&mut self, moment: u64, note: &ClerkNote) -> Result<Noted, AllocError> {
        Room::note(self, moment, note)
    }
}
