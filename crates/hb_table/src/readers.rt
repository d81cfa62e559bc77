//! What does a room show of its latest table?

use crate::lists;
use crate::room::Room;
use hb_club::{Item, Viewer};
use hb_io::Name;
use hb_playing::place_of;

impl Room {
    ghost use Rattle.std.specs.Prelude.{◌≡◌, List, reverse};
    ghost use Rattle.hb_club.specs.RoomEvents.{RoomEvent};
    ghost use Rattle.hb_club.specs.Rooms.{table_at};
    ghost use Rattle.hb_club.specs.Seating.{viewer_of};
    ghost use Rattle.hb_table.specs.Keeps.{StandsFor, site_in};
    ghost use Rattle.hb_table.specs.Spares.{viewer_in};

    /// The serial of the latest table; 0 if no table was opened.
    pub fn latest(&self) -> u32
        ensures { (events : List RoomEvent) → StandsFor self.now events
            → result ≡ (table_at (site_in self.now) events).latest }
    {
        self.latest
    }

    /// The items of the latest table, the oldest first.
    pub fn items(&self) -> &[Item]
        ensures { (events : List RoomEvent) → StandsFor self.now events
            → result.now ≡ reverse (table_at (site_in self.now) events).items }
    {
        &self.items
    }

    /// How a member sees the latest table.
    pub fn viewer(&self, member: &Name) -> Viewer
        ensures { (events : List RoomEvent) → StandsFor self.now events
            → result ≡ viewer_of (table_at (site_in self.now) events).items member.now }
    {
        self.role(member)
    }

    /// The same, by what the room keeps of the table.
    pub(crate) fn role(&self, member: &Name) -> Viewer
        ensures { result ≡ viewer_in self.now member.now }
    {
        match place_of(&self.names, member) {
            Some(seat) => Viewer::Seat(seat),
            None => match lists::shadow(&self.watchers, member) {
                Some(shadow) => Viewer::Watcher { shadow },
                None => Viewer::Guest,
            },
        }
    }
}
