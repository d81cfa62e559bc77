//! What does a room answer: the head, the game and the items of its latest table?

ghost use Rattle.std.specs.Prelude.{◌≡◌, IfOk};
ghost use Rattle.hb_club.specs.Seating.{same_viewer};
ghost use Rattle.hb_club.specs.TableFacts.{opening_by};

use crate::clerk::same;
use crate::room::Room;
use hb_club::{Answered, Command, Entry, Head, Item, Items, Reply, Seen, Viewer};
use hb_io::{Text, Texts};
use hb_playing::name_texts;
use hb_refusals::opens_next;
use hb_turns::Game;
use std::alloc::{AllocError, Global};

/// The most items of a table that a room answers. No table comes near: its items would take some
/// hundred gigabytes.
const ITEM_LIMIT: usize = 0xffff_fffd;

/// Memory for what an answer says, taken before anything changes.
#[derive(Drop)]
pub(crate) struct Spare {
    /// The name of the table.
    name: Text,
    /// The name of the game's variant, and its players.
    names: (Text, Texts),
    items: Vec<Item>,
}

/// The name that an opening gives a table.
fn opened_name(alloc: Global, command: &Command) -> Result<Text, AllocError>
    ensures { IfOk result (λ name. name ≡ (opening_by command.now).0) }
{
    match command {
        Command::Open { name, .. } => Text::copy_of(alloc, name.as_str()),
        _ => Text::copy_of(alloc, ""),
    }
}

fn is_same_viewer(a: Viewer, b: Viewer) -> bool
    ensures { result ≡ same_viewer a b }
{
    match (a, b) {
        (Viewer::Seat(a), Viewer::Seat(b)) => a == b,
        (Viewer::Watcher { shadow: a }, Viewer::Watcher { shadow: b }) => a == b,
        (Viewer::Guest, Viewer::Guest) => true,
        _ => false,
    }
}

impl Room {
    ghost use Rattle.std.specs.Prelude.{◌≡◌, ℕ, ◌<◌, ◌≤◌, ◌^◌, List, [], ◌∷◌, drop, IfOk, OnErr, length};
    ghost use Rattle.std.specs.Vec.{vec_capacity};
    ghost use Rattle.hb_club.specs.HallAnswers.{IsRoomAnswer, head_of};
    ghost use Rattle.hb_club.specs.RoomEvents.{Call, RoomEvent};
    ghost use Rattle.hb_club.specs.Rooms.{table_at};
    ghost use Rattle.hb_club.specs.Views.{view_at};
    ghost use Rattle.hb_table.specs.Changes.{SameFacts};
    ghost use Rattle.hb_table.specs.Keeps.{StandsFor, site_in};
    ghost use Rattle.hb_table.specs.Shown.{game_by, game_of};
    ghost use Rattle.hb_table.specs.Spares.{HasFacts, IsSpare, first_in, has_game, head_in, head_with, name_after, names_by};

    /// The game of the latest table: the loaded one, else the one that was started; none exactly if
    /// there is neither. It takes no memory.
    pub fn game(&self) -> Option<Game>
        ensures { (events : List RoomEvent) → StandsFor self.now events
            → result ≡ game_of (table_at (site_in self.now) events) }
    {
        self.shown_game()
    }

    /// What the latest table was opened with, and the game that was loaded or started there; none
    /// if no table was opened. It is the same for every member.
    ///
    /// The error comes only if memory is refused.
    pub fn head(&self) -> Result<Option<Head>, AllocError>
        ensures { IfOk result (λ head. (events : List RoomEvent) (member : List ℕ)
            → StandsFor self.now events
            → head ≡ head_of (view_at (site_in self.now) events member)) }
    {
        let head = self.shown_head()?;
        Ok(head)
    }

    /// Takes an entry: the reply, and what its member may observe of the latest table after it,
    /// with the items that `seen` does not have.
    ///
    /// The error comes only if memory is refused, or as [`Room::step`] says. Then nothing changes,
    /// and the entry does not stand: memory for the answer is taken before it.
    pub fn answer(&mut self, alloc: Global, e: &Entry, seen: &Seen) -> Result<Answered, AllocError>
        ensures ok { IfOk result (λ answered. (events : List RoomEvent)
            → StandsFor self.old events → StandsFor self.new (Call e.now ∷ events)
            × IsRoomAnswer (site_in self.old) e.now seen.now answered (Call e.now ∷ events)) }
        ensures site { site_in self.new ≡ site_in self.old }
        ensures err { OnErr result (SameFacts self.old self.new) }
    {
        let spare = self.spare(alloc, e)?;
        let reply = self.step(e)?;
        Ok(self.answered(spare, reply, e, seen))
    }

    fn shown_game(&self) -> Option<Game>
        ensures { result ≡ game_by self.now.loaded self.now.game }
    {
        match &self.loaded {
            Some(loaded) => Some(loaded.game()),
            None => same(&self.game),
        }
    }

    fn shown_head(&self) -> Result<Option<Head>, AllocError>
        ensures { IfOk result (λ head. head ≡ head_in self.now) }
    {
        let name = Text::copy_of(self.alloc, self.name.as_str())?;
        let names = self.names_of(self.alloc)?;
        Ok(self.head_with(name, names))
    }

    /// Copies of the name of the variant and of the players of the game that was loaded or started;
    /// before a start of the one that would start.
    fn names_of(&self, alloc: Global) -> Result<(Text, Texts), AllocError>
        ensures { IfOk result (λ names. names ≡ names_by self.now.loaded self.now) }
    {
        match &self.loaded {
            Some(loaded) => loaded.copied_names(alloc),
            None => self.played_names(alloc),
        }
    }

    fn played_names(&self, alloc: Global) -> Result<(Text, Texts), AllocError>
        ensures { IfOk result (λ names. names ≡ (self.now.name, self.now.seats.items)) }
    {
        let name = Text::copy_of(alloc, self.name.as_str())?;
        let players = name_texts(alloc, &self.seats)?;
        Ok((name, players))
    }

    /// Whether a game was started or loaded.
    fn has_game(&self) -> bool
        ensures { result ≡ has_game self.now }
    {
        self.loaded.is_some() || self.names.is_some()
    }

    /// The head of the table, from its name and the names of its game.
    fn head_with(&self, name: Text, names: (Text, Texts)) -> Option<Head>
        ensures { result ≡ head_with self.now name names }
    {
        if self.latest == 0 {
            return None;
        }
        let game = if self.has_game() { Some(names) } else { None };
        Some(Head {
            name,
            options: self.options,
            game,
        })
    }

    /// A copy of the name of the table at which an entry leaves the room.
    fn name_after(&self, alloc: Global, e: &Entry) -> Result<Text, AllocError>
        ensures { IfOk result (λ name. name ≡ name_after self.now e.now) }
    {
        if opens_next(self.latest, e) && !self.standing {
            opened_name(alloc, &e.command)
        } else {
            Text::copy_of(alloc, self.name.as_str())
        }
    }

    /// Memory for the answer to an entry.
    fn spare(&self, alloc: Global, e: &Entry) -> Result<Spare, AllocError>
        ensures { IfOk result (IsSpare e.now self.now) }
    {
        let count = self.items.len();
        if count > ITEM_LIMIT {
            return Err(AllocError);
        }
        let name = self.name_after(alloc, e)?;
        let names = self.names_of(alloc)?;
        let items = Vec::with_capacity(alloc, count + 2)?;
        Ok(Spare { name, names, items })
    }

    /// The number of the first item that is answered.
    fn first(&self, seen: &Seen, viewer: Viewer) -> u32
        ensures is { result ≡ first_in self.now viewer seen.now }
        ensures within { result ≤ length self.now.items.items }
    {
        let same = seen.table == self.latest && is_same_viewer(seen.viewer, viewer);
        if same && seen.count as usize <= self.items.len() {
            seen.count
        } else {
            0
        }
    }

    /// The items from a number on, in memory that has room for them.
    fn items_from(&self, first: u32, mut items: Vec<Item>) -> Items
        requires within { first ≤ length self.now.items.items }
        requires empty { items.items ≡ [] }
        requires room { length self.now.items.items ≤ vec_capacity items }
        ensures { result ≡ drop first self.now.items.items }
    {
        let _ = items.extend_from_slice(&self.items[first as usize..]);
        Items::from_vec(items)
    }

    /// The answer once the entry was taken. It takes no memory.
    fn answered(&self, spare: Spare, reply: Reply, e: &Entry, seen: &Seen) -> Answered
        requires few { length self.now.items.items < 2 ^ 32 }
        requires empty { spare.items.items ≡ [] }
        requires room { length self.now.items.items ≤ vec_capacity spare.items }
        ensures same { result.reply ≡ reply }
        ensures facts { HasFacts e.now.member seen.now
            (head_with self.now spare.name spare.names) self.now result }
    {
        let viewer = self.role(&e.member);
        let from = self.first(seen, viewer);
        Answered {
            reply,
            table: self.latest,
            viewer,
            head: self.head_with(spare.name, spare.names),
            game: self.shown_game(),
            from,
            items: self.items_from(from, spare.items),
        }
    }
}
