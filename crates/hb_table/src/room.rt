//! What is a room? The facts of its latest table, each as it stands after all events so far.

ghost use Rattle.std.specs.Prelude.{◌≡◌, ◌<◌, ◌≤◌, ◌^◌, IfOk, length};
ghost use Rattle.hb_rules.specs.declared.limits.TheConstants.{MOST_PLAYERS};
ghost use Rattle.hb_replay.specs.Contents.{HasTimes};
ghost use Rattle.hb_table.specs.KeptGames.{IsBare, IsKept};

use hb_club::{Item, PLACES, Shoe};
use hb_deck::Deck;
use hb_io::{Name, Text};
use hb_playing::{GameReview, LoadedGame, Notebook};
use hb_refusals::KeptReplies;
use hb_rules::Options;
use hb_timer::Timer;
use hb_turns::Game;
use std::alloc::{AllocError, Global};

/// One club table after another. A room stands for the list of all events that came to it so far,
/// and answers each as that list says; it keeps no event.
///
/// What it keeps of the latest table is brought up to date at each event. So an event costs the
/// same however many came before it, except for the look-ups of kept replies and of notes.
#[derive(Drop)]
pub struct Room {
    pub(crate) room: u32,
    /// The number of the server's run.
    pub(crate) run: u64,
    pub(crate) shoe: Shoe,
    pub(crate) alloc: Global,
    /// The serial of the latest table; 0 if no table was opened.
    pub(crate) latest: u32,
    /// The name of the variant that it was opened with.
    pub(crate) name: Text,
    pub(crate) options: Options,
    /// Its items, the oldest first.
    pub(crate) items: Vec<Item>,
    pub(crate) host: Option<Name>,
    /// It is open.
    pub(crate) standing: bool,
    /// Who is seated, in the order of sitting down.
    pub(crate) seats: Vec<Name>,
    /// Who watches, with the seat whose shadow each is; the newest first.
    pub(crate) watchers: Vec<(Name, Option<u8>)>,
    pub(crate) kept: KeptReplies,
    /// The id of the pending load.
    pub(crate) load: Option<u64>,
    /// The greatest stamp of an item or of an accepted command.
    pub(crate) stamp: u64,
    /// The players of the game that was started, by seat.
    pub(crate) names: Option<[Option<Name>; PLACES]>,
    /// The game that was started.
    pub(crate) game: Option<Game>,
    /// Its clock, if it is timed.
    pub(crate) timer: Option<Timer>,
    /// The game that ended is kept.
    pub(crate) saved: bool,
    /// The notes that its players set.
    pub(crate) notes: Notebook,
    /// The game that was loaded.
    pub(crate) loaded: Option<LoadedGame>,
    /// The review of the loaded game, or of the started one once it has ended.
    pub(crate) review: Option<GameReview>,
    ghost run_in_range: { run < 2 ^ 63 },
    ghost few_seats: { length seats.items ≤ MOST_PLAYERS },
    // By these a row of the game can be kept once it has ended.
    ghost held_times: { HasTimes options },
    ghost bare: { IsBare names game },
    ghost keepable: { IsKept seats.items name game },
}

/// A copy of a shoe.
fn copied_shoe(alloc: Global, shoe: &Shoe) -> Result<Shoe, AllocError>
    ensures { IfOk result (λ copy. copy ≡ shoe.now) }
{
    let written = match &shoe.written {
        Some(deck) => Some(Deck::from(Vec::from_slice(alloc, deck.as_slice())?)),
        None => None,
    };
    Ok(Shoe {
        seed: shoe.seed,
        written,
    })
}

impl Room {
    ghost use Rattle.std.specs.Prelude.{◌≡◌, ◌<◌, ◌^◌, [], IfOk};
    ghost use Rattle.hb_table.specs.Keeps.{StandsFor, site_in};

    /// A room to which nothing came yet, with this number, of the run of a server with this number.
    /// Its games are dealt from a copy of the shoe. It keeps the allocator for what it keeps.
    pub fn new(alloc: Global, room: u32, shoe: &Shoe, run: u64) -> Result<Self, AllocError>
        requires { run < 2 ^ 63 }
        ensures stands { IfOk result (λ made. StandsFor made []) }
        ensures site { IfOk result (λ made. site_in made ≡ record {
          room = room;
          seed = shoe.now.seed;
          written = shoe.now.written;
          run = run;
        }) }
    {
        let shoe = copied_shoe(alloc, shoe)?;
        Ok(Room {
            room,
            run,
            shoe,
            alloc,
            latest: 0,
            name: Text::from_string(String::new(alloc)),
            options: Options::default(),
            items: Vec::new(alloc),
            host: None,
            standing: false,
            seats: Vec::new(alloc),
            watchers: Vec::new(alloc),
            kept: KeptReplies::new(alloc),
            load: None,
            stamp: 0,
            names: None,
            game: None,
            timer: None,
            saved: false,
            notes: Notebook::new(alloc),
            loaded: None,
            review: None,
        })
    }
}
