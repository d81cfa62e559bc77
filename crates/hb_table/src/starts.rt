//! How does a room start the game of those who are seated?

ghost use Rattle.std.specs.Prelude.{◌≡◌, ◌≤◌};
ghost use Rattle.hb_timer.specs.declared.timing.TheConstants.{MOMENT_LIMIT};
ghost use Rattle.hb_table.specs.Starts.{timer_when};

use crate::lists::put;
use crate::room::Room;
use hb_club::{Command, Entry, Item, Reply};
use hb_playing::{DealError, by_seat, deal, started, timer_for};
use hb_timer::{MOMENT_LIMIT, Timer};
use hb_turns::Game;
use std::alloc::AllocError;

/// The timer of a game that starts, if there is one and it is timed.
fn timer_of(game: &Option<Game>, moment: u64) -> Option<Timer>
    requires { moment ≤ MOMENT_LIMIT }
    ensures { result ≡ timer_when moment game.now }
{
    match game {
        Some(game) => timer_for(game, moment),
        None => None,
    }
}

impl Room {
    ghost use Rattle.std.specs.Prelude.{◌≡◌, ◌≤◌, false, length, min, IfOk, OnErr, OnOk};
    ghost use Rattle.hb_club.specs.declared.commands.Command.TheVariants as commands;
    ghost use Rattle.hb_club.specs.NewItems.{by_seat};
    ghost use Rattle.hb_rules.specs.declared.limits.TheConstants.{FEWEST_PLAYERS};
    ghost use Rattle.hb_table.specs.Changes.{HasRoom, SameFacts, StartsGame};
    ghost use Rattle.hb_table.specs.HeadMoves.{MovesHead};
    ghost use Rattle.hb_table.specs.Keeps.{site_in};
    ghost use Rattle.hb_table.specs.KeptGames.{IsKept};
    ghost use Rattle.hb_table.specs.Starts.{IsDealtFor, IsStart, IsStarting, timer_when};
    ghost use Rattle.hb_table.specs.Steps.{Steps, stamp_for};

    /// The game of those who are seated. There is none if the name that the table was opened with
    /// is no variant's.
    ///
    /// The error comes if memory is refused, or if no game of so many may start with the options
    /// that the table was opened with.
    fn deal_game(&self) -> Result<Option<Game>, AllocError>
        requires two { FEWEST_PLAYERS ≤ length self.now.seats.items }
        ensures { IfOk result (IsDealtFor self.now) }
    {
        let seats = self.seats.len();
        match deal(
            self.alloc,
            &self.shoe,
            self.room,
            self.latest,
            &self.name,
            &self.options,
            seats,
        ) {
            Ok(game) => Ok(Some(game)),
            Err(DealError::Variant) => Ok(None),
            Err(DealError::Players) => unreachable!(),
            Err(DealError::Options | DealError::NoMemory) => Err(AllocError),
        }
    }

    /// A game starts, with those who are seated.
    fn start_with(&mut self, moment: u64, game: Option<Game>)
        requires room { HasRoom self.old }
        requires range { moment ≤ MOMENT_LIMIT }
        requires keepable { IsKept self.old.seats.items self.old.name game }
        ensures { StartsGame moment (by_seat self.old.seats.items) game (timer_when moment game)
            self.old self.new }
    {
        let what = started(&self.seats);
        put(&mut self.items, Item { moment, what });
        self.stamp = moment;
        self.names = by_seat(&self.seats);
        self.timer = timer_of(&game, moment);
        self.game = game;
    }

    /// Takes a start that no row refuses. The game is dealt before anything changes.
    fn start_next(&mut self, e: &Entry, command: Command) -> Result<Reply, AllocError>
        requires room { HasRoom self.old }
        requires same { command ≡ e.now.command }
        requires starting { IsStarting e.now self.old }
        ensures ok { IfOk result (λ reply. (a : Room) → SameFacts a self.old
            → Steps e.now reply a self.new) }
        ensures head { OnOk result (MovesHead false e.now self.old self.new) }
        ensures site { site_in self.new ≡ site_in self.old }
        ensures err { OnErr result (self.new ≡ self.old) }
    {
        let game = self.deal_game()?;
        let moment = self.stamp_for(e.moment).min(MOMENT_LIMIT);
        self.start_with(moment, game);
        self.keep_entry(e, command, Reply::Done);
        Ok(Reply::Done)
    }

    /// Answers a start at a table at which no game was started.
    pub(crate) fn answer_start(&mut self, e: &Entry, command: Command) -> Result<Reply, AllocError>
        requires room { HasRoom self.old }
        requires same { command ≡ e.now.command }
        requires starts { IsStart e.now self.old }
        ensures ok { IfOk result (λ reply. (a : Room) → SameFacts a self.old
            → Steps e.now reply a self.new) }
        ensures head { OnOk result (MovesHead false e.now self.old self.new) }
        ensures site { site_in self.new ≡ site_in self.old }
        ensures err { OnErr result (self.new ≡ self.old) }
    {
        match self.verdict(e) {
            Some(reply) => {
                self.keep_entry(e, command, reply);
                Ok(reply)
            }
            None => self.start_next(e, command),
        }
    }
}
