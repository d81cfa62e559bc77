//! How does a room open its next table?

ghost use Rattle.std.specs.Prelude.{◌≡◌};
ghost use Rattle.hb_club.specs.TableFacts.{held_options};

use crate::lists::put;
use crate::moments::in_time;
use crate::room::Room;
use hb_club::{Command, Entry, Item, Reply, What};
use hb_io::{Name, Text};
use hb_playing::Notebook;
use hb_refusals::KeptReplies;
use hb_rules::Options;
use std::alloc::{AllocError, Global};

/// What a new table is made of: nothing yet, and room for its first item and kept reply.
#[derive(Drop)]
pub(crate) struct NewTable {
    name: Text,
    items: Vec<Item>,
    seats: Vec<Name>,
    watchers: Vec<(Name, Option<u8>)>,
    kept: KeptReplies,
    notes: Notebook,
}

impl NewTable {
    ghost use Rattle.std.specs.Prelude.{◌≡◌, IfOk};
    ghost use Rattle.hb_table.specs.NewTables.{IsNew};

    fn new(alloc: Global, name: &Text) -> Result<Self, AllocError>
        ensures { IfOk result (IsNew name.now) }
    {
        let name = Text::copy_of(alloc, name.as_str())?;
        let mut items = Vec::new(alloc);
        items.reserve(1)?;
        let mut kept = KeptReplies::new(alloc);
        kept.reserve()?;
        Ok(NewTable {
            name,
            items,
            seats: Vec::new(alloc),
            watchers: Vec::new(alloc),
            kept,
            notes: Notebook::new(alloc),
        })
    }
}

/// The options that a table holds: an untimed one has the default times.
fn kept_options(options: &Options) -> Options
    ensures { result ≡ held_options options.now }
{
    if options.timed {
        *options
    } else {
        let default = Options::default();
        Options {
            base_s: default.base_s,
            per_turn_s: default.per_turn_s,
            ..*options
        }
    }
}

impl Room {
    ghost use Rattle.std.specs.Prelude.{◌≡◌, true, IfOk, OnErr, OnOk};
    ghost use Rattle.hb_club.specs.TableFacts.{held_options};
    ghost use Rattle.hb_refusals.specs.KeptReplies.{HasSpare};
    ghost use Rattle.hb_table.specs.Changes.{OpensTable, SameFacts};
    ghost use Rattle.hb_table.specs.HeadMoves.{MovesHead};
    ghost use Rattle.hb_table.specs.Keeps.{site_in};
    ghost use Rattle.hb_table.specs.NewTables.{IsNew, IsOpening};
    ghost use Rattle.hb_table.specs.Steps.{Steps};
    ghost use Rattle.hb_table.specs.Verdicts.{opens_in};

    /// Puts a new table in the place of the latest.
    fn open_with(&mut self, new: NewTable, moment: u64, e: &Entry, options: &Options)
        requires { IsNew new.name new }
        ensures opens { OpensTable moment e.now.table e.now.member
            (new.name, held_options options.now) self.old self.new }
        ensures spare { HasSpare self.new.kept }
    {
        self.latest = e.table;
        self.name = new.name;
        self.options = kept_options(options);
        self.items = new.items;
        let what = What::Opened { host: e.member };
        put(&mut self.items, Item { moment, what });
        self.host = Some(e.member);
        self.standing = true;
        self.seats = new.seats;
        self.watchers = new.watchers;
        self.kept = new.kept;
        self.load = None;
        self.stamp = moment;
        self.names = None;
        self.game = None;
        self.timer = None;
        self.saved = false;
        self.notes = new.notes;
        self.loaded = None;
        self.review = None;
    }

    /// Opens the next table, which is made aside, and then put in the place of the latest.
    fn open_as(
        &mut self,
        e: &Entry,
        name: &Text,
        options: &Options,
        command: Command,
    ) -> Result<Reply, AllocError>
        requires same { command ≡ e.now.command }
        requires opening { IsOpening e.now name.now options.now self.old }
        ensures ok { IfOk result (λ reply. (a : Room) → SameFacts a self.old
            → Steps e.now reply a self.new) }
        ensures head { OnOk result (MovesHead true e.now self.old self.new) }
        ensures site { site_in self.new ≡ site_in self.old }
        ensures err { OnErr result (self.new ≡ self.old) }
    {
        let new = NewTable::new(self.alloc, name)?;
        self.open_with(new, in_time(e.moment), e, options);
        self.keep_entry(e, command, Reply::Done);
        Ok(Reply::Done)
    }

    /// Takes an opening of the next table, where none is open.
    pub(crate) fn open_next(&mut self, e: &Entry, command: Command) -> Result<Reply, AllocError>
        requires same { command ≡ e.now.command }
        requires opens { opens_in self.old e.now ≡ true }
        ensures ok { IfOk result (λ reply. (a : Room) → SameFacts a self.old
            → Steps e.now reply a self.new) }
        ensures head { OnOk result (MovesHead true e.now self.old self.new) }
        ensures site { site_in self.new ≡ site_in self.old }
        ensures err { OnErr result (self.new ≡ self.old) }
    {
        match &e.command {
            Command::Open { name, options } => self.open_as(e, name, options, command),
            // No other command opens a table.
            _ => unreachable!(),
        }
    }
}
