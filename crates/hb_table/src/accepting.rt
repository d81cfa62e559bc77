//! What does a room do at an entry that no row refuses?

use crate::room::Room;
use hb_club::{Command, Entry, Item, Reply, What};
use hb_io::{Name, Text};
use hb_playing::{review_step, step_item};
use hb_rules::{Act, Action, EndHow};

impl Room {
    ghost use Rattle.std.specs.Prelude.{◌≡◌, ◌<◌, None, true, is_some};
    ghost use Rattle.std.specs.Option.{option_to_list};
    ghost use Rattle.hb_rules.specs.Setup.{by};
    ghost use Rattle.hb_club.specs.declared.items.What.TheVariants as what;
    ghost use Rattle.hb_club.specs.declared.replies.Reply.TheVariants as replies;
    ghost use Rattle.hb_club.specs.ClerkCalls.{note_by};
    ghost use Rattle.hb_club.specs.CommandKinds as kinds;
    ghost use Rattle.hb_playing.specs.Seats.{seat_in};
    ghost use Rattle.hb_table.specs.Changes.{HasRoom, Stamps};
    ghost use Rattle.hb_table.specs.HeadMoves.{StaysTable};
    ghost use Rattle.hb_table.specs.Keeps.{site_in};
    ghost use Rattle.hb_table.specs.Steps.{Accepts, Does, IsTaken, asked_text, item_in, step_in};

    /// Does what an entry asks for that no row refuses, and keeps it.
    pub(crate) fn accept(&mut self, e: &Entry, command: Command, note: Option<Text>)
        requires room { HasRoom self.old }
        requires same { command ≡ e.now.command }
        requires text { note ≡ asked_text e.now.command }
        requires taken { IsTaken e.now self.old }
        requires start { kinds.is_start e.now.command ≡ true → is_some self.old.names ≡ true }
        ensures done { Accepts e.now replies.Done self.old self.new }
        ensures stays { StaysTable 1 self.old self.new }
        ensures site { site_in self.new ≡ site_in self.old }
    {
        self.act_on(e, note);
        self.keep_entry(e, command, Reply::Done);
    }

    /// Does what the entry asks for.
    fn act_on(&mut self, e: &Entry, note: Option<Text>)
        requires room { HasRoom self.old }
        requires text { note ≡ asked_text e.now.command }
        requires taken { IsTaken e.now self.old }
        ensures does { Does (item_in self.old e.now.member e.now.command) e.now self.old self.new }
    {
        let moment = self.stamp_for(e.moment);
        if let Some(step) = review_step(&mut self.review, &e.command) {
            let what = step_item(step);
            self.add(Item { moment, what });
            return;
        }
        match self.item_of(e) {
            Some(what) => self.add(Item { moment, what }),
            None => self.stamp_with(moment, e, note),
        }
    }

    /// The item of an entry that opens no table and starts no game, if it adds one. The review
    /// takes no step.
    fn item_of(&self, e: &Entry) -> Option<What>
        requires { step_in self.now e.now.command ≡ None }
        ensures { result ≡ item_in self.now e.now.member e.now.command }
    {
        let name = e.member;
        match &e.command {
            Command::Sit => Some(What::Sat { name }),
            Command::Rise => Some(What::Rose { name }),
            Command::Watch { shadow } => Some(What::Watching {
                name,
                shadow: *shadow,
            }),
            Command::Leave => Some(What::Left { name }),
            Command::Act { action } => Some(self.acted(&e.member, *action)),
            Command::Terminate => {
                let how = EndHow::Terminated;
                Some(self.acted(&e.member, Action::End { how }))
            }
            Command::Pause => Some(What::Paused { by: name }),
            Command::Resume => Some(What::Resumed { by: name }),
            Command::Close => Some(What::Closed),
            _ => None,
        }
    }

    /// An act of a member.
    fn acted(&self, member: &Name, action: Action) -> What
        ensures { result ≡ what.Acted (by (seat_in self.now.names member.now) action) }
    {
        let who = self.seat(member);
        What::Acted {
            act: Act { who, action },
        }
    }

    /// Takes an accepted command that adds no item, and sets its note if it is one.
    fn stamp_with(&mut self, moment: u64, e: &Entry, note: Option<Text>)
        requires room { 0 < self.old.notes.spare }
        requires text { note ≡ asked_text e.now.command }
        ensures { Stamps moment (option_to_list (note_by e.now.member e.now.command))
            self.old self.new }
    {
        self.stamp = moment;
        if let (Command::Note { order, .. }, Some(text)) = (&e.command, note) {
            self.notes.set(&e.member, *order, text);
        }
    }
}
