//! How does a room take an entry?

ghost use Rattle.std.specs.Prelude.{◌≡◌, IfOk};
ghost use Rattle.hb_table.specs.Steps.{asked_text};

use crate::moments::in_time;
use crate::room::Room;
use hb_club::{Command, Entry, Reply};
use hb_io::Text;
use hb_refusals::{is_look, is_start, opens_next};
use std::alloc::AllocError;

fn copy_of(command: &Command) -> Result<Command, AllocError>
    ensures { IfOk result (λ copy. copy ≡ command.now) }
{
    command.clone()
}

/// A copy of the text of a note; none of another command.
fn note_text(command: &Command) -> Result<Option<Text>, AllocError>
    ensures { IfOk result (λ text. text ≡ asked_text command.now) }
{
    match command {
        Command::Note { text, .. } => Ok(Some(text.clone()?)),
        _ => Ok(None),
    }
}

impl Room {
    ghost use Rattle.std.specs.Prelude.{◌≡◌, ◌<◌, false, true, List, IfOk, OnErr, OnOk, is_some};
    ghost use Rattle.hb_club.specs.CommandKinds as kinds;
    ghost use Rattle.hb_club.specs.RoomEvents.{RoomEvent};
    ghost use Rattle.hb_club.specs.SeenTable.{answer};
    ghost use Rattle.hb_club.specs.ViewLaws.{view_for};
    ghost use Rattle.hb_club.specs.Views.{own_at};
    ghost use Rattle.hb_table.specs.Changes.{HasRoom, SameFacts};
    ghost use Rattle.hb_table.specs.HeadMoves.{MovesHead, StaysTable};
    ghost use Rattle.hb_table.specs.Keeps.{StandsFor, site_in};
    ghost use Rattle.hb_table.specs.Steps.{Accepts, Steps, asked_text};
    ghost use Rattle.hb_table.specs.Verdicts.{opens_in};

    /// Takes an entry: the reply to it.
    ///
    /// The error comes only if memory is refused, or at a start if the table was opened with
    /// options that no game may start with. Then nothing changes, and the entry does not stand.
    pub fn step(&mut self, e: &Entry) -> Result<Reply, AllocError>
        ensures ok { IfOk result (λ reply. Steps e.now reply self.old self.new) }
        ensures view { IfOk result (λ reply. (events : List RoomEvent) → StandsFor self.old events
            → reply ≡ answer (view_for (site_in self.old) events e.now)
            (own_at (site_in self.old) events e.now.member) e.now) }
        ensures head { OnOk result
            (MovesHead (opens_in self.old e.now) e.now self.old self.new) }
        ensures site { site_in self.new ≡ site_in self.old }
        ensures err { OnErr result (SameFacts self.old self.new) }
    {
        let command = copy_of(&e.command)?;
        let note = note_text(&e.command)?;
        self.reserve()?;
        if opens_next(self.latest, e) && !self.standing {
            return self.open_next(e, command);
        }
        if is_start(&e.command) && self.names.is_none() {
            return self.answer_start(e, command);
        }
        self.apply_time(in_time(e.moment));
        if is_look(&e.command) {
            return Ok(Reply::Done);
        }
        Ok(self.reply_to(e, command, note))
    }

    /// Replies to an entry once time was applied.
    fn reply_to(&mut self, e: &Entry, command: Command, note: Option<Text>) -> Reply
        requires room { HasRoom self.old }
        requires same { command ≡ e.now.command }
        requires text { note ≡ asked_text e.now.command }
        requires look { kinds.is_look e.now.command ≡ false }
        requires shut { opens_in self.old e.now ≡ false }
        requires start { kinds.is_start e.now.command ≡ true → is_some self.old.names ≡ true }
        ensures ok { Accepts e.now result self.old self.new }
        ensures stays { StaysTable 1 self.old self.new }
        ensures site { site_in self.new ≡ site_in self.old }
    {
        match self.verdict(e) {
            Some(reply) => {
                self.keep_entry(e, command, reply);
                reply
            }
            None => {
                self.accept(e, command, note);
                Reply::Done
            }
        }
    }
}
