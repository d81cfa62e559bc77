//! How does a room reply to an entry, and what does it keep of it?

use crate::lists::{has_name, is_named, watches};
use crate::room::Room;
use hb_club::{Command, Entry, Reply};
use hb_io::Name;
use hb_playing::{
    asked_action, broken, card_count, is_ended, is_paused, player_count, review_refusal, seat_of,
};
use hb_refusals::{Facts, KeptReply, first_reply};

impl Room {
    ghost use Rattle.std.specs.Prelude.{◌≡◌, ◌<◌, IsTrue};
    ghost use Rattle.hb_club.specs.declared.limits.TheConstants.{MOST_KEPT_NUMBERS};
    ghost use Rattle.hb_playing.specs.Games.{ended_by};
    ghost use Rattle.hb_playing.specs.Seats.{seat_in};
    ghost use Rattle.hb_refusals.specs.KeptReplies.{HasSpare, count_at};
    ghost use Rattle.hb_table.specs.Changes.{KeepsEntry, keeps_in};
    ghost use Rattle.hb_table.specs.Verdicts.{count_in, facts_in, known_in, verdict_in};

    /// The seat of a member; of anybody else a number that is no seat.
    pub(crate) fn seat(&self, member: &Name) -> u8
        ensures { result ≡ seat_in self.now.names member.now }
    {
        seat_of(&self.names, member)
    }

    /// Whether the game that was started has ended.
    pub(crate) fn is_over(&self) -> bool
        ensures { result ≡ ended_by self.now.game }
    {
        is_ended(&self.game)
    }

    /// What the rows of the table of refusals read of the table and of a member.
    fn facts(&self, member: &Name) -> Facts
        ensures { result ≡ facts_in self.now member.now }
    {
        Facts {
            latest: self.latest,
            standing: self.standing,
            host: is_named(&self.host, member),
            started: self.names.is_some(),
            loaded: self.loaded.is_some(),
            seated: has_name(&self.seats, member),
            watching: watches(&self.watchers, member),
            seats: self.seats.len(),
            watchers: self.watchers.len(),
            ended: self.is_over(),
            saved: self.saved,
            loading: self.load.is_some(),
            timed: self.options.timed,
            paused: is_paused(&self.timer),
            cards: card_count(&self.game),
            players: player_count(&self.game),
        }
    }

    /// The reply of the entry's number, if one is kept and it is made at the latest table.
    fn known(&self, e: &Entry) -> Option<Reply>
        ensures { result ≡ known_in self.now e.now }
    {
        if e.table == self.latest {
            self.kept.reply(&e.member, e.number, &e.command)
        } else {
            None
        }
    }

    /// For how many numbers of its member one is kept there.
    fn kept_count(&self, e: &Entry) -> usize
        ensures { result ≡ count_in self.now e.now }
    {
        if e.table == self.latest {
            self.kept.count(&e.member)
        } else {
            0
        }
    }

    /// The reply of the first row that holds of the table of refusals; none if the entry is to be
    /// done.
    pub(crate) fn verdict(&self, e: &Entry) -> Option<Reply>
        ensures { result ≡ verdict_in self.now e.now }
    {
        let known = self.known(e);
        let count = self.kept_count(e);
        let facts = self.facts(&e.member);
        let rule = broken(&self.game, self.seat(&e.member), asked_action(&e.command));
        let review = review_refusal(&self.review, &e.command);
        first_reply(&facts, known, count, rule, review, e)
    }

    /// Keeps an entry with its reply, if it is the first that is kept for its number. A load that
    /// is done is then pending. It takes no memory.
    pub(crate) fn keep_entry(&mut self, e: &Entry, command: Command, reply: Reply)
        requires same { command ≡ e.now.command }
        requires spare { HasSpare self.old.kept }
        requires few { IsTrue (keeps_in self.old e.now reply)
            → count_at self.old.kept e.now.member < MOST_KEPT_NUMBERS }
        ensures { KeepsEntry e.now reply self.old self.new }
    {
        if e.table == self.latest {
            let first = self
                .kept
                .keep(&e.member, e.number, KeptReply { command, reply });
            if let (true, Command::Load { id }, Reply::Done) = (first, &e.command, reply) {
                self.load = Some(*id);
            }
        }
    }
}
