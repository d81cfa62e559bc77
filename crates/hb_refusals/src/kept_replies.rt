//! Which reply is kept for a member's number, and for how many numbers is one kept?

ghost use Rattle.std.specs.Prelude.{◌≡◌, ◌<◌, ◌+◌, ◌&&◌, ◌==◌, ℕ, List, bytes_eq, if◌then◌else◌, is_some, Some, None, IsTrue, OnOk};
ghost use Rattle.hb_club.specs.declared.limits.TheConstants.{MOST_KEPT_NUMBERS};
ghost use Rattle.hb_club.specs.OwnEntries.{is_unkept};
ghost use Rattle.hb_refusals.specs.KeptReplies.{HasSpare, KeepsFirst, SameReplies, count_at, is_first, is_keepable, kept_at, reply_of};

use crate::command_kinds::{is_long_note, is_look};
use crate::same_command::is_same_command;
use hb_club::{Command, Refusal, Reply};
use hb_io::Name;
use std::alloc::{AllocError, Global};
use std::collections::HashMap;

/// A command with the reply that is kept for its number.
#[derive(Drop)]
pub struct KeptReply {
    pub command: Command,
    pub reply: Reply,
}

/// The kept replies of a table, by member and number.
#[derive(Drop)]
pub struct KeptReplies {
    replies: HashMap<(Name, u32), KeptReply>,
    // How many of them each member has, so that no call counts them.
    counts: HashMap<Name, usize>,
}

impl KeptReplies {
    /// No reply is kept.
    pub fn new(alloc: Global) -> Self
        ensures replies { (m : List ℕ) (n : ℕ) → kept_at result m n ≡ None }
        ensures counts { (m : List ℕ) → count_at result m ≡ 0 }
    {
        KeptReplies {
            replies: HashMap::new(alloc),
            counts: HashMap::new(alloc),
        }
    }

    /// The reply to a command of this number, if one is kept for the number: the kept one if the
    /// command is the same, else [`Refusal::NumberReused`].
    pub fn reply(&self, member: &Name, number: u32, command: &Command) -> Option<Reply>
        ensures { result ≡ reply_of (kept_at self.now member.now number) command.now }
    {
        let kept = self.replies.get(&(*member, number))?;
        if is_same_command(&kept.command, command) {
            Some(kept.reply)
        } else {
            Some(Reply::Refused(Refusal::NumberReused))
        }
    }

    /// Whether a reply is kept for a number.
    pub fn has(&self, member: &Name, number: u32) -> bool
        ensures { result ≡ is_some (kept_at self.now member.now number) }
    {
        self.replies.contains_key(&(*member, number))
    }

    /// For how many numbers of a member a reply is kept.
    pub fn count(&self, member: &Name) -> usize
        ensures { result ≡ count_at self.now member.now }
    {
        self.counts.get(member).copied().unwrap_or(0)
    }

    /// Takes memory for one more reply. Without it the same replies are kept.
    pub fn reserve(&mut self) -> Result<(), AllocError>
        ensures spare { OnOk result (HasSpare self.new) }
        ensures same { SameReplies self.old self.new }
    {
        self.replies.reserve(1)?;
        self.counts.reserve(1)
    }

    /// Keeps a command with its reply, unless one is kept for its number, or it is one that is not
    /// kept: a look, a note with too long a text, or one with a refusal 1 to 5. It takes no memory,
    /// and answers whether it is kept now.
    pub fn keep(&mut self, member: &Name, number: u32, kept: KeptReply) -> bool
        requires spare { HasSpare self.old }
        requires few { IsTrue (is_first self.old member.now number kept)
            → count_at self.old member.now < MOST_KEPT_NUMBERS }
        ensures answer { result ≡ is_first self.old member.now number kept }
        ensures keeps { KeepsFirst member.now number kept self.old self.new }
    {
        let first = self.is_first(member, number, &kept);
        if first {
            self.put(member, number, kept);
        }
        first
    }

    /// Whether nothing is kept for the number, and this is to be.
    fn is_first(&self, member: &Name, number: u32, kept: &KeptReply) -> bool
        ensures { result ≡ is_first self.now member.now number kept.now }
    {
        is_keepable(kept) && !self.has(member, number)
    }

    fn put(&mut self, member: &Name, number: u32, kept: KeptReply)
        requires spare { HasSpare self.old }
        requires few { count_at self.old member.now < MOST_KEPT_NUMBERS }
        ensures replies { (m : List ℕ) (n : ℕ) → kept_at self.new m n
            ≡ (if bytes_eq member.now m && number == n then Some kept else kept_at self.old m n) }
        ensures counts { (m : List ℕ) → count_at self.new m
            ≡ count_at self.old m + (if bytes_eq member.now m then 1 else 0) }
    {
        let count = self.count(member);
        let _ = self.replies.insert((*member, number), kept);
        let _ = self.counts.insert(*member, count + 1);
    }
}

fn is_keepable(kept: &KeptReply) -> bool
    ensures { result ≡ is_keepable kept.now }
{
    !is_look(&kept.command) && !is_long_note(&kept.command) && !is_unkept(kept.reply)
}

fn is_unkept(reply: Reply) -> bool
    ensures { result ≡ is_unkept reply }
{
    matches!(
        reply,
        Reply::Refused(
            Refusal::OldTable(_)
                | Refusal::NumberReused
                | Refusal::RequestLimit
                | Refusal::NoTable
                | Refusal::TableOpen
        )
    )
}
