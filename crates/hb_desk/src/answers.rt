//! What does a session write of an answer of the hall, and what is left of it?

ghost use Rattle.std.specs.Prelude.{◌≡◌, ◌++◌, [], ◌∷◌, IfErr, IfOk, OnOk, Some};
ghost use Rattle.hb_club.specs.CommandKinds.{is_look};
ghost use Rattle.hb_club.specs.RoomEvents.{Replied};
ghost use Rattle.hb_club.specs.Views.{View};
ghost use Rattle.hb_talk.specs.Replies.{lobby_line};
ghost use Rattle.hb_talk.specs.Sessions.{marks_after};
ghost use Rattle.hb_talk.specs.Turns.{bound_name, reply_lines};
ghost use Rattle.hb_desk.specs.AnswerSteps.{Follows, Wrote};

use crate::Desk;
use crate::replies::{lobby_of, reply_of};
use crate::streams::{marks_at, push_stream};
use hb_club::{Answered, Command, Entry, LobbyReply};
use hb_io::{Name, Texts};
use hb_talk::{Session, TurnError};
use hb_view::push_line;
use std::alloc::{AllocError, Global};

/// Appends the line that answers a request; a look has none.
fn push_reply(
    sent: &mut Texts,
    alloc: Global,
    entry: &Entry,
    answered: &Answered,
) -> Result<(), AllocError>
    ensures { OnOk result (sent.new ≡ sent.old ++ reply_lines (is_look entry.now.command)
        entry.now.number (Replied answered.now.reply)) }
{
    if matches!(entry.command, Command::Look) {
        return Ok(());
    }
    push_line(sent, alloc, &reply_of(entry.number, answered.reply))
}

/// Appends what a room replied and what is new of it, and answers the desk that is left.
pub(crate) fn write_answer(
    sent: &mut Texts,
    alloc: Global,
    desk: &Desk,
    room: u32,
    entry: &Entry,
    answered: &Answered,
) -> Result<Desk, AllocError>
    ensures texts { IfOk result (λ left. (w : View)
        → Follows w answered.now desk.now.session.marks room desk.now.cursor
        → Wrote w (reply_lines (is_look entry.now.command) entry.now.number
        (Replied answered.now.reply)) desk.now.session.marks room sent.old sent.new
        left.cursor) }
    ensures left { IfOk result (λ left. left.session ≡ record desk.now.session {
      followed = Some room;
      marks = marks_after room answered.now;
    }) }
{
    push_reply(sent, alloc, entry, answered)?;
    let session = desk.session;
    let cursor = push_stream(sent, alloc, session.marks, &desk.cursor, room, answered)?;
    let session = Session {
        name: session.name,
        followed: Some(room),
        marks: marks_at(room, answered),
    };
    Ok(Desk { session, cursor })
}

/// The name that a reply of the lobby binds.
fn name_bound(reply: &LobbyReply) -> Option<Name>
    ensures { result ≡ bound_name reply.now }
{
    match reply {
        LobbyReply::Welcome(name) => Some(*name),
        LobbyReply::BadName | LobbyReply::WrongKey | LobbyReply::HouseFull => None,
    }
}

/// Appends what the lobby replied, and answers the desk that is left.
pub(crate) fn write_reply(
    sent: &mut Texts,
    alloc: Global,
    desk: &Desk,
    reply: &LobbyReply,
) -> Result<Desk, TurnError>
    ensures texts { OnOk result (sent.new ≡ sent.old ++ lobby_line reply.now ∷ []) }
    ensures left { IfOk result (λ left. left.session ≡ record desk.now.session {
      name = bound_name reply.now;
    }) }
    ensures memory { IfErr result (λ why. why ≡ TurnError.NoMemory) }
{
    match push_line(sent, alloc, &lobby_of(reply)) {
        Err(_) => Err(TurnError::NoMemory),
        Ok(()) => Ok(Desk {
            session: Session {
                name: name_bound(reply),
                followed: desk.session.followed,
                marks: desk.session.marks,
            },
            cursor: desk.cursor.same(),
        }),
    }
}
