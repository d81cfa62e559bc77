//! What is a session to do about what came?

ghost use Rattle.std.specs.Prelude.{◌≡◌, IfOk};
ghost use Rattle.hb_talk.specs.Errands.{asked, errand_for, look_at};
ghost use Rattle.hb_desk.specs.AnswerSteps.{IsFor};

use crate::commands::command;
use hb_club::{Command, Entry, LobbyEntry};
use hb_io::{Got, Name};
use hb_request::{Request, WireError, parse};
use hb_talk::{Denial, Errand, Session};
use std::alloc::{AllocError, Global};

/// What a session is to do about what came at a moment.
pub(crate) fn errand(
    alloc: Global,
    session: &Session,
    moment: u64,
    got: &Got,
) -> Result<Errand, AllocError>
    ensures asked { IfOk result (λ task. task ≡ asked session.now moment got.now) }
    ensures fits { IfOk result (λ task. IsFor session.now.name task) }
{
    match got {
        Got::Closed => Ok(Errand::Nothing),
        Got::Idle => match (session.name, session.followed) {
            (Some(member), Some(room)) => Ok(look(moment, member, room)),
            _ => Ok(Errand::Nothing),
        },
        Got::Text(text) => match parse(alloc, text.as_str()) {
            Err(WireError::NoMemory) => Err(AllocError),
            Err(why) => Ok(Errand::Bad(why)),
            Ok(request) => Ok(requested(moment, session.name, request)),
        },
    }
}

/// A look at a room.
fn look(moment: u64, member: Name, room: u32) -> Errand
    ensures { result ≡ look_at moment member room }
{
    let entry = Entry {
        moment,
        member,
        table: 0,
        number: 0,
        command: Command::Look,
    };
    Errand::Calls { room, entry }
}

/// What a session is to do about a request: before a name is bound only a hello is taken, and after
/// that none.
fn requested(moment: u64, name: Option<Name>, request: Request) -> Errand
    ensures asked { result ≡ errand_for moment name request }
    ensures fits { IsFor name result }
{
    match (name, request) {
        (None, Request::Hello { name, key }) => Errand::Enters(LobbyEntry { name, key }),
        (Some(_), Request::Hello { .. }) => Errand::Denied(Denial::AlreadyBound),
        (None, _) => Errand::Denied(Denial::NotBound),
        (Some(member), Request::Look { room }) => look(moment, member, room),
        (
            Some(member),
            Request::Room {
                room,
                table,
                number,
                ask,
            },
        ) => {
            let entry = Entry {
                moment,
                member,
                table,
                number,
                command: command(ask),
            };
            Errand::Calls { room, entry }
        }
    }
}
