//! How does a session go on at a turn?

ghost use Rattle.std.specs.Prelude.{◌≡◌, ◌++◌, [], ◌∷◌, IfErr, IfOk, IsErrOf, IsTrue, None, OnErr, OnOk, Some};
ghost use Rattle.hb_club.specs.Fronts.{Fronts, House};
ghost use Rattle.hb_wire.specs.WireLine.{line_text};
ghost use Rattle.hb_talk.specs.Errands.{asked};
ghost use Rattle.hb_talk.specs.Sessions.{new_session};
ghost use Rattle.hb_desk.specs.AnswerSteps.{IsFor};
ghost use Rattle.hb_desk.specs.Desks.{DeskFits, DeskTurned, session_of};
ghost use Rattle.hb_desk.specs.DeskTurns.{GoesTo, IsWornFor, next_of};

use crate::answers::{write_answer, write_reply};
use crate::errands::errand;
use crate::replies::denied;
use crate::streams::seen_at;
use hb_club::{Entry, HallError, LobbyEntry, Viewer};
use hb_house::Hall;
use hb_io::{Got, Texts};
use hb_talk::{Denial, Errand, Next, Session, TurnError};
use hb_view::{Cursor, push_line};
use hb_wire::WireLine;
use std::alloc::Global;

/// What a session keeps between its turns: its name, the room that it follows, and how far the
/// items of that room were written.
#[derive(Drop)]
pub struct Desk {
    pub(crate) session: Session,
    /// Of the stream that the session's marks are of.
    pub(crate) cursor: Cursor,
}

impl Desk {
    /// A session of which no name is bound.
    pub fn new() -> Desk
        ensures session { session_of result ≡ new_session }
        ensures fits { (h : House) (f : Fronts) → DeskFits h f result }
    {
        Desk {
            session: Session {
                name: None,
                followed: None,
                marks: None,
            },
            cursor: Cursor::new(Viewer::Guest),
        }
    }

    /// Takes one turn: does what there is to do about what came at a moment, and appends to the
    /// texts what is to be sent.
    ///
    /// At an error the session and the texts are as before; an entry that the hall took stands. It
    /// answers [`TurnError::Worn`] only if the mark of the room, or of the lobby, is set that was
    /// called.
    pub fn turn<H: Hall>(
        &mut self,
        alloc: Global,
        hall: &mut H,
        moment: u64,
        got: &Got,
        texts: &mut Texts,
    ) -> Result<Next, TurnError>
        ensures ok { OnOk result ((f : Fronts) → H.stands hall.old f
            → DeskFits (H.house hall.old) f self.old
            → DeskTurned H.stands (H.house hall.old) (H.count hall.old) (H.alone hall.old)
            hall.new f self.old (asked (session_of self.old) moment got.now)
            texts.old texts.new self.new) }
        ensures next { IfOk result (λ next. next ≡ next_of got.now) }
        ensures goes { (f : Fronts) → H.stands hall.old f → GoesTo H.stands hall.new f }
        ensures session { OnErr result (self.new ≡ self.old) }
        ensures texts { OnErr result (texts.new ≡ texts.old) }
        ensures worn { IsErrOf result TurnError.Worn → IsWornFor (H.mark hall.new)
            (H.lobby_mark hall.new) (asked (session_of self.old) moment got.now) }
        ensures house { H.house hall.new ≡ H.house hall.old }
        ensures count { H.count hall.new ≡ H.count hall.old }
        ensures alone { H.alone hall.new ≡ H.alone hall.old }
    {
        let Ok(task) = errand(alloc, &self.session, moment, got) else {
            return Err(TurnError::NoMemory);
        };
        let mut sent = Texts::new(alloc);
        let left = perform(&mut sent, alloc, self, hall, &task)?;
        match texts.append(sent) {
            Ok(()) => {
                *self = left;
                Ok(next(got))
            }
            Err(_) => Err(TurnError::NoMemory),
        }
    }

    /// A copy.
    fn same(&self) -> Desk
        ensures { result ≡ self.now }
    {
        Desk {
            session: self.session,
            cursor: self.cursor.same(),
        }
    }
}

/// Whether a session goes on behind what came.
fn next(got: &Got) -> Next
    ensures { result ≡ next_of got.now }
{
    match got {
        Got::Closed => Next::Closed,
        Got::Text(_) | Got::Idle => Next::Goes,
    }
}

/// Appends a line. The desk that is left is as before.
fn say(sent: &mut Texts, alloc: Global, desk: &Desk, line: &WireLine) -> Result<Desk, TurnError>
    ensures texts { OnOk result (sent.new ≡ sent.old ++ line_text line.now ∷ []) }
    ensures left { IfOk result (λ left. left ≡ desk.now) }
    ensures memory { IfErr result (λ why. why ≡ TurnError.NoMemory) }
{
    match push_line(sent, alloc, line) {
        Ok(()) => Ok(desk.same()),
        Err(_) => Err(TurnError::NoMemory),
    }
}

/// Does an errand, and answers the desk that is left.
fn perform<H: Hall>(
    sent: &mut Texts,
    alloc: Global,
    desk: &Desk,
    hall: &mut H,
    task: &Errand,
) -> Result<Desk, TurnError>
    requires { IsFor desk.now.session.name task.now }
    ensures ok { IfOk result (λ left. (f : Fronts) → H.stands hall.old f
        → DeskFits (H.house hall.old) f desk.now
        → DeskTurned H.stands (H.house hall.old) (H.count hall.old) (H.alone hall.old)
        hall.new f desk.now task.now sent.old sent.new left) }
    ensures goes { (f : Fronts) → H.stands hall.old f → GoesTo H.stands hall.new f }
    ensures worn { IsErrOf result TurnError.Worn
        → IsWornFor (H.mark hall.new) (H.lobby_mark hall.new) task.now }
    ensures house { H.house hall.new ≡ H.house hall.old }
    ensures count { H.count hall.new ≡ H.count hall.old }
    ensures alone { H.alone hall.new ≡ H.alone hall.old }
{
    match task {
        Errand::Nothing => Ok(desk.same()),
        Errand::Bad(why) => say(sent, alloc, desk, &WireLine::Bad { error: *why }),
        Errand::Denied(why) => say(sent, alloc, desk, &denied(*why)),
        Errand::Enters(entry) => enter(sent, alloc, desk, hall, entry),
        Errand::Calls { room, entry } => call(sent, alloc, desk, hall, *room, entry),
    }
}

/// Calls the lobby, and writes what it replied.
fn enter<H: Hall>(
    sent: &mut Texts,
    alloc: Global,
    desk: &Desk,
    hall: &mut H,
    entry: &LobbyEntry,
) -> Result<Desk, TurnError>
    ensures ok { IfOk result (λ left. (f : Fronts) → H.stands hall.old f
        → desk.now.session.name ≡ None → DeskFits (H.house hall.old) f desk.now
        → DeskTurned H.stands (H.house hall.old) (H.count hall.old) (H.alone hall.old)
        hall.new f desk.now (Errand.Enters entry.now) sent.old sent.new left) }
    ensures goes { (f : Fronts) → H.stands hall.old f → GoesTo H.stands hall.new f }
    ensures worn { IsErrOf result TurnError.Worn → IsTrue (H.lobby_mark hall.new) }
    ensures house { H.house hall.new ≡ H.house hall.old }
    ensures count { H.count hall.new ≡ H.count hall.old }
    ensures alone { H.alone hall.new ≡ H.alone hall.old }
{
    match hall.lobby(alloc, entry) {
        Err(HallError::Worn) => Err(TurnError::Worn),
        Err(HallError::NoSuchRoom | HallError::NoMemory) => Err(TurnError::NoMemory),
        Ok(reply) => write_reply(sent, alloc, desk, &reply),
    }
}

/// Calls a room, and writes what it answered.
fn call<H: Hall>(
    sent: &mut Texts,
    alloc: Global,
    desk: &Desk,
    hall: &mut H,
    room: u32,
    entry: &Entry,
) -> Result<Desk, TurnError>
    ensures ok { IfOk result (λ left. (f : Fronts) → H.stands hall.old f
        → desk.now.session.name ≡ Some entry.now.member
        → DeskFits (H.house hall.old) f desk.now
        → DeskTurned H.stands (H.house hall.old) (H.count hall.old) (H.alone hall.old)
        hall.new f desk.now (Errand.Calls room entry.now) sent.old sent.new left) }
    ensures goes { (f : Fronts) → H.stands hall.old f → GoesTo H.stands hall.new f }
    ensures worn { IsErrOf result TurnError.Worn → IsTrue (H.mark hall.new room) }
    ensures house { H.house hall.new ≡ H.house hall.old }
    ensures count { H.count hall.new ≡ H.count hall.old }
    ensures alone { H.alone hall.new ≡ H.alone hall.old }
{
    let seen = seen_at(desk.session.marks, room);
    match hall.room(alloc, room, entry, &seen) {
        Err(HallError::NoSuchRoom) => say(sent, alloc, desk, &denied(Denial::NoSuchRoom)),
        Err(HallError::Worn) => Err(TurnError::Worn),
        Err(HallError::NoMemory) => Err(TurnError::NoMemory),
        Ok(answered) => match write_answer(sent, alloc, desk, room, entry, &answered) {
            Ok(left) => Ok(left),
            Err(_) => Err(TurnError::NoMemory),
        },
    }
}
