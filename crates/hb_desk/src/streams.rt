//! What does a session write of a room, and how far has it come then?

ghost use Rattle.std.specs.Prelude.{◌≡◌, [], IfOk};
ghost use Rattle.hb_club.specs.Seating.{same_viewer};
ghost use Rattle.hb_club.specs.Views.{View};
ghost use Rattle.hb_talk.specs.Sessions.{marks_after, seen_of};
ghost use Rattle.hb_talk.specs.Streams.{role_of};
ghost use Rattle.hb_desk.specs.AnswerSteps.{Follows, Wrote, goes_on};

use hb_club::{Answered, Seen, Viewer};
use hb_io::Texts;
use hb_talk::Marks;
use hb_view::{Cursor, pump, push_line};
use hb_wire::{Role, WireLine};
use std::alloc::{AllocError, Global};

/// What a session tells a hall that it has seen of a room.
pub(crate) fn seen_at(marks: Option<Marks>, room: u32) -> Seen
    ensures { result ≡ seen_of marks room }
{
    match marks {
        Some(m) if m.room == room => Seen {
            table: m.table,
            viewer: m.viewer,
            count: m.count,
        },
        _ => Seen {
            table: 0,
            viewer: Viewer::Guest,
            count: 0,
        },
    }
}

/// The marks that an answer leaves.
pub(crate) fn marks_at(room: u32, answered: &Answered) -> Option<Marks>
    ensures { result ≡ marks_after room answered.now }
{
    if answered.table == 0 {
        return None;
    }
    Some(Marks {
        room,
        table: answered.table,
        viewer: answered.viewer,
        count: answered.from + answered.items.len() as u32,
    })
}

/// Whether two viewers are the same.
fn is_same_viewer(a: Viewer, b: Viewer) -> bool
    ensures { result ≡ same_viewer a b }
{
    match (a, b) {
        (Viewer::Seat(s), Viewer::Seat(t)) => s == t,
        (Viewer::Watcher { shadow: s }, Viewer::Watcher { shadow: t }) => s == t,
        (Viewer::Guest, Viewer::Guest) => true,
        _ => false,
    }
}

/// Whether the marks are of the answered room, table and viewer.
fn is_marked(marks: Option<Marks>, room: u32, answered: &Answered) -> bool
    ensures { result ≡ goes_on marks room answered.now }
{
    match marks {
        None => false,
        Some(m) => {
            m.room == room && m.table == answered.table && is_same_viewer(m.viewer, answered.viewer)
        }
    }
}

fn role(viewer: Viewer) -> Role
    ensures { result ≡ role_of viewer }
{
    match viewer {
        Viewer::Seat(seat) => Role::Seat(seat),
        Viewer::Watcher { shadow } => Role::Watcher(shadow),
        Viewer::Guest => Role::Guest,
    }
}

/// Appends what is new of a room, and answers the cursor behind it. If the marks are of another
/// room, table or viewer, a line begins the stream anew, and all items come.
pub(crate) fn push_stream(
    sent: &mut Texts,
    alloc: Global,
    marks: Option<Marks>,
    cursor: &Cursor,
    room: u32,
    answered: &Answered,
) -> Result<Cursor, AllocError>
    ensures { IfOk result (λ left. (w : View) → Follows w answered.now marks room cursor.now
        → Wrote w [] marks room sent.old sent.new left) }
{
    if answered.table == 0 {
        return Ok(cursor.same());
    }
    if is_marked(marks, room, answered) {
        let mut left = cursor.same();
        pump(alloc, answered, &mut left, sent)?;
        return Ok(left);
    }
    let line = WireLine::Viewer {
        role: role(answered.viewer),
        room,
        table: answered.table,
    };
    push_line(sent, alloc, &line)?;
    let mut left = Cursor::new(answered.viewer);
    pump(alloc, answered, &mut left, sent)?;
    Ok(left)
}
