//! What is a member written of room 1, look by look?

use crate::problem::Problem;
use hb_club::{Command, Entry, Seen, Viewer};
use hb_house::{Hall, PlainHall};
use hb_io::{Name, Texts};
use hb_table::Room;
use hb_view::{Cursor, pump};
use std::alloc::Global;

const ROOM: u32 = 1;

/// How far the items of the room were written for a member.
#[derive(Drop)]
pub(crate) struct Stream {
    pub(crate) member: Option<Name>,
    seen: Seen,
    cursor: Cursor,
}

impl Stream {
    /// A stream of which nothing was written.
    pub(crate) fn new(member: Option<Name>) -> Stream {
        let viewer = Viewer::Guest;
        Stream {
            member,
            seen: Seen {
                table: 0,
                viewer,
                count: 0,
            },
            cursor: Cursor::new(viewer),
        }
    }

    /// The texts of the items that are new at a look of the member.
    pub(crate) fn next(
        &mut self,
        alloc: Global,
        hall: &mut PlainHall<Room>,
        moment: u64,
        member: Name,
    ) -> Result<Texts, Problem> {
        let look = Entry {
            moment,
            member,
            table: 0,
            number: 0,
            command: Command::Look,
        };
        let Ok(answered) = hall.room(alloc, ROOM, &look, &self.seen) else {
            return Err(Problem::Refused);
        };
        if answered.from == 0 {
            self.cursor = Cursor::new(answered.viewer);
        }
        let mut texts = Texts::new(alloc);
        pump(alloc, &answered, &mut self.cursor, &mut texts)?;
        self.seen = Seen {
            table: answered.table,
            viewer: answered.viewer,
            count: answered.from + answered.items.len() as u32,
        };
        Ok(texts)
    }
}
