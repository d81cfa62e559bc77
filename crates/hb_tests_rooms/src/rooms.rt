//! What does a room reply and tell, and which items does a call of it add?

use crate::commands::command;
use crate::problem::Problem;
use hb_club::{ClerkNote, Entry, Shoe};
use hb_io::{Name, Text};
use hb_keeper::{GameRow, Key};
use hb_request::{Request, parse};
use hb_table::Room;
use std::alloc::Global;

/// A room that no hall keeps.
#[derive(Drop)]
pub(crate) struct LoneRoom {
    room: Room,
    /// The text of the last game that the room had for the clerk.
    text: Option<Text>,
}

/// The serial of a room's latest table, and how many items that has.
type Place = (u32, usize);

impl LoneRoom {
    /// Room 1 of run 1, to which nothing came yet.
    pub(crate) fn new(alloc: Global, shoe: &Shoe) -> Result<LoneRoom, Problem> {
        Ok(LoneRoom {
            room: Room::new(alloc, 1, shoe, 1)?,
            text: None,
        })
    }

    fn place(&self) -> Place {
        (self.room.latest(), self.room.items().len())
    }

    /// Writes the items that came behind a place.
    fn write_items(&self, rt: &HostRuntime, place: Place) -> Result<(), Problem> {
        let (table, count) = place;
        let seen = if table == self.room.latest() {
            count
        } else {
            0
        };
        for item in self.room.items().iter().skip(seen) {
            println!(rt; "{} {:?}", item.moment, item.what)?;
        }
        Ok(())
    }

    /// Asks what a member requests, and writes the reply.
    pub(crate) fn step(
        &mut self,
        rt: &HostRuntime,
        moment: u64,
        member: Name,
        message: &str,
    ) -> Result<(), Problem> {
        let Ok(
            Request::Room {
                table,
                number,
                ask,
                ..
            },
        ) = parse(rt.alloc(), message)
        else {
            return Err(Problem::Line);
        };
        let entry = Entry {
            moment,
            member,
            table,
            number,
            command: command(ask),
        };
        let before = self.place();
        let reply = self.room.step(&entry)?;
        println!(rt; "{member} {reply:?}")?;
        self.write_items(rt, before)
    }

    /// Writes what there is for the clerk to do.
    pub(crate) fn todo(&mut self, rt: &HostRuntime, moment: u64) -> Result<(), Problem> {
        let before = self.place();
        let todo = self.room.todo(rt.alloc(), moment)?;
        if let Some((key, row)) = &todo.save {
            write_game(rt, key, row)?;
            self.text = Some(row.text.clone()?);
        }
        if let Some((table, id)) = todo.load {
            println!(rt; "load {table} {id}")?;
        }
        self.write_items(rt, before)
    }

    /// Notes something, and writes which item that adds.
    pub(crate) fn note(
        &mut self,
        rt: &HostRuntime,
        moment: u64,
        note: &ClerkNote,
    ) -> Result<(), Problem> {
        let before = self.place();
        let noted = self.room.note(moment, note)?;
        println!(rt; "{noted:?}")?;
        self.write_items(rt, before)
    }

    /// A copy of the text of the last game that the room had for the clerk.
    pub(crate) fn text(&self) -> Result<Option<Text>, Problem> {
        Ok(self.text.clone()?)
    }

    /// Writes how a member sees the latest table, and what the room tells of that.
    pub(crate) fn show(&self, rt: &HostRuntime, member: Name) -> Result<(), Problem> {
        let viewer = self.room.viewer(&member);
        println!(rt; "table {} {viewer:?}", self.room.latest())?;
        let Some(head) = self.room.head()? else {
            return Ok(());
        };
        println!(rt; "opened {}", head.name)?;
        if let (Some((variant, players)), Some(game)) = (head.game, self.room.game()) {
            let (acts, score) = (game.act_count(), game.score());
            println!(rt; "game {variant} {acts} {score} {:?}", game.ended())?;
            for player in players.as_slice() {
                println!(rt; "player {player}")?;
            }
        }
        Ok(())
    }
}

/// Writes a game that is to be kept.
fn write_game(rt: &HostRuntime, key: &Key, row: &GameRow) -> Result<(), Problem> {
    let (run, room, serial) = (key.run, key.room, key.serial);
    println!(rt;
        "save {run} {room} {serial} {} {} {}",
        row.how, row.score, row.text
    )?;
    for player in row.names.as_slice() {
        println!(rt; "player {player}")?;
    }
    Ok(())
}
