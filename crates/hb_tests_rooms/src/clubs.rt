//! Which hall, keeper and connections does a script have?

use crate::problem::Problem;
use crate::rooms::LoneRoom;
use crate::streams::Stream;
use hb_club::Shoe;
use hb_deck::Deck;
use hb_desk::Desk;
use hb_house::{ClerkError, PlainHall, Report, clerk};
use hb_io::{Got, Name, Texts};
use hb_keeper::{Fails, Keeper, KeeperMemory, When};
use hb_rules::Identity;
use hb_table::Room;
use std::alloc::{AllocError, Global};

const ROOMS: u32 = 16;

/// The greatest number of a connection.
const CONNECTIONS: usize = 3;

/// A hall with a keeper, and those who are sent texts.
#[derive(Drop)]
pub(crate) struct Club {
    hall: PlainHall<Room>,
    keeper: KeeperMemory,
    /// The session of each connection, by its number. No connection has the number 0.
    desks: Vec<Desk>,
    stream: Stream,
    pub(crate) lone: LoneRoom,
}

/// The cards that a text names, each by a letter and a digit.
fn deck_of(alloc: Global, text: &str) -> Result<Deck, AllocError> {
    let mut cards = Vec::new(alloc);
    for card in text.as_bytes().chunks_exact(2) {
        if let [letter, digit] = card {
            cards.push(Identity {
                suit: letter.wrapping_sub(b'a'),
                rank: digit.wrapping_sub(b'0'),
            })?;
        }
    }
    Ok(cards.into())
}

impl Club {
    /// A club to which nothing came yet. The keeper fails before its work at one call and behind
    /// its work at another.
    pub(crate) fn new(alloc: Global, before: u64, after: u64, deck: &str) -> Result<Club, Problem> {
        let mut fails = Fails::new(alloc);
        fails.push(before, When::Before)?;
        fails.push(after, When::After)?;
        let mut keeper = KeeperMemory::new(alloc, 0, fails)?;
        let Ok(run) = keeper.open_run() else {
            return Err(Problem::Refused);
        };
        let shoe = Shoe {
            seed: [0; 32],
            written: Some(deck_of(alloc, deck)?),
        };
        let hall = PlainHall::new(alloc, ROOMS, &shoe, run)?;
        let mut desks = Vec::new(alloc);
        for _ in 0..=CONNECTIONS {
            desks.push(Desk::new())?;
        }
        Ok(Club {
            hall,
            keeper,
            desks,
            stream: Stream::new(None),
            lone: LoneRoom::new(alloc, &shoe)?,
        })
    }

    /// What a connection is sent at a turn.
    pub(crate) fn turn(
        &mut self,
        alloc: Global,
        moment: u64,
        connection: usize,
        got: &Got,
    ) -> Result<Texts, Problem> {
        let mut texts = Texts::new(alloc);
        let Some(desk) = self.desks.get_mut(connection) else {
            return Err(Problem::Line);
        };
        match desk.turn(alloc, &mut self.hall, moment, got, &mut texts) {
            Ok(_) => Ok(texts),
            Err(_) => Err(Problem::Refused),
        }
    }

    /// What a member is written of room 1 at a look.
    pub(crate) fn look(
        &mut self,
        alloc: Global,
        moment: u64,
        member: Name,
    ) -> Result<Texts, Problem> {
        if self.stream.member != Some(member) {
            self.stream = Stream::new(Some(member));
        }
        self.stream.next(alloc, &mut self.hall, moment, member)
    }

    /// What the clerk does, or why it stops.
    pub(crate) fn clerk(&mut self, alloc: Global, moment: u64) -> Result<Report, ClerkError> {
        let mut report = Report::default();
        clerk(alloc, &mut self.hall, &mut self.keeper, moment, &mut report)?;
        Ok(report)
    }
}
