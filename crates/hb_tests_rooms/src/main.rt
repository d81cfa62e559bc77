//! What do rooms reply, and what are members and connections sent? Runs worked scripts, and writes
//! what each of their lines does.
//!
//! The scripts come on the standard input, a line after another:
//!
//! - `# TEXT` is written out as it stands.
//! - `hall BEFORE AFTER DECK` begins a script, with nothing left of the one before it: a hall of 16
//!   rooms, a room that no hall keeps, a keeper without games, and connections. All rooms are dealt
//!   from the deck. Of the keeper's calls, of which the first has opened the run, the one with the
//!   number BEFORE fails before its work, and the one with the number AFTER behind it; no call has
//!   the number 0.
//!
//! Turns of sessions over the hall, and calls of its clerk:
//!
//! - `MOMENT CONN MESSAGE`: the message comes on connection CONN, 1 to 3. Writes `CONN TEXT` for
//!   each text that the connection is sent.
//! - `MOMENT CONN ~`: the same, and nothing comes.
//! - `MOMENT clerk`: writes `clerk saved A loaded B missing C`, or `clerk fault` if the keeper
//!   fails.
//!
//! Streams:
//!
//! - `MOMENT stream NAME`: a member looks at room 1 of the hall. Writes `NAME TEXT` for each text
//!   of the items that came since the last such look; of all items if that was another member's, or
//!   if the member now sees another table or sees it otherwise.
//!
//! Calls of the room that no hall keeps. Behind what is said here each writes `STAMP ITEM` for each
//! item that it added:
//!
//! - `MOMENT step NAME MESSAGE`: a member asks what the message requests. Writes `NAME REPLY`.
//! - `MOMENT todo`: writes `save RUN ROOM SERIAL END SCORE TEXT` and the players of a game that is
//!   to be kept, and `load SERIAL ID` for a load that is pending.
//! - `MOMENT saved SERIAL ID`, `MOMENT loaded SERIAL ID`, `MOMENT missing SERIAL ID`: the clerk
//!   notes that the table's game is kept, brings it the game of the last `save`, or finds no game
//!   for it. Writes which item the note added.
//! - `MOMENT show NAME`: writes how the member sees the latest table, with which variant that was
//!   opened, and its game: the variant, the number of acts, the score, the end and the players.
//!
//! The status is 0, or 1 with the line at which the program stopped on the error output.
#![tactic(auto)]

mod clubs;
mod commands;
mod lines;
mod problem;
mod rooms;
mod streams;

use crate::clubs::Club;
use crate::lines::done;
use crate::problem::Problem;
use hb_io::{StdSource, read_all};
use std::process::ExitCode;

/// The most bytes of the input.
const INPUT_LIMIT: usize = 8 * 1024 * 1024;

fn main(rt: HostRuntime) -> ExitCode {
    match executed(&rt) {
        Ok(()) => ExitCode::SUCCESS,
        Err(problem) => {
            let _ = eprintln!(rt; "{problem}");
            ExitCode::FAILURE
        }
    }
}

fn executed(rt: &HostRuntime) -> Result<(), Problem> {
    let Ok(bytes) = read_all(rt.alloc(), &mut StdSource::new(rt.stdin()), INPUT_LIMIT) else {
        return Err(Problem::Input);
    };
    let Ok(input) = String::from_utf8(bytes.into_vec()) else {
        return Err(Problem::Input);
    };
    let mut club = Club::new(rt.alloc(), 0, 0, "")?;
    for line in input.lines() {
        if let Err(problem) = done(rt, &mut club, line) {
            eprintln!(rt; "{line}")?;
            return Err(problem);
        }
    }
    Ok(())
}
