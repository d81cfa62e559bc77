//! What does each line of a script do, and what does it write?

use crate::clubs::Club;
use crate::problem::Problem;
use hb_club::ClerkNote;
use hb_house::ClerkError;
use hb_io::{Got, Name, Text, Texts, name};

/// Does a line.
pub(crate) fn done(rt: &HostRuntime, club: &mut Club, line: &str) -> Result<(), Problem> {
    let (first, rest) = split(line)?;
    match first {
        "#" => {
            println!(rt; "{line}")?;
            Ok(())
        }
        "hall" => {
            let (before, rest) = split(rest)?;
            let (after, deck) = split(rest)?;
            *club = Club::new(rt.alloc(), before.parse()?, after.parse()?, deck)?;
            Ok(())
        }
        moment => came(rt, club, moment.parse()?, rest),
    }
}

/// What stands before the first blank of a text, and what stands behind it.
fn split(text: &str) -> Result<(&str, &str), Problem> {
    text.split_once(' ').ok_or(Problem::Line)
}

/// Does what a line says behind its moment.
fn came(rt: &HostRuntime, club: &mut Club, moment: u64, what: &str) -> Result<(), Problem> {
    match what {
        "clerk" => return round(rt, club, moment),
        "todo" => return club.lone.todo(rt, moment),
        _ => {}
    }
    let (whom, what) = split(what)?;
    match whom {
        "stream" => {
            let texts = club.look(rt.alloc(), moment, named(what)?)?;
            write_texts(rt, what, &texts)
        }
        "step" => {
            let (member, message) = split(what)?;
            club.lone.step(rt, moment, named(member)?, message)
        }
        "show" => club.lone.show(rt, named(what)?),
        "saved" | "loaded" | "missing" => noted(rt, club, moment, whom, what),
        connection => turned(rt, club, moment, connection, what),
    }
}

fn named(member: &str) -> Result<Name, Problem> {
    name(member).ok_or(Problem::Line)
}

/// Notes something at the room that no hall keeps.
fn noted(
    rt: &HostRuntime,
    club: &mut Club,
    moment: u64,
    kind: &str,
    what: &str,
) -> Result<(), Problem> {
    let (table, id) = split(what)?;
    let (table, id) = (table.parse()?, id.parse()?);
    let note = match kind {
        "saved" => ClerkNote::Saved { table, id },
        "loaded" => {
            let text = club.lone.text()?;
            ClerkNote::Loaded { table, id, text }
        }
        _ => ClerkNote::Loaded {
            table,
            id,
            text: None,
        },
    };
    club.lone.note(rt, moment, &note)
}

/// Takes a turn of a connection's session.
fn turned(
    rt: &HostRuntime,
    club: &mut Club,
    moment: u64,
    connection: &str,
    message: &str,
) -> Result<(), Problem> {
    let got = match message {
        "~" => Got::Idle,
        _ => Got::Text(Text::copy_of(rt.alloc(), message)?),
    };
    let texts = club.turn(rt.alloc(), moment, connection.parse()?, &got)?;
    write_texts(rt, connection, &texts)
}

/// Writes the texts for a connection or a member.
fn write_texts(rt: &HostRuntime, whom: &str, texts: &Texts) -> Result<(), Problem> {
    for text in texts.as_slice() {
        println!(rt; "{whom} {text}")?;
    }
    Ok(())
}

/// Calls the clerk.
fn round(rt: &HostRuntime, club: &mut Club, moment: u64) -> Result<(), Problem> {
    match club.clerk(rt.alloc(), moment) {
        Ok(report) => {
            let (saved, loaded, missing) = (report.saved, report.loaded, report.missing);
            println!(rt; "clerk saved {saved} loaded {loaded} missing {missing}")?;
        }
        Err(ClerkError::KeeperFault) => println!(rt; "clerk fault")?,
        Err(_) => return Err(Problem::Refused),
    }
    Ok(())
}
