//! Which lines ask something at a made table?

ghost use Rattle.std.specs.Prelude.{◌≡◌, ◌<◌, ◌+◌, ◌^◌, ℕ, List, [], ◌∷◌, All, IfOk, OnOk, slice_index};
ghost use Rattle.hb_talk.specs.Scripts.{HasConnection};
ghost use Rattle.hb_script.specs.MadeScripts.{Asked, ask_of as ask_of_action, lines_with, message as message_of, says as says_line, wire_clue_of as wire_clue_of_clue};
ghost use Rattle.hb_script.specs.MadeTables.{HasAsked};

use crate::limits::MADE_MEMBERS;
use hb_io::{Got, Sequence, Text};
use hb_request::{Ask, Request, WireClue, print_request};
use hb_rules::{Action, Clue};
use hb_talk::ScriptLine;
use std::alloc::{AllocError, Global};

/// The room of all tables.
const ROOM: u32 = 1;

/// The lines of a table so far, and how many requests each member has made there.
#[derive(Drop)]
pub struct TableLines {
    pub table: u32,
    pub numbers: [u32; MADE_MEMBERS],
    pub lines: Sequence<ScriptLine>,
}

/// The request for a clue.
fn wire_clue_of(clue: Clue) -> WireClue
    ensures { result ≡ wire_clue_of_clue clue }
{
    match clue {
        Clue::Color(index) => WireClue::Color(index),
        Clue::Rank(rank) => WireClue::Rank(rank),
    }
}

/// The request for an action.
pub fn ask_of(action: Action) -> Ask
    ensures { result ≡ ask_of_action action }
{
    match action {
        Action::Play { order } => Ask::Play { order },
        Action::Discard { order } => Ask::Discard { order },
        Action::Clue { to, clue } => Ask::Clue {
            to,
            clue: wire_clue_of(clue),
        },
        Action::End { .. } => Ask::Terminate,
    }
}

/// The line of a member's message.
pub fn says(member: u8, text: Text) -> ScriptLine
    ensures { result ≡ says_line member text }
{
    ScriptLine::Says {
        moment: 0,
        conn: u32::from(member) + 1,
        got: Got::Text(text),
    }
}

/// The message of a request with this number; without one, that which opens the table.
fn message(alloc: Global, table: u32, number: u32, ask: Option<Ask>) -> Result<Text, AllocError>
    ensures { IfOk result (λ text. text ≡ message_of table number ask) }
{
    match ask {
        None => {
            let text = format!(in alloc;
                "open {{\"number\":{number},\"room\":1,\"table\":{table}}}"
            )?;
            Ok(Text::from_string(text))
        }
        Some(ask) => {
            let request = Request::Room {
                room: ROOM,
                table,
                number,
                ask,
            };
            print_request(alloc, &request)
        }
    }
}

impl TableLines {
    /// Before the first request.
    pub fn new(alloc: Global, table: u32) -> Self
        ensures { HasAsked result table [] }
    {
        let lines = Sequence::new(alloc);
        TableLines {
            table,
            numbers: [0; MADE_MEMBERS],
            lines,
        }
    }

    /// The line of a request with the member's next number.
    fn line(&self, alloc: Global, member: u8, ask: Option<Ask>) -> Result<ScriptLine, AllocError>
        requires member { member < MADE_MEMBERS }
        requires few { slice_index self.now.numbers member < 2 ^ 31 }
        ensures { let number = slice_index self.now.numbers member + 1 in IfOk result
            (λ line. line ≡ says_line member (message_of self.now.table number ask)) }
    {
        let number = self.numbers[usize::from(member)] + 1;
        let text = message(alloc, self.table, number, ask)?;
        Ok(says(member, text))
    }

    /// One request more.
    pub fn ask(&mut self, alloc: Global, member: u8, ask: Option<Ask>) -> Result<(), AllocError>
        requires member { member < MADE_MEMBERS }
        requires few { slice_index self.old.numbers member < 2 ^ 31 }
        ensures { OnOk result ((table : ℕ) (all : List Asked) → HasAsked self.old table all
            → HasAsked self.new table (record { member = member; ask = ask } ∷ all)) }
    {
        let line = self.line(alloc, member, ask)?;
        self.lines.push(line)?;
        self.numbers[usize::from(member)] += 1;
        Ok(())
    }

    /// All lines of the table: these, the clerk, and the close.
    pub fn closed(mut self, alloc: Global) -> Result<Sequence<ScriptLine>, AllocError>
        requires { slice_index self.numbers 0 < 2 ^ 31 }
        ensures is { IfOk result (λ lines. (table : ℕ) (all : List Asked)
            → HasAsked self table all → lines ≡ lines_with table all) }
        ensures conns { IfOk result (λ lines. (table : ℕ) (all : List Asked)
            → HasAsked self table all → All HasConnection lines) }
    {
        let close = self.line(alloc, 0, Some(Ask::Close))?;
        self.lines.push(ScriptLine::Clerk { moment: 0 })?;
        self.lines.push(close)?;
        Ok(self.lines)
    }
}
