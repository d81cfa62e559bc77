//! Which lines are sent to a connection, and how is each of them printed?

ghost use Rattle.std.specs.Prelude.{◌≡◌, IfOk, string_bytes};
ghost use Rattle.hb_json.specs.Line.{line as spelled_line};
ghost use Rattle.hb_wire.specs.WireLine.{line_data, line_text as line_text_of, line_word};

use crate::events::event_text;
use crate::game::game_text;
use crate::hand::hand_text;
use crate::objects::{name_text, number_text};
use crate::replies::{bad_text, refused_text};
use crate::state::{State, state_text};
use crate::stream::{clock_text, opened_text, review_text, viewer_text, watching_text};
use arrayvec::ArrayVec;
use hb_io::{Name, Text, Texts};
use hb_request::WireError;
use hb_rules::{Action, Event, MOST_HAND, MOST_PLAYERS, Options};
use std::alloc::{AllocError, Global};

/// The most seats, as the size of a list.
pub const SEATS: usize = MOST_PLAYERS as usize;

/// How somebody sees a table.
#[derive(Clone, Copy, PartialEq, Eq, Debug)]
pub enum Role {
    /// As a guest.
    Guest,
    /// From a seat.
    Seat(u8),
    /// As a watcher, who may share the sight of a seat.
    Watcher(Option<u8>),
}

/// A line to a connection. Its fields are the keys of its JSON object.
#[derive(Debug, Drop)]
pub enum WireLine {
    /// `welcome`: a name is taken.
    Welcome {
        name: Name,
    },
    /// `denied`: a request is not for this session or room. The code is 1 for a bad name, 2 for a
    /// wrong key, 3 for a full house, 4 for no such room, 5 for a request before a taken `hello`,
    /// and 6 for a `hello` after a taken one.
    Denied {
        code: u8,
    },
    /// `bad`: a message asks nothing. The code is the number of the error, and the line of a wrong
    /// field names it.
    Bad {
        error: WireError,
    },
    /// `ok`: a numbered request is done.
    Ok {
        number: u32,
    },
    /// `refused`: a numbered request is refused, with the number of the refusal as the code.
    /// Besides it may give the number of a review's error, the number of a broken rule and the
    /// latest table. What is not given has no key.
    Refused {
        code: u8,
        number: u32,
        review: Option<u8>,
        rule: Option<u8>,
        table: Option<u32>,
    },
    /// `viewer`: the stream of a table begins.
    Viewer {
        role: Role,
        room: u32,
        table: u32,
    },
    /// `opened`: a table is open, with these options of this variant.
    Opened {
        host: Name,
        variant: Text,
        options: Options,
    },
    /// `sat`: somebody took a seat.
    Sat {
        name: Name,
    },
    /// `rose`: somebody left a seat.
    Rose {
        name: Name,
    },
    /// `left`: somebody watches no more.
    Left {
        name: Name,
    },
    /// `watching`: somebody watches.
    Watching {
        name: Name,
        shadow: Option<u8>,
    },
    /// `game`: a game begins, or a kept one is shown.
    Game {
        variant: Text,
        options: Options,
        players: Texts,
    },
    /// `draw`, `play`, `discard`, `clue`, `end` or `deck`: something happened in the game.
    Event(Event),
    /// `state`: how the game stands.
    State(State),
    /// `clock`: the banks of the seats at a moment, all in milliseconds, and the seat whose time
    /// runs.
    Clock {
        banks: ArrayVec<u64, SEATS>,
        moment: u64,
        running: Option<u8>,
    },
    /// `hand`: for each card of a seat its order and the set of identities that it can have, as
    /// bits by identity number.
    Hand {
        seat: u8,
        cards: ArrayVec<(u8, u64), MOST_HAND>,
    },
    /// `paused`: somebody stopped the clock.
    Paused {
        by: Name,
    },
    /// `resumed`: somebody let the clock run again.
    Resumed {
        by: Name,
    },
    /// `saved`: the game is kept under this id.
    Saved {
        id: u64,
    },
    /// `loaded`: the kept game with this id is shown.
    Loaded {
        id: u64,
    },
    /// `nogame`: no game is kept under this id.
    NoGame {
        id: u64,
    },
    /// `review`: the review stands at a turn with some hypothetical actions after it. The action is
    /// the last of them, if it was just taken.
    Review {
        action: Option<Action>,
        hypos: u16,
        turn: u16,
    },
    /// `closed`: the table is closed.
    Closed,
}

/// The text of a line, without a line feed, as a string.
#[tactic(auto, unfolding(hb_json::specs::Line::line, json::specs::Print::escape_byte))]
fn spelled(alloc: Global, line: &WireLine) -> Result<String, AllocError>
    ensures { IfOk result (λ s.
        string_bytes s ≡ spelled_line (line_word line.now) (line_data line.now)) }
{
    match line {
        WireLine::Welcome { name } => name_text(alloc, "welcome", "name", *name),
        WireLine::Denied { code } => number_text(alloc, "denied {\"code\":", u64::from(*code)),
        WireLine::Bad { error } => bad_text(alloc, *error),
        WireLine::Ok { number } => number_text(alloc, "ok {\"number\":", u64::from(*number)),
        WireLine::Refused {
            code,
            number,
            review,
            rule,
            table,
        } => refused_text(alloc, *code, *number, *review, *rule, *table),
        WireLine::Viewer { role, room, table } => viewer_text(alloc, *role, *room, *table),
        WireLine::Opened {
            host,
            variant,
            options,
        } => opened_text(alloc, *host, variant.as_str(), options),
        WireLine::Sat { name } => name_text(alloc, "sat", "name", *name),
        WireLine::Rose { name } => name_text(alloc, "rose", "name", *name),
        WireLine::Left { name } => name_text(alloc, "left", "name", *name),
        WireLine::Watching { name, shadow } => watching_text(alloc, *name, *shadow),
        WireLine::Game {
            variant,
            options,
            players,
        } => game_text(alloc, variant.as_str(), options, players.as_slice()),
        WireLine::Event(event) => event_text(alloc, event),
        WireLine::State(state) => state_text(alloc, state),
        WireLine::Clock {
            banks,
            moment,
            running,
        } => clock_text(alloc, banks, *moment, *running),
        WireLine::Hand { seat, cards } => hand_text(alloc, *seat, cards),
        WireLine::Paused { by } => name_text(alloc, "paused", "by", *by),
        WireLine::Resumed { by } => name_text(alloc, "resumed", "by", *by),
        WireLine::Saved { id } => number_text(alloc, "saved {\"id\":", *id),
        WireLine::Loaded { id } => number_text(alloc, "loaded {\"id\":", *id),
        WireLine::NoGame { id } => number_text(alloc, "nogame {\"id\":", *id),
        WireLine::Review {
            action,
            hypos,
            turn,
        } => review_text(alloc, *action, *hypos, *turn),
        WireLine::Closed => String::from_str(alloc, "closed {}"),
    }
}

/// The text of a line, without a line feed.
#[tactic(auto, unfolding(crate::specs::WireLine::line_text))]
pub fn print_line(alloc: Global, line: &WireLine) -> Result<Text, AllocError>
    ensures { IfOk result (λ text. text ≡ line_text_of line.now) }
{
    Ok(Text::from_string(spelled(alloc, line)?))
}
