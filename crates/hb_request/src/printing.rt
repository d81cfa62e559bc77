//! Which message asks a request?

ghost use Rattle.std.specs.Prelude.{◌≡◌, ◌≤◌, IfOk, OnOk, Ok, length};
ghost use Rattle.serde_json.specs.Data.{put, string};
ghost use Rattle.serde_json.specs.View.{view, members_view};
ghost use Rattle.hb_request.specs.Parsed.{parsed};
ghost use Rattle.hb_request.specs.Printed.{game_action, request_data, request_text, with_ask, with_clue};
ghost use Rattle.hb_request.specs.Ranges.{IsRequest};

use crate::commands::Command;
use crate::limits::MESSAGE_LIMIT;
use crate::requests::{Ask, Request, WireAction, WireClue};
use hb_io::Text;
use hb_json::{action_value, line_text, options_value, seat_value};
use hb_rules::{Action, Clue, Options};
use serde_json::{Map, Value, put as put_member};
use std::alloc::{AllocError, Global};

impl WireAction {
    /// The action of the game that is meant.
    pub fn action(self) -> Action
        ensures { result ≡ game_action self }
    {
        match self {
            WireAction::Play { order } => Action::Play { order },
            WireAction::Discard { order } => Action::Discard { order },
            WireAction::Color { to, index } => Action::Clue {
                to,
                clue: Clue::Color(index),
            },
            WireAction::Rank { to, rank } => Action::Clue {
                to,
                clue: Clue::Rank(rank),
            },
        }
    }
}

/// Puts a text into an object.
fn put_text(
    map: &mut Map<String, Value>,
    alloc: Global,
    key: &str,
    text: &str,
) -> Result<(), AllocError>
    ensures { OnOk result (members_view map.new.entries
        ≡ put key.now (string text.now) (members_view map.old.entries)) }
{
    let copy = String::from_str(alloc, text)?;
    put_member(map, alloc, key, Value::String(copy))
}

/// Puts a clue into an object.
fn put_clue(map: &mut Map<String, Value>, alloc: Global, clue: WireClue) -> Result<(), AllocError>
    ensures { OnOk result (members_view map.new.entries
        ≡ with_clue clue (members_view map.old.entries)) }
{
    match clue {
        WireClue::Color(index) => put_member(map, alloc, "color", Value::from(index)),
        WireClue::Rank(rank) => put_member(map, alloc, "rank", Value::from(rank)),
    }
}

/// Puts what is asked of a table into an object.
fn put_ask(map: &mut Map<String, Value>, alloc: Global, ask: &Ask) -> Result<(), AllocError>
    ensures { OnOk result (members_view map.new.entries
        ≡ with_ask ask.now (members_view map.old.entries)) }
{
    match ask {
        Ask::Open {
            variant,
            empty_clues,
            extra_card,
            less_card,
            timed,
            base_s,
            per_turn_s,
        } => {
            let options = Options {
                starting: 0,
                empty_clues: *empty_clues,
                extra_card: *extra_card,
                less_card: *less_card,
                timed: *timed,
                base_s: *base_s,
                per_turn_s: *per_turn_s,
            };
            let value = options_value(alloc, variant.as_str(), &options)?;
            put_member(map, alloc, "options", value)
        }
        Ask::Play { order } | Ask::Discard { order } => put_member(
            map,
            alloc,
            "order",
            Value::from(*order),
        ),
        Ask::Clue { to, clue } => {
            put_clue(map, alloc, *clue)?;
            put_member(map, alloc, "to", Value::from(*to))
        }
        Ask::Note { order, text } => {
            put_member(map, alloc, "order", Value::from(*order))?;
            put_text(map, alloc, "text", text.as_str())
        }
        Ask::Watch { shadow } => put_member(map, alloc, "shadow", seat_value(*shadow)),
        Ask::Load { id } => put_member(map, alloc, "id", Value::from(*id)),
        Ask::Go { turn } => put_member(map, alloc, "turn", Value::from(*turn)),
        Ask::Hypo { action } => {
            let value = action_value(alloc, 0, action.action())?;
            put_member(map, alloc, "action", value)
        }
        Ask::Sit
        | Ask::Rise
        | Ask::Start
        | Ask::Pause
        | Ask::Resume
        | Ask::Terminate
        | Ask::Leave
        | Ask::Undo
        | Ask::Close => Ok(()),
    }
}

/// What a message says after its word.
#[tactic(auto, unfolding(crate::specs::Printed::request_data))]
fn request_value(alloc: Global, request: &Request) -> Result<Value, AllocError>
    ensures { IfOk result (λ v. view v ≡ request_data request.now) }
{
    let mut map = Map::new(alloc);
    match request {
        Request::Hello { name, key } => {
            put_text(&mut map, alloc, "name", name.as_str())?;
            put_text(&mut map, alloc, "key", key.as_str())?;
        }
        Request::Look { room } => put_member(&mut map, alloc, "room", Value::from(*room))?,
        Request::Room {
            room,
            table,
            number,
            ask,
        } => {
            put_member(&mut map, alloc, "number", Value::from(*number))?;
            put_member(&mut map, alloc, "room", Value::from(*room))?;
            put_member(&mut map, alloc, "table", Value::from(*table))?;
            put_ask(&mut map, alloc, ask)?;
        }
    }
    Ok(Value::Object(map))
}

/// The message of a request, as compact JSON with its keys in byte order. A message of at most
/// [`MESSAGE_LIMIT`] bytes of a request whose fields are in their ranges asks this request.
pub fn print_request(alloc: Global, request: &Request) -> Result<Text, AllocError>
    ensures text { IfOk result (λ text. text ≡ request_text request.now) }
    ensures asks { IfOk result (λ text. IsRequest request.now
        → length text ≤ MESSAGE_LIMIT → parsed text ≡ Ok request.now) }
{
    let value = request_value(alloc, request)?;
    let text = line_text(alloc, Command::of_request(request).word(), &value)?;
    Ok(Text::from_string(text))
}
