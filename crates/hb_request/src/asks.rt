//! What do the fields of a request's JSON object ask of a table?

ghost use Rattle.std.specs.Prelude.{◌≡◌, Err, IfOk, MatchResult, Ok, codes, is_some, true};
ghost use Rattle.serde_json.specs.View.{view};
ghost use Rattle.hb_suits.specs.VariantNames.{variant_of};
ghost use Rattle.hb_json.specs.WrittenModes.{AreModes};
ghost use Rattle.hb_request.specs.Fields.{action_in, action_number, action_of_kind, asked, clue_asked, clue_in, note_asked, open_in, options_in, table_options_in, variant_name_in};
ghost use Rattle.hb_request.specs.Opening.{opened as opened_with};
ghost use Rattle.hb_request.specs.Parsed.{Gives, fielded};
ghost use Rattle.hb_request.specs.Ranges.{IsAsk, IsClue};

use crate::commands::TableCommand;
use crate::errors::{FieldName, WireError};
use crate::fields::{id, order, seat, shadow, text, turn};
use crate::requests::{Ask, WireAction, WireClue};
use hb_io::Text;
use hb_json::{WrittenModes, byte, first_other, variant_option};
use hb_rules::{HIGHEST_RANK, MOST_SUITS, Options};
use hb_suits::variant;
use serde_json::{Map, Value};
use std::alloc::Global;

/// The clue, of which exactly one of the keys `color` and `rank` is there.
fn clue(value: &Value) -> Result<WireClue, FieldName>
    ensures found { result ≡ clue_in (view value.now) }
    ensures range { IfOk result IsClue }
{
    match (value.get("color"), value.get("rank")) {
        (Some(color), None) => match byte(color) {
            Some(index) if usize::from(index) < MOST_SUITS => Ok(WireClue::Color(index)),
            _ => Err(FieldName::Clue),
        },
        (None, Some(rank)) => match byte(rank) {
            Some(rank) if 1 <= rank && rank <= HIGHEST_RANK => Ok(WireClue::Rank(rank)),
            _ => Err(FieldName::Clue),
        },
        _ => Err(FieldName::Clue),
    }
}

/// A number of an action.
fn action_byte(value: &Value, key: &str) -> Result<u8, FieldName>
    ensures { result ≡ action_number 256 key.now (view value.now) }
{
    value
        .get(key)
        .and_then(|found| byte(found))
        .ok_or(FieldName::Action)
}

/// The types of actions that a request may have are the numbers below this: it calls no end.
const KINDS: u8 = 4;

/// The type of an action, 0 to 3.
fn action_kind(value: &Value) -> Result<u8, FieldName>
    ensures { result ≡ action_number KINDS (codes "type") (view value.now) }
{
    value
        .get("type")
        .and_then(|found| byte(found))
        .filter(|kind| *kind < KINDS)
        .ok_or(FieldName::Action)
}

/// An action of a type.
fn action_with(kind: u8, target: u8, value: &Value) -> Result<WireAction, FieldName>
    ensures { result ≡ action_of_kind kind target (view value.now) }
{
    match kind {
        0 => Ok(WireAction::Play { order: target }),
        1 => Ok(WireAction::Discard { order: target }),
        2 => Ok(WireAction::Color {
            to: target,
            index: action_byte(value, "value")?,
        }),
        _ => Ok(WireAction::Rank {
            to: target,
            rank: action_byte(value, "value")?,
        }),
    }
}

/// The action of a review.
fn action(value: &Value) -> Result<WireAction, FieldName>
    ensures { result ≡ action_in (view value.now) }
{
    let found = value
        .get(FieldName::Action.text())
        .ok_or(FieldName::Action)?;
    let kind = action_kind(found)?;
    let target = action_byte(found, "target")?;
    action_with(kind, target, found)
}

/// The variant's name that an object of options says.
fn variant_name(value: &Value) -> Result<&str, FieldName>
    ensures found { MatchResult result
        (λ name. variant_name_in (view value.now) ≡ Ok name.now)
        (λ field. variant_name_in (view value.now) ≡ Err field) }
    ensures named { IfOk result (λ name. is_some (variant_of name.now) ≡ true) }
{
    let name = variant_option(value)?;
    if variant(name).is_err() {
        return Err(FieldName::Options);
    }
    Ok(name)
}

/// The options of a game that an object of options says. The first seat has the first turn.
fn table_options(value: &Value) -> Result<Options, FieldName>
    ensures found { result ≡ table_options_in (view value.now) }
    ensures in_range { IfOk result AreModes }
{
    let modes = WrittenModes::read(value)?;
    Ok(modes.options(0)?)
}

/// The opening with a variant's name and options.
fn opened(variant: Text, options: Options) -> Ask
    ensures { result ≡ opened_with variant options }
{
    Ask::Open {
        variant,
        empty_clues: options.empty_clues,
        extra_card: options.extra_card,
        less_card: options.less_card,
        timed: options.timed,
        base_s: options.base_s,
        per_turn_s: options.per_turn_s,
    }
}

/// The opening that an object of options asks for.
#[tactic(auto, unfolding(crate::specs::Fields::options_in))]
fn opening(alloc: Global, value: &Value) -> Result<Ask, WireError>
    ensures found { Gives result (fielded (options_in (view value.now))) }
    ensures range { IfOk result IsAsk }
{
    let members = value.as_object().ok_or(FieldName::Options)?;
    let name = variant_name(value)?;
    let options = table_options(value)?;
    if first_other(members).is_some() {
        return Err(WireError::Field(FieldName::Options));
    }
    Ok(opened(Text::copy_of(alloc, name)?, options))
}

/// The opening of a table; absent options are those of an empty object.
fn open(alloc: Global, value: &Value) -> Result<Ask, WireError>
    ensures found { Gives result (fielded (open_in (view value.now))) }
    ensures range { IfOk result IsAsk }
{
    match value.get(FieldName::Options.text()) {
        Some(options) => opening(alloc, options),
        None => opening(alloc, &Value::Object(Map::new(alloc))),
    }
}

/// A clue to a seat.
fn clue_ask(value: &Value) -> Result<Ask, FieldName>
    ensures found { result ≡ clue_asked (view value.now) }
    ensures range { IfOk result IsAsk }
{
    let to = seat(value)?;
    let clue = clue(value)?;
    Ok(Ask::Clue { to, clue })
}

/// A text at a card.
fn note_ask(alloc: Global, value: &Value) -> Result<Ask, WireError>
    ensures found { Gives result (fielded (note_asked (view value.now))) }
    ensures range { IfOk result IsAsk }
{
    let order = order(value)?;
    let text = text(alloc, value, FieldName::Text)?;
    Ok(Ask::Note { order, text })
}

/// What a command asks of a table.
pub(crate) fn ask(alloc: Global, command: TableCommand, value: &Value) -> Result<Ask, WireError>
    ensures found { Gives result (fielded (asked command (view value.now))) }
    ensures range { IfOk result IsAsk }
{
    match command {
        TableCommand::Open => open(alloc, value),
        TableCommand::Sit => Ok(Ask::Sit),
        TableCommand::Rise => Ok(Ask::Rise),
        TableCommand::Start => Ok(Ask::Start),
        TableCommand::Play => Ok(Ask::Play {
            order: order(value)?,
        }),
        TableCommand::Discard => Ok(Ask::Discard {
            order: order(value)?,
        }),
        TableCommand::Clue => Ok(clue_ask(value)?),
        TableCommand::Note => note_ask(alloc, value),
        TableCommand::Pause => Ok(Ask::Pause),
        TableCommand::Resume => Ok(Ask::Resume),
        TableCommand::Terminate => Ok(Ask::Terminate),
        TableCommand::Watch => Ok(Ask::Watch {
            shadow: shadow(value)?,
        }),
        TableCommand::Leave => Ok(Ask::Leave),
        TableCommand::Load => Ok(Ask::Load { id: id(value)? }),
        TableCommand::Go => Ok(Ask::Go { turn: turn(value)? }),
        TableCommand::Hypo => Ok(Ask::Hypo {
            action: action(value)?,
        }),
        TableCommand::Undo => Ok(Ask::Undo),
        TableCommand::Close => Ok(Ask::Close),
    }
}
