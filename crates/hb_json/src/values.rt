//! Which JSON values do lists, options, seats and actions have?

ghost use Rattle.std.specs.Prelude.{◌≡◌, IfOk, OnErr, OnOk};
ghost use Rattle.serde_json.specs.View.{view, members_view};
ghost use Rattle.hb_json.specs.Values.{action_data, card_action_data, options_data, put_flag as put_flag_of, put_if as put_if_of, put_seconds as put_seconds_of, seat_data, texts_data, valued_action_data, wholes_data};

use crate::option_keys::OptionKey;
use hb_io::Text;
use hb_rules::{Action, Clue, Options};
use serde_json::{Map, Value, json, put};
use std::alloc::{AllocError, Global};

/// A list of whole numbers.
pub fn wholes_value(alloc: Global, numbers: &[u8]) -> Result<Value, AllocError>
    ensures { IfOk result (λ v. view v ≡ wholes_data numbers.now) }
{
    let mut items = Vec::new(alloc);
    for n in numbers {
        items.push(Value::from(*n))?;
    }
    Ok(Value::Array(items))
}

/// A list of texts.
pub fn texts_value(alloc: Global, texts: &[Text]) -> Result<Value, AllocError>
    ensures { IfOk result (λ v. view v ≡ texts_data texts.now) }
{
    let mut items = Vec::new(alloc);
    for text in texts {
        let copy = String::from_str(alloc, text.as_str())?;
        items.push(Value::String(copy))?;
    }
    Ok(Value::Array(items))
}

/// Puts a member into an object if it is to be written. If memory runs out, the object stays as it
/// was.
pub fn put_if(
    map: &mut Map<String, Value>,
    alloc: Global,
    on: bool,
    key: &str,
    value: Value,
) -> Result<(), AllocError>
    ensures ok { OnOk result (members_view map.new.entries
        ≡ put_if_of on key.now (view value) (members_view map.old.entries)) }
    ensures err { OnErr result (map.new.entries ≡ map.old.entries) }
{
    if on {
        put(map, alloc, key, value)?;
    }
    Ok(())
}

/// Puts an option that is true or false into an object if it is true.
fn put_flag(
    map: &mut Map<String, Value>,
    alloc: Global,
    key: OptionKey,
    flag: bool,
) -> Result<(), AllocError>
    ensures { OnOk result (members_view map.new.entries
        ≡ put_flag_of key flag (members_view map.old.entries)) }
{
    put_if(map, alloc, flag, key.name(), Value::Bool(true))
}

/// Puts an option that is a time into an object if the game is timed.
fn put_seconds(
    map: &mut Map<String, Value>,
    alloc: Global,
    key: OptionKey,
    timed: bool,
    seconds: u32,
) -> Result<(), AllocError>
    ensures { OnOk result (members_view map.new.entries
        ≡ put_seconds_of key timed seconds (members_view map.old.entries)) }
{
    put_if(map, alloc, timed, key.name(), Value::from(seconds))
}

/// The canonical options object: the variant's name always, the times if the game is timed, and
/// each other option if it is not its default.
pub fn options_value(
    alloc: Global,
    variant_name: &str,
    options: &Options,
) -> Result<Value, AllocError>
    ensures { IfOk result (λ v. view v ≡ options_data variant_name.now options.now) }
{
    let mut map = Map::new(alloc);
    let name = String::from_str(alloc, variant_name)?;
    put(
        &mut map,
        alloc,
        OptionKey::Variant.name(),
        Value::String(name),
    )?;
    put_flag(&mut map, alloc, OptionKey::EmptyClues, options.empty_clues)?;
    put_flag(&mut map, alloc, OptionKey::OneExtraCard, options.extra_card)?;
    put_flag(&mut map, alloc, OptionKey::OneLessCard, options.less_card)?;
    put_if(
        &mut map,
        alloc,
        options.starting != 0,
        OptionKey::StartingPlayer.name(),
        Value::from(options.starting),
    )?;
    put_flag(&mut map, alloc, OptionKey::Timed, options.timed)?;
    put_seconds(
        &mut map,
        alloc,
        OptionKey::TimeBase,
        options.timed,
        options.base_s,
    )?;
    put_seconds(
        &mut map,
        alloc,
        OptionKey::TimePerTurn,
        options.timed,
        options.per_turn_s,
    )?;
    Ok(Value::Object(map))
}

/// A seat, or null.
pub fn seat_value(seat: Option<u8>) -> Value
    ensures { view result ≡ seat_data seat }
{
    match seat {
        Some(seat) => Value::from(seat),
        None => Value::Null,
    }
}

/// An action of type 0 or 1, which names a card alone.
fn card_action_value(alloc: Global, target: u8, kind: u8) -> Result<Value, AllocError>
    ensures { IfOk result (λ v. view v ≡ card_action_data target kind) }
{
    json!(in alloc; {"target": target, "type": kind})
}

/// An action of type 2, 3 or 4, which has a value besides.
fn valued_action_value(alloc: Global, target: u8, kind: u8, value: u8) -> Result<Value, AllocError>
    ensures { IfOk result (λ v. view v ≡ valued_action_data target kind value) }
{
    json!(in alloc; {"target": target, "type": kind, "value": value})
}

/// An action in the replay's form. Of an end it says the seat `who` that calls it, and of any other
/// action it does not.
pub fn action_value(alloc: Global, who: u8, action: Action) -> Result<Value, AllocError>
    ensures { IfOk result (λ v. view v ≡ action_data who action) }
{
    match action {
        Action::Play { order } => card_action_value(alloc, order, 0),
        Action::Discard { order } => card_action_value(alloc, order, 1),
        Action::Clue {
            to,
            clue: Clue::Color(color),
        } => valued_action_value(alloc, to, 2, color),
        Action::Clue {
            to,
            clue: Clue::Rank(rank),
        } => valued_action_value(alloc, to, 3, rank),
        Action::End { how } => valued_action_value(alloc, who, 4, how.number()),
    }
}
