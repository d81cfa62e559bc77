//! What does a single value of a replay say, or which place of it is wrong?

ghost use Rattle.std.specs.Prelude.{◌≡◌, Err, Ok, MatchResult};
ghost use Rattle.serde_json.specs.Find.{get};
ghost use Rattle.serde_json.specs.View.{view, items_view};
ghost use Rattle.hb_json.specs.JsonReading.{below_of};
ghost use Rattle.hb_replay.specs.Shape.{list_at, number_at, card_at, valued_action as valued_action_of, action_of_kind, action_at};

use crate::place::{Part, Place, PlaceField};
use crate::written::WrittenAction;
use hb_json::byte;
use hb_rules::{Clue, EndHow, Identity};
use serde_json::Value;

/// The list at a key.
pub(crate) fn list<'v>(value: &'v Value, key: &str, place: Place) -> Result<&'v Vec<Value>, Place>
    ensures { MatchResult result
        (λ list. list_at place (get key.now (view value.now)) ≡ Ok (items_view list.now.items))
        (λ e. list_at place (get key.now (view value.now)) ≡ Err e) }
{
    value.get(key).and_then(Value::as_array).ok_or(place)
}

/// The types of actions are the numbers below this.
const KINDS: u8 = 5;

/// The type of an action, 0 to 4.
fn kind(value: &Value) -> Option<u8>
    ensures { result ≡ below_of KINDS (view value.now) }
{
    byte(value).filter(|n| *n < KINDS)
}

/// The field of an object that is a whole number of 0 to 255.
fn byte_field(value: &Value, key: &str, place: Place) -> Result<u8, Place>
    ensures { result ≡ number_at place 256 key.now (view value.now) }
{
    value.get(key).and_then(|found| byte(found)).ok_or(place)
}

/// The card at an index of the deck.
pub(crate) fn card(k: usize, value: &Value) -> Result<Identity, Place>
    ensures { result ≡ card_at k (view value.now) }
{
    if !value.is_object() {
        return Err(Place::of_member(Part::Deck, k));
    }
    let suit = byte_field(
        value,
        "suitIndex",
        Place::of_field(Part::Deck, k, PlaceField::SuitIndex),
    )?;
    let rank = byte_field(
        value,
        "rank",
        Place::of_field(Part::Deck, k, PlaceField::Rank),
    )?;
    Ok(Identity { suit, rank })
}

/// An action of type 2, 3 or 4 with its value.
fn valued_action(place: Place, kind: u8, target: u8, value: u8) -> Result<WrittenAction, Place>
    ensures { result ≡ valued_action_of place kind target value }
{
    match kind {
        2 => Ok(WrittenAction::Clue {
            to: target,
            clue: Clue::Color(value),
        }),
        3 => Ok(WrittenAction::Clue {
            to: target,
            clue: Clue::Rank(value),
        }),
        _ => {
            let how = EndHow::from_number(value).ok_or(place)?;
            Ok(WrittenAction::End { who: target, how })
        }
    }
}

/// An action of a type; the value of a play or discard is ignored.
fn action_of_kind(place: Place, kind: u8, target: u8, value: &Value) -> Result<WrittenAction, Place>
    ensures { result ≡ action_of_kind place kind target (view value.now) }
{
    match kind {
        0 => Ok(WrittenAction::Play { order: target }),
        1 => Ok(WrittenAction::Discard { order: target }),
        _ => valued_action(place, kind, target, byte_field(value, "value", place)?),
    }
}

/// The action at an index of the list of actions.
pub(crate) fn action(k: usize, value: &Value) -> Result<WrittenAction, Place>
    ensures { result ≡ action_at k (view value.now) }
{
    if !value.is_object() {
        return Err(Place::of_member(Part::Actions, k));
    }
    let kind = value
        .get("type")
        .and_then(kind)
        .ok_or(Place::of_field(Part::Actions, k, PlaceField::Kind))?;
    let target = byte_field(
        value,
        "target",
        Place::of_field(Part::Actions, k, PlaceField::Target),
    )?;
    action_of_kind(
        Place::of_field(Part::Actions, k, PlaceField::Value),
        kind,
        target,
        value,
    )
}
