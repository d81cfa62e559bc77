//! What does a JSON value say, or which place of it has not the shape of a replay?

ghost use Rattle.std.specs.Prelude.{◌≡◌, option_map, codes, IfOk};
ghost use Rattle.serde_json.specs.Find.{get, get_member};
ghost use Rattle.serde_json.specs.View.{view, members_view};
ghost use Rattle.hb_json.specs.OptionKey.{first_other as first_other_of};
ghost use Rattle.hb_json.specs.WrittenModes.{variant_in};
ghost use Rattle.hb_replay.specs.ReplayReading.{Gives};
ghost use Rattle.hb_replay.specs.Refusals.{shaped};
ghost use Rattle.hb_replay.specs.Shape.{shape_of, options_in as options_in_object, options_of, notes_of, option_shape};

use crate::errors::ReplayError;
use crate::fields::list;
use crate::lists::{actions, cards, note_lists, players};
use crate::place::{Part, Place};
use crate::written::{Notes, WrittenOptions, WrittenReplay};
use hb_io::Text;
use hb_json::{WrittenModes, first_other, present, starting_option, variant_option};
use serde_json::{Map, Value};
use std::alloc::{AllocError, Global};

/// The name of the first option, in byte order, that is true and not understood.
fn other_option(alloc: Global, members: &Map<String, Value>) -> Result<Option<Text>, AllocError>
    ensures { IfOk result (λ found. found ≡ first_other_of (members_view members.now.entries)) }
{
    match first_other(members) {
        None => Ok(None),
        Some(key) => Ok(Some(Text::copy_of(alloc, key)?)),
    }
}

/// The name of the variant.
fn variant_name(alloc: Global, value: &Value) -> Result<Text, ReplayError>
    ensures { Gives result (shaped (option_shape (variant_in (view value.now)))) }
{
    let name = variant_option(value)?;
    Ok(Text::copy_of(alloc, name)?)
}

/// The options of an object.
#[tactic(auto, unfolding(crate::specs::Shape::options_in))]
fn options_in(alloc: Global, value: &Value) -> Result<WrittenOptions, ReplayError>
    ensures { Gives result (shaped (options_in_object (view value.now))) }
{
    let Some(members) = value.as_object() else {
        return Err(ReplayError::Shape(Place::of_part(Part::Options)));
    };
    let variant = variant_name(alloc, value)?;
    let starting = starting_option(value)?;
    let modes = WrittenModes::read(value)?;
    let other = other_option(alloc, members)?;
    Ok(WrittenOptions {
        variant,
        starting,
        modes,
        other,
    })
}

/// The options, which are those of an empty object if none are written.
fn options(alloc: Global, found: Option<&Value>) -> Result<WrittenOptions, ReplayError>
    ensures { Gives result (shaped (options_of (option_map (λ v. view v.now) found.entry))) }
{
    match present(found) {
        None => options_in(alloc, &Value::Object(Map::new(alloc))),
        Some(value) => options_in(alloc, value),
    }
}

/// The value at a key, taken out of an object.
fn taken(mut members: Map<String, Value>, key: &str) -> Option<Value>
    ensures { option_map view result ≡ get_member key.now (members_view members.entries) }
{
    members.remove(key)
}

/// The notes, of which there are none if none are written. They are taken out of the value, so that
/// no text is copied.
fn notes(alloc: Global, value: Value) -> Result<Notes, ReplayError>
    ensures { Gives result (shaped (notes_of (get (codes "notes") (view value)))) }
{
    let Value::Object(members) = value else {
        return Ok(Notes::new(alloc));
    };
    match taken(members, "notes") {
        None | Some(Value::Null) => Ok(Notes::new(alloc)),
        Some(Value::Array(items)) => note_lists(alloc, items),
        Some(_) => Err(ReplayError::Shape(Place::of_part(Part::Notes))),
    }
}

/// What a value says, or the first place that has not the shape of a replay.
#[tactic(auto, unfolding(crate::specs::Shape::shape_of))]
pub(crate) fn shape(alloc: Global, value: Value) -> Result<WrittenReplay, ReplayError>
    ensures { Gives result (shaped (shape_of (view value))) }
{
    if !value.is_object() {
        return Err(ReplayError::Shape(Place::of_part(Part::Root)));
    }
    let items = list(&value, "players", Place::of_part(Part::Players))?;
    let players = players(alloc, items)?;
    let items = list(&value, "deck", Place::of_part(Part::Deck))?;
    let deck = cards(alloc, items)?;
    let items = list(&value, "actions", Place::of_part(Part::Actions))?;
    let actions = actions(alloc, items)?;
    let options = options(alloc, value.get("options"))?;
    let notes = notes(alloc, value)?;
    Ok(WrittenReplay {
        players,
        deck,
        actions,
        options,
        notes,
    })
}
