//! What do the members of a replay's lists say, or which of them is wrong first?

ghost use Rattle.serde_json.specs.View.{view, items_view};
ghost use Rattle.hb_replay.specs.ReplayReading.{Gives};
ghost use Rattle.hb_replay.specs.Refusals.{shaped};
ghost use Rattle.hb_replay.specs.Shape.{each_at, player_at, players_of, cards_of, actions_of, note_at, note_list_at, note_lists_of};

use crate::errors::ReplayError;
use crate::fields::{action, card};
use crate::place::{Part, Place};
use crate::written::{Notes, WrittenAction};
use hb_io::{Sequence, Text, Texts};
use hb_rules::Identity;
use serde_json::Value;
use std::alloc::Global;

/// A player's name.
fn player(alloc: Global, k: usize, value: &Value) -> Result<Text, ReplayError>
    ensures { Gives result (shaped (player_at k (view value.now))) }
{
    let text = value.as_str().ok_or(Place::of_member(Part::Players, k))?;
    Ok(Text::copy_of(alloc, text)?)
}

/// The players' names.
pub(crate) fn players(alloc: Global, items: &[Value]) -> Result<Texts, ReplayError>
    ensures { Gives result (shaped (players_of (items_view items.now))) }
{
    let mut names = Texts::new(alloc);
    for (k, value) in items.iter().enumerate() {
        let name = player(alloc, k, value)?;
        names.push(name)?;
    }
    Ok(names)
}

/// The cards.
pub(crate) fn cards(alloc: Global, items: &[Value]) -> Result<Sequence<Identity>, ReplayError>
    ensures { Gives result (shaped (cards_of (items_view items.now))) }
{
    let mut cards = Sequence::new(alloc);
    for (k, value) in items.iter().enumerate() {
        let card = card(k, value)?;
        cards.push(card)?;
    }
    Ok(cards)
}

/// The actions.
pub(crate) fn actions(
    alloc: Global,
    items: &[Value],
) -> Result<Sequence<WrittenAction>, ReplayError>
    ensures { Gives result (shaped (actions_of (items_view items.now))) }
{
    let mut actions = Sequence::new(alloc);
    for (k, value) in items.iter().enumerate() {
        let action = action(k, value)?;
        actions.push(action)?;
    }
    Ok(actions)
}

/// A note, which is empty for null. It is taken out of the value, so that its text is not copied.
fn note(alloc: Global, k: usize, j: usize, value: Value) -> Result<Text, ReplayError>
    ensures { Gives result (shaped (note_at k j (view value))) }
{
    match value {
        Value::Null => Ok(Text::from_string(String::new(alloc))),
        Value::String(text) => Ok(Text::from_string(text)),
        _ => Err(ReplayError::Shape(Place::of_note(k, j))),
    }
}

/// The notes of a list.
fn texts_of_notes(alloc: Global, k: usize, items: Vec<Value>) -> Result<Texts, ReplayError>
    ensures { Gives result (shaped (each_at (note_at k) 0 (items_view items.items))) }
{
    let mut texts = Texts::new(alloc);
    for value in items {
        let text = note(alloc, k, texts.len(), value)?;
        texts.push(text)?;
    }
    Ok(texts)
}

/// A list of notes, which is empty for null.
fn note_list(alloc: Global, k: usize, value: Value) -> Result<Texts, ReplayError>
    ensures { Gives result (shaped (note_list_at k (view value))) }
{
    match value {
        Value::Null => Ok(Texts::new(alloc)),
        Value::Array(items) => texts_of_notes(alloc, k, items),
        _ => Err(ReplayError::Shape(Place::of_member(Part::Notes, k))),
    }
}

/// The lists of notes.
pub(crate) fn note_lists(alloc: Global, items: Vec<Value>) -> Result<Notes, ReplayError>
    ensures { Gives result (shaped (note_lists_of (items_view items.items))) }
{
    let mut lists = Notes::new(alloc);
    for value in items {
        let texts = note_list(alloc, lists.len(), value)?;
        lists.push(texts)?;
    }
    Ok(lists)
}
