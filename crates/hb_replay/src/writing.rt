//! Which JSON value is a replay written as, and what is its text?

ghost use Rattle.std.specs.Prelude.{◌≡◌, IfOk, Ok};
ghost use Rattle.serde_json.specs.View.{view};
ghost use Rattle.hb_replay.specs.Contents.{IsReplay};
ghost use Rattle.hb_replay.specs.Canonical.{card_data, act_data, cards_data, acts_data, notes_data, replay_data, canonical_text};
ghost use Rattle.hb_replay.specs.ReplayReading.{IsReading};
ghost use Rattle.hb_json.specs.Values.{texts_data};

use crate::replay::Replay;
use hb_io::{Bytes, Texts};
use hb_json::{action_value, options_value, put_if, texts_value};
use hb_rules::{Act, Identity};
use serde_json::{Map, Value, json, put};
use std::alloc::{AllocError, Global};

/// A card as an object of its rank and its suit.
fn card_value(alloc: Global, id: Identity) -> Result<Value, AllocError>
    ensures { IfOk result (λ v. view v ≡ card_data id) }
{
    json!(in alloc; {"rank": id.rank, "suitIndex": id.suit})
}

/// An act as an action is written, with its seat only for an end.
fn act_value(alloc: Global, act: Act) -> Result<Value, AllocError>
    ensures { IfOk result (λ v. view v ≡ act_data act) }
{
    action_value(alloc, act.who, act.action)
}

/// The cards as a list, in their order.
fn cards_value(alloc: Global, cards: &[Identity]) -> Result<Value, AllocError>
    ensures { IfOk result (λ v. view v ≡ cards_data cards.now) }
{
    let mut items = Vec::new(alloc);
    for card in cards {
        items.push(card_value(alloc, *card)?)?;
    }
    Ok(Value::Array(items))
}

/// The acts as a list, the oldest first.
fn acts_value(alloc: Global, acts: &[Act]) -> Result<Value, AllocError>
    ensures { IfOk result (λ v. view v ≡ acts_data acts.now) }
{
    let mut items = Vec::new(alloc);
    for act in acts {
        items.push(act_value(alloc, *act)?)?;
    }
    Ok(Value::Array(items))
}

/// A list of notes as a list of texts.
fn note_list_value(alloc: Global, texts: &Texts) -> Result<Value, AllocError>
    ensures { IfOk result (λ v. view v ≡ texts_data texts.now) }
{
    texts_value(alloc, texts.as_slice())
}

/// The lists of notes as a list of lists.
fn notes_value(alloc: Global, lists: &[Texts]) -> Result<Value, AllocError>
    ensures { IfOk result (λ v. view v ≡ notes_data lists.now) }
{
    let mut items = Vec::new(alloc);
    for texts in lists {
        items.push(note_list_value(alloc, texts)?)?;
    }
    Ok(Value::Array(items))
}

/// A replay as an object; notes are written only if there are lists of notes.
#[tactic(auto, unfolding(crate::specs::Canonical::replay_data))]
fn replay_value(alloc: Global, replay: &Replay) -> Result<Value, AllocError>
    ensures value { IfOk result (λ v. view v ≡ replay_data replay.now) }
    ensures replay { IsReplay replay.now }
{
    let mut map = Map::new(alloc);
    let acts = acts_value(alloc, replay.acts())?;
    put(&mut map, alloc, "actions", acts)?;
    let cards = cards_value(alloc, replay.deck())?;
    put(&mut map, alloc, "deck", cards)?;
    let options = options_value(alloc, replay.variant_name().as_str(), replay.options())?;
    put(&mut map, alloc, "options", options)?;
    let players = texts_value(alloc, replay.players().as_slice())?;
    put(&mut map, alloc, "players", players)?;
    let has_notes = !replay.notes().as_slice().is_empty();
    let notes = notes_value(alloc, replay.notes().as_slice())?;
    put_if(&mut map, alloc, has_notes, "notes", notes)?;
    Ok(Value::Object(map))
}

/// The canonical text of a replay, as bytes: compact JSON with keys in byte order. The variant
/// stands always, both times if the game is timed, and any other option if it is not its default.
/// What is read of the text is this replay.
///
/// It takes time and memory in proportion to the text.
pub fn write(alloc: Global, replay: &Replay) -> Result<Bytes, AllocError>
    ensures text { IfOk result (λ bytes. bytes ≡ canonical_text replay.now) }
    ensures reads_back { IfOk result (λ bytes. IsReading bytes (Ok replay.now)) }
{
    let value = replay_value(alloc, replay)?;
    Ok(Bytes::from_vec(value.to_vec(alloc)?))
}
