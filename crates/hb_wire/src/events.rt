//! Which line has an event?

ghost use Rattle.std.specs.Prelude.{◌≡◌, ◌++◌, IfOk, OnOk, codes, decimal, string_bytes};
ghost use Rattle.serde_json.specs.Written.{compact_text};
ghost use Rattle.hb_json.specs.Values.{wholes_data};
ghost use Rattle.hb_wire.specs.Lines.{clue_data, deck_data, drawn_data, end_data, event_line, orders_of, played_data};

use crate::spelling::{push_all, push_card, push_number, push_orders, push_seat};
use hb_rules::{Clue, EndHow, Event, Identity};
use std::alloc::{AllocError, Global};

/// Only the line of a deck is longer, in bytes, or that of a clue that touches more cards than a
/// hand has.
const USUAL_LEN: usize = 64;

/// Appends a card that a seat drew or discarded.
#[tactic(auto, unfolding(json::specs::Print::escape_byte))]
fn push_drawn(
    text: &mut String,
    card: Option<Identity>,
    order: u8,
    seat: u8,
) -> Result<(), AllocError>
    ensures { OnOk result (string_bytes text.new
        ≡ string_bytes text.old ++ compact_text (drawn_data card order seat)) }
{
    push_card(text, "{\"card\":", card)?;
    push_number(text, ",\"order\":", u64::from(order))?;
    push_number(text, ",\"seat\":", u64::from(seat))?;
    text.push('}')
}

/// Appends a card that a seat played, and whether it fits.
#[tactic(auto, unfolding(json::specs::Print::escape_byte))]
fn push_played(
    text: &mut String,
    card: Identity,
    fits: bool,
    order: u8,
    seat: u8,
) -> Result<(), AllocError>
    ensures { OnOk result (string_bytes text.new
        ≡ string_bytes text.old ++ compact_text (played_data card fits order seat)) }
{
    push_card(text, "{\"card\":", Some(card))?;
    text.push_str(if fits {
        ",\"fits\":true"
    } else {
        ",\"fits\":false"
    })?;
    push_number(text, ",\"order\":", u64::from(order))?;
    push_number(text, ",\"seat\":", u64::from(seat))?;
    text.push('}')
}

/// Appends to whom a clue is given, the orders that it touches, and the closing brace.
fn push_touched(text: &mut String, to: u8, touched: u64) -> Result<(), AllocError>
    ensures { OnOk result (string_bytes text.new ≡ string_bytes text.old
        ++ (codes ",\"to\":" ++ (decimal to ++ (codes ",\"touched\":"
        ++ (compact_text (wholes_data (orders_of touched)) ++ codes "}"))))) }
{
    push_number(text, ",\"to\":", u64::from(to))?;
    push_orders(text, ",\"touched\":", touched)?;
    text.push_str("}")
}

/// Appends a clue, with the orders that it touches.
#[tactic(auto, unfolding(json::specs::Print::escape_byte))]
fn push_clue(
    text: &mut String,
    from: u8,
    to: u8,
    clue: Clue,
    touched: u64,
) -> Result<(), AllocError>
    ensures { OnOk result (string_bytes text.new
        ≡ string_bytes text.old ++ compact_text (clue_data from to clue touched)) }
{
    match clue {
        Clue::Color(index) => {
            push_number(text, "{\"color\":", u64::from(index))?;
            push_number(text, ",\"from\":", u64::from(from))?;
            push_touched(text, to, touched)
        }
        Clue::Rank(rank) => {
            push_number(text, "{\"from\":", u64::from(from))?;
            push_number(text, ",\"rank\":", u64::from(rank))?;
            push_touched(text, to, touched)
        }
    }
}

/// Appends an end.
#[tactic(auto, unfolding(json::specs::Print::escape_byte))]
fn push_end(text: &mut String, how: EndHow, by: Option<u8>, score: u8) -> Result<(), AllocError>
    ensures { OnOk result (string_bytes text.new
        ≡ string_bytes text.old ++ compact_text (end_data how by score)) }
{
    push_seat(text, "{\"by\":", by)?;
    push_number(text, ",\"how\":", u64::from(how.number()))?;
    push_number(text, ",\"score\":", u64::from(score))?;
    text.push('}')
}

/// Appends the whole deck.
#[tactic(auto, unfolding(json::specs::Print::escape_byte))]
fn push_deck(text: &mut String, cards: &[Identity]) -> Result<(), AllocError>
    ensures { OnOk result (string_bytes text.new
        ≡ string_bytes text.old ++ compact_text (deck_data cards.now)) }
{
    push_all(text, "{\"cards\":", cards)?;
    text.push('}')
}

/// Appends the line of an event.
#[tactic(auto, unfolding(hb_json::specs::Line::line))]
fn push_event(text: &mut String, event: &Event) -> Result<(), AllocError>
    ensures { OnOk result (string_bytes text.new ≡ string_bytes text.old ++ event_line event.now) }
{
    match event {
        Event::Drawn { seat, order, id } => {
            text.push_str("draw ")?;
            push_drawn(text, *id, *order, *seat)
        }
        Event::Played {
            seat,
            order,
            id,
            fits,
        } => {
            text.push_str("play ")?;
            push_played(text, *id, *fits, *order, *seat)
        }
        Event::Discarded { seat, order, id } => {
            text.push_str("discard ")?;
            push_drawn(text, Some(*id), *order, *seat)
        }
        Event::Clued {
            from,
            to,
            clue,
            touched,
        } => {
            text.push_str("clue ")?;
            push_clue(text, *from, *to, *clue, *touched)
        }
        Event::Ended { how, by, score } => {
            text.push_str("end ")?;
            push_end(text, *how, *by, *score)
        }
        Event::Deck { cards } => {
            text.push_str("deck ")?;
            push_deck(text, cards)
        }
    }
}

/// The line of an event, without a line feed.
pub fn event_text(alloc: Global, event: &Event) -> Result<String, AllocError>
    ensures { IfOk result (λ s. string_bytes s ≡ event_line event.now) }
{
    let mut text = String::with_capacity(alloc, USUAL_LEN)?;
    push_event(&mut text, event)?;
    Ok(text)
}
