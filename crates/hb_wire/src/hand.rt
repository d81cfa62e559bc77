//! Which line has a hand, with what each of its cards can be?

ghost use Rattle.std.specs.Prelude.{◌≡◌, ◌++◌, IfOk, OnOk, map, string_bytes};
ghost use Rattle.serde_json.specs.Written.{compact_text};
ghost use Rattle.hb_wire.specs.Lines.{hand_line, listed, set_data, sets_data};

use crate::spelling::{push_number, push_set};
use std::alloc::{AllocError, Global};

/// Few lines of hands are longer, in bytes; such a line takes memory once more.
const USUAL_LEN: usize = 256;

/// Appends a text and behind it a card's order and the texts of the identities in its set.
fn push_card_set(text: &mut String, before: &str, order: u8, set: u64) -> Result<(), AllocError>
    ensures { OnOk result (string_bytes text.new ≡ string_bytes text.old
        ++ (before.now ++ compact_text (set_data (listed (order, set))))) }
{
    text.push_str(before)?;
    push_number(text, "[", u64::from(order))?;
    push_set(text, ",", set)?;
    text.push(']')
}

/// Appends the order and the identities of each card.
fn push_sets(text: &mut String, cards: &[(u8, u64)]) -> Result<(), AllocError>
    ensures { OnOk result (string_bytes text.new
        ≡ string_bytes text.old ++ compact_text (sets_data (map listed cards.now))) }
{
    text.push('[')?;
    let mut comma = "";
    for card in cards {
        let (order, set) = *card;
        push_card_set(text, comma, order, set)?;
        comma = ",";
    }
    text.push(']')
}

/// The line of a seat's hand, without a line feed: for each card its order and the set of
/// identities, as bits by identity number, that it can have. Bits from 30 up number no identity,
/// and are left out.
#[tactic(auto, unfolding(hb_json::specs::Line::line, json::specs::Print::escape_byte))]
pub fn hand_text(alloc: Global, seat: u8, cards: &[(u8, u64)]) -> Result<String, AllocError>
    ensures { IfOk result (λ s. string_bytes s ≡ hand_line seat (map listed cards.now)) }
{
    let mut text = String::with_capacity(alloc, USUAL_LEN)?;
    push_number(&mut text, "hand {\"seat\":", u64::from(seat))?;
    text.push_str(",\"sets\":")?;
    push_sets(&mut text, cards)?;
    text.push('}')?;
    Ok(text)
}
