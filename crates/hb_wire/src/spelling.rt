//! How are the parts of a line spelled, one behind the other?

ghost use Rattle.std.specs.Prelude.{◌≡◌, ◌++◌, codes, decimal, OnOk, string_bytes};
ghost use Rattle.json.specs.Print.{quoted};
ghost use Rattle.serde_json.specs.Written.{compact_text};
ghost use Rattle.hb_json.specs.Values.{seat_data, wholes_data};
ghost use Rattle.hb_rules.specs.declared.limits.TheConstants.{IDENTITIES};
ghost use Rattle.hb_sets.specs.Sets.{members as members_of};
ghost use Rattle.hb_wire.specs.Lines.{card_data, identities_text as identities_text_of, identity_text as identity_text_of, numbers_text, orders_of};

use crate::cards::{push_identities, push_identity};
use crate::sets::{members, push_members};
use hb_rules::Identity;
use itoa::Buffer;
use std::alloc::AllocError;

/// Appends a number. Most numbers of a game have one digit or two, which need no buffer.
#[tactic(auto, using(std::proofs::lemmas::Fmt::decimal_digit))]
fn push_digits(text: &mut String, n: u64) -> Result<(), AllocError>
    ensures { OnOk result (string_bytes text.new ≡ string_bytes text.old ++ decimal n) }
{
    if n < 10 {
        return text.push(char::from(b'0' + n as u8));
    }
    if n < 100 {
        text.push(char::from(b'0' + (n / 10) as u8))?;
        return text.push(char::from(b'0' + (n % 10) as u8));
    }
    let mut digits = Buffer::new();
    text.push_str(digits.format(n))
}

/// Appends a text and behind it a number.
pub(crate) fn push_number(text: &mut String, before: &str, n: u64) -> Result<(), AllocError>
    ensures { OnOk result (string_bytes text.new
        ≡ string_bytes text.old ++ (before.now ++ decimal n)) }
{
    text.push_str(before)?;
    push_digits(text, n)
}

/// Appends a text and behind it null.
fn push_null(text: &mut String, before: &str) -> Result<(), AllocError>
    ensures { OnOk result (string_bytes text.new
        ≡ string_bytes text.old ++ (before.now ++ codes "null")) }
{
    text.push_str(before)?;
    text.push_str("null")
}

/// Appends a text and behind it a seat, or null.
pub(crate) fn push_seat(text: &mut String, before: &str, seat: Option<u8>) -> Result<(), AllocError>
    ensures { OnOk result (string_bytes text.new
        ≡ string_bytes text.old ++ (before.now ++ compact_text (seat_data seat))) }
{
    match seat {
        Some(seat) => push_number(text, before, u64::from(seat)),
        None => push_null(text, before),
    }
}

/// Appends a text and behind it an identity in quotes.
pub(crate) fn push_known(text: &mut String, before: &str, id: Identity) -> Result<(), AllocError>
    ensures { OnOk result (string_bytes text.new
        ≡ string_bytes text.old ++ (before.now ++ quoted (identity_text_of id))) }
{
    text.push_str(before)?;
    text.push('"')?;
    push_identity(text, id)?;
    text.push('"')
}

/// Appends a text and behind it the texts of identities in quotes.
pub(crate) fn push_all(text: &mut String, before: &str, ids: &[Identity]) -> Result<(), AllocError>
    ensures { OnOk result (string_bytes text.new
        ≡ string_bytes text.old ++ (before.now ++ quoted (identities_text_of ids.now))) }
{
    text.push_str(before)?;
    text.push('"')?;
    push_identities(text, ids)?;
    text.push('"')
}

/// Appends a text and behind it the texts of the identities whose numbers are in a set, in quotes.
pub(crate) fn push_set(text: &mut String, before: &str, set: u64) -> Result<(), AllocError>
    ensures { OnOk result (string_bytes text.new ≡ string_bytes text.old
        ++ (before.now ++ quoted (numbers_text (members_of IDENTITIES set)))) }
{
    text.push_str(before)?;
    text.push('"')?;
    push_members(text, set)?;
    text.push('"')
}

/// Appends a text and behind it a card, or null.
pub(crate) fn push_card(
    text: &mut String,
    before: &str,
    card: Option<Identity>,
) -> Result<(), AllocError>
    ensures { OnOk result (string_bytes text.new
        ≡ string_bytes text.old ++ (before.now ++ compact_text (card_data card))) }
{
    match card {
        Some(id) => push_known(text, before, id),
        None => push_null(text, before),
    }
}

/// Appends a text and behind it a list of numbers.
pub(crate) fn push_wholes(text: &mut String, before: &str, numbers: &[u8]) -> Result<(), AllocError>
    ensures { OnOk result (string_bytes text.new
        ≡ string_bytes text.old ++ (before.now ++ compact_text (wholes_data numbers.now))) }
{
    text.push_str(before)?;
    text.push('[')?;
    let mut comma = "";
    for n in numbers {
        push_number(text, comma, u64::from(*n))?;
        comma = ",";
    }
    text.push(']')
}

/// Appends a text and behind it a list of the orders in a set.
pub(crate) fn push_orders(text: &mut String, before: &str, set: u64) -> Result<(), AllocError>
    ensures { OnOk result (string_bytes text.new
        ≡ string_bytes text.old ++ (before.now ++ compact_text (wholes_data (orders_of set)))) }
{
    push_wholes(text, before, &members(set))
}
