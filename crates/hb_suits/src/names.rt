//! Which variant has which name?

ghost use Rattle.std.specs.Prelude.{◌≡◌, ◌≤◌, ◌++◌, ◌↔◌, List, true, false, find, IfOk, OnErr, MatchOption};
ghost use Rattle.std.specs.Option.{ok_or};
ghost use Rattle.std.specs.Str.{bytes_eq};
ghost use Rattle.hb_rules.specs.declared.suits.Suit.{Suit};
ghost use Rattle.hb_rules.specs.Suits.{kind_of};
ghost use Rattle.hb_suits.specs.Variants.{variant_with};
ghost use Rattle.hb_suits.specs.VariantNames.{suit_name, suit_named, plain, plain_table, is_listed, listed, spelling, is_spelling, Spells, spelled, variant_of};

use crate::suits::kind_of;
use crate::variants::variant_with;
use hb_rules::{MOST_SUITS, Special, Suit, Variant};

/// Why a name is that of no variant.
#[derive(Clone, Copy, PartialEq, Eq, Debug)]
pub enum VariantError {
    /// The name does not begin with `=` and is not in the list of names.
    Unknown,
    /// The name begins with `=`, and no variant is spelled so.
    BadSpelling,
}

/// The plain suits, in the order in which a listed variant takes them.
const PLAIN_SUITS: [Suit; 6] = [
    Suit::Red,
    Suit::Yellow,
    Suit::Green,
    Suit::Blue,
    Suit::Purple,
    Suit::Teal,
];

/// The suits that stand behind four or five plain ones in a listed variant.
const LAST_SUITS: [Suit; 10] = [
    Suit::Rainbow,
    Suit::Pink,
    Suit::White,
    Suit::Brown,
    Suit::Black,
    Suit::Omni,
    Suit::Null,
    Suit::MuddyRainbow,
    Suit::LightPink,
    Suit::Prism,
];

/// The suits whose kind a special rank takes in a listed variant.
const SPECIAL_SUITS: [Suit; 6] = [
    Suit::Rainbow,
    Suit::White,
    Suit::Pink,
    Suit::Brown,
    Suit::Omni,
    Suit::Null,
];

/// The name of a suit.
fn suit_name(suit: Suit) -> &'static str
    ensures { result.now ≡ suit_name suit }
{
    match suit {
        Suit::Red => "Red",
        Suit::Yellow => "Yellow",
        Suit::Green => "Green",
        Suit::Blue => "Blue",
        Suit::Purple => "Purple",
        Suit::Teal => "Teal",
        Suit::Rainbow => "Rainbow",
        Suit::Pink => "Pink",
        Suit::White => "White",
        Suit::Brown => "Brown",
        Suit::Black => "Black",
        Suit::Omni => "Omni",
        Suit::Null => "Null",
        Suit::MuddyRainbow => "Muddy Rainbow",
        Suit::LightPink => "Light Pink",
        Suit::Prism => "Prism",
    }
}

/// The first of the suits that has this name.
fn suit_among(suits: &[Suit], name: &str) -> Option<Suit>
    ensures { result ≡ find (λ suit. bytes_eq (suit_name suit) name.now) suits.now }
{
    suits.iter().copied().find(|&suit| suit_name(suit) == name)
}

/// The first of the suits whose name, with the ending behind it, is this name.
fn suit_before(suits: &[Suit], name: &str, ending: &str) -> Option<Suit>
    ensures { result ≡ find (λ suit. bytes_eq (suit_name suit ++ ending.now) name.now) suits.now }
{
    suit_among(suits, name.strip_suffix(ending)?)
}

/// The suit with this name.
fn suit_named(name: &str) -> Option<Suit>
    ensures { result ≡ suit_named name.now }
{
    suit_among(&PLAIN_SUITS, name).or_else(|| suit_among(&LAST_SUITS, name))
}

/// How many plain suits make the variant with a listed name, if it has no other suit and no
/// special rank.
fn plain_count(name: &str) -> Option<usize>
    ensures { let found = find (λ entry. bytes_eq entry.name name.now) plain_table in
        MatchOption result (found ≡ None)
        (λ count. (count ≤ MOST_SUITS) × (found ≡ Some (plain name.now count))) }
{
    match name {
        "3 Suits" => Some(3),
        "4 Suits" => Some(4),
        "No Variant" => Some(5),
        "6 Suits" => Some(6),
        _ => None,
    }
}

/// The special rank of a listed variant, which takes the kind of this suit.
fn special(rank: u8, suit: Suit) -> Special
    ensures { result ≡ record { rank = rank; kind = kind_of suit } }
{
    Special {
        rank,
        kind: kind_of(suit),
    }
}

/// The variant with a listed name.
fn listed(name: &str) -> Option<Variant>
    ensures { result ≡ listed name.now }
{
    if let Some(count) = plain_count(name) {
        return variant_with(&PLAIN_SUITS[..count], None);
    }
    let [red, yellow, green, blue, purple, _] = PLAIN_SUITS;
    if let Some(suit) = suit_before(&LAST_SUITS, name, " (5 Suits)") {
        return variant_with(&[red, yellow, green, blue, suit], None);
    }
    if let Some(suit) = suit_before(&LAST_SUITS, name, " (6 Suits)") {
        return variant_with(&[red, yellow, green, blue, purple, suit], None);
    }
    if let Some(suit) = suit_before(&SPECIAL_SUITS, name, "-Ones (5 Suits)") {
        return variant_with(&PLAIN_SUITS[..5], Some(special(1, suit)));
    }
    let suit = suit_before(&SPECIAL_SUITS, name, "-Fives (5 Suits)")?;
    variant_with(&PLAIN_SUITS[..5], Some(special(5, suit)))
}

/// The variant of the suits that a text names, joined by `+`.
fn spelled(text: &str) -> Option<Variant>
    ensures { result ≡ spelled text.now }
{
    let mut suits = [Suit::Red; MOST_SUITS];
    let mut count = 0;
    for name in text.split('+') {
        let suit = suit_named(name)?;
        if count == MOST_SUITS {
            return None;
        }
        suits[count] = suit;
        count += 1;
    }
    variant_with(&suits[..count], None)
}

/// The variant with a name, which is one of the 36 listed names, or `=` and the names of three to
/// six different suits joined by `+`, at least one of which has a clue colour (both this project's
/// own). Letters are compared as they stand.
///
/// `Unknown` comes exactly for a name that does not begin with `=` and is not in the list, and
/// `BadSpelling` exactly for one that begins with `=` and spells no variant.
pub fn variant(name: &str) -> Result<Variant, VariantError>
    ensures named { IfOk result (λ v. variant_of name.now ≡ Some v) }
    ensures refused { OnErr result (variant_of name.now ≡ None) }
    ensures unknown { (result ≡ Err VariantError.Unknown)
        ↔ ((is_spelling name.now ≡ false) × (is_listed name.now ≡ false)) }
    ensures misspelled { (result ≡ Err VariantError.BadSpelling)
        ↔ ((is_spelling name.now ≡ true) × (variant_of name.now ≡ None)) }

    // The spelled names once more, each by its list of suits: `variant_of` cuts a text at each `+`,
    // and these two clauses do not.
    ensures spells { (suits : List Suit) → name.now ≡ spelling suits
        → result ≡ ok_or (variant_with suits None) VariantError.BadSpelling }
    ensures spelled { IfOk result (λ v. is_spelling name.now ≡ true → Spells name.now v) }
{
    match name.strip_prefix('=') {
        Some(text) => spelled(text).ok_or(VariantError::BadSpelling),
        None => listed(name).ok_or(VariantError::Unknown),
    }
}
