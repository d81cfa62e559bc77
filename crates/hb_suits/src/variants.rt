//! Which variant does a list of suits make?

ghost use Rattle.std.specs.Prelude.{◌≡◌, ◌==◌};
ghost use Rattle.std.specs.List.{list_all, list_any};
ghost use Rattle.hb_rules.specs.Suits.{suit_number, kind_of, has_color, is_plain, all_different, stands_over, is_variant};
ghost use Rattle.hb_suits.specs.Variants.{placed, variant_with};

use crate::suits::{has_color, kind_of};
use hb_rules::{FEWEST_SUITS, HIGHEST_RANK, Kind, MOST_SUITS, Special, Suit, Variant};

/// Whether the two are one suit.
fn is_same(a: Suit, b: Suit) -> bool
    ensures { result ≡ (suit_number a == suit_number b) }
{
    a == b
}

/// Whether the suit is one of the others.
fn is_among(suit: Suit, others: &[Suit]) -> bool
    ensures { result ≡ list_any (λ other. suit_number other == suit_number suit) others.now }
{
    others.iter().any(|&other| is_same(other, suit))
}

/// Whether no suit stands twice.
fn all_different(suits: &[Suit]) -> bool
    ensures { result ≡ all_different suits.now }
{
    match suits {
        [] => true,
        [first, rest @ ..] => !is_among(*first, rest) && all_different(rest),
    }
}

/// Whether a special rank may stand over suits of this kind.
fn is_plain(kind: Kind) -> bool
    ensures { result ≡ is_plain kind }
{
    matches!(kind, Kind::Plain)
}

/// Whether a special rank may stand over these suits.
fn are_plain(suits: &[Suit]) -> bool
    ensures { result ≡ list_all (λ suit. is_plain (kind_of suit)) suits.now }
{
    suits.iter().all(|&suit| is_plain(kind_of(suit)))
}

/// Whether a suit among them has a clue colour.
fn have_color(suits: &[Suit]) -> bool
    ensures { result ≡ list_any (λ suit. has_color (kind_of suit)) suits.now }
{
    suits.iter().any(|&suit| has_color(kind_of(suit)))
}

/// Whether the special rank, if there is one, is 1 to 5 and stands over plain suits alone.
fn stands_over(special: Option<Special>, suits: &[Suit]) -> bool
    ensures { result ≡ stands_over special suits.now }
{
    match special {
        None => true,
        Some(special) => (1..=HIGHEST_RANK).contains(&special.rank) && are_plain(suits),
    }
}

/// Whether the suits, in order, are a variant with this special rank.
fn is_variant(suits: &[Suit], special: Option<Special>) -> bool
    ensures { result ≡ is_variant (placed suits.now) special }
{
    (FEWEST_SUITS..=MOST_SUITS).contains(&suits.len())
        && all_different(suits)
        && have_color(suits)
        && stands_over(special, suits)
}

/// The variant of these suits in order with this special rank, and `None` exactly if they are
/// none.
pub(crate) fn variant_with(suits: &[Suit], special: Option<Special>) -> Option<Variant>
    ensures { result ≡ variant_with suits.now special }
{
    if !is_variant(suits, special) {
        return None;
    }
    let mut places = [None; MOST_SUITS];
    for (index, place) in places.iter_mut().enumerate() {
        *place = suits.get(index).copied();
    }
    Some(Variant {
        suits: places,
        special,
    })
}
