//! Which suits has a variant, and of which kinds and clue colours are they?

ghost use Rattle.std.specs.Prelude.{◌≡◌, ◌≤◌, length};
ghost use Rattle.hb_rules.specs.Suits.{kind_of, has_color};
ghost use Rattle.hb_rules.specs.Cards.{suit_at, suit_count};
ghost use Rattle.hb_rules.specs.Touch.{colors, suit_kind};

use arrayvec::ArrayVec;
use hb_rules::{FEWEST_SUITS, Kind, MOST_SUITS, Suit, Variant};

/// The kind of a suit (this project's own, under Hanabi Live's names).
pub fn kind_of(suit: Suit) -> Kind
    ensures { result ≡ kind_of suit }
{
    match suit {
        Suit::Red | Suit::Yellow | Suit::Green | Suit::Blue | Suit::Purple | Suit::Teal => {
            Kind::Plain
        }
        Suit::Rainbow => Kind::Rainbow,
        Suit::Pink => Kind::Pink,
        Suit::White => Kind::White,
        Suit::Brown => Kind::Brown,
        Suit::Black => Kind::Black,
        Suit::Omni => Kind::Omni,
        Suit::Null => Kind::Null,
        Suit::MuddyRainbow => Kind::MuddyRainbow,
        Suit::LightPink => Kind::LightPink,
        Suit::Prism => Kind::Prism,
    }
}

/// Whether suits of this kind have a clue colour (this project's own): all but those that every
/// colour or no colour touches, and Prism, whose cards a colour touches by their ranks.
pub(crate) fn has_color(kind: Kind) -> bool
    ensures { result ≡ has_color kind }
{
    matches!(kind, Kind::Plain | Kind::Pink | Kind::Brown | Kind::Black)
}

/// The suit with this index, and `None` exactly if the variant has no such index.
pub fn suit_at(variant: &Variant, index: u8) -> Option<Suit>
    ensures { result ≡ suit_at variant.now index }
{
    variant.suits.get(usize::from(index)).copied().flatten()
}

/// How many suits the variant has, 3 to 6. They have the indices below this number.
pub fn suit_count(variant: &Variant) -> u8
    ensures count { result ≡ suit_count variant.now }
    ensures many { FEWEST_SUITS ≤ result }
    ensures few { result ≤ MOST_SUITS }
{
    variant.suits.iter().filter(|suit| suit.is_some()).count() as u8
}

/// Whether there is a suit with this index that has a clue colour.
fn has_color_at(variant: &Variant, index: u8) -> bool
    ensures { result ≡ has_color (suit_kind (suit_at variant.now index)) }
{
    suit_at(variant, index).is_some_and(|suit| has_color(kind_of(suit)))
}

/// The indices of the suits that have a clue colour, ascending. A colour clue names a place in this
/// list.
pub fn color_suits(variant: &Variant) -> ArrayVec<u8, MOST_SUITS>
    ensures { result.items ≡ colors variant.now }
{
    let mut list = ArrayVec::new();
    for index in 0..MOST_SUITS as u8 {
        if has_color_at(variant, index) {
            list.push(index);
        }
    }
    list
}

/// The number of the variant's clue colours, at most 6.
pub fn colors(variant: &Variant) -> u8
    ensures colors { result ≡ length (colors variant.now) }
    ensures few { result ≤ MOST_SUITS }
{
    color_suits(variant).len() as u8
}
