//! How many copies of a card has a variant, how many cards, and which identities?

ghost use Rattle.std.specs.Prelude.{◌≡◌, ℕ, ◌≤◌, ◌==◌, length};
ghost use Rattle.hb_rules.specs.Cards.{cards, copies, rank_copies, in_range, has_number, suit_cards};
ghost use Rattle.hb_sets.specs.Sets.{bit};

use crate::numbers::identity;
use crate::suits::suit_at;
use hb_rules::{
    FEWEST_CARDS, HIGHEST_RANK, IDENTITIES, Identity, MOST_CARDS, MOST_SUITS, Suit, Variant,
};
use hb_sets::with;

/// How many cards of a rank of 1 to 5 a suit has, and 0 if there is no suit.
fn rank_copies(suit: Option<Suit>, rank: u8) -> u8
    ensures { result ≡ rank_copies suit rank }
{
    match (suit, rank) {
        (None, _) => 0,
        (Some(Suit::Black), _) | (Some(_), 5) => 1,
        (Some(_), 1) => 3,
        (Some(_), _) => 2,
    }
}

/// Whether the pair is an identity of some variant: a suit index of 0 to 5 and a rank of 1 to 5.
pub fn in_range(id: Identity) -> bool
    ensures { result ≡ in_range id }
{
    usize::from(id.suit) < MOST_SUITS && (1..=HIGHEST_RANK).contains(&id.rank)
}

/// How many cards of the identity the variant has, at most 3: three 1s, two each of 2, 3 and 4 and
/// one 5 of each suit (rulebook), but one of each rank of Black (after Hanabi Live), and none of an
/// identity outside the variant.
#[tactic(auto, using(hb_rules::proofs::Copies::copies_is))]
pub fn copies(variant: &Variant, id: Identity) -> u8
    ensures copies { result ≡ copies variant.now id }
    ensures few { result ≤ 3 }
{
    if in_range(id) {
        rank_copies(suit_at(variant, id.suit), id.rank)
    } else {
        0
    }
}

/// How many cards the suit at an index has, and 0 if the variant has no suit there.
fn suit_size(variant: &Variant, index: u8) -> u8
    ensures size { result ≡ length (suit_cards variant.now index) }
    ensures few { result ≤ 10 }
{
    match suit_at(variant, index) {
        None => 0,
        Some(Suit::Black) => 5,
        Some(_) => 10,
    }
}

/// The number of cards of a deck of the variant, 25 to 60.
pub fn deck_size(variant: &Variant) -> u8
    ensures size { result ≡ length (cards variant.now) }
    ensures many { FEWEST_CARDS ≤ result }
    ensures few { result ≤ MOST_CARDS }
{
    let mut size = 0;
    for index in 0..MOST_SUITS as u8 {
        size += suit_size(variant, index);
    }
    size
}

/// The set of the variant's identities: bit `n` stands for the identity with number `n`.
#[tactic(auto, using(hb_rules::proofs::NumbersLemmas::has_number_low))]
pub fn identities(variant: &Variant) -> u64
    ensures { (n : ℕ) → (bit result n == 1) ≡ has_number variant.now n }
{
    let mut set = 0;
    for number in 0..IDENTITIES as u8 {
        if identity(number).is_some_and(|id| copies(variant, id) > 0) {
            set = with(set, number);
        }
    }
    set
}
