//! Which lists of cards are a deck?

ghost use Rattle.std.specs.Prelude.{◌≡◌, ℕ, ◌<◌, ◌↔◌, List, All, IsTrue};
ghost use Rattle.hb_rules.specs.Cards.{IsDeck, copies, count_of, identity};
ghost use Rattle.hb_rules.specs.declared.suits.Identity.{Identity};
ghost use Rattle.hb_rules.specs.declared.limits.TheConstants.{IDENTITIES};

use hb_rules::{IDENTITIES, Identity, Variant};
use hb_suits::{copies, identity};
use std::marker::Model;

/// A list of cards, from the first that is dealt to the last. A contract sees the list.
#[derive(Drop, Debug)]
pub struct Deck {
    cards: Vec<Identity>,
}

impl Model for Deck {
    ghost Value = { List Identity };

    ghost view = { λ deck. deck.cards.items };
}

impl Deck {
    /// The cards, as a slice.
    pub fn as_slice(&self) -> &[Identity]
        ensures { result.now ≡ self.now }
    {
        &self.cards
    }

    /// The cards, as a vector. It takes no memory.
    pub fn into_vec(self) -> Vec<Identity>
        ensures { result.items ≡ self }
    {
        self.cards
    }
}

/// The cards of a vector. It takes no memory.
impl From<Vec<Identity>> for Deck {
    ghost from_gives = { λ cards deck. deck ≡ cards.items };

    fn from(cards: Vec<Identity>) -> Self {
        Deck { cards }
    }
}

/// How often the identity stands among the cards.
fn count_of(id: Identity, cards: &[Identity]) -> usize
    ensures { result ≡ count_of id cards.now }
{
    cards.iter().filter(|card| id == **card).count()
}

/// Whether the variant has each of the cards.
fn are_in_variant(variant: &Variant, cards: &[Identity]) -> bool
    ensures { IsTrue result ↔ All (λ id. 0 < copies variant.now id) cards.now }
{
    cards.iter().all(|&id| copies(variant, id) > 0)
}

/// Whether the identity with a number stands among the cards as often as the variant has copies of
/// it.
fn is_complete(variant: &Variant, cards: &[Identity], number: u8) -> bool
    requires { number < IDENTITIES }
    ensures { IsTrue result
        ↔ (count_of (identity number) cards.now ≡ copies variant.now (identity number)) }
{
    let Some(id) = identity(number) else {
        return false;
    };
    count_of(id, cards) == usize::from(copies(variant, id))
}

/// Whether each identity stands among the cards as often as the variant has copies of it.
fn are_complete(variant: &Variant, cards: &[Identity]) -> bool
    ensures { IsTrue result ↔ ((n : ℕ) → n < IDENTITIES
        → count_of (identity n) cards.now ≡ copies variant.now (identity n)) }
{
    for number in 0..IDENTITIES as u8 {
        if !is_complete(variant, cards, number) {
            return false;
        }
    }
    true
}

/// Whether the cards are a deck of the variant, in any order: each identity stands among them as
/// often as the variant has copies of it, and nothing else does. It takes no memory.
pub fn is_deck(variant: &Variant, deck: &[Identity]) -> bool
    ensures { IsTrue result ↔ IsDeck variant.now deck.now }
{
    are_in_variant(variant, deck) && are_complete(variant, deck)
}
