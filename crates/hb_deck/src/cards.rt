//! Which cards has a variant, in order?

ghost use Rattle.std.specs.Prelude.{◌≡◌, ◌<◌, ◌++◌, IfOk, OnOk, replicate};
ghost use Rattle.hb_rules.specs.Cards.{cards, copies, suit_cards};

use hb_rules::{HIGHEST_RANK, Identity, MOST_SUITS, Variant};
use hb_suits::copies;
use std::alloc::{AllocError, Global};

/// Adds each copy of the identity.
fn push_copies(list: &mut Vec<Identity>, variant: &Variant, id: Identity) -> Result<(), AllocError>
    ensures { OnOk result
        (list.new.items ≡ list.old.items ++ replicate (copies variant.now id) id) }
{
    for _ in 0..copies(variant, id) {
        list.push(id)?;
    }
    Ok(())
}

/// Adds the cards of the suit with this index, by rank.
fn push_suit(list: &mut Vec<Identity>, variant: &Variant, suit: u8) -> Result<(), AllocError>
    requires { suit < MOST_SUITS }
    ensures { OnOk result (list.new.items ≡ list.old.items ++ suit_cards variant.now suit) }
{
    for rank in 1..=HIGHEST_RANK {
        push_copies(list, variant, Identity { suit, rank })?;
    }
    Ok(())
}

/// All cards of the variant, in order of identity numbers. The error comes only if memory is
/// refused.
pub fn all_cards(alloc: Global, variant: &Variant) -> Result<Vec<Identity>, AllocError>
    ensures { IfOk result (λ list. list.items ≡ cards variant.now) }
{
    let mut list = Vec::new(alloc);
    for suit in 0..MOST_SUITS as u8 {
        push_suit(&mut list, variant, suit)?;
    }
    Ok(list)
}
