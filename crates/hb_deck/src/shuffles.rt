//! Which deck does a seed give?

ghost use Rattle.std.specs.Prelude.{◌≡◌, IfOk, IsPermutation};
ghost use Rattle.hb_rules.specs.Cards.{cards, IsDeck};
ghost use Rattle.hb_deck.specs.Shuffle.{shuffle_of};

use crate::cards::all_cards;
use crate::decks::Deck;
use hb_rules::{Identity, Variant};
use rand::seq::SliceRandom;
use rand_chacha::ChaCha20Rng;
use rand_core::SeedableRng;
use std::alloc::{AllocError, Global};

/// All cards of the variant in the order that the seed and the stream give.
fn shuffled_cards(
    alloc: Global,
    variant: &Variant,
    seed: &[u8; 32],
    stream: u64,
) -> Result<Vec<Identity>, AllocError>
    ensures drawn { IfOk result
        (λ list. list.items ≡ shuffle_of (cards variant.now) seed.now stream) }
    ensures permutation { IfOk result (λ list. IsPermutation (cards variant.now) list.items) }
{
    let mut list = all_cards(alloc, variant)?;
    let mut rng = ChaCha20Rng::from_seed(*seed);
    rng.set_stream(stream);
    list.shuffle(&mut rng);
    Ok(list)
}

/// All cards of the variant in order of identity numbers, shuffled by `SliceRandom::shuffle` with
/// the `ChaCha20Rng` of the seed, set to the stream. The same arguments always give the same deck.
/// The error comes only if memory is refused.
pub fn shuffled(
    alloc: Global,
    variant: &Variant,
    seed: &[u8; 32],
    stream: u64,
) -> Result<Deck, AllocError>
    ensures drawn { IfOk result (λ deck. deck ≡ shuffle_of (cards variant.now) seed.now stream) }
    ensures full { IfOk result (λ deck. IsDeck variant.now deck) }
{
    let list = shuffled_cards(alloc, variant, seed, stream)?;
    Ok(Deck::from(list))
}
