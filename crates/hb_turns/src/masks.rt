//! Which identities does each clue touch, found once for a game?

ghost use Rattle.std.specs.Prelude.{◌≡◌, ℕ, ◌+◌, ◌<◌, true, length, slice_index};
ghost use Rattle.hb_rules.specs.Touch.{offers};
ghost use Rattle.hb_turns.specs.ClueMasks.{AreClueMasks, IsMask};

use hb_rules::{Clue, HIGHEST_RANK, MOST_SUITS, Variant};
use hb_suits::identities;
use hb_touch::{mask, offers};

/// The number of ranks.
const RANKS: usize = HIGHEST_RANK as usize;

/// The identities of a variant that each clue touches, as bits by number.
#[derive(Clone, Copy)]
pub struct ClueMasks {
    /// All identities of the variant.
    pub all: u64,
    /// What a colour clue touches, by the index of the colour.
    pub colors: [u64; MOST_SUITS],
    /// What a rank clue touches, by the rank less 1.
    pub ranks: [u64; RANKS],
}

impl ClueMasks {
    /// The sets of a variant.
    pub fn new(variant: &Variant) -> Self
        ensures { AreClueMasks variant.now result }
    {
        ClueMasks {
            all: identities(variant),
            colors: color_masks(variant),
            ranks: rank_masks(variant),
        }
    }
}

/// The identities that a clue touches; none if the variant does not offer it.
fn mask_of(variant: &Variant, clue: Clue) -> u64
    ensures { offers variant.now clue ≡ true → IsMask variant.now clue result }
{
    if offers(variant, clue) {
        mask(variant, clue, true)
    } else {
        0
    }
}

/// What each colour clue touches.
fn color_masks(variant: &Variant) -> [u64; MOST_SUITS]
    ensures many { length result ≡ MOST_SUITS }
    ensures masks { (c : ℕ) → c < MOST_SUITS → offers variant.now (Clue.Color c) ≡ true
        → IsMask variant.now (Clue.Color c) (slice_index result c) }
{
    let mut masks = [0; MOST_SUITS];
    for color in 0..MOST_SUITS as u8 {
        masks[usize::from(color)] = mask_of(variant, Clue::Color(color));
    }
    masks
}

/// What each rank clue touches.
fn rank_masks(variant: &Variant) -> [u64; RANKS]
    ensures many { length result ≡ RANKS }
    ensures masks { (r : ℕ) → r < RANKS → offers variant.now (Clue.Rank (r + 1)) ≡ true
        → IsMask variant.now (Clue.Rank (r + 1)) (slice_index result r) }
{
    let mut masks = [0; RANKS];
    for place in 0..RANKS as u8 {
        masks[usize::from(place)] = mask_of(variant, Clue::Rank(place + 1));
    }
    masks
}
