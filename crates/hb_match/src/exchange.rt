//! Which identities can a card have, from one assignment?

ghost use Rattle.std.specs.Prelude.{◌<◌, ◌≤◌, ℕ, List, length, slice_index};
ghost use Rattle.hb_sets.specs.Sets.{Has};
ghost use Rattle.hb_match.specs.Matching.{IsAssignment, IsPossibleSet};
ghost use Rattle.hb_match.specs.Exchange.{Gives};
ghost use Rattle.hb_match.specs.Placing.{Holds, IsClosed};

use crate::IDENTITIES;
use crate::placing::spare_ids;
use hb_sets::{common, has, meet, with};

/// The identities of `goal`, and those of the cards that could take one of these instead, over and
/// over.
fn reach(masks: &[u64], chosen: &[u8], goal: u64) -> u64
    requires within { length chosen.now ≤ length masks.now }
    requires held { Holds masks.now chosen.now }
    ensures keeps { (id : ℕ) → Has goal id → Has result id }
    ensures closed { IsClosed masks.now chosen.now result (length chosen.now) }
    ensures gives { (left : List ℕ) (card : ℕ) → IsAssignment masks.now left chosen.now
        → card < length masks.now → Gives masks.now left chosen.now goal card
        → Gives masks.now left chosen.now result card }
{
    let mut free = goal;
    let mut before = 0;
    while before != free {
        before = free;
        for (other, held) in chosen.iter().enumerate() {
            if common(masks[other], free).is_some() {
                free = with(free, *held);
            }
        }
    }
    free
}

/// The identities that every card can be given if others move: those with a copy left over, and
/// each that is held by a card which could take one of these instead.
pub fn open_ids(masks: &[u64], left: &[u8; IDENTITIES], chosen: &[u8]) -> u64
    requires { IsAssignment masks.now left.now chosen.now }
    ensures closed { IsClosed masks.now chosen.now result (length chosen.now) }
    ensures gives { (card : ℕ) → card < length masks.now
        → Gives masks.now left.now chosen.now result card }
{
    reach(masks, chosen, spare_ids(left, chosen))
}

/// The identities that one card can be given if others move: besides those that every card can be
/// given, its own, and each that is held by a card which could take one of these instead.
fn open_to(masks: &[u64], chosen: &[u8], freed: u64, card: usize) -> u64
    requires in_range { card < length chosen.now }
    requires within { length chosen.now ≤ length masks.now }
    requires held { Holds masks.now chosen.now }
    requires closed { IsClosed masks.now chosen.now freed (length chosen.now) }
    ensures own { Has result (slice_index chosen.now card) }
    ensures closed { IsClosed masks.now chosen.now result (length chosen.now) }
    ensures gives { (left : List ℕ) → IsAssignment masks.now left chosen.now
        → Gives masks.now left chosen.now freed card
        → Gives masks.now left chosen.now result card }
{
    let own = chosen[card];
    if has(freed, own) {
        return freed;
    }
    reach(masks, chosen, with(freed, own))
}

/// The set of the identities that the card has in some assignment, from one of them and from the
/// identities that every card can be given.
pub fn possible_from(masks: &[u64], chosen: &[u8], freed: u64, card: usize) -> u64
    requires in_range { card < length chosen.now }
    requires within { length chosen.now ≤ length masks.now }
    requires held { Holds masks.now chosen.now }
    requires closed { IsClosed masks.now chosen.now freed (length chosen.now) }
    ensures { (left : List ℕ) → IsAssignment masks.now left chosen.now
        → Gives masks.now left chosen.now freed card → IsPossibleSet masks.now left card result }
{
    meet(masks[card], open_to(masks, chosen, freed, card))
}
