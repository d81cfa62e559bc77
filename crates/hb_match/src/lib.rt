//! Which identities can hidden cards have, if each identity has a number of copies?
//!
//! A card comes with its mask, the set of the identities that it may have, and an identity, named
//! by its number, with the copies of it that are left. An assignment gives each card an identity of
//! its mask and uses no identity more often than copies of it are left. This crate knows no rule of
//! the game: masks and copies are its caller's.
//!
//! The contracts promise, in the words of `specs/Matching.antt`:
//! - `assign` answers an assignment if there is one. Else it answers an obstruction: cards for
//!   whose identities fewer copies are left than there are cards. This is Hall's condition, with
//!   copies.
//! - `possible` and `possible_all` answer exactly the identities that a card has over all
//!   assignments.
//!
//! A member of a mask from `IDENTITIES` on names no identity. It has no copies, so no assignment
//! uses it. No call takes memory. No clause bounds the steps of a call; for 25 cards it takes some
//! microseconds.
#![tactic(auto)]

ghost use Rattle.std.specs.Prelude.{◌≡◌, ℕ, ◌<◌, ◌≤◌, length, slice_index, All, EachIndex};
ghost use Rattle.arrayvec.specs.ArrayVec.{array_vec_len};
ghost use Rattle.hb_match.specs.Matching.{IsAssignment, IsPossibleSet, NoAssignment};
ghost use Rattle.hb_match.specs.Verdict.{Decides};

mod exchange;
mod placing;

use crate::exchange::{open_ids, possible_from};
use crate::placing::{obstruction, place, take_copy, with_copies};
use arrayvec::ArrayVec;

/// How many identity numbers there are: they are 0 to 29.
pub const IDENTITIES: usize = 30;

/// The most masks of one call, since `Verdict::Blocked` names cards by the bits of a `u32`.
pub const MOST_MASKS: usize = 32;

/// What `assign` found.
#[derive(Debug, Drop, PartialEq, Eq)]
pub enum Verdict {
    /// An assignment: the identity number of each card, in the order of the masks.
    Given(ArrayVec<u8, MOST_MASKS>),
    /// There is no assignment, since these cards have `ids` alone among them, of which fewer copies
    /// are left than there are cards.
    Blocked {
        /// The cards, by their index in the masks.
        cards: u32,
        /// The identities of the cards' masks, together.
        ids: u64,
    },
}

/// Gives each card an identity of its mask and none more often than copies of it are left, or shows
/// some cards that make this impossible.
///
/// `masks` has a set of identity numbers for each card, and `left` the copies that are left of each
/// identity.
pub fn assign(masks: &[u64], left: &[u8; IDENTITIES]) -> Verdict
    requires { length masks.now ≤ MOST_MASKS }
    ensures { Decides masks.now left.now result }
{
    let mut chosen = ArrayVec::new();
    let mut over = *left;
    let mut spare = with_copies(left);
    for _ in masks {
        match place(masks, &mut chosen, spare) {
            Ok(id) => spare = take_copy(&mut over, spare, id),
            Err(closed) => {
                let (cards, ids) = obstruction(masks, chosen.as_slice(), closed);
                return Verdict::Blocked { cards, ids };
            }
        }
    }
    Verdict::Given(chosen)
}

/// The set of the identities that the card has in some assignment. It is empty if there is no
/// assignment.
///
/// `card` is an index of `masks`; `masks` and `left` are as in `assign`.
pub fn possible(masks: &[u64], left: &[u8; IDENTITIES], card: usize) -> u64
    requires few { length masks.now ≤ MOST_MASKS }
    requires in_range { card < length masks.now }
    ensures exact { IsPossibleSet masks.now left.now card result }
    ensures none { NoAssignment masks.now left.now → result ≡ 0 }
{
    possible_all(masks, left)[card]
}

/// For each card, in the order of the masks, the set that `possible` answers. All sets come from
/// one assignment.
///
/// `masks` and `left` are as in `assign`.
pub fn possible_all(masks: &[u64], left: &[u8; IDENTITIES]) -> ArrayVec<u64, MOST_MASKS>
    requires { length masks.now ≤ MOST_MASKS }
    ensures len { array_vec_len result ≡ length masks.now }
    ensures sets { EachIndex masks.now
        (λ card. IsPossibleSet masks.now left.now card (slice_index result.items card)) }

    // No other number is such a set, so what `possible` answers for a card is the set that stands
    // here.
    ensures same { EachIndex masks.now
        (λ card. (set : ℕ) → IsPossibleSet masks.now left.now card set
        → slice_index result.items card ≡ set) }
    ensures none { NoAssignment masks.now left.now → All (λ set. set ≡ 0) result.items }
{
    sets_by(&assign(masks, left), masks, left)
}

/// The sets of `possible_all`, from what `assign` found.
fn sets_by(found: &Verdict, masks: &[u64], left: &[u8; IDENTITIES]) -> ArrayVec<u64, MOST_MASKS>
    requires few { length masks.now ≤ MOST_MASKS }
    requires found { Decides masks.now left.now found.now }
    ensures len { length result.items ≡ length masks.now }
    ensures sets { (card : ℕ) → card < length masks.now
        → IsPossibleSet masks.now left.now card (slice_index result.items card) }
{
    match found {
        Verdict::Given(chosen) => sets_from(masks, left, chosen.as_slice()),
        Verdict::Blocked { .. } => empty_sets(masks),
    }
}

/// The sets of `possible_all`, from an assignment.
fn sets_from(masks: &[u64], left: &[u8; IDENTITIES], chosen: &[u8]) -> ArrayVec<u64, MOST_MASKS>
    requires few { length masks.now ≤ MOST_MASKS }
    requires given { IsAssignment masks.now left.now chosen.now }
    ensures len { length result.items ≡ length masks.now }
    ensures sets { (card : ℕ) → card < length masks.now
        → IsPossibleSet masks.now left.now card (slice_index result.items card) }
{
    let freed = open_ids(masks, left, chosen);
    let mut sets = ArrayVec::new();
    for card in 0..masks.len() {
        sets.push(possible_from(masks, chosen, freed, card));
    }
    sets
}

/// An empty set for each card.
fn empty_sets(masks: &[u64]) -> ArrayVec<u64, MOST_MASKS>
    requires { length masks.now ≤ MOST_MASKS }
    ensures len { length result.items ≡ length masks.now }
    ensures empty { (card : ℕ) → slice_index result.items card ≡ 0 }
{
    let mut sets = ArrayVec::new();
    for _ in masks {
        sets.push(0);
    }
    sets
}
