//! How are cards placed one after the other? The next card gets an identity, and placed cards move
//! to others if they must.

ghost use Rattle.std.specs.Prelude.{◌≡◌, ℕ, ◌+◌, ◌<◌, ◌≤◌, ◌↔◌, length, slice_index, MatchOption, MatchResult};
ghost use Rattle.arrayvec.specs.ArrayVec.{array_vec_len};
ghost use Rattle.hb_sets.specs.Sets.{Has};
ghost use Rattle.hb_match.specs.Matching.{uses, IsEnough};
ghost use Rattle.hb_match.specs.Placing.{IsLeftOver, Holds, IsClosed, CanMove, Places, ShutsOut, Gathers, one};

use crate::{IDENTITIES, MOST_MASKS};
use arrayvec::ArrayVec;
use hb_sets::{common, has, union, with};

/// The copies of each identity that are left over beside the chosen ones.
fn left_over(left: &[u8; IDENTITIES], chosen: &[u8]) -> [u8; IDENTITIES]
    requires { IsEnough left.now chosen.now }
    ensures { IsLeftOver left.now chosen.now result }
{
    let mut over = *left;
    for id in chosen {
        over[*id as usize] -= 1;
    }
    over
}

/// The identities of which there is a copy.
pub fn with_copies(over: &[u8; IDENTITIES]) -> u64
    ensures { (id : ℕ) → Has result id ↔ (0 < slice_index over.now id) }
{
    let mut ids = 0;
    for (id, copies) in over.iter().enumerate() {
        if *copies > 0 {
            ids = with(ids, id as u8);
        }
    }
    ids
}

/// Takes one copy of an identity, and answers those of which there is still one.
pub fn take_copy(over: &mut [u8; IDENTITIES], ids: u64, id: u8) -> u64
    requires some { 0 < slice_index over.old id }
    requires ids { (k : ℕ) → Has ids k ↔ (0 < slice_index over.old k) }
    ensures taken { (k : ℕ) → slice_index over.new k + one id k ≡ slice_index over.old k }
    ensures ids { (k : ℕ) → Has result k ↔ (0 < slice_index over.new k) }
{
    over[id as usize] -= 1;
    if over[id as usize] > 0 {
        return ids;
    }
    with_copies(over)
}

/// The identities of which a copy is left over beside the chosen ones.
pub fn spare_ids(left: &[u8; IDENTITIES], chosen: &[u8]) -> u64
    requires { IsEnough left.now chosen.now }
    ensures { (id : ℕ) → Has result id ↔ (uses chosen.now id < slice_index left.now id) }
{
    with_copies(&left_over(left, chosen))
}

/// A placed card that holds an identity outside `free`, and an identity inside that it could take
/// instead.
fn mover(masks: &[u64], chosen: &[u8], free: u64) -> Option<(usize, u8)>
    requires within { length chosen.now ≤ length masks.now }
    requires held { Holds masks.now chosen.now }
    ensures { MatchOption result (IsClosed masks.now chosen.now free (length chosen.now))
        (λ found. CanMove masks.now chosen.now free found.0 found.1) }
{
    for (card, id) in chosen.iter().enumerate() {
        if !has(free, *id) {
            if let Some(to) = common(masks[card], free) {
                return Some((card, to));
            }
        }
    }
    None
}

/// Places the next card if placed cards can make room for it. This finds an augmenting path from
/// its end: `free` has the identities of which a copy can be had, and an identity joins it if
/// the card that holds it could move there.
///
/// `Ok(over)` says that of `over`, a member of `free`, one copy more is used, and of no other
/// identity. `Err(closed)` leaves `chosen` as it was: no placed card can move into the set
/// `closed`, and the next card has no identity in it.
pub fn place(masks: &[u64], chosen: &mut ArrayVec<u8, MOST_MASKS>, free: u64) -> Result<u8, u64>
    requires within { array_vec_len chosen.old < length masks.now }
    requires room { array_vec_len chosen.old < MOST_MASKS }
    requires held { Holds masks.now chosen.old.items }
    ensures { MatchResult result
        (λ over. Places masks.now chosen.old.items chosen.new.items free over)
        (λ closed. (chosen.new.items ≡ chosen.old.items)
        × ShutsOut masks.now chosen.old.items free closed) }
{
    if let Some(id) = common(masks[chosen.len()], free) {
        chosen.push(id);
        return Ok(id);
    }
    let Some((card, to)) = mover(masks, chosen.as_slice(), free) else {
        return Err(free);
    };
    let held = chosen[card];
    let over = place(masks, chosen, with(free, held))?;
    if over != held {
        return Ok(over);
    }
    chosen[card] = to;
    Ok(to)
}

/// The next card with the placed cards that hold an identity outside `closed`, and the union of
/// their masks.
pub fn obstruction(masks: &[u64], chosen: &[u8], closed: u64) -> (u32, u64)
    requires within { length chosen.now < length masks.now }
    requires few { length masks.now ≤ MOST_MASKS }
    requires held { Holds masks.now chosen.now }
    ensures { Gathers masks.now chosen.now closed (length chosen.now) result.0 result.1 }
{
    let next = chosen.len();
    let mut cards = with(0, next as u8);
    let mut ids = masks[next];
    for (card, id) in chosen.iter().enumerate() {
        if !has(closed, *id) {
            cards = with(cards, card as u8);
            ids = union(ids, masks[card]);
        }
    }
    (cards as u32, ids)
}
