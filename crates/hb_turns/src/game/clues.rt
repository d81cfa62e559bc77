//! Which cards are in a hand, and which of them does a clue touch?

ghost use Rattle.std.specs.Prelude.{◌≡◌, ℕ, ◌<◌, ◌==◌, IfSome, IfNone, IsTrue};
ghost use Rattle.hb_rules.specs.Touch.{offers};
ghost use Rattle.hb_rules.specs.Hands.{is_at};
ghost use Rattle.hb_rules.specs.Events.{bits};
ghost use Rattle.hb_rules.specs.Positions.{hand, holder, touched};
ghost use Rattle.hb_sets.specs.Sets.{bit};
ghost use Rattle.hb_turns.specs.ClueMasks.{IsMask};
ghost use Rattle.hb_turns.specs.GameInvariant.{IsPlayed};
ghost use Rattle.hb_turns.specs.Members.{IsNext, IsEndFrom};

use crate::Game;
use crate::table::SEATS;
use arrayvec::ArrayVec;
use hb_rules::{Clue, MOST_HAND};
use hb_sets::has;
use hb_suits::number;

impl Game {
    /// The orders in a seat's hand, as bits; none if there is no such seat.
    fn hand_set(&self, seat: u8) -> u64
        ensures set { (k : ℕ) → (bit result k == 1) ≡ is_at (holder self.now k) seat }
        ensures played { IsPlayed self.now }
    {
        if usize::from(seat) < SEATS {
            self.table.hands[usize::from(seat)]
        } else {
            0
        }
    }

    /// The orders in a seat's hand, ascending; none if there is no such seat.
    pub fn hand(&self, seat: u8) -> ArrayVec<u8, MOST_HAND>
        ensures hand { result.items ≡ hand self.now seat }
        ensures played { IsPlayed self.now }
    {
        let set = self.hand_set(seat);
        let mut hand = ArrayVec::new();
        let mut from = 0;
        while let Some(order) = next_from(set, from) {
            hand.push(order);
            from = order + 1;
        }
        hand
    }

    /// The variant's identities that a clue touches, as bits by number.
    pub(super) fn mask(&self, clue: Clue) -> u64
        requires { IsTrue (offers self.now.setup.variant clue) }
        ensures { IsMask self.now.setup.variant clue result }
    {
        match clue {
            Clue::Color(color) => self.masks.colors[usize::from(color)],
            Clue::Rank(rank) => self.masks.ranks[usize::from(rank - 1)],
        }
    }

    /// The orders of a hand that a clue touches, as bits by order.
    pub fn touched(&self, to: u8, clue: Clue) -> u64
        requires { IsTrue (offers self.now.setup.variant clue) }
        ensures { result ≡ bits (touched self.now to clue) }
    {
        let mask = self.mask(clue);
        let hand = self.hand(to);
        let mut word: u64 = 0;
        for order in hand.as_slice() {
            if has(mask, number(self.setup.deck[usize::from(*order)])) {
                word |= 1 << *order;
            }
        }
        word
    }
}

/// The least member of a set from a number on.
fn next_from(set: u64, from: u8) -> Option<u8>
    requires { from < 64 }
    ensures next { IfSome result (IsNext set from) }
    ensures end { IfNone result (IsEndFrom set from) }
{
    let rest = set >> from;
    if rest == 0 {
        None
    } else {
        Some(from + rest.trailing_zeros() as u8)
    }
}
