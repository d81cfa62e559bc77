//! How many cards are dealt, and to whom?

ghost use Rattle.std.specs.Prelude.{◌≡◌, ◌*◌, ◌≤◌, length};
ghost use Rattle.hb_rules.specs.Setup.{hand_size, deal_size};
ghost use Rattle.hb_turns.specs.Dealt.{IsDealt, AreDealt};

use crate::table::SEATS;
use hb_rules::{MOST_CARDS, MOST_HAND, Setup};
use hb_sets::with;

/// The number of cards in a full hand.
pub fn hand_size(setup: &Setup) -> u8
    ensures size { result ≡ hand_size setup.now }
    ensures few { result ≤ MOST_HAND }
    ensures some { 2 ≤ result }
{
    let base: u8 = match setup.players {
        0..=3 => 5,
        4 | 5 => 4,
        _ => 3,
    };
    let more = u8::from(setup.options.extra_card);
    let less = u8::from(setup.options.less_card);
    base + more - less
}

/// The number of cards that are dealt.
pub fn deal_size(setup: &Setup) -> usize
    ensures size { result ≡ deal_size setup.now }
    ensures few { result ≤ 255 * MOST_HAND }
{
    usize::from(setup.players) * usize::from(hand_size(setup))
}

/// The seat that holds each order once the cards are dealt.
pub fn dealt(setup: &Setup) -> [Option<u8>; MOST_CARDS]
    requires { deal_size setup.now ≤ MOST_CARDS }
    ensures all { IsDealt setup.now (deal_size setup.now) result }
    ensures many { length result ≡ MOST_CARDS }
{
    let mut holders = [None; MOST_CARDS];
    let size = hand_size(setup);
    for order in 0..deal_size(setup) as u8 {
        holders[usize::from(order)] = Some(order / size);
    }
    holders
}

/// The orders that each seat holds once the cards are dealt, as bits.
pub fn dealt_hands(setup: &Setup) -> [u64; SEATS]
    requires few { deal_size setup.now ≤ MOST_CARDS }
    requires seats { setup.now.players ≤ SEATS }
    ensures all { AreDealt setup.now (deal_size setup.now) result }
    ensures many { length result ≡ SEATS }
{
    let mut hands = [0; SEATS];
    let size = hand_size(setup);
    for order in 0..deal_size(setup) as u8 {
        let seat = usize::from(order / size);
        hands[seat] = with(hands[seat], order);
    }
    hands
}
