//! Assignments, obstructions and possible identities, on small hands that were worked out by hand.

ghost use Rattle.std.specs.Prelude.{◌≤◌, length};

use arrayvec::ArrayVec;
use hb_match::{IDENTITIES, Verdict, assign, possible, possible_all};

/// The set of the 1 of the first suit, identity 0.
const A1: u64 = 1 << 0;

/// The set of the 5 of the third suit, identity 14.
const C5: u64 = 1 << 14;

/// The set of the 5 of the fourth suit, identity 19.
const D5: u64 = 1 << 19;

/// The sets {0}, {0, 1}, {1, 2} and {2, 3}: each card shares an identity with the next.
const CHAIN: [u64; 4] = [1, 3, 6, 12];

/// The same cards from the last to the first.
const REVERSED: [u64; 4] = [12, 6, 3, 1];

/// One copy of each of these identities, and none of the others.
fn one_of_each(ids: &[u8]) -> [u8; IDENTITIES] {
    let mut left = [0; IDENTITIES];
    for id in ids {
        if let Some(copies) = left.get_mut(usize::from(*id)) {
            *copies = 1;
        }
    }
    left
}

/// The verdict that gives the cards these identities.
fn given(ids: &[u8]) -> Verdict
    requires { length ids.now ≤ 32 }
{
    let mut chosen = ArrayVec::new();
    for id in ids {
        chosen.push(*id);
    }
    Verdict::Given(chosen)
}

#[test]
fn assignments_and_obstructions(rt: HostRuntime) {
    let fives = one_of_each(&[14, 19]);
    let four = one_of_each(&[0, 1, 2, 3]);
    let three = one_of_each(&[0, 1, 2]);
    assert_eq!(rt; assign(&[C5 | D5, C5], &fives), given(&[19, 14]));
    assert_eq!(rt;
        assign(&[C5 | D5, C5 | D5, C5], &fives),
        Verdict::Blocked {
            cards: 7,
            ids: 540672
        }
    );
    assert_eq!(rt; assign(&[], &fives), given(&[]));
    assert_eq!(rt; assign(&CHAIN, &four), given(&[0, 1, 2, 3]));
    assert_eq!(rt; assign(&REVERSED, &four), given(&[3, 2, 1, 0]));
    assert_eq!(rt;
        assign(&CHAIN, &three),
        Verdict::Blocked { cards: 15, ids: 15 }
    );
    assert_eq!(rt;
        assign(&REVERSED, &three),
        Verdict::Blocked { cards: 15, ids: 15 }
    );
}

#[test]
fn possible_identities(rt: HostRuntime) {
    let left = one_of_each(&[0, 14, 19]);
    let cases: [([u64; 3], [u64; 3]); 2] = [
        // Two cards take both 5s, so the third cannot be one of them.
        ([C5 | D5, C5 | D5, A1 | C5 | D5], [C5 | D5, C5 | D5, A1]),
        // Three cards have two 5s alone among them: nothing is possible.
        ([C5 | D5, C5 | D5, C5], [0, 0, 0]),
    ];
    for (masks, sets) in cases {
        assert_eq!(rt; possible_all(&masks, &left).as_slice(), sets.as_slice());
        for card in 0..3 {
            assert_eq!(rt; possible(&masks, &left, card), sets[card], "card {card}");
        }
    }
}
