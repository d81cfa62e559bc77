//! Which identities can hidden cards have, in games whose sets were found by hand?
//!
//! A set is written by suits from the last one down, and in a suit from rank 5 down.

use crate::games::{in_order, play, played, rank};
use hb_empathy::identities;
use hb_sight::Blind;
use std::test::Fail;

#[test]
fn two_cards_that_share_two_identities_leave_them_to_no_other(rt: HostRuntime) -> Result<(), Fail> {
    // Seat 0 has c5 d5 a1 a1 a1 and seat 1 has a5 b5 e5 a2 a2.
    let deck = "c5d5a1a1a1a5b5e5a2a2a3a3a4a4b1b1b1b2b2b3b3b4b4c1c1c1c2c2c3c3c4c4\
         d1d1d1d2d2d3d3d4d4e1e1e1e2e2e3e3e4e4";
    let game = played(
        &rt,
        "No Variant",
        2,
        deck,
        &[rank(1, 2), rank(0, 5), play(2)],
    )?;
    let blind = Blind::none().with(0);

    // Orders 0 and 1 are the two 5s that are left, so the card that was drawn after the clue is
    // neither. The a2s are seen.
    for (order, set) in [
        (0, Some(0b00000_10000_10000_00000_00000)),
        (10, Some(0b01111_01111_01111_01111_01101)),
        (5, Some(0b00000_00000_00000_00000_10000)),
        (2, None),
    ] {
        assert!(rt; identities(&game, blind, order) == set, "{order}");
    }

    // The clues alone leave more.
    assert!(rt; game.holder(0) == Some(0));
    assert!(rt; game.marks(0) == 0b10000_10000_10000_10000_10000 && game.gone()[0] == 1);
    Ok(())
}

#[test]
fn who_sees_no_hand_can_tell_no_card(rt: HostRuntime) -> Result<(), Fail> {
    let game = in_order(&rt, &[])?;
    assert!(rt; identities(&game, Blind::all(2), 9) == Some((1 << 25) - 1));
    Ok(())
}
