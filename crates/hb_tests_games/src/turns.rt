//! Which rule refuses an act, and what do the readers tell that no command writes?

use crate::games::{color, discard, end, in_order, play, rank};
use hb_rules::{Clue, EndHow, Rule};
use hb_touch::offers;
use std::test::Fail;

#[test]
fn refuses_by_the_first_rule(rt: HostRuntime) -> Result<(), Fail> {
    let mut game = in_order(&rt, &[])?;
    for (who, action, want) in [
        (1, play(5), Some(Rule::NotYourTurn)),
        (0, play(5), Some(Rule::NotInHand)),
        (0, discard(0), Some(Rule::AllTokens)),
        (0, rank(0, 1), Some(Rule::SelfClue)),
        (0, color(1, 5), Some(Rule::NoSuchClue)),
        (0, rank(1, 1), Some(Rule::TouchesNothing)),
        (2, end(EndHow::Timeout), Some(Rule::NoSuchSeat)),
        (1, end(EndHow::Timeout), None),
        (0, play(0), Some(Rule::GameOver)),
    ] {
        assert!(rt; game.act(who, action).err() == want, "{action:?}");
    }
    Ok(())
}

/// Seat 0 has a1 a1 a2 a2 b1 after its play, and seat 1 has a3 a3 a4 a4 a5.
#[test]
fn tells_of_cards_and_of_acts_to_come(rt: HostRuntime) -> Result<(), Fail> {
    let game = in_order(&rt, &[play(0)])?;
    assert!(rt; game.fits(10) && !game.fits(1) && !game.fits(50));
    assert!(rt; game.holder(0).is_none() && game.holder(10) == Some(0));
    assert!(rt; game.drawn(play(5)) == Some(11) && game.drawn(rank(0, 1)).is_none());
    assert!(rt; game.broken(1, play(10)) == Some(Rule::NotInHand));
    assert!(rt; offers(game.variant(), Clue::Rank(4)));
    assert!(rt; game.touched(1, Clue::Rank(4)) == (1 << 7) + (1 << 8));
    Ok(())
}
