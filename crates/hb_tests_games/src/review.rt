//! Where do reviews stand after calls, by the counts that the rules give, added up by hand?

use crate::games::{discard, end, in_order, play, rank};
use hb_review::{Review, ReviewError};
use hb_rules::{Action, EndHow, Rule};
use hb_turns::Game;
use std::test::Fail;

/// A call that moves a review.
#[derive(Clone, Copy)]
enum Call {
    Go(u16),
    Hypo(Action),
    Undo,
}

/// Why the call is refused; none where it is not.
fn refusal(review: &mut Review, call: Call) -> Option<ReviewError> {
    match call {
        Call::Go(turn) => review.go(turn).err(),
        Call::Hypo(action) => review.hypo(action).err(),
        Call::Undo => review.undo().err(),
    }
}

/// The turn, the hypothetical acts, the score, the tokens, the strikes, and whose turn it is.
fn standing(review: &Review) -> [u16; 6] {
    let now = review.game();
    let counts = [now.score(), now.tokens(), now.strikes(), now.seat()];
    let [score, tokens, strikes, seat] = counts.map(|count| u16::from(count));
    [review.turn(), review.hypos(), score, tokens, strikes, seat]
}

/// A game of four acts: a1 is played, the 1s are clued to seat 0, and a2 and a3 are played.
fn four_acts(rt: &HostRuntime) -> Result<Game, Fail> {
    in_order(rt, &[play(0), rank(0, 1), play(3), play(5)])
}

#[test]
fn tries_acts_and_takes_them_back(rt: HostRuntime) -> Result<(), Fail> {
    let mut review = Review::new(&four_acts(&rt)?);
    for (call, want) in [
        // A token went for the clue, and only a1 is on its stack.
        (Call::Go(2), [2, 0, 1, 7, 0, 0]),
        // Seat 0 gets the token back, the a4 of seat 1 does not fit, and seat 0 clues the a5.
        (Call::Hypo(discard(1)), [2, 1, 1, 8, 0, 1]),
        (Call::Hypo(play(7)), [2, 2, 1, 8, 1, 0]),
        (Call::Hypo(rank(1, 5)), [2, 3, 1, 7, 1, 1]),
        // The clue and the strike are taken back.
        (Call::Undo, [2, 2, 1, 8, 1, 0]),
        (Call::Undo, [2, 1, 1, 8, 0, 1]),
        // Seat 1 clues the 2s instead, and seat 0 plays one of them on the a1.
        (Call::Hypo(rank(0, 2)), [2, 2, 1, 7, 0, 0]),
        (Call::Hypo(play(3)), [2, 3, 2, 7, 0, 1]),
        // All four acts stand, and then the b1 that seat 0 drew is played.
        (Call::Go(4), [4, 0, 3, 7, 0, 0]),
        (Call::Hypo(play(10)), [4, 1, 4, 7, 0, 1]),
    ] {
        let is_moved = refusal(&mut review, call).is_none();
        assert!(rt; is_moved && standing(&review) == want, "{want:?}");
    }
    Ok(())
}

#[test]
fn refuses_with_the_cause(rt: HostRuntime) -> Result<(), Fail> {
    let mut review = Review::new(&four_acts(&rt)?);
    for (call, want) in [
        (Call::Go(5), Some(ReviewError::NoSuchTurn)),
        (Call::Undo, Some(ReviewError::NothingToUndo)),
        // At turn 2 seat 0 holds a1 a1 a2 a2 b1, and a token is back after a discard.
        (Call::Go(2), None),
        (
            Call::Hypo(discard(0)),
            Some(ReviewError::Broken(Rule::NotInHand)),
        ),
        (Call::Hypo(discard(1)), None),
        (
            Call::Hypo(discard(5)),
            Some(ReviewError::Broken(Rule::AllTokens)),
        ),
        // No act follows an end, until it is taken back.
        (Call::Hypo(end(EndHow::Timeout)), None),
        (
            Call::Hypo(play(5)),
            Some(ReviewError::Broken(Rule::GameOver)),
        ),
        (Call::Undo, None),
        (Call::Hypo(play(5)), None),
    ] {
        assert!(rt; refusal(&mut review, call) == want, "{want:?}");
    }
    Ok(())
}

#[test]
fn errors_have_numbers(rt: HostRuntime) {
    let broken = ReviewError::Broken(Rule::GameOver);
    assert!(rt; ReviewError::NoSuchTurn.number() == 1 && broken.number() == 2);
    assert!(rt; ReviewError::NothingToUndo.number() == 3);
}
