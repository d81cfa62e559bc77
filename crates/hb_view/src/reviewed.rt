//! What is written of a step of a review?

ghost use Rattle.std.specs.Prelude.{◌≡◌, ◌≤◌, ◌∷◌, ℕ, List, None, Some, OnOk, length};
ghost use Rattle.hb_rules.specs.Positions.{after, current, rule};
ghost use Rattle.hb_rules.specs.Setup.{by};
ghost use Rattle.hb_review.specs.declared.steps.Step.{Step as Taken};
ghost use Rattle.hb_review.specs.Reviews.{reviewed};
ghost use Rattle.hb_turns.specs.Prefixes.{prefix};
ghost use Rattle.hb_club.specs.declared.items.What.TheVariants as what;
ghost use Rattle.hb_view.specs.Cursors.{shown_game};
ghost use Rattle.hb_view.specs.StreamViews.{AreSteps};
ghost use Rattle.hb_view.specs.Writing.{Writes};

use crate::cursors::Cursor;
use crate::standing::push_standing;
use crate::texts::push_line;
use hb_club::Answered;
use hb_io::Texts;
use hb_review::Step;
use hb_rules::Action;
use hb_sight::Blind;
use hb_turns::Game;
use hb_wire::WireLine;
use std::alloc::{AllocError, Global};

/// The game that is shown: before any step the whole one.
fn shown_or_whole(whole: &Game, shown: &Option<Game>) -> Game
    ensures { (taken : List Taken) → shown.now ≡ shown_game whole.now taken
        → result ≡ reviewed whole.now taken }
{
    match shown {
        Some(game) => game.same(),
        None => whole.same(),
    }
}

/// The game, which has so many acts, after the first of them, if there are so many.
fn first_acts(game: &Game, acts: usize, count: usize) -> Game
    requires { acts ≡ length game.now.past }
    ensures { count ≤ length game.now.past → result ≡ prefix game.now count }
{
    if count <= acts {
        game.prefix(count)
    } else {
        game.same()
    }
}

/// The game after one more act of the seat whose turn it is, if that breaks no rule.
fn tried(game: &Game, action: Action) -> Game
    ensures { rule game.now (by (current game.now) action) ≡ None
        → result ≡ after game.now (by (current game.now) action) }
{
    let mut next = game.same();
    let seat = next.seat();
    let _ = next.act(seat, action);
    next
}

/// The reviewed game, which has so many acts, after a step.
fn stepped(whole: &Game, acts: usize, shown: &Option<Game>, step: Step) -> Game
    requires { acts ≡ length whole.now.past }
    ensures { (taken : List Taken) → shown.now ≡ shown_game whole.now taken
        → AreSteps whole.now (step ∷ taken) → result ≡ reviewed whole.now (step ∷ taken) }
{
    let before = shown_or_whole(whole, shown);
    match step.action {
        Some(action) => tried(&before, action),
        None => {
            if step.hypos == 0 {
                first_acts(whole, acts, usize::from(step.turn))
            } else {
                let count = usize::from(step.turn) + usize::from(step.hypos);
                first_acts(&before, before.act_count(), count)
            }
        }
    }
}

/// Writes a step of a review.
pub(crate) fn write_reviewed(
    out: &mut Texts,
    alloc: Global,
    a: &Answered,
    next: &mut Cursor,
    step: Step,
) -> Result<(), AllocError>
    ensures { OnOk result ((moment : ℕ) → Writes a.now (record {
      moment = moment;
      what = what.Reviewed step.turn step.hypos step.action;
    }) next.old next.new out.old out.new) }
{
    let line = WireLine::Review {
        action: step.action,
        hypos: step.hypos,
        turn: step.turn,
    };
    push_line(out, alloc, &line)?;
    let Some(whole) = &a.game else {
        return Ok(());
    };
    let acts = whole.act_count();
    if whole.ended().is_none() {
        return Ok(());
    }
    let shown = stepped(whole, acts, &next.shown, step);
    push_standing(out, alloc, Blind::none(), &shown, None, 0)?;
    next.shown = Some(shown);
    Ok(())
}
