//! The rows by the game and its end, the note, the clock and the review.

ghost use Rattle.std.specs.Prelude.{◌≡◌};
ghost use Rattle.hb_club.specs.TableRefusals.{first_reply, for_some};
ghost use Rattle.hb_club.specs.declared.replies.Refusal.TheVariants as refusal;
ghost use Rattle.hb_refusals.specs.FactRows.{end_rows_on, game_rows_on};

use super::{first_row, is_beyond, when};
use crate::command_kinds::{
    asked_order, asked_shadow, is_act, is_close, is_for_beginning, is_long_note, is_note, is_pause,
    is_resume, is_review_step,
};
use crate::facts::Facts;
use hb_club::{Command, Refusal, Reply};
use hb_review::ReviewError;
use hb_rules::Rule;

/// The rows by whether a game has ended, is kept, or is waited for.
pub(super) fn end_reply(x: &Facts, c: &Command) -> Option<Reply>
    ensures { result ≡ first_reply (end_rows_on x.now c.now) }
{
    let no_review = is_review_step(c) && !x.ended && !x.loaded;
    let still_runs = is_close(c) && x.started && !x.ended;
    first_row(&[
        when(no_review || still_runs, Refusal::NotFinished),
        when(is_close(c) && x.ended && !x.saved, Refusal::Unsaved),
        when(is_for_beginning(c) && x.loading, Refusal::Loading),
    ])
}

/// The rows by the note, the clock, the rules of the game and the review.
pub(super) fn game_reply(
    x: &Facts,
    broken: Option<Rule>,
    review: Option<ReviewError>,
    c: &Command,
) -> Option<Reply>
    ensures { result ≡ first_reply (game_rows_on x.now broken review c.now) }
{
    let no_act = is_act(c) && x.paused;
    let no_pause = is_pause(c) && (!x.timed || x.paused || x.ended);
    let no_resume = is_resume(c) && !x.paused;
    let no_card = is_beyond(asked_order(c), x.cards);
    let no_seat = is_beyond(asked_shadow(c), usize::from(x.players));
    first_row(&[
        when(is_long_note(c), Refusal::NoteTooLong),
        when(no_card, Refusal::NoSuchCard),
        when(no_act || no_pause || no_resume, Refusal::TimerState),
        broken_row(broken),
        when(is_note(c) && x.ended, Refusal::Rule(Rule::GameOver)),
        when(no_seat, Refusal::Rule(Rule::NoSuchSeat)),
        review_row(review),
    ])
}

fn broken_row(broken: Option<Rule>) -> Option<Reply>
    ensures { result ≡ for_some refusal.Rule broken }
{
    let rule = broken?;
    Some(Reply::Refused(Refusal::Rule(rule)))
}

fn review_row(review: Option<ReviewError>) -> Option<Reply>
    ensures { result ≡ for_some refusal.Review review }
{
    let error = review?;
    Some(Reply::Refused(Refusal::Review(error)))
}
