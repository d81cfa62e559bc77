//! Which row of the table of refusals is the first that holds?

mod game;
mod places;
mod serial;

ghost use Rattle.std.specs.Prelude.{◌≡◌};
ghost use Rattle.hb_club.specs.TableRefusals.{first_reply, is_beyond, when};
ghost use Rattle.hb_refusals.specs.FactRows.{rows_on};

use crate::facts::Facts;
use hb_club::{Entry, Refusal, Reply};
use hb_review::ReviewError;
use hb_rules::Rule;

/// The reply of the first row that holds; `None` if none does, so that the entry is to be done.
///
/// It is given what is kept for the entry's number, as the reply that the entry gets of it, and for
/// how many numbers of the member a reply is kept: at the latest table, and nothing if the entry is
/// for another. `broken` is the rule that its action breaks in the game, and `review` the cause for
/// which the review refuses its step.
pub fn first_reply(
    x: &Facts,
    kept: Option<Reply>,
    count: usize,
    broken: Option<Rule>,
    review: Option<ReviewError>,
    e: &Entry,
) -> Option<Reply>
    ensures { result ≡ first_reply (rows_on x.now kept count broken review e.now) }
{
    serial::serial_reply(x, kept, count, e)
        .or(places::start_reply(x, &e.command))
        .or(places::seat_reply(x, &e.command))
        .or(game::end_reply(x, &e.command))
        .or(game::game_reply(x, broken, review, &e.command))
}

/// The first of these rows that holds.
fn first_row(rows: &[Option<Reply>]) -> Option<Reply>
    ensures { result ≡ first_reply rows.now }
{
    for row in rows {
        if row.is_some() {
            return *row;
        }
    }
    None
}

/// A row that refuses if something is so.
fn when(holds: bool, why: Refusal) -> Option<Reply>
    ensures { result ≡ when holds why }
{
    if holds {
        Some(Reply::Refused(why))
    } else {
        None
    }
}

/// Whether a number is asked for, and is not below the limit.
fn is_beyond(asked: Option<u8>, limit: usize) -> bool
    ensures { result ≡ is_beyond asked limit }
{
    match asked {
        Some(n) => usize::from(n) >= limit,
        None => false,
    }
}
