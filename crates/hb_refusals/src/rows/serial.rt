//! The rows by serial and number.

ghost use Rattle.std.specs.Prelude.{◌≡◌};
ghost use Rattle.hb_club.specs.TableRefusals.{first_reply};
ghost use Rattle.hb_refusals.specs.FactRows.{serial_rows_on};

use super::{first_row, when};
use crate::command_kinds::{is_open, number_limit, opens_next};
use crate::facts::Facts;
use hb_club::{Entry, Refusal, Reply};

/// The kept reply stands in the place of [`Refusal::NumberReused`].
pub(super) fn serial_reply(x: &Facts, kept: Option<Reply>, count: usize, e: &Entry) -> Option<Reply>
    ensures { result ≡ first_reply (serial_rows_on x.now kept count e.now) }
{
    let here = e.table == x.latest;
    let is_full = number_limit(&e.command) <= count;
    let is_closed = here && !x.standing;
    let is_unopened = x.latest < e.table && !opens_next(x.latest, e);
    let stands = here || x.standing;
    first_row(&[
        when(e.table < x.latest, Refusal::OldTable(x.latest)),
        kept,
        when(here && is_full, Refusal::RequestLimit),
        when(is_closed || is_unopened, Refusal::NoTable),
        when(is_open(&e.command) && stands, Refusal::TableOpen),
    ])
}
