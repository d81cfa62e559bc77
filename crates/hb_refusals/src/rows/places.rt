//! The rows by who is host, who is seated and who watches.

ghost use Rattle.std.specs.Prelude.{◌≡◌};
ghost use Rattle.hb_club.specs.TableRefusals.{first_reply};
ghost use Rattle.hb_refusals.specs.FactRows.{seat_rows_on, start_rows_on};

use super::{first_row, when};
use crate::command_kinds::{
    asked_shadow, is_for_game, is_for_gathering, is_for_host, is_for_seated, is_leave, is_sit,
    is_start, is_watch,
};
use crate::facts::Facts;
use hb_club::{Command, MOST_WATCHERS, Refusal, Reply};
use hb_rules::{FEWEST_PLAYERS, MOST_PLAYERS};

/// The rows by who is host and whether a game was started.
pub(super) fn start_reply(x: &Facts, c: &Command) -> Option<Reply>
    ensures { result ≡ first_reply (start_rows_on x.now c.now) }
{
    let has_game = x.started || x.loaded;
    let wants_game = is_for_game(c) || asked_shadow(c).is_some();
    first_row(&[
        when(is_for_host(c) && !x.host, Refusal::NotHost),
        when(is_for_gathering(c) && has_game, Refusal::Started),
        when(wants_game && !x.started, Refusal::NotStarted),
    ])
}

/// The rows by who is seated and who watches.
pub(super) fn seat_reply(x: &Facts, c: &Command) -> Option<Reply>
    ensures { result ≡ first_reply (seat_rows_on x.now c.now) }
{
    let is_full = x.seats == usize::from(MOST_PLAYERS);
    let is_crowded = MOST_WATCHERS <= x.watchers;
    let are_few = x.seats < usize::from(FEWEST_PLAYERS);
    first_row(&[
        when(is_sit(c) && is_full, Refusal::Full),
        when(is_sit(c) && x.seated, Refusal::AlreadySeated),
        when(is_for_seated(c) && !x.seated, Refusal::NotSeated),
        when(is_watch(c) && x.seated, Refusal::SeatedHere),
        when(is_sit(c) && x.watching, Refusal::WatchingHere),
        when(is_leave(c) && !x.watching, Refusal::NotWatching),
        when(is_watch(c) && !x.watching && is_crowded, Refusal::Crowded),
        when(is_start(c) && are_few, Refusal::TooFew),
    ])
}
