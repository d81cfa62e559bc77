//! What is written of an act?

ghost use Rattle.std.specs.Prelude.{◌≡◌, ◌≤◌, ◌<◌, ◌^◌, ◌-◌, ◌++◌, ◌∷◌, None, IfOk, OnOk};
ghost use Rattle.hb_rules.specs.Positions.{after, rule};
ghost use Rattle.hb_club.specs.declared.items.What.TheVariants as what;
ghost use Rattle.hb_club.specs.TableClock.{act_call as act_call_of};
ghost use Rattle.hb_club.specs.TableRecord.{HasSeat};
ghost use Rattle.hb_club.specs.Views.{blind_of};
ghost use Rattle.hb_view.specs.StreamClocks.{clock_if as clock_if_of, clock_texts, ClockMoves};
ghost use Rattle.hb_view.specs.GameTexts.{piece_lines};
ghost use Rattle.hb_view.specs.Writing.{Writes};

use crate::clocks::Clock;
use crate::cursors::Cursor;
use crate::events::push_act_events;
use crate::standing::{clock_if, push_standing};
use hb_club::{Answered, Viewer};
use hb_io::Texts;
use hb_rules::{Act, MOST_PLAYERS};
use hb_sight::{Blind, next_events};
use hb_timer::TimerCall;
use hb_turns::Game;
use std::alloc::{AllocError, Global};

/// The set of one seat, if it is a seat of some game.
fn blind_seat(seat: u8) -> Blind
    ensures { seat < MOST_PLAYERS → result.bits ≡ 2 ^ seat }
{
    if seat < MOST_PLAYERS {
        Blind { bits: 1 << seat }
    } else {
        Blind::none()
    }
}

/// The set of the first seats.
fn blind_all(players: u8) -> Blind
    requires { players ≤ MOST_PLAYERS }
    ensures { result.bits ≡ 2 ^ players - 1 }
{
    Blind {
        bits: (1 << players) - 1,
    }
}

/// The seats whose cards a viewer does not see, in a game of so many players.
pub(crate) fn blind_for(viewer: Viewer, players: u8) -> Blind
    requires { players ≤ MOST_PLAYERS }
    ensures { HasSeat viewer → result.bits ≡ blind_of viewer players }
{
    match viewer {
        Viewer::Seat(seat) => blind_seat(seat),
        Viewer::Watcher { shadow } => match shadow {
            Some(seat) => blind_seat(seat),
            None => Blind::none(),
        },
        Viewer::Guest => blind_all(players),
    }
}

/// The call of the clock by the act that was the last one of a game.
fn act_call(game: &Game, moment: u64) -> TimerCall
    ensures { result ≡ act_call_of game.now.setup game.now.past moment }
{
    if game.ended().is_some() {
        TimerCall::Stops(moment)
    } else {
        TimerCall::TurnEnds(moment)
    }
}

/// A clock after a call, if there is a clock.
pub(crate) fn clock_after(clock: Option<Clock>, call: TimerCall) -> Option<Clock>
    ensures { ClockMoves call clock result }
{
    match clock {
        Some(clock) => Some(clock.after(call)),
        None => None,
    }
}

/// Appends the texts of an act, by which the game goes on, and of how it then stands. The game has
/// so many players. It answers the clock after the act.
fn push_act(
    out: &mut Texts,
    alloc: Global,
    viewer: Viewer,
    players: u8,
    game: &mut Game,
    clock: Option<Clock>,
    act: Act,
    moment: u64,
) -> Result<Option<Clock>, AllocError>
    requires legal { rule game.old act ≡ None }
    requires few { players ≤ MOST_PLAYERS }
    ensures next { OnOk result (game.new ≡ after game.old act) }
    ensures clock { IfOk result (λ new.
        ClockMoves (act_call_of game.old.setup (act ∷ game.old.past) moment) clock new) }
    ensures texts { HasSeat viewer → players ≡ game.old.setup.players → IfOk result (λ new. out.new
        ≡ out.old ++ piece_lines (blind_of viewer game.old.setup.players) (after game.old act)
        (clock_texts (clock_if_of game.old.setup.options.timed new)
        game.old.setup.players moment)) }
{
    let events = next_events(game, act);
    let blind = blind_for(viewer, players);
    push_act_events(out, alloc, blind, events)?;
    let clock = clock_after(clock, act_call(game, moment));
    let shown = clock_if(game.options().timed, clock);
    push_standing(out, alloc, blind, game, shown, moment)?;
    Ok(clock)
}

/// Writes an act.
pub(crate) fn write_acted(
    out: &mut Texts,
    alloc: Global,
    a: &Answered,
    next: &mut Cursor,
    act: Act,
    moment: u64,
) -> Result<(), AllocError>
    ensures { OnOk result (Writes a.now (record { moment = moment; what = what.Acted act })
        next.old next.new out.old out.new) }
{
    let Some(whole) = &a.game else {
        return Ok(());
    };
    let players = whole.players();
    let Some(game) = &mut next.game else {
        return Ok(());
    };
    if game.broken(act.who, act.action).is_some() {
        return Ok(());
    }
    let viewer = next.viewer;
    next.clock = push_act(out, alloc, viewer, players, game, next.clock, act, moment)?;
    Ok(())
}
