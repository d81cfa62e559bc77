//! Which texts say how a game stands?

ghost use Rattle.std.specs.Prelude.{◌≡◌, ◌≤◌, [], ◌∷◌, ◌++◌, OnOk, map};
ghost use Rattle.std.specs.List.{range_with_len};
ghost use Rattle.hb_rules.specs.Observed.{observed};
ghost use Rattle.hb_wire.specs.Lines.{state_line as state_line_of};
ghost use Rattle.hb_game_lines.specs.HandLines.{hand_line_of};
ghost use Rattle.hb_game_lines.specs.Standing.{seen_state};
ghost use Rattle.hb_talk.specs.Streams.{standing_lines};
ghost use Rattle.hb_view.specs.StreamClocks.{clock_if as clock_if_of, clock_texts};

use crate::clocks::Clock;
use crate::texts::push_line;
use hb_game_lines::{hand_line, state_line};
use hb_io::{Text, Texts};
use hb_rules::MOST_PLAYERS;
use hb_sight::Blind;
use hb_turns::Game;
use hb_wire::WireLine;
use std::alloc::{AllocError, Global};

/// The clock of a table, if the table is timed.
pub(crate) fn clock_if(timed: bool, clock: Option<Clock>) -> Option<Clock>
    ensures { result ≡ clock_if_of timed clock }
{
    if timed { clock } else { None }
}

/// Appends the text of a clock, if there is one: the banks of the first seats at a moment.
pub(crate) fn push_clock(
    out: &mut Texts,
    alloc: Global,
    clock: Option<Clock>,
    seats: u8,
    moment: u64,
) -> Result<(), AllocError>
    requires { seats ≤ MOST_PLAYERS }
    ensures { OnOk result (out.new ≡ out.old ++ clock_texts clock seats moment) }
{
    let Some(clock) = clock else {
        return Ok(());
    };
    let line = WireLine::Clock {
        banks: clock.banks_at(seats, moment),
        moment,
        running: clock.running_seat(),
    };
    push_line(out, alloc, &line)
}

/// Appends the text of a game's state.
pub(crate) fn push_state(
    out: &mut Texts,
    alloc: Global,
    blind: Blind,
    game: &Game,
) -> Result<(), AllocError>
    ensures { OnOk result
        (out.new ≡ out.old ++ state_line_of (seen_state (observed blind.bits game.now)) ∷ []) }
{
    let text = state_line(alloc, game)?;
    out.push(Text::from_string(text))
}

/// Appends the texts of all hands, in order of seats.
fn push_hands(out: &mut Texts, alloc: Global, blind: Blind, game: &Game) -> Result<(), AllocError>
    ensures { OnOk result (out.new
        ≡ out.old ++ map (hand_line_of (observed blind.bits game.now))
        (range_with_len 0 game.now.setup.players)) }
{
    for seat in 0..game.players() {
        let text = hand_line(alloc, game, blind, seat)?;
        out.push(Text::from_string(text))?;
    }
    Ok(())
}

/// Appends the texts of how a game stands, with that of a clock at a moment if there is one.
pub(crate) fn push_standing(
    out: &mut Texts,
    alloc: Global,
    blind: Blind,
    game: &Game,
    clock: Option<Clock>,
    moment: u64,
) -> Result<(), AllocError>
    ensures { OnOk result (out.new
        ≡ out.old ++ standing_lines (observed blind.bits game.now)
        (clock_texts clock game.now.setup.players moment)) }
{
    push_state(out, alloc, blind, game)?;
    push_clock(out, alloc, clock, game.players(), moment)?;
    push_hands(out, alloc, blind, game)
}
