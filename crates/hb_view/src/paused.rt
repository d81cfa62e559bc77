//! What is written of a pause and of its end?

ghost use Rattle.std.specs.Prelude.{◌≡◌, ◌≤◌, ◌++◌, ◌∷◌, OnOk};
ghost use Rattle.hb_club.specs.declared.items.What.TheVariants as what;
ghost use Rattle.hb_wire.specs.WireLine.{line_text};
ghost use Rattle.hb_view.specs.StreamClocks.{clock_texts};
ghost use Rattle.hb_view.specs.Writing.{Writes};

use crate::acted::clock_after;
use crate::clocks::Clock;
use crate::cursors::Cursor;
use crate::standing::push_clock;
use crate::texts::push_line;
use hb_club::Answered;
use hb_io::{Name, Texts};
use hb_rules::MOST_PLAYERS;
use hb_timer::TimerCall;
use hb_wire::WireLine;
use std::alloc::{AllocError, Global};

/// Appends a line and the text of the clock, if there is one.
fn push_with_clock(
    out: &mut Texts,
    alloc: Global,
    line: &WireLine,
    clock: Option<Clock>,
    seats: u8,
    moment: u64,
) -> Result<(), AllocError>
    requires { seats ≤ MOST_PLAYERS }
    ensures { OnOk result
        (out.new ≡ out.old ++ line_text line.now ∷ clock_texts clock seats moment) }
{
    push_line(out, alloc, line)?;
    push_clock(out, alloc, clock, seats, moment)
}

/// Writes a pause.
pub(crate) fn write_paused(
    out: &mut Texts,
    alloc: Global,
    a: &Answered,
    next: &mut Cursor,
    by: Name,
    moment: u64,
) -> Result<(), AllocError>
    ensures { OnOk result (Writes a.now (record { moment = moment; what = what.Paused by })
        next.old next.new out.old out.new) }
{
    let line = WireLine::Paused { by };
    let Some(whole) = &a.game else {
        return push_line(out, alloc, &line);
    };
    let clock = clock_after(next.clock, TimerCall::Pauses(moment));
    push_with_clock(out, alloc, &line, clock, whole.players(), moment)?;
    next.clock = clock;
    Ok(())
}

/// Writes the end of a pause.
pub(crate) fn write_resumed(
    out: &mut Texts,
    alloc: Global,
    a: &Answered,
    next: &mut Cursor,
    by: Name,
    moment: u64,
) -> Result<(), AllocError>
    ensures { OnOk result (Writes a.now (record { moment = moment; what = what.Resumed by })
        next.old next.new out.old out.new) }
{
    let line = WireLine::Resumed { by };
    let Some(whole) = &a.game else {
        return push_line(out, alloc, &line);
    };
    let clock = clock_after(next.clock, TimerCall::Resumes(moment));
    push_with_clock(out, alloc, &line, clock, whole.players(), moment)?;
    next.clock = clock;
    Ok(())
}
