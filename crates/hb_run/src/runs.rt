//! What do lines do, one after the other?

ghost use Rattle.std.specs.Prelude.{◌≡◌, ◌≤◌, ℕ, All, IfErr, IfOk, IsErrOf, IsTrue, OnOk, ◌⊎◌};
ghost use Rattle.hb_club.specs.Fronts.{Fronts, House};
ghost use Rattle.hb_house.specs.ClerkRounds.{AtEach};
ghost use Rattle.hb_house.specs.KeeperSteps.{Telling, Tells};
ghost use Rattle.hb_io.specs.Causes.{Rose};
ghost use Rattle.hb_talk.specs.Scripts.{HasConnection};
ghost use Rattle.hb_run.specs.HeldRuns.{EndsAt, FromEach, Holds, IsAt, StopsAt, counted_bytes, has_failed};
ghost use Rattle.hb_run.specs.RunLines.{first_state};
ghost use Rattle.hb_run.specs.ScriptRuns.{RunsAll, RunsSome};

use crate::{RunEnd, ScriptRun};
use hb_desk::Desk;
use hb_house::Hall;
use hb_io::Sink;
use hb_keeper::Keeper;
use hb_talk::{MOST_CONNECTION, ScriptLine};
use std::alloc::{AllocError, Global};

impl ScriptRun {
    /// A run before its first line.
    pub fn new(alloc: Global) -> Result<Self, AllocError>
        ensures { IfOk result (λ run. (h : House) (f : Fronts) (c : Telling)
            → Holds h run (first_state f c)) }
    {
        let mut desks = Vec::new(alloc);
        for _ in 0..MOST_CONNECTION + 1 {
            desks.push(Desk::new())?;
        }
        Ok(ScriptRun {
            desks,
            failed: false,
            bytes: 0,
        })
    }

    /// Whether the keeper met a fault at a line of the clerk.
    pub fn failed(&self) -> bool
        ensures { result ≡ has_failed self.now }
    {
        self.failed
    }

    /// How many bytes the texts have that the sessions sent; the greatest number if it is as many
    /// or more.
    pub fn bytes(&self) -> u64
        ensures { result ≡ counted_bytes self.now }
    {
        self.bytes
    }

    /// Runs lines in order, behind those that were run before.
    ///
    /// What a connection says is a turn of its session, and what it is sent is written at once. A
    /// line of the clerk is one call of the clerk, whose report is written; if the keeper meets a
    /// fault, that is written instead, and the run goes on.
    ///
    /// It stops at the first line that has another error: [`RunEnd::WriteFault`] only if the sink's
    /// count of faults rose, [`RunEnd::KeyDiffers`] and [`RunEnd::UsedUp`] as the keeper answered
    /// the clerk, and [`RunEnd::Worn`] only if the mark of a room, or of the lobby, is set. What
    /// was written then is what the lines before wrote; if the sink failed or memory ran out, it
    /// may be a front of that.
    pub fn run<H: Hall, K: Keeper, O: Sink>(
        &mut self,
        alloc: Global,
        hall: &mut H,
        keeper: &mut K,
        lines: &[ScriptLine],
        out: &mut O,
    ) -> Result<(), RunEnd>
        requires { All HasConnection lines.now }
        ensures ok { OnOk result (FromEach (IsAt (H.stands hall.old)
            (Tells (K.tells keeper.old) (K.plan keeper.old)) (H.house hall.old) self.old)
            (K.is_sure keeper.new) (λ s. RunsAll (IsAt (H.stands hall.new)
            (Tells (K.tells keeper.new) (K.plan keeper.new)) (H.house hall.old) self.new)
            (H.house hall.old) (H.count hall.old) (H.alone hall.old) lines.now s
            (O.held out.old) (O.held out.new))) }
        ensures err { IfErr result (λ why. FromEach (IsAt (H.stands hall.old)
            (Tells (K.tells keeper.old) (K.plan keeper.old)) (H.house hall.old) self.old)
            (K.is_sure keeper.new) (λ s. RunsSome (IsAt (H.stands hall.new)
            (Tells (K.tells keeper.new) (K.plan keeper.new)) (H.house hall.old) self.new)
            (H.house hall.old) (H.count hall.old) (H.alone hall.old) lines.now s
            (O.held out.old) (O.held out.new) why)) }
        ensures sure { K.is_sure keeper.new → K.is_sure keeper.old }
        ensures later { K.faults keeper.old ≤ K.faults keeper.new }
        ensures fault { IsTrue (has_failed self.new) → IsTrue (has_failed self.old)
            ⊎ Rose (K.faults keeper.old) (K.faults keeper.new) }
        ensures cause { IsErrOf result RunEnd.WriteFault
            → Rose (O.faults out.old) (O.faults out.new) }
        ensures same { OnOk result (O.faults out.new ≡ O.faults out.old) }
        ensures worn { IsErrOf result RunEnd.Worn → IsTrue (H.lobby_mark hall.new)
            ⊎ ((room : ℕ) × IsTrue (H.mark hall.new room)) }
        ensures house { H.house hall.new ≡ H.house hall.old }
        ensures alone { H.alone hall.new ≡ H.alone hall.old }
        ensures count { H.count hall.new ≡ H.count hall.old }
    {
        for line in lines {
            match self.run_line(alloc, hall, keeper, line, out) {
                Ok(()) => {}
                Err(e) => return Err(e),
            }
        }
        Ok(())
    }
}

/// Runs the lines of a script in order, over a hall to which others may have come before, and
/// answers whether the keeper met a fault at a line of the clerk.
///
/// It runs as [`ScriptRun::run`] does behind [`ScriptRun::new`], and stops for the same causes.
pub fn run_script<H: Hall, K: Keeper, O: Sink>(
    alloc: Global,
    hall: &mut H,
    keeper: &mut K,
    lines: &[ScriptLine],
    out: &mut O,
) -> Result<bool, RunEnd>
    requires { All HasConnection lines.now }
    ensures ok { IfOk result (λ failed. AtEach (H.stands hall.old)
        (Tells (K.tells keeper.old) (K.plan keeper.old)) (K.is_sure keeper.new)
        (λ f c. RunsAll (EndsAt (H.stands hall.new)
        (Tells (K.tells keeper.new) (K.plan keeper.new)) failed)
        (H.house hall.old) (H.count hall.old) (H.alone hall.old) lines.now (first_state f c)
        (O.held out.old) (O.held out.new))) }
    ensures err { IfErr result (λ why. AtEach (H.stands hall.old)
        (Tells (K.tells keeper.old) (K.plan keeper.old)) (K.is_sure keeper.new)
        (λ f c. RunsSome (StopsAt (H.stands hall.new)
        (Tells (K.tells keeper.new) (K.plan keeper.new)) (K.faults keeper.old)
        (K.faults keeper.new))
        (H.house hall.old) (H.count hall.old) (H.alone hall.old) lines.now (first_state f c)
        (O.held out.old) (O.held out.new) why)) }
    ensures sure { K.is_sure keeper.new → K.is_sure keeper.old }
    ensures later { K.faults keeper.old ≤ K.faults keeper.new }
    ensures fault { IfOk result (λ failed. IsTrue failed
        → Rose (K.faults keeper.old) (K.faults keeper.new)) }
    ensures cause { IsErrOf result RunEnd.WriteFault → Rose (O.faults out.old) (O.faults out.new) }
    ensures same { OnOk result (O.faults out.new ≡ O.faults out.old) }
    ensures worn { IsErrOf result RunEnd.Worn → IsTrue (H.lobby_mark hall.new)
        ⊎ ((room : ℕ) × IsTrue (H.mark hall.new room)) }
    ensures house { H.house hall.new ≡ H.house hall.old }
    ensures alone { H.alone hall.new ≡ H.alone hall.old }
    ensures count { H.count hall.new ≡ H.count hall.old }
{
    let Ok(mut run) = ScriptRun::new(alloc) else {
        return Err(RunEnd::NoMemory);
    };
    match run.run(alloc, hall, keeper, lines, out) {
        Ok(()) => Ok(run.failed()),
        Err(e) => Err(e),
    }
}
