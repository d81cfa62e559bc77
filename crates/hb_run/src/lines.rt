//! What does one line do?

ghost use Rattle.std.specs.Prelude.{◌≡◌, ◌≤◌, ◌⊎◌, ℕ, IfErr, IsErrOf, IsTrue, OnOk};
ghost use Rattle.hb_house.specs.KeeperSteps.{Tells};
ghost use Rattle.hb_io.specs.Causes.{Rose};
ghost use Rattle.hb_talk.specs.Scripts.{HasConnection};
ghost use Rattle.hb_run.specs.HeldRuns.{FromEach, IsAt, has_failed};
ghost use Rattle.hb_run.specs.RunLines.{RunState};
ghost use Rattle.hb_run.specs.RunSteps.{AnyTelling, RunsLine, StopsLine};

use crate::texts::{with_texts, write_fault, write_report, write_sent};
use crate::{RunEnd, ScriptRun};
use hb_house::{ClerkError, Hall, Report, clerk};
use hb_io::{Got, Sink, Texts};
use hb_keeper::Keeper;
use hb_talk::{MOST_CONNECTION, ScriptLine, TurnError};
use std::alloc::Global;

impl ScriptRun {
    /// Runs one line.
    pub(crate) fn run_line<H: Hall, K: Keeper, O: Sink>(
        &mut self,
        alloc: Global,
        hall: &mut H,
        keeper: &mut K,
        line: &ScriptLine,
        out: &mut O,
    ) -> Result<(), RunEnd>
        requires { HasConnection line.now }
        ensures ok { OnOk result (FromEach (IsAt (H.stands hall.old)
            (Tells (K.tells keeper.old) (K.plan keeper.old)) (H.house hall.old) self.old)
            (K.is_sure keeper.new) (λ s. RunsLine (IsAt (H.stands hall.new)
            (Tells (K.tells keeper.new) (K.plan keeper.new)) (H.house hall.old) self.new)
            (H.house hall.old) (H.count hall.old) (H.alone hall.old) line.now s
            (O.held out.old) (O.held out.new))) }
        ensures err { IfErr result (λ why. FromEach (IsAt (H.stands hall.old)
            (Tells (K.tells keeper.old) (K.plan keeper.old)) (H.house hall.old) self.old)
            (K.is_sure keeper.new) (λ s. StopsLine (IsAt (H.stands hall.new)
            (Tells (K.tells keeper.new) (K.plan keeper.new)) (H.house hall.old) self.new)
            (H.house hall.old) (H.count hall.old) (H.alone hall.old) line.now s
            (O.held out.old) (O.held out.new) why)) }
        ensures sure { K.is_sure keeper.new → K.is_sure keeper.old }
        ensures later { K.faults keeper.old ≤ K.faults keeper.new }
        ensures fault { IsTrue (has_failed self.new) → IsTrue (has_failed self.old)
            ⊎ Rose (K.faults keeper.old) (K.faults keeper.new) }
        ensures cause { IsErrOf result RunEnd.WriteFault
            → Rose (O.faults out.old) (O.faults out.new) }
        ensures same { OnOk result (O.faults out.new ≡ O.faults out.old) }
        ensures worn { IsErrOf result RunEnd.Worn → IsTrue (H.lobby_mark hall.new)
            ⊎ ((room : ℕ) × IsTrue (H.mark hall.new room)) }
        ensures house { H.house hall.new ≡ H.house hall.old }
        ensures alone { H.alone hall.new ≡ H.alone hall.old }
        ensures count { H.count hall.new ≡ H.count hall.old }
    {
        match line {
            ScriptLine::Clerk { moment } => self.tend(alloc, hall, keeper, *moment, out),
            ScriptLine::Says { moment, conn, got } => {
                self.say(alloc, hall, *moment, *conn, got, out)
            }
        }
    }

    /// Takes a turn of a connection's session, and writes its texts.
    fn say<H: Hall, O: Sink>(
        &mut self,
        alloc: Global,
        hall: &mut H,
        moment: u64,
        conn: u32,
        got: &Got,
        out: &mut O,
    ) -> Result<(), RunEnd>
        requires { conn ≤ MOST_CONNECTION }
        ensures ok { OnOk result ((s : RunState)
            → IsAt (H.stands hall.old) AnyTelling (H.house hall.old) self.old s
            → RunsLine (IsAt (H.stands hall.new) AnyTelling (H.house hall.old) self.new)
            (H.house hall.old) (H.count hall.old) (H.alone hall.old)
            (ScriptLine.Says moment conn got.now) s (O.held out.old) (O.held out.new)) }
        ensures err { IfErr result (λ why. (s : RunState)
            → IsAt (H.stands hall.old) AnyTelling (H.house hall.old) self.old s
            → StopsLine (IsAt (H.stands hall.new) AnyTelling (H.house hall.old) self.new)
            (H.house hall.old) (H.count hall.old) (H.alone hall.old)
            (ScriptLine.Says moment conn got.now) s (O.held out.old) (O.held out.new) why) }
        ensures failed { has_failed self.new ≡ has_failed self.old }
        ensures cause { IsErrOf result RunEnd.WriteFault
            → Rose (O.faults out.old) (O.faults out.new) }
        ensures same { OnOk result (O.faults out.new ≡ O.faults out.old) }
        ensures worn { IsErrOf result RunEnd.Worn → IsTrue (H.lobby_mark hall.new)
            ⊎ ((room : ℕ) × IsTrue (H.mark hall.new room)) }
        ensures house { H.house hall.new ≡ H.house hall.old }
        ensures alone { H.alone hall.new ≡ H.alone hall.old }
        ensures count { H.count hall.new ≡ H.count hall.old }
    {
        let mut texts = Texts::new(alloc);
        match self.desks[conn as usize].turn(alloc, hall, moment, got, &mut texts) {
            Ok(_) => {
                let texts = texts.as_slice();
                self.bytes = with_texts(self.bytes, texts);
                write_sent(out, alloc, conn, texts)
            }
            Err(TurnError::Worn) => Err(RunEnd::Worn),
            Err(TurnError::NoMemory) => Err(RunEnd::NoMemory),
        }
    }

    /// Has the clerk go through the rooms, and writes its report, or that the keeper failed.
    fn tend<H: Hall, K: Keeper, O: Sink>(
        &mut self,
        alloc: Global,
        hall: &mut H,
        keeper: &mut K,
        moment: u64,
        out: &mut O,
    ) -> Result<(), RunEnd>
        ensures ok { OnOk result (FromEach (IsAt (H.stands hall.old)
            (Tells (K.tells keeper.old) (K.plan keeper.old)) (H.house hall.old) self.old)
            (K.is_sure keeper.new) (λ s. RunsLine (IsAt (H.stands hall.new)
            (Tells (K.tells keeper.new) (K.plan keeper.new)) (H.house hall.old) self.new)
            (H.house hall.old) (H.count hall.old) (H.alone hall.old) (ScriptLine.Clerk moment) s
            (O.held out.old) (O.held out.new))) }
        ensures err { IfErr result (λ why. FromEach (IsAt (H.stands hall.old)
            (Tells (K.tells keeper.old) (K.plan keeper.old)) (H.house hall.old) self.old)
            (K.is_sure keeper.new) (λ s. StopsLine (IsAt (H.stands hall.new)
            (Tells (K.tells keeper.new) (K.plan keeper.new)) (H.house hall.old) self.new)
            (H.house hall.old) (H.count hall.old) (H.alone hall.old) (ScriptLine.Clerk moment) s
            (O.held out.old) (O.held out.new) why)) }
        ensures sure { K.is_sure keeper.new → K.is_sure keeper.old }
        ensures later { K.faults keeper.old ≤ K.faults keeper.new }
        ensures fault { IsTrue (has_failed self.new) → IsTrue (has_failed self.old)
            ⊎ Rose (K.faults keeper.old) (K.faults keeper.new) }
        ensures cause { IsErrOf result RunEnd.WriteFault
            → Rose (O.faults out.old) (O.faults out.new) }
        ensures same { OnOk result (O.faults out.new ≡ O.faults out.old) }
        ensures worn { IsErrOf result RunEnd.Worn → (room : ℕ) × IsTrue (H.mark hall.new room) }
        ensures house { H.house hall.new ≡ H.house hall.old }
        ensures alone { H.alone hall.new ≡ H.alone hall.old }
        ensures count { H.count hall.new ≡ H.count hall.old }
    {
        let mut report = Report::default();
        match clerk(alloc, hall, keeper, moment, &mut report) {
            Ok(()) => write_report(out, alloc, &report),
            Err(ClerkError::KeeperFault) => {
                self.failed = true;
                write_fault(out)
            }
            Err(ClerkError::KeyDiffers(id)) => Err(RunEnd::KeyDiffers(id)),
            Err(ClerkError::UsedUp) => Err(RunEnd::UsedUp),
            Err(ClerkError::Worn) => Err(RunEnd::Worn),
            Err(ClerkError::NoMemory) => Err(RunEnd::NoMemory),
        }
    }
}
