//! What does `script` do?

ghost use Rattle.std.specs.Prelude.{◌≡◌, ℕ, All, IfErr, IfOk, IsErrOf, IsTrue, List, OnOk};
ghost use Rattle.std.specs.Io.KnownBytes.{IsAtEnd};
ghost use Rattle.hb_io.specs.Causes.{Rose};
ghost use Rattle.hb_house.specs.KeeperSteps.{Tells};
ghost use Rattle.hb_talk.specs.Scripts.{HasConnection};
ghost use Rattle.hb_words.specs.declared.commands.Command.TheVariants.{Script as asks_script};
ghost use Rattle.hb_cli.specs.Asked.{Asked, AsksScript, IsScriptText, WithWords};
ghost use Rattle.hb_cli.specs.Statuses.{HasRead, IsSilent, status_of, stop_of_run};
ghost use Rattle.hb_cli.specs.Works.{OfScript, RanScript, Stops};
ghost use Rattle.hb_cli.specs.Written.{sent};

use crate::replays::MOST_INPUT;
use crate::status::Stop;
use hb_house::{MOST_ROOMS, PlainHall};
use hb_io::{Sink, Source, read_all};
use hb_keeper::Keeper;
use hb_run::{RunEnd, run_script};
use hb_script::{Script, read_script};
use hb_table::Room;
use std::alloc::Global;

/// Why a run stopped. No mark of a plain hall is ever set, so it is never worn.
fn stop_of(end: RunEnd) -> Stop
    ensures { result ≡ stop_of_run end }
{
    match end {
        RunEnd::WriteFault => Stop::WriteFault,
        RunEnd::KeyDiffers(id) => Stop::StoreDiffers(id),
        RunEnd::UsedUp => Stop::UsedUp,
        RunEnd::Worn | RunEnd::NoMemory => Stop::NoMemory,
    }
}

/// Begins a run of the keeper, and runs the lines of a script in a plain hall. It answers whether
/// the keeper met a fault at a line of the clerk.
fn run_all<O: Sink, K: Keeper>(
    alloc: Global,
    script: &Script,
    out: &mut O,
    keeper: &mut K,
) -> Result<bool, Stop>
    requires { All HasConnection script.now.lines }
    ensures ok { (a : Asked) → AsksScript a (IsScriptText script.now)
        → IfOk result (λ faulted. OfScript a (Tells (K.tells keeper.old) (K.plan keeper.old))
        (K.is_sure keeper.new) (λ s. RanScript (Tells (K.tells keeper.new) (K.plan keeper.new))
        s faulted (sent O.held O.faults out.old out.new))) }
    ensures stop { (a : Asked) → AsksScript a (IsScriptText script.now)
        → IfErr result (Stops a (Tells (K.tells keeper.old) (K.plan keeper.old))
        (Tells (K.tells keeper.new) (K.plan keeper.new)) (K.is_sure keeper.new)
        (sent O.held O.faults out.old out.new)) }
    ensures silent { IfErr result (λ why. IsSilent (status_of why) → ⊥) }
    ensures sure { K.is_sure keeper.new → K.is_sure keeper.old }
    ensures failed { IfOk result (λ faulted. IsTrue faulted
        → Rose (K.faults keeper.old) (K.faults keeper.new)) }
    ensures keeper_fault { IsErrOf result Stop.KeeperFault
        → Rose (K.faults keeper.old) (K.faults keeper.new) }
    ensures cause { IsErrOf result Stop.WriteFault → Rose (O.faults out.old) (O.faults out.new) }
{
    let run = match keeper.open_run() {
        Ok(run) => run,
        Err(error) => return Err(Stop::from(error)),
    };
    let Ok(mut hall) = PlainHall::<Room>::new(alloc, MOST_ROOMS, &script.shoe, run) else {
        return Err(Stop::NoMemory);
    };
    match run_script(alloc, &mut hall, keeper, script.lines.as_slice(), out) {
        Ok(faulted) => Ok(faulted),
        Err(end) => Err(stop_of(end)),
    }
}

/// Runs the script that the input is: reads all of it, begins a run of the keeper, and runs its
/// lines in a plain hall. It answers whether the keeper met a fault at a line of the clerk.
pub fn script<S: Source, O: Sink, K: Keeper>(
    alloc: Global,
    source: &mut S,
    out: &mut O,
    keeper: &mut K,
) -> Result<bool, Stop>
    ensures ok { (store : List ℕ) → WithWords (asks_script store) (S.left source.old) (λ a.
        IfOk result (λ faulted. OfScript a (Tells (K.tells keeper.old) (K.plan keeper.old))
        (K.is_sure keeper.new) (λ s. RanScript (Tells (K.tells keeper.new) (K.plan keeper.new))
        s faulted (sent O.held O.faults out.old out.new)))) }
    ensures stop { (store : List ℕ) → WithWords (asks_script store) (S.left source.old) (λ a.
        IfErr result (Stops a (Tells (K.tells keeper.old) (K.plan keeper.old))
        (Tells (K.tells keeper.new) (K.plan keeper.new)) (K.is_sure keeper.new)
        (sent O.held O.faults out.old out.new))) }
    ensures end { OnOk result (IsAtEnd (S.left source.new)) }
    ensures read { IfErr result (λ why. HasRead (status_of why) → IsAtEnd (S.left source.new)) }
    ensures kept { IfErr result (λ why. IsSilent (status_of why) → out.new ≡ out.old) }
    ensures no_call { IfErr result (λ why. IsSilent (status_of why) → keeper.new ≡ keeper.old) }
    ensures sure { K.is_sure keeper.new → K.is_sure keeper.old }
    ensures failed { IfOk result (λ faulted. IsTrue faulted
        → Rose (K.faults keeper.old) (K.faults keeper.new)) }
    ensures read_fault { IsErrOf result Stop.ReadFault
        → Rose (S.faults source.old) (S.faults source.new) }
    ensures keeper_fault { IsErrOf result Stop.KeeperFault
        → Rose (K.faults keeper.old) (K.faults keeper.new) }
    ensures cause { IsErrOf result Stop.WriteFault → Rose (O.faults out.old) (O.faults out.new) }
{
    let input = read_all(alloc, source, MOST_INPUT)?;
    let script = match read_script(alloc, input.as_slice()) {
        Ok(script) => script,
        Err(error) => return Err(Stop::from(error)),
    };
    run_all(alloc, &script, out, keeper)
}
