//! What does the program do with its words, its input, its two outputs and its keeper?

ghost use Rattle.std.specs.Prelude.{◌≡◌, ◌≢◌, ◌⊎◌, ⊤, false};
ghost use Rattle.std.specs.Io.KnownBytes.{IsAtEnd};
ghost use Rattle.hb_io.specs.Causes.{Rose};
ghost use Rattle.hb_keeper.specs.KeptGames.{Content};
ghost use Rattle.hb_house.specs.KeeperSteps.{Tells};
ghost use Rattle.hb_house.specs.KeptOnce.{NoLaterRun};
ghost use Rattle.hb_cli.specs.declared.status.Stop.{Stop as Cause};
ghost use Rattle.hb_cli.specs.declared.status.Stop.TheVariants as stop_is;
ghost use Rattle.hb_cli.specs.Asked.{AsksNoGames, AsksNoScript, AsksToRead, ReadsNothing, asked};
ghost use Rattle.hb_cli.specs.Statuses.{HasRead, IsRefused, IsSilent, line_of};
ghost use Rattle.hb_cli.specs.Works.{FailsOut, Stops, Works};
ghost use Rattle.hb_cli.specs.Written.{sent, FailsIn, FailsLine, SaysLine, Writes};

use crate::reports::report;
use crate::status::{Status, Stop};
use crate::works::work;
use hb_io::{Sink, Source};
use hb_keeper::Keeper;
use std::alloc::Global;

/// Does what the words ask for. A command that reads reads the source to its end. What is asked for
/// is written to `out`, and one line to `err` that says why it is not, or the usage.
///
/// Words are those of the command line without the program's name, and the keeper is that of the
/// store that they name. If a source or a sink does not tell its bytes, or a keeper its content,
/// the clauses say nothing of these; what they say of words, causes and counts of faults holds of
/// any. `NoMemory` alone may come at any time.
pub fn run<S: Source, O: Sink, E: Sink, K: Keeper>(
    alloc: Global,
    words: &[&str],
    source: &mut S,
    out: &mut O,
    err: &mut E,
    keeper: &mut K,
) -> Status
    // Ok: the work is done, and nothing is said.
    ensures ok { result ≡ Status.Ok → Works (asked words.now (S.left source.old))
        (Tells (K.tells keeper.old) (K.plan keeper.old))
        (Tells (K.tells keeper.new) (K.plan keeper.new)) (K.is_sure keeper.new) false
        (sent O.held O.faults out.old out.new) }
    ensures quiet { result ≡ Status.Ok → err.new ≡ err.old }

    // Any other status except `WriteFault`: its cause holds, what was done by then is so, and the
    // line of the cause is written to `err`. At those before the work begins nothing is written to
    // `out` and the keeper is not called; except of a script, nothing is written at any of them.
    // At `Usage` nothing is read.
    ensures stop { IsRefused result
        → (why : Cause) × Stops (asked words.now (S.left source.old))
        (Tells (K.tells keeper.old) (K.plan keeper.old))
        (Tells (K.tells keeper.new) (K.plan keeper.new)) (K.is_sure keeper.new)
        (sent O.held O.faults out.old out.new) why
        × SaysLine (sent E.held E.faults err.old err.new) result why }
    ensures kept { IsSilent result → out.new ≡ out.old }
    ensures no_call { IsSilent result → keeper.new ≡ keeper.old }
    ensures no_output { IsRefused result → AsksNoScript (asked words.now (S.left source.old))
        → out.new ≡ out.old }
    ensures unread { result ≡ Status.Usage → source.new ≡ source.old }
    ensures read_fault { result ≡ Status.ReadFault
        → Rose (S.faults source.old) (S.faults source.new) }
    ensures keeper_fault { result ≡ Status.KeeperFault
        → Rose (K.faults keeper.old) (K.faults keeper.new) }

    // A store that tells its content, in which no game is of a run behind its last one, is never
    // found to differ.
    ensures sound { (c : Content) → K.tells keeper.old c → NoLaterRun c → K.is_sure keeper.new
        → result ≢ Status.StoreDiffers }

    // `WriteFault`: `out` failed, and the line that says so is written to `err`, or `err` failed in
    // it as well; or `err` failed in the line of another cause.
    ensures write_fault { result ≡ Status.WriteFault
        → (FailsOut (asked words.now (S.left source.old))
        (Tells (K.tells keeper.old) (K.plan keeper.old))
        (Tells (K.tells keeper.new) (K.plan keeper.new)) (K.is_sure keeper.new)
        (sent O.held O.faults out.old out.new)
        × Rose (O.faults out.old) (O.faults out.new)
        × (Writes (sent E.held E.faults err.old err.new) (line_of stop_is.WriteFault)
        ⊎ FailsIn (sent E.held E.faults err.old err.new) (line_of stop_is.WriteFault)))
        ⊎ ((why : Cause) × Stops (asked words.now (S.left source.old))
        (Tells (K.tells keeper.old) (K.plan keeper.old))
        (Tells (K.tells keeper.new) (K.plan keeper.new)) (K.is_sure keeper.new)
        (sent O.held O.faults out.old out.new) why
        × FailsLine (sent E.held E.faults err.old err.new) why
        × (AsksNoScript (asked words.now (S.left source.old)) → out.new ≡ out.old)) }

    // At any status: what is read, and which keeper is called.
    ensures end { HasRead result
        → AsksToRead (asked words.now (S.left source.old)) (λ bytes. ⊤)
        → IsAtEnd (S.left source.new) }
    ensures reads_nothing { ReadsNothing (asked words.now (S.left source.old))
        → source.new ≡ source.old }
    ensures keeper { AsksNoScript (asked words.now (S.left source.old))
        → AsksNoGames (asked words.now (S.left source.old)) → keeper.new ≡ keeper.old }
    ensures sure { K.is_sure keeper.new → K.is_sure keeper.old }
{
    match work(alloc, words, source, out, keeper) {
        Ok(false) => Status::Ok,
        Ok(true) => report(alloc, err, &Stop::KeeperFault),
        Err(stop) => report(alloc, err, &stop),
    }
}
