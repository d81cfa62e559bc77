//! What is done for the words and the input?

ghost use Rattle.std.specs.Prelude.{◌≡◌, ⊤, IfErr, IfOk, IsErrOf, IsTrue};
ghost use Rattle.std.specs.Io.KnownBytes.{IsAtEnd};
ghost use Rattle.hb_io.specs.Causes.{Rose};
ghost use Rattle.hb_house.specs.KeeperSteps.{Tells};
ghost use Rattle.hb_cli.specs.Asked.{AsksNoGames, AsksNoScript, ReadsNothing, AsksToRead, asked};
ghost use Rattle.hb_cli.specs.Statuses.{HasRead, IsRefused, IsSilent, status_after};
ghost use Rattle.hb_cli.specs.Works.{Stops, Works};
ghost use Rattle.hb_cli.specs.Written.{sent};

use crate::games::games;
use crate::makes::make;
use crate::replays::replay;
use crate::scripts::script;
use crate::status::Stop;
use hb_io::{Sink, Source};
use hb_keeper::Keeper;
use hb_words::{Command, command};
use std::alloc::Global;

/// Does what the words ask for. It answers whether the keeper met a fault at a line of the clerk,
/// which ends no script, or why the work stopped.
pub fn work<S: Source, O: Sink, K: Keeper>(
    alloc: Global,
    words: &[&str],
    source: &mut S,
    out: &mut O,
    keeper: &mut K,
) -> Result<bool, Stop>
    ensures ok { IfOk result (λ faulted. Works (asked words.now (S.left source.old))
        (Tells (K.tells keeper.old) (K.plan keeper.old))
        (Tells (K.tells keeper.new) (K.plan keeper.new)) (K.is_sure keeper.new) faulted
        (sent O.held O.faults out.old out.new)) }
    ensures stop { IfErr result (Stops (asked words.now (S.left source.old))
        (Tells (K.tells keeper.old) (K.plan keeper.old))
        (Tells (K.tells keeper.new) (K.plan keeper.new)) (K.is_sure keeper.new)
        (sent O.held O.faults out.old out.new)) }
    ensures end { HasRead (status_after result)
        → AsksToRead (asked words.now (S.left source.old)) (λ bytes. ⊤)
        → IsAtEnd (S.left source.new) }
    ensures unread { ReadsNothing (asked words.now (S.left source.old)) → source.new ≡ source.old }
    ensures kept { IsSilent (status_after result) → out.new ≡ out.old }
    ensures no_call { IsSilent (status_after result) → keeper.new ≡ keeper.old }
    ensures no_output { IsRefused (status_after result)
        → AsksNoScript (asked words.now (S.left source.old)) → out.new ≡ out.old }
    ensures keeper { AsksNoScript (asked words.now (S.left source.old))
        → AsksNoGames (asked words.now (S.left source.old)) → keeper.new ≡ keeper.old }
    ensures sure { K.is_sure keeper.new → K.is_sure keeper.old }
    ensures failed { IfOk result (λ faulted. IsTrue faulted
        → Rose (K.faults keeper.old) (K.faults keeper.new)) }
    ensures read_fault { IsErrOf result Stop.ReadFault
        → Rose (S.faults source.old) (S.faults source.new) }
    ensures keeper_fault { IsErrOf result Stop.KeeperFault
        → Rose (K.faults keeper.old) (K.faults keeper.new) }
    ensures cause { IsErrOf result Stop.WriteFault → Rose (O.faults out.old) (O.faults out.new) }
{
    let command = match command(alloc, words) {
        Ok(Some(command)) => command,
        Ok(None) => return Err(Stop::Usage),
        Err(_) => return Err(Stop::NoMemory),
    };
    match &command {
        Command::Replay(command) => match replay(alloc, *command, source, out) {
            Ok(()) => Ok(false),
            Err(stop) => Err(stop),
        },
        Command::Script { .. } => script(alloc, source, out, keeper),
        Command::Games { name, .. } => match games(alloc, name, out, keeper) {
            Ok(()) => Ok(false),
            Err(stop) => Err(stop),
        },
        Command::Make { tables, seed } => match make(alloc, *tables, *seed, out) {
            Ok(()) => Ok(false),
            Err(stop) => Err(stop),
        },
    }
}
