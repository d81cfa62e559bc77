//! What is written for a replay, or why is nothing?

ghost use Rattle.std.specs.Prelude.{◌≡◌, ◌⊎◌, [], IfErr, IfOk, IsErrOf, List, OnOk, ℕ};
ghost use Rattle.std.specs.Io.KnownBytes.{IsAtEnd};
ghost use Rattle.hb_io.specs.Causes.{Rose};
ghost use Rattle.hb_words.specs.declared.commands.Command.TheVariants.{Replay as asks_replay};
ghost use Rattle.hb_cli.specs.Asked.{IsStop, IsText, WithWords};
ghost use Rattle.hb_cli.specs.Statuses.{HasRead, IsRefused, status_of};
ghost use Rattle.hb_cli.specs.Written.{FailsIn, Writes, sent};

use crate::status::Stop;
use crate::texts::output;
use crate::writes::write;
use hb_io::{Bytes, Sink, Source, read_all};
use hb_replay::read;
use hb_words::ReplayCommand;
use std::alloc::Global;

/// The most bytes of input: 8 MiB (this server's limit).
pub const MOST_INPUT: usize = 8_388_608;

/// The text that a command writes for the replay that the input is, or why there is none.
fn replay_text<S: Source>(
    alloc: Global,
    command: ReplayCommand,
    source: &mut S,
) -> Result<Bytes, Stop>
    ensures text { WithWords (asks_replay command) (S.left source.old) (λ a.
        IfOk result (IsText a)) }
    ensures stop { WithWords (asks_replay command) (S.left source.old) (λ a.
        IfErr result (IsStop a)) }
    ensures end { OnOk result (IsAtEnd (S.left source.new)) }
    ensures read { IfErr result (λ why. HasRead (status_of why) → IsAtEnd (S.left source.new)) }
    ensures fault { IsErrOf result Stop.ReadFault
        → Rose (S.faults source.old) (S.faults source.new) }
{
    let input = read_all(alloc, source, MOST_INPUT)?;
    let replay = read(alloc, input.as_slice())?;
    output(alloc, command, &replay)
}

/// Writes what a command writes for the replay that the input is.
pub fn replay<S: Source, O: Sink>(
    alloc: Global,
    command: ReplayCommand,
    source: &mut S,
    out: &mut O,
) -> Result<(), Stop>
    ensures ok { WithWords (asks_replay command) (S.left source.old) (λ a.
        OnOk result ((text : List ℕ) × IsText a text
        × Writes (sent O.held O.faults out.old out.new) text)) }
    ensures stop { WithWords (asks_replay command) (S.left source.old) (λ a.
        IfErr result (λ why. (IsStop a why × Writes (sent O.held O.faults out.old out.new) [])
        ⊎ ((why ≡ Stop.WriteFault) × ((text : List ℕ) × IsText a text
        × FailsIn (sent O.held O.faults out.old out.new) text)))) }
    ensures kept { IfErr result (λ why. IsRefused (status_of why) → out.new ≡ out.old) }
    ensures end { OnOk result (IsAtEnd (S.left source.new)) }
    ensures read { IfErr result (λ why. HasRead (status_of why) → IsAtEnd (S.left source.new)) }
    ensures fault { IsErrOf result Stop.ReadFault
        → Rose (S.faults source.old) (S.faults source.new) }
{
    match replay_text(alloc, command, source) {
        Ok(text) => write(out, text.as_slice()),
        Err(stop) => Err(stop),
    }
}
