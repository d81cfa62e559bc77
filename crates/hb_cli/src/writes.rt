//! How is the text of a command written?

ghost use Rattle.std.specs.Prelude.{◌≡◌, IfErr, OnOk};
ghost use Rattle.hb_cli.specs.Written.{FailsIn, Writes, sent};

use crate::status::Stop;
use hb_io::{Sink, write_all};

/// Writes a text to the output.
pub fn write<O: Sink>(out: &mut O, text: &[u8]) -> Result<(), Stop>
    ensures ok { OnOk result (Writes (sent O.held O.faults out.old out.new) text.now) }
    ensures stop { IfErr result (λ why. (why ≡ Stop.WriteFault)
        × FailsIn (sent O.held O.faults out.old out.new) text.now) }
{
    match write_all(out, text) {
        Ok(()) => Ok(()),
        Err(_) => Err(Stop::WriteFault),
    }
}
