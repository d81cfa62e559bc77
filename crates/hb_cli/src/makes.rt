//! What does `make` do?

ghost use Rattle.std.specs.Prelude.{◌≡◌, ◌≤◌, ◌⊎◌, ℕ, [], IfErr, IfOk, IsErrOf, List, OnOk, Option};
ghost use Rattle.hb_io.specs.Causes.{Rose};
ghost use Rattle.hb_script.specs.MadeScripts.{made_text as text_of_made};
ghost use Rattle.hb_words.specs.declared.commands.Command.TheVariants.{Make as asks_make};
ghost use Rattle.hb_words.specs.declared.commands.TheConstants.{MOST_TABLES};
ghost use Rattle.hb_cli.specs.Asked.{WithWords};
ghost use Rattle.hb_cli.specs.MadeRuns.{RanMade};
ghost use Rattle.hb_cli.specs.Statuses.{IsRefused, status_of};
ghost use Rattle.hb_cli.specs.Works.{OfMade};
ghost use Rattle.hb_cli.specs.Written.{FailsIn, Writes, sent};

use crate::made_runs::run_made;
use crate::status::Stop;
use crate::writes::write;
use hb_house::{MOST_ROOMS, PlainHall};
use hb_io::{Sink, Text};
use hb_keeper::{Fails, Keeper, KeeperMemory};
use hb_script::{made_shoe, summary};
use hb_table::Room;
use std::alloc::{AllocError, Global};

/// The line that is written of the run of a made script, in a plain hall with a keeper in memory.
///
/// The error comes if memory is refused. Else the run would have to stop before its end, which
/// takes more runs, games or bytes than can be counted.
fn made_text(alloc: Global, tables: u8, seed: u64) -> Result<Text, AllocError>
    requires { tables ≤ MOST_TABLES }
    ensures { IfOk result (λ text. (bytes : ℕ) × RanMade tables seed bytes
        × (text ≡ text_of_made tables seed bytes)) }
{
    let mut keeper = KeeperMemory::new(alloc, 0, Fails::new(alloc))?;
    let Ok(run) = keeper.open_run() else {
        return Err(AllocError);
    };
    let mut hall = PlainHall::<Room>::new(alloc, MOST_ROOMS, &made_shoe(seed), run)?;
    let sums = run_made(alloc, &mut hall, &mut keeper, tables, seed)?;
    if sums.bytes == u64::MAX {
        return Err(AllocError);
    }
    summary(alloc, u32::from(tables), sums.acts, sums.score, sums.bytes)
}

/// Runs a made script, and writes the line that sums it up.
pub fn make<O: Sink>(alloc: Global, tables: u8, seed: u64, out: &mut O) -> Result<(), Stop>
    requires { tables ≤ MOST_TABLES }
    ensures ok { (told : Option (List ℕ)) → WithWords (asks_make tables seed) told (λ a.
        OnOk result (OfMade a (Writes (sent O.held O.faults out.old out.new)))) }
    ensures stop { (told : Option (List ℕ)) → WithWords (asks_make tables seed) told (λ a.
        IfErr result (λ why.
        ((why ≡ Stop.NoMemory) × Writes (sent O.held O.faults out.old out.new) [])
        ⊎ ((why ≡ Stop.WriteFault)
        × OfMade a (FailsIn (sent O.held O.faults out.old out.new))))) }
    ensures kept { IfErr result (λ why. IsRefused (status_of why) → out.new ≡ out.old) }
    ensures cause { IsErrOf result Stop.WriteFault → Rose (O.faults out.old) (O.faults out.new) }
{
    let Ok(text) = made_text(alloc, tables, seed) else {
        return Err(Stop::NoMemory);
    };
    write(out, text.as_str().as_bytes())
}
