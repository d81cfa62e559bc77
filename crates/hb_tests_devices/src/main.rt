//! What does a run leave if a device fails? Runs the script of the standard input over devices in
//! memory, with each call of each device failing in turn, and writes how many runs had which end.
//!
//! For each device a line says how many runs had its fault, which is how many calls it has in a
//! run. In each of them the status is that of the fault, the line on the error output is that of
//! the status, and what was written is a front of what the script writes; of a keeper, whose fault
//! stops no script but at its first call, it is nothing or else has the line of the fault.
//!
//! The status is 0, or 1 with the device and the number of the call at which that was not so.
#![tactic(auto)]

mod problem;
mod runs;

use crate::problem::Problem;
use crate::runs::{Device, Outcome, run_failing};
use hb_cli::Status;
use hb_io::{StdSource, read_all};
use std::process::ExitCode;

/// The most bytes of the input.
const INPUT_LIMIT: usize = 1024 * 1024;

/// More calls than a device has in a run.
const MOST_CALLS: u64 = 10_000;

fn main(rt: HostRuntime) -> ExitCode {
    match executed(&rt) {
        Ok(()) => ExitCode::SUCCESS,
        Err(problem) => {
            let _ = eprintln!(rt; "{problem}");
            ExitCode::FAILURE
        }
    }
}

fn executed(rt: &HostRuntime) -> Result<(), Problem> {
    let Ok(script) = read_all(rt.alloc(), &mut StdSource::new(rt.stdin()), INPUT_LIMIT) else {
        return Err(Problem::Input);
    };
    // (no call has the number 0)
    let whole = run_failing(rt.alloc(), script.as_slice(), Device::Source, 0)?;
    if whole.status != Status::Ok {
        return Err(Problem::Script);
    }
    for device in Device::ALL {
        let faults = each_fails(rt, script.as_slice(), device, &whole)?;
        println!(rt; "{}: {faults} faults", device.name())?;
    }
    Ok(())
}

/// Lets each call of a device fail in turn, and answers how many there are.
fn each_fails(
    rt: &HostRuntime,
    script: &[u8],
    device: Device,
    whole: &Outcome,
) -> Result<u64, Problem> {
    for number in 1..MOST_CALLS {
        let outcome = run_failing(rt.alloc(), script, device, number)?;
        if outcome.status == Status::Ok {
            return Ok(number - 1);
        }
        if !outcome.is_right(device, whole) {
            return Err(Problem::Wrong(device, number));
        }
    }
    Err(Problem::Script)
}
