//! What does a run leave if one call of one device fails, and is that right?

use crate::problem::Problem;
use hb_cli::{Status, run};
use hb_io::{SinkMemory, SourceMemory};
use hb_keeper::{Fails, KeeperMemory, When};
use std::alloc::Global;

/// How many bytes a source gives in one call.
const READ_SIZE: usize = 64;

/// How many bytes a sink takes in one call: all.
const WRITE_SIZE: usize = 1 << 24;

/// A device, of which a call fails.
#[derive(Clone, Copy, Debug, PartialEq, Eq)]
pub(crate) enum Device {
    Source,
    Output,
    /// The keeper, before it does the call's work.
    KeeperBefore,
    /// The keeper, behind that.
    KeeperAfter,
}

impl Device {
    pub(crate) const ALL: [Device; 4] = [
        Device::Source,
        Device::Output,
        Device::KeeperBefore,
        Device::KeeperAfter,
    ];

    pub(crate) fn name(self) -> &'static str {
        match self {
            Device::Source => "source",
            Device::Output => "output",
            Device::KeeperBefore => "keeper, before its work",
            Device::KeeperAfter => "keeper, behind its work",
        }
    }
}

/// What a run left.
#[derive(Drop)]
pub(crate) struct Outcome {
    pub(crate) status: Status,
    output: Vec<u8>,
    error_output: Vec<u8>,
}

impl Outcome {
    /// Whether this is what the fault of a device leaves of a run that else leaves `whole`.
    pub(crate) fn is_right(&self, device: Device, whole: &Outcome) -> bool {
        let (status, line) = match device {
            Device::Source => (Status::ReadFault, "read fault\n"),
            Device::Output => (Status::WriteFault, "write fault\n"),
            Device::KeeperBefore | Device::KeeperAfter => (Status::KeeperFault, "keeper fault\n"),
        };
        let is_left_so = match device {
            Device::Source => self.output.is_empty(),
            Device::Output => whole.output.starts_with(&self.output) && whole.output != self.output,
            Device::KeeperBefore | Device::KeeperAfter => {
                self.output.is_empty() || has_fault(&self.output)
            }
        };
        self.status == status && self.error_output.as_slice() == line.as_bytes() && is_left_so
    }
}

/// Whether a line of the clerk says that the keeper failed.
fn has_fault(output: &[u8]) -> bool {
    output
        .split(|byte| *byte == b'\n')
        .any(|line| line == b"clerk fault".as_slice())
}

/// Runs a script, with the call of this number of a device failing.
pub(crate) fn run_failing(
    alloc: Global,
    script: &[u8],
    device: Device,
    number: u64,
) -> Result<Outcome, Problem> {
    let mut reads = Vec::new(alloc);
    let mut writes = Vec::new(alloc);
    let mut fails = Fails::new(alloc);
    match device {
        Device::Source => reads.push(number)?,
        Device::Output => writes.push(number)?,
        Device::KeeperBefore => fails.push(number, When::Before)?,
        Device::KeeperAfter => fails.push(number, When::After)?,
    }
    let mut source = SourceMemory::new(script.to_vec(alloc)?, READ_SIZE, reads);
    let mut out = SinkMemory::new(alloc, WRITE_SIZE, writes);
    let mut err = SinkMemory::new(alloc, WRITE_SIZE, Vec::new(alloc));
    let mut keeper = KeeperMemory::new(alloc, 0, fails)?;
    let words = ["script", "mem"];
    let status = run(alloc, &words, &mut source, &mut out, &mut err, &mut keeper);
    Ok(Outcome {
        status,
        output: out.into_vec(),
        error_output: err.into_vec(),
    })
}
