//! How are the texts of a script's lines written?

ghost use Rattle.std.specs.Prelude.{◌≡◌, ◌+◌, IfErr, IfOk, IsErrOf, OnOk, min, string_bytes};
ghost use Rattle.std.specs.Io.KnownBytes.{Appends};
ghost use Rattle.hb_io.specs.Causes.{Rose};
ghost use Rattle.hb_talk.specs.Scripts.{sent};
ghost use Rattle.hb_run.specs.HeldRuns.{MOST_BYTES};
ghost use Rattle.hb_run.specs.RunLines.{fault_line, report_line, text_bytes};
ghost use Rattle.hb_run.specs.WrittenFronts.{AppendsFront, IsWriteEnd};

use crate::RunEnd;
use hb_house::Report;
use hb_io::{Sink, Text, write_all};
use std::alloc::{AllocError, Global};

/// Writes a text, or a front of it if the sink fails.
fn write<O: Sink>(out: &mut O, text: &str) -> Result<(), RunEnd>
    ensures ok { OnOk result (Appends (O.held out.old) (O.held out.new) text.now) }
    ensures err { IfErr result (λ why. IsWriteEnd why
        × AppendsFront (O.held out.old) (O.held out.new) text.now) }
    ensures cause { IsErrOf result RunEnd.WriteFault → Rose (O.faults out.old) (O.faults out.new) }
    ensures same { OnOk result (O.faults out.new ≡ O.faults out.old) }
{
    match write_all(out, text.as_bytes()) {
        Ok(()) => Ok(()),
        Err(_) => Err(RunEnd::WriteFault),
    }
}

/// A count of bytes with those of texts; the greatest number if it is as many or more.
pub(crate) fn with_texts(bytes: u64, texts: &[Text]) -> u64
    ensures { result ≡ min (bytes + text_bytes texts.now) MOST_BYTES }
{
    let mut counted = bytes;
    for text in texts {
        counted = counted.saturating_add(text.as_str().len() as u64);
    }
    counted
}

/// What a connection is sent: a line for each text, behind the connection's number.
fn sent_lines(alloc: Global, conn: u32, texts: &[Text]) -> Result<String, AllocError>
    ensures { IfOk result (λ lines. string_bytes lines ≡ sent conn texts.now) }
{
    let mut lines = String::new(alloc);
    for text in texts {
        let text = text.as_str();
        write!(lines, "{conn} {text}\n")?;
    }
    Ok(lines)
}

/// Writes what a connection is sent by a turn, all at once.
pub(crate) fn write_sent<O: Sink>(
    out: &mut O,
    alloc: Global,
    conn: u32,
    texts: &[Text],
) -> Result<(), RunEnd>
    ensures ok { OnOk result (Appends (O.held out.old) (O.held out.new) (sent conn texts.now)) }
    ensures err { IfErr result (λ why. IsWriteEnd why
        × AppendsFront (O.held out.old) (O.held out.new) (sent conn texts.now)) }
    ensures cause { IsErrOf result RunEnd.WriteFault → Rose (O.faults out.old) (O.faults out.new) }
    ensures same { OnOk result (O.faults out.new ≡ O.faults out.old) }
{
    let Ok(lines) = sent_lines(alloc, conn, texts) else {
        return Err(RunEnd::NoMemory);
    };
    write(out, lines.as_str())
}

/// The line of a report of the clerk.
fn reported(alloc: Global, report: &Report) -> Result<String, AllocError>
    ensures { IfOk result (λ line. string_bytes line ≡ report_line report.now) }
{
    let saved = report.saved;
    let loaded = report.loaded;
    let missing = report.missing;
    format!(in alloc; "clerk saved {saved} loaded {loaded} missing {missing}\n")
}

/// Writes a report of the clerk.
pub(crate) fn write_report<O: Sink>(
    out: &mut O,
    alloc: Global,
    report: &Report,
) -> Result<(), RunEnd>
    ensures ok { OnOk result (Appends (O.held out.old) (O.held out.new) (report_line report.now)) }
    ensures err { IfErr result (λ why. IsWriteEnd why
        × AppendsFront (O.held out.old) (O.held out.new) (report_line report.now)) }
    ensures cause { IsErrOf result RunEnd.WriteFault → Rose (O.faults out.old) (O.faults out.new) }
    ensures same { OnOk result (O.faults out.new ≡ O.faults out.old) }
{
    let Ok(line) = reported(alloc, report) else {
        return Err(RunEnd::NoMemory);
    };
    write(out, line.as_str())
}

/// Writes that the keeper failed.
pub(crate) fn write_fault<O: Sink>(out: &mut O) -> Result<(), RunEnd>
    ensures ok { OnOk result (Appends (O.held out.old) (O.held out.new) fault_line) }
    ensures err { IfErr result (λ why. IsWriteEnd why
        × AppendsFront (O.held out.old) (O.held out.new) fault_line) }
    ensures cause { IsErrOf result RunEnd.WriteFault → Rose (O.faults out.old) (O.faults out.new) }
    ensures same { OnOk result (O.faults out.new ≡ O.faults out.old) }
{
    write(out, "clerk fault\n")
}
