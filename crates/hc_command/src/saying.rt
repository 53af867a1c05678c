//! A verdict's line, and more behind it, on a writer.
ghost use Rattle.std.specs.Prelude.{◌++◌, IfOk, OnOk};
ghost use Rattle.std.specs.Io.KnownBytes.{Appends};
ghost use Rattle.hc_command.specs.Report.{SaysLineFirst, SaysLineThen};

use hc_auditing::{Trouble, printed, verdict_line, verdict_status};
use hc_history::Verdict;
use std::alloc::Global;
use std::io;
use std::io::Write;

/// Writes the verdict's line, and behind it more, and returns the verdict's status.
pub(crate) fn said_first<W: Write>(
    alloc: Global,
    verdict: &Verdict,
    more: &str,
    output: &mut W,
) -> Result<u8, Trouble>
    ensures then { IfOk result (λ status. SaysLineThen verdict.now more.now status (W.contents output.old) (W.contents output.new)) }
    ensures first { IfOk result (λ status. SaysLineFirst verdict.now status (W.contents output.old) (W.contents output.new)) }
{
    let line = verdict_line(alloc, verdict)?;
    match written(line.as_str(), more, output) {
        Ok(()) => Ok(verdict_status(verdict)),
        Err(error) => Err(Trouble::Output(error)),
    }
}

fn written<W: Write>(line: &str, more: &str, output: &mut W) -> io::Result<()>
    ensures { OnOk result (Appends (W.contents output.old) (W.contents output.new) (line.now ++ more.now)) }
{
    printed(line, output)?;
    printed(more, output)
}
