//! The conversion of one transcript to the first format: from a reader to a transcript on a writer and an exit status.
ghost use Rattle.std.specs.Prelude.{◌⊎◌, Some, IfOk, OnOk};
ghost use Rattle.std.specs.Io.KnownBytes.{Appends, IsAtEnd, Keeps};
ghost use Rattle.hc_auditing.specs.Audit.{SaysLine};
ghost use Rattle.hc_command.specs.Convert.{ConvertsFor};

use hc_auditing::{Trouble, all_of, printed, verdict_line, verdict_status};
use hc_history::Verdict;
use hc_transcript::ConvertFault;
use std::alloc::Global;
use std::io;
use std::io::{Read, Write};

/// Converts the transcript that `input` gives up to its end to the first format, and returns the exit status.
/// `name` is what the input is called where it fails.
///
/// The converted transcript goes to `output`, and the status is 0. Of octets that are no transcript the line of
/// the audit goes to `faults`, and the status is 2. Where neither can be said, by a read or a write that fails or
/// by memory, the status is 3, and one line on `faults` says why. A write of that line that fails is passed over.
pub fn convert<R: Read, W: Write, E: Write>(
    alloc: Global,
    name: &str,
    input: &mut R,
    output: &mut W,
    faults: &mut E,
) -> u8
    ensures converts { ConvertsFor (R.remaining input.old) result (W.contents output.old) (W.contents output.new)
        (E.contents faults.old) (E.contents faults.new) }

    // Nothing is written on the output before the input's end.
    ensures late { IsAtEnd (R.remaining input.new) ⊎ Keeps (W.contents output.old) (W.contents output.new) }
{
    match all_of(alloc, input) {
        Ok(octets) => converted(alloc, octets.as_slice(), output, faults),
        Err(trouble) => trouble.told(name, faults),
    }
}

// Converts the octets.
fn converted<W: Write, E: Write>(alloc: Global, octets: &[u8], output: &mut W, faults: &mut E) -> u8
    ensures { ConvertsFor (Some octets.now) result (W.contents output.old) (W.contents output.new)
        (E.contents faults.old) (E.contents faults.new) }
{
    match hc_transcript::convert(alloc, octets) {
        Ok(text) => match written(text.as_slice(), output) {
            Ok(()) => 0,
            Err(error) => Trouble::Output(error).told("", faults),
        },
        Err(ConvertFault::Memory) => Trouble::Memory.told("", faults),
        Err(ConvertFault::Malformed(position, fault)) => {
            let verdict = Verdict::Malformed(position, fault);
            match said(alloc, &verdict, faults) {
                Ok(status) => status,
                Err(trouble) => trouble.told("standard error", faults),
            }
        }
    }
}

fn written<W: Write>(transcript: &[u8], output: &mut W) -> io::Result<()>
    ensures { OnOk result (Appends (W.contents output.old) (W.contents output.new) transcript.now) }
{
    output.write_all(transcript)?;
    output.flush()
}

// Writes the verdict's line on `faults`, and returns its status.
fn said<E: Write>(alloc: Global, verdict: &Verdict, faults: &mut E) -> Result<u8, Trouble>
    ensures { IfOk result (λ status. SaysLine verdict.now status (E.contents faults.old) (E.contents faults.new)) }
{
    let line = verdict_line(alloc, verdict)?;
    match printed(line.as_str(), faults) {
        Ok(()) => Ok(verdict_status(verdict)),
        Err(error) => Err(Trouble::Device(error)),
    }
}
