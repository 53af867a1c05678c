//! The replay of one script: from a reader to a transcript on a writer, a line on another, and an exit status.
ghost use Rattle.std.specs.Prelude.{◌≡◌, Some, IfOk, OnOk};
ghost use Rattle.std.specs.Io.KnownBytes.{Appends};
ghost use Rattle.hc_auditing.specs.Audit.{SaysLine};
ghost use Rattle.hc_command.specs.Replay.{ReplaysFor, refusal_status};

use hc_auditing::{Trouble, all_of, printed, verdict_line, verdict_status};
use hc_history::Verdict;
use hc_scripts::ScriptFault;
use std::alloc::Global;
use std::io;
use std::io::{Read, Write};

/// The exit status of a script that can't be played.
const REFUSED: u8 = 2;

/// Replays the script that `input` gives up to its end, and returns the exit status. `name` is what the
/// input is called where it fails.
///
/// The transcript goes to `output`, and the line of the verdict on it to `faults`. Of a script that can't be
/// played a line on `faults` tells, and the status is 2. Where there is no transcript, by a read or a write
/// that fails or by memory, the status is 3, and one line on `faults` says why. A write of either of these to
/// `faults` that fails is passed over.
pub fn replay<R: Read, W: Write, E: Write>(
    alloc: Global,
    name: &str,
    input: &mut R,
    output: &mut W,
    faults: &mut E,
) -> u8
    ensures { ReplaysFor (R.remaining input.old) result (W.contents output.old) (W.contents output.new)
        (E.contents faults.old) (E.contents faults.new) }
{
    match all_of(alloc, input) {
        Ok(script) => played(alloc, script.as_slice(), output, faults),
        Err(trouble) => trouble.told(name, faults),
    }
}

// Replays the script.
fn played<W: Write, E: Write>(alloc: Global, script: &[u8], output: &mut W, faults: &mut E) -> u8
    ensures { ReplaysFor (Some script.now) result (W.contents output.old) (W.contents output.new)
        (E.contents faults.old) (E.contents faults.new) }
{
    match hc_scripts::replay(alloc, script) {
        Ok((transcript, verdict)) => {
            match said(alloc, transcript.as_slice(), &verdict, output, faults) {
                Ok(status) => status,
                Err(trouble) => trouble.told("", faults),
            }
        }
        Err(fault) => refused(fault, faults),
    }
}

// Writes the transcript on `output` and the verdict's line on `faults`, and returns its status.
fn said<W: Write, E: Write>(
    alloc: Global,
    transcript: &[u8],
    verdict: &Verdict,
    output: &mut W,
    faults: &mut E,
) -> Result<u8, Trouble>
    ensures transcript { OnOk result (Appends (W.contents output.old) (W.contents output.new) transcript.now) }
    ensures line { IfOk result (λ status. SaysLine verdict.now status (E.contents faults.old) (E.contents faults.new)) }
{
    let line = verdict_line(alloc, verdict)?;
    match written(transcript, line.as_str(), output, faults) {
        Ok(()) => Ok(verdict_status(verdict)),
        Err(error) => Err(Trouble::Output(error)),
    }
}

fn written<W: Write, E: Write>(
    transcript: &[u8],
    line: &str,
    output: &mut W,
    faults: &mut E,
) -> io::Result<()>
    ensures transcript { OnOk result (Appends (W.contents output.old) (W.contents output.new) transcript.now) }
    ensures line { OnOk result (Appends (E.contents faults.old) (E.contents faults.new) line.now) }
{
    output.write_all(transcript)?;
    output.flush()?;
    printed(line, faults)
}

// Says why there is no transcript, and returns the exit status.
fn refused<E: Write>(fault: ScriptFault, faults: &mut E) -> u8
    ensures { result ≡ refusal_status fault }
{
    match fault {
        ScriptFault::Memory => Trouble::Memory.told("", faults),
        ScriptFault::Opening => blamed(fault, faults),
        ScriptFault::Line => blamed(fault, faults),
        ScriptFault::Torn => blamed(fault, faults),
        ScriptFault::Settings => blamed(fault, faults),
    }
}

// Says by which fault the script can't be played, and returns the exit status.
fn blamed<E: Write>(fault: ScriptFault, faults: &mut E) -> u8
    ensures { result ≡ 2 }
{
    let number = fault.number();
    let name = fault.name();
    let _ = writeln!(faults, "script {number} {name}");
    let _ = faults.flush();
    REFUSED
}
