//! Records are written to the recorder.

ghost use Rattle.std.specs.Prelude.{◌++◌, ◌∷◌, [], ℕ, List, IfErr, OnOk};
ghost use Rattle.hc_transcript.specs.Records.{record_text};
ghost use Rattle.hc_service.specs.Sending.{recorded_format};
ghost use Rattle.hc_links.specs.Keeping.{KeepsRecorder};
ghost use Rattle.hc_drive.specs.Carrying.{CountsRecorder, IsOfCarrying, WritesRecord};

use crate::fault::DriveFault;
use hc_links::{Link, LinkFailure, Recorder, send_octets};
use hc_transcript::{Format, Record, record_parts};
use std::alloc::Global;

/// Writes octets. Where the recorder fails, a beginning of them is written.
fn write<R: Link>(recorder: &mut R, octets: &[u8]) -> Result<(), DriveFault>
    ensures got { WritesRecord (R.has_got recorder.old) (R.has_got recorder.new) result octets.now }
    ensures recorder { KeepsRecorder R.has_kept R.was_read recorder.old recorder.new }
    ensures count { CountsRecorder result (R.count recorder.old) (R.count recorder.new) }
    ensures why { IfErr result IsOfCarrying }
{
    match send_octets(recorder, octets) {
        Ok(()) => Ok(()),
        Err(LinkFailure) => Err(DriveFault::Recorder),
    }
}

/// Writes what stands at the front of a text and what stands behind that, each as it lies, and a line feed.
fn write_parts<R: Link>(recorder: &mut R, front: &[u8], rest: &[u8]) -> Result<(), DriveFault>
    ensures got { WritesRecord (R.has_got recorder.old) (R.has_got recorder.new) result ((front.now ++ rest.now) ++ 10 ∷ []) }
    ensures recorder { KeepsRecorder R.has_kept R.was_read recorder.old recorder.new }
    ensures count { CountsRecorder result (R.count recorder.old) (R.count recorder.new) }
    ensures why { IfErr result IsOfCarrying }
{
    write(recorder, front)?;
    write(recorder, rest)?;
    write(recorder, b"\n")
}

/// Writes what stands at the front of a text, and a line feed, at once. Where memory is refused, nothing is written.
fn write_line<R: Link>(recorder: &mut R, front: &mut Vec<u8>) -> Result<(), DriveFault>
    ensures got { WritesRecord (R.has_got recorder.old) (R.has_got recorder.new) result (front.old.items ++ 10 ∷ []) }
    ensures recorder { KeepsRecorder R.has_kept R.was_read recorder.old recorder.new }
    ensures count { CountsRecorder result (R.count recorder.old) (R.count recorder.new) }
    ensures why { IfErr result IsOfCarrying }
{
    front.extend_from_slice(b"\n")?;
    write(recorder, front.as_slice())
}

/// Writes the text of a record. Where the recorder fails, a beginning of it is written. Where memory is refused,
/// nothing is. A large body isn't copied.
pub(crate) fn record<R: Link>(
    alloc: Global,
    recorder: &mut R,
    record: &Record,
) -> Result<(), DriveFault>
    ensures got { WritesRecord (R.has_got recorder.old) (R.has_got recorder.new) result (record_text recorded_format «record».now) }
    ensures recorder { KeepsRecorder R.has_kept R.was_read recorder.old recorder.new }
    ensures count { CountsRecorder result (R.count recorder.old) (R.count recorder.new) }
    ensures why { IfErr result IsOfCarrying }
{
    let (mut front, rest) = record_parts(alloc, record, Format::Second)?;
    if rest.is_empty() {
        write_line(recorder, &mut front)
    } else {
        write_parts(recorder, front.as_slice(), rest)
    }
}

/// Lets all that was written stand for good.
pub(crate) fn flush<R: Recorder>(recorder: &mut R) -> Result<(), DriveFault>
    ensures got { (octets : List ℕ) → R.has_got recorder.old octets → R.has_got recorder.new octets }
    ensures all { OnOk result ((octets : List ℕ) → R.has_got recorder.old octets → R.has_kept recorder.new octets) }
    ensures recorder { KeepsRecorder R.has_kept R.was_read recorder.old recorder.new }
    ensures count { CountsRecorder result (R.count recorder.old) (R.count recorder.new) }
    ensures why { IfErr result IsOfCarrying }
{
    match recorder.flush() {
        Ok(()) => Ok(()),
        Err(LinkFailure) => Err(DriveFault::Recorder),
    }
}
