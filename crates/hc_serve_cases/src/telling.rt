//! What is told of connections.

use crate::notebook::{Device, Fault};
use crate::runs::{Outcome, run};
use crate::scene::Scene;
use crate::verdicts::say_verdict;
use hc_cases::Unanswered;
use hc_drive::DriveFault;
use std::alloc::{AllocError, Global};
use std::fmt::Write;

/// The most calls that fail in turn.
const MOST_CALLS: u64 = 10_000;

/// What is told of a run, before how it ended.
#[derive(Clone, Copy)]
pub(crate) enum Told {
    /// The calls at all links.
    Calls,
    /// The same, and how many reads there were.
    Reads,
    /// How many octets of the client are read.
    Octets,
}

/// Writes that of a run of the scene, and how it ended. That call fails, if one is named.
pub(crate) fn say_run(
    alloc: Global,
    told: Told,
    scene: &Scene<'_>,
    fault: Option<Fault>,
    out: &mut String,
) -> Result<(), Unanswered> {
    say_outcome(alloc, told, &run(alloc, scene, fault)?, out)
}

fn say_outcome(
    alloc: Global,
    told: Told,
    run: &Outcome,
    out: &mut String,
) -> Result<(), Unanswered> {
    say_told(told, run, out)?;
    say_end(alloc, run, out)
}

fn say_told(told: Told, run: &Outcome, out: &mut String) -> Result<(), AllocError> {
    let Outcome { read, reads, .. } = run;
    match told {
        Told::Calls => {
            out.push_str(run.notes.as_str())?;
            out.push_str("; ")
        }
        Told::Reads => {
            out.push_str(run.notes.as_str())?;
            write!(out, "; {reads} reads; ")
        }
        Told::Octets => write!(out, "{read} octets read; "),
    }
}

/// Lets the first call of the device's links fail, then the second, and so on until none does, and writes how each of
/// these ended.
pub(crate) fn say_failures(
    alloc: Global,
    scene: &Scene<'_>,
    device: Device,
    out: &mut String,
) -> Result<(), Unanswered> {
    let whole = run(alloc, scene, None)?;
    say_each_failure(alloc, scene, device, whole.recording.as_slice(), out)
}

fn say_each_failure(
    alloc: Global,
    scene: &Scene<'_>,
    device: Device,
    whole: &[u8],
    out: &mut String,
) -> Result<(), Unanswered> {
    for call in 1..=MOST_CALLS {
        if !fails(alloc, scene, Fault { device, call }, whole, out)? {
            break;
        }
    }
    Ok(())
}

/// Lets that call fail, writes how that ended, beside what is recorded where none fails, and returns whether
/// there is that call.
fn fails(
    alloc: Global,
    scene: &Scene<'_>,
    fault: Fault,
    whole: &[u8],
    out: &mut String,
) -> Result<bool, Unanswered> {
    let run = run(alloc, scene, Some(fault))?;
    say_failure(alloc, &run, fault.call, whole, out)
}

fn say_failure(
    alloc: Global,
    run: &Outcome,
    call: u64,
    whole: &[u8],
    out: &mut String,
) -> Result<bool, Unanswered> {
    if run.failed {
        say_failed(run, call, whole, out)?;
        say_end(alloc, run, out)?;
    }
    Ok(run.failed)
}

/// Writes what stands behind a call that failed, and how much was recorded, beside what is where none fails.
fn say_failed(run: &Outcome, call: u64, whole: &[u8], out: &mut String) -> Result<(), AllocError> {
    let before = if call > 1 { "; " } else { "" };
    let silence = if run.silent { "silence, " } else { "" };
    let reply = if run.reply.as_slice().starts_with(b"HTTP/1.1 502 ") {
        "502, "
    } else {
        ""
    };
    let recording = run.recording.as_slice();
    let word = if whole.starts_with(recording) {
        "the same"
    } else {
        "another recording"
    };
    write!(out, "{before}{call}: {silence}{reply}")?;
    let count = recording.len();
    write!(out, "{count} octets of {word}, ")
}

/// Writes what was returned, whether the cache is idle, and the verdict on the recording.
fn say_end(alloc: Global, run: &Outcome, out: &mut String) -> Result<(), Unanswered> {
    say_returned(run.result, out)?;
    out.push_str(if run.idle { ", idle, " } else { ", " })?;
    say_verdict(alloc, run.recording.as_slice(), out)
}

/// Writes what was returned.
pub(crate) fn say_returned(
    answer: Result<(), DriveFault>,
    out: &mut String,
) -> Result<(), AllocError> {
    match answer {
        Ok(()) => out.push_str("served"),
        Err(DriveFault::Client) => out.push_str("client failed"),
        Err(DriveFault::Recorder) => out.push_str("recorder failed"),
        Err(DriveFault::Core(fault)) => write!(out, "{fault:?}"),
    }
}

/// Writes whether the same passes where a call moves one octet.
pub(crate) fn say_octets(
    alloc: Global,
    scene: &Scene<'_>,
    out: &mut String,
) -> Result<(), Unanswered> {
    let whole = run(alloc, scene, None)?;
    let split = run(alloc, &Scene { most: 1, ..*scene }, None)?;
    say_split(&whole, &split, out)
}

fn say_split(whole: &Outcome, split: &Outcome, out: &mut String) -> Result<(), Unanswered> {
    let (reply, other) = (whole.reply.as_slice(), split.reply.as_slice());
    say_same("reply", reply, other, out)?;
    out.push_str("; ")?;
    let (forwards, other) = (whole.forwards.as_slice(), split.forwards.as_slice());
    say_same("forwards", forwards, other, out)?;
    out.push_str("; ")?;
    let (recording, other) = (whole.recording.as_slice(), split.recording.as_slice());
    say_same("recording", recording, other, out)?;
    Ok(())
}

fn say_same(what: &str, one: &[u8], other: &[u8], out: &mut String) -> Result<(), AllocError> {
    let count = one.len();
    let word = if one == other { "the same" } else { "another" };
    write!(out, "{word} {what} of {count} octets")
}
