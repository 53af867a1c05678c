//! Audits, replays and conversions whose devices fail.

use crate::devices::{Fault, Full, Pieces};
use crate::program::status_of;
use crate::written::Written;
use hc_cases::Unanswered;
use hc_fields::decimal;
use std::alloc::Global;
use std::fmt::Write;
use std::io::ErrorKind;

/// Writes what comes of a command, and how many reads it makes: the parts are the octets, how many of them a read gives at
/// most, and, where a read fails, the how-manieth does, and how.
pub(crate) fn say_task(
    alloc: Global,
    command: &str,
    parts: &[Vec<u8>],
    out: &mut String,
) -> Result<(), Unanswered> {
    let (octets, most, fault) = match parts {
        [octets, most] => (octets, most, None),
        [octets, most, read, kind] => {
            let fault = fault_of(read.as_slice(), kind.as_slice())?;
            (octets, most, Some(fault))
        }
        _ => return Err(Unanswered::Unknown),
    };
    let most = number_of(most.as_slice())? as usize;
    let pieces = [octets.as_slice()];
    let mut input = Pieces::failing(&pieces, most, fault);
    say_written(alloc, command, &mut input, out)?;
    let reads = input.reads;
    Ok(write!(out, ", {reads} reads")?)
}

// Writes what comes of a command that reads that.
fn say_written(
    alloc: Global,
    command: &str,
    input: &mut Pieces<'_>,
    out: &mut String,
) -> Result<(), Unanswered> {
    let mut written = Written::nothing(alloc);
    let output = &mut written.output;
    written.status = status_of(
        alloc,
        &words_of(command),
        input,
        output,
        &mut written.faults,
    )?;
    Ok(written.say(out)?)
}

// The words that ask for that command.
fn words_of(command: &str) -> [&str; 3] {
    match command {
        "replay" => ["hcache", command, "a.hcs"],
        _ => ["hcache", command, "a.hct"],
    }
}

/// Writes what comes of a command whose output can't be written, also where what went wrong can't be written either: the
/// parts are the octets, and what fails.
pub(crate) fn say_full(
    alloc: Global,
    command: &str,
    parts: &[Vec<u8>],
    out: &mut String,
) -> Result<(), Unanswered> {
    let [octets, fails] = parts else {
        return Err(Unanswered::Unknown);
    };
    let full = full_at(fails.as_slice())?;
    let pieces = [octets.as_slice()];
    say_full_device(alloc, command, &pieces, full, out)?;
    say_status_alone(alloc, command, &pieces, full, out)
}

// The device of which those fail.
fn full_at(fails: &[u8]) -> Result<Full, Unanswered> {
    let takes_writes = fails == b"each flush".as_slice();
    if !takes_writes && fails != b"each write".as_slice() {
        return Err(Unanswered::Unknown);
    }
    Ok(Full { takes_writes })
}

fn say_status_alone(
    alloc: Global,
    command: &str,
    pieces: &[&[u8]],
    mut full: Full,
    out: &mut String,
) -> Result<(), Unanswered> {
    let words = words_of(command);
    let (mut input, mut other) = (Pieces::new(pieces), full);
    let status = status_of(alloc, &words, &mut input, &mut full, &mut other)?;
    Ok(write!(out, "; the status alone {status}")?)
}

fn say_full_device(
    alloc: Global,
    command: &str,
    pieces: &[&[u8]],
    mut full: Full,
    out: &mut String,
) -> Result<(), Unanswered> {
    let mut written = Written::nothing(alloc);
    let words = words_of(command);
    let mut input = Pieces::new(pieces);
    written.status = status_of(alloc, &words, &mut input, &mut full, &mut written.faults)?;
    Ok(written.say(out)?)
}

fn fault_of(read: &[u8], kind: &[u8]) -> Result<Fault, Unanswered> {
    let is_interrupted = kind == b"is interrupted".as_slice();
    if !is_interrupted && kind != b"fails".as_slice() {
        return Err(Unanswered::Unknown);
    }
    let kind = if is_interrupted {
        ErrorKind::Interrupted
    } else {
        ErrorKind::Other
    };
    Ok(Fault {
        read: number_of(read)?,
        kind,
    })
}

/// The number that a part is.
pub(crate) fn number_of(part: &[u8]) -> Result<u64, Unanswered> {
    decimal(part).ok_or(Unanswered::Unknown)
}
