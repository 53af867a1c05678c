//! What transcripts are in the first format.

use crate::verdicts_tellers::say_audited;
use hc_cases::Unanswered;
use hc_transcript::{ConvertFault, convert};
use std::alloc::{AllocError, Global};
use std::fmt::Write;

/// Writes how many octets the transcript that the pieces make has in the first format, and what the program says of
/// that; or where the octets are no transcript.
pub fn say_converted(
    alloc: Global,
    words: &[&str],
    pieces: &[&[u8]],
    out: &mut String,
) -> Result<(), Unanswered> {
    let mut octets = Vec::new(alloc);
    for piece in pieces {
        octets.extend_from_slice(piece)?;
    }
    match convert(alloc, octets.as_slice()) {
        Ok(text) => {
            let count = text.len();
            write!(out, "{count} octets, ")?;
            say_audited(alloc, words, &[text.as_slice()], out)
        }
        Err(fault) => Ok(say_fault(fault, out)?),
    }
}

fn say_fault(fault: ConvertFault, out: &mut String) -> Result<(), AllocError> {
    match fault {
        ConvertFault::Malformed(position, fault) => {
            let number = fault.number();
            let name = fault.name();
            write!(out, "malformed {position} {number} {name}")
        }
        ConvertFault::Memory => Err(AllocError),
    }
}

/// Writes whether the octets are in the first format those of the first part.
pub fn say_same(
    alloc: Global,
    octets: &[u8],
    parts: &[Vec<u8>],
    out: &mut String,
) -> Result<(), Unanswered> {
    let wanted = parts.first().ok_or(Unanswered::Unknown)?;
    let same = match convert(alloc, octets) {
        Ok(text) => text.as_slice() == wanted.as_slice(),
        Err(_) => false,
    };
    Ok(out.push_str(if same { "the same" } else { "another" })?)
}
