//! What the program makes of a script.

use crate::program::written_of;
use hc_cases::Unanswered;
use std::alloc::{AllocError, Global};
use std::fmt::Write;

/// Writes what comes of the script: the line, the exit status, and from which octet on the transcript is another than the
/// only part, or than an empty one.
pub(crate) fn say_replay(
    alloc: Global,
    script: &[u8],
    parts: &[Vec<u8>],
    out: &mut String,
) -> Result<(), Unanswered> {
    let wanted = match parts.first() {
        Some(wanted) => wanted.as_slice(),
        None => b"",
    };
    let words = ["hcache", "replay", "script"];
    let written = written_of(alloc, &words, &[script])?;
    written.say_fault(out)?;
    Ok(say_difference(written.output.as_slice(), wanted, out)?)
}

fn say_difference(transcript: &[u8], wanted: &[u8], out: &mut String) -> Result<(), AllocError> {
    if transcript == wanted {
        return Ok(());
    }
    let place = common_len(transcript, wanted);
    write!(out, ", but another transcript from octet {place}")
}

// How many octets both begin with.
fn common_len(one: &[u8], other: &[u8]) -> usize {
    for (place, octet) in one.iter().enumerate() {
        if other.get(place) != Some(octet) {
            return place;
        }
    }
    one.len()
}
