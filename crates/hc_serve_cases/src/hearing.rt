//! What comes on streams.

use hc_cases::{Unanswered, show_short};
use std::alloc::Global;
use std::fmt::Write;
use std::io::Read;
use std::net::OpenStream;
use std::time::Duration;

/// How many seconds a stream may be silent before it is given up.
const PATIENCE: u64 = 1;

/// Reads each of the streams to its end, and writes what came.
pub(crate) fn say_streams<S: Read + OpenStream>(
    alloc: Global,
    what: &str,
    streams: &mut [S],
    out: &mut String,
) -> Result<(), Unanswered> {
    for stream in streams.iter_mut() {
        say_stream(alloc, what, stream, out)?;
    }
    Ok(())
}

fn say_stream<S: Read + OpenStream>(
    alloc: Global,
    what: &str,
    stream: &mut S,
    out: &mut String,
) -> Result<(), Unanswered> {
    stream.set_read_timeout(Some(Duration::from_secs(PATIENCE)))?;
    let mut octets = Vec::new(alloc);
    let has_end = hear(stream, &mut octets);
    say_octets(what, octets.as_slice(), has_end, out)
}

/// Reads a stream, and returns whether its end comes behind that: it may be reset, or fall silent.
fn hear<S: Read + OpenStream>(stream: &mut S, octets: &mut Vec<u8>) -> bool {
    let read = stream.read_to_end(octets);
    read.is_ok() && matches!(stream.take_error(), Ok(None))
}

/// Writes what came, and whether its end did. Where nothing comes, that alone is told.
fn say_octets(
    what: &str,
    octets: &[u8],
    has_end: bool,
    out: &mut String,
) -> Result<(), Unanswered> {
    if octets.is_empty() {
        write!(out, "; no {what}")?;
        return Ok(());
    }
    write!(out, "; {what} ")?;
    show_short(octets, out)?;
    out.push_str(if has_end {
        " and its end"
    } else {
        " and no end"
    })?;
    Ok(())
}
