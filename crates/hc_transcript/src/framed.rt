//! The record at the front of octets.

ghost use Rattle.std.specs.Prelude.{◌≡◌};
ghost use Rattle.hc_transcript.specs.Standing.{standing_fault};
ghost use Rattle.hc_transcript.specs.Reading.{GivesFrame};

use crate::fault::RecordFault;
use crate::first_line::line_end;
use crate::format::Format;
use crate::limits::LONGEST_LINE;
use crate::line::{Line, parse_line};
use crate::open_numbers::Standing;

/// A record in its place: its line, the octets of its message, and how many octets it takes.
#[derive(Clone, Copy)]
pub(crate) struct Framed<'a> {
    pub line: Line,
    pub message: &'a [u8],
    pub len: usize,
}

/// The record that begins the octets, if it is whole.
pub(crate) fn record_at<'a>(
    format: Format,
    bytes: &'a [u8],
    standing: &Standing,
) -> Result<Option<Framed<'a>>, RecordFault>
    ensures { GivesFrame format (standing_fault standing.now) result bytes.now }
{
    let Some(end) = line_end(bytes) else {
        if bytes.len() < LONGEST_LINE {
            return Ok(None);
        }
        return Err(RecordFault::Line);
    };
    let (text, behind) = bytes.split_at(end);
    let Some(line) = parse_line(format, text) else {
        return Err(RecordFault::Line);
    };
    if let Some(fault) = standing.fault(&line) {
        return Err(fault);
    }
    let size = line.size as usize;
    if behind.len() < size + 2 {
        return Ok(None);
    }
    if behind[size + 1] != b'\n' {
        return Err(RecordFault::Line);
    }
    let (_, after) = behind.split_at(1);
    let (message, _) = after.split_at(size);
    Ok(Some(Framed {
        line,
        message,
        len: end + size + 2,
    }))
}
