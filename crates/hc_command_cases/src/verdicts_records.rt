//! The records of a transcript.

use crate::written::line_in;
use hc_auditing::verdict_line;
use hc_cases::{Unanswered, show_short};
use hc_framing::ResponseView;
use hc_head::Target;
use hc_history::Verdict;
use hc_transcript::{MeaningView, RecordFault, RecordReader, RecordView};
use std::alloc::{AllocError, Global};
use std::fmt::Write;

/// Writes what the records mean that the pieces make, and how they end.
pub fn say_records(alloc: Global, pieces: &[&[u8]], out: &mut String) -> Result<(), Unanswered> {
    let mut reader = RecordReader::new(alloc);
    say_read(alloc, &mut reader, pieces, out)
}

fn say_read(
    alloc: Global,
    reader: &mut RecordReader,
    pieces: &[&[u8]],
    out: &mut String,
) -> Result<(), Unanswered> {
    for piece in pieces {
        say_piece(alloc, reader, piece, out)?;
    }
    let ended = reader.finish();
    say_end(alloc, reader, ended, out)
}

// Writes the records that end in the next piece; no more do than it has octets. A fault is met again
// behind it, and at the end.
fn say_piece(
    alloc: Global,
    reader: &mut RecordReader,
    piece: &[u8],
    out: &mut String,
) -> Result<(), AllocError> {
    let _ = reader.feed(piece);
    for _ in piece {
        if !say_next(alloc, reader, out)? {
            return Ok(());
        }
    }
    Ok(())
}

// Writes the next record, and returns whether there was one.
fn say_next(
    alloc: Global,
    reader: &mut RecordReader,
    out: &mut String,
) -> Result<bool, AllocError> {
    match reader.advance() {
        Ok(true) => {
            let view = reader.view();
            say_item(alloc, &view, out)?;
            out.push_str(", ")?;
            Ok(true)
        }
        Ok(false) | Err(_) => Ok(false),
    }
}

fn say_end(
    alloc: Global,
    reader: &RecordReader,
    ended: Result<(), RecordFault>,
    out: &mut String,
) -> Result<(), Unanswered> {
    let records = reader.records();
    let position = reader.position();
    match ended {
        Ok(()) => write!(out, "records={records} position={position}")?,
        Err(RecordFault::Memory) => return Err(Unanswered::Memory),
        Err(fault) => {
            let line = verdict_line(alloc, &Verdict::Malformed(position, fault))?;
            out.push_str(line_in(line.as_bytes())?)?;
        }
    }
    Ok(())
}

fn say_item(alloc: Global, item: &RecordView<'_>, out: &mut String) -> Result<(), AllocError> {
    let number = item.number;
    let moment = item.moment;
    match &item.of {
        MeaningView::ClientRequest { target, .. } => say_request('q', number, moment, target, out),
        MeaningView::OriginRequest { target, cause, .. } => {
            say_request('f', number, moment, target, out)?;
            say_cause(*cause, out)
        }
        MeaningView::OriginResponse(response) => {
            say_response(alloc, 'r', number, moment, response, out)
        }
        MeaningView::OriginFailure => write!(out, "x {number} {moment}"),
        MeaningView::ClientReply(reply) => say_response(alloc, 'a', number, moment, reply, out),
    }
}

fn say_request(
    letter: char,
    number: u64,
    moment: u64,
    target: &Target,
    out: &mut String,
) -> Result<(), AllocError> {
    write!(out, "{letter} {number} {moment} ")?;
    show_short(target.host.as_slice(), out)?;
    out.push(' ')?;
    show_short(target.path.as_slice(), out)
}

// Writes the exchange that a forward was made for, where it has one.
fn say_cause(cause: Option<u64>, out: &mut String) -> Result<(), AllocError> {
    match cause {
        Some(exchange) => write!(out, " cause={exchange}"),
        None => Ok(()),
    }
}

fn say_response(
    alloc: Global,
    letter: char,
    number: u64,
    moment: u64,
    response: &ResponseView<'_>,
    out: &mut String,
) -> Result<(), AllocError> {
    let status = response.head.status.as_u16();
    write!(out, "{letter} {number} {moment} {status} \"")?;
    let body = response.body.copy(alloc)?;
    show_short(body.as_slice(), out)?;
    out.push('"')
}
