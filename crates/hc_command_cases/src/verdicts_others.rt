//! What an auditor says of a transcript whose index keeps lists.

use crate::written::line_in;
use hc_audit::{AuditFault, Auditor};
use hc_auditing::verdict_line;
use hc_cases::Unanswered;
use hc_history::{Settings, Verdict};
use hc_index::{Index, ListIndex};
use std::alloc::Global;
use std::fmt::Write;

/// Writes the line of its verdict on the transcript that the pieces make, which it is fed a piece at a time, where another
/// line was said.
pub(crate) fn say_listed(
    alloc: Global,
    settings: Settings,
    pieces: &[&[u8]],
    said: &[u8],
    out: &mut String,
) -> Result<(), Unanswered> {
    let auditor = Auditor::new(alloc, ListIndex::new(alloc), settings);
    match verdict_on(auditor, pieces) {
        Ok(verdict) => say_other(alloc, &verdict, said, out),
        Err(_) => Err(Unanswered::Memory),
    }
}

fn say_other(
    alloc: Global,
    verdict: &Verdict,
    said: &[u8],
    out: &mut String,
) -> Result<(), Unanswered> {
    let line = verdict_line(alloc, verdict)?;
    if line.as_bytes() == said {
        return Ok(());
    }
    let line = line_in(line.as_bytes())?;
    Ok(write!(out, ", but a list says {line}")?)
}

fn verdict_on<I: Index + Drop>(
    mut auditor: Auditor<I>,
    pieces: &[&[u8]],
) -> Result<Verdict, AuditFault> {
    feed_all(&mut auditor, pieces)?;
    auditor.finish()
}

fn feed_all<I: Index + Drop>(auditor: &mut Auditor<I>, pieces: &[&[u8]]) -> Result<(), AuditFault> {
    for piece in pieces {
        auditor.feed(piece)?;
    }
    Ok(())
}
