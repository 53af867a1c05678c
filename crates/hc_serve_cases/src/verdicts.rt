//! Verdicts on what was recorded.

use hc_audit::{
    Allowed, AuditFault, Auditor, FieldNames, Index, Settings, UnmarkedReplies, Verdict,
};
use hc_cases::Unanswered;
use hc_index::MapIndex;
use hc_transcript::Format;
use std::alloc::Global;
use std::fmt::Write;

/// Writes the verdict of an audit that lets nothing pass on what was recorded.
pub(crate) fn say_verdict(
    alloc: Global,
    recording: &[u8],
    out: &mut String,
) -> Result<(), Unanswered> {
    let settings = Settings {
        slack: 0,
        ignored: FieldNames::new(alloc),
        unmarked: UnmarkedReplies::ErrorsOnly,
        allowed: Allowed::nothing(alloc),
    };
    let auditor = Auditor::new(alloc, MapIndex::new(alloc), settings);
    match audited(auditor, recording) {
        Ok(Verdict::Yes(counts)) => {
            let records = counts.records;
            let replies = counts.replies;
            let hits = counts.hits;
            write!(out, "yes records={records} replies={replies} hits={hits}")?;
        }
        Ok(Verdict::No(position, reason)) => write!(out, "no {position} {}", reason.name())?,
        Ok(Verdict::Malformed(position, fault)) => {
            write!(out, "malformed {position} {}", fault.name())?
        }
        Err(_) => return Err(Unanswered::Memory),
    }
    Ok(())
}

fn audited<I: Index + Drop>(
    mut auditor: Auditor<I>,
    recording: &[u8],
) -> Result<Verdict, AuditFault> {
    let fed = feed(&mut auditor, recording);
    let verdict = auditor.finish();
    fed?;
    verdict
}

fn feed<I: Index + Drop>(auditor: &mut Auditor<I>, recording: &[u8]) -> Result<(), AuditFault> {
    auditor.feed(Format::Second.opening())?;
    auditor.feed(recording)
}
