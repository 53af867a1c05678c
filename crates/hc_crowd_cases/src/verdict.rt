//! The audit of what was recorded.

use hc_audit::{
    Allowed, AuditFault, Auditor, Counts, FieldNames, Index, Settings, UnmarkedReplies, Verdict,
};
use hc_cases::Unanswered;
use hc_index::MapIndex;
use std::alloc::Global;

/// What an audit that lets nothing pass counted, if it says yes.
pub(crate) fn counts_of(alloc: Global, transcript: &[u8]) -> Result<Option<Counts>, Unanswered> {
    let settings = Settings {
        slack: 0,
        ignored: FieldNames::new(alloc),
        unmarked: UnmarkedReplies::ErrorsOnly,
        allowed: Allowed::nothing(alloc),
    };
    let auditor = Auditor::new(alloc, MapIndex::new(alloc), settings);
    match audited(auditor, transcript) {
        Ok(Verdict::Yes(counts)) => Ok(Some(counts)),
        Ok(_) => Ok(None),
        Err(_) => Err(Unanswered::Memory),
    }
}

fn audited<I: Index + Drop>(
    mut auditor: Auditor<I>,
    transcript: &[u8],
) -> Result<Verdict, AuditFault> {
    let fed = auditor.feed(transcript);
    let verdict = auditor.finish();
    fed?;
    verdict
}
