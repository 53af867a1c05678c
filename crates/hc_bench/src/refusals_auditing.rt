//! An auditor that is fed a transcript, also behind a refusal.

use crate::refusals_seen::{Next, Seen};
use hc_audit::{Allowed, AuditFault, Auditor, FieldNames, Settings, UnmarkedReplies, Verdict};
use hc_index::MapIndex;
use std::alloc::Global;

/// A response that is stored, and a hit.
const TRANSCRIPT: &[u8] = b"HCT1
q 1 1000 28
GET /a HTTP/1.1\r\nhost: h\r\n\r\n
f 1 1000 28
GET /a HTTP/1.1\r\nhost: h\r\n\r\n
r 1 1000 105
HTTP/1.1 200 \r\ndate: Thu, 01 Jan 1970 00:16:40 GMT\r\ncache-control: max-age=60\r\ncontent-length: 5\r\n\r\nhello
a 1 1000 105
HTTP/1.1 200 \r\ndate: Thu, 01 Jan 1970 00:16:40 GMT\r\ncache-control: max-age=60\r\ncontent-length: 5\r\n\r\nhello
q 2 1059 28
GET /a HTTP/1.1\r\nhost: h\r\n\r\n
a 2 1059 141
HTTP/1.1 200 \r\ndate: Thu, 01 Jan 1970 00:16:40 GMT\r\ncache-control: max-age=60\r\nage: 59\r\ncache-status: c;hit;ttl=1\r\ncontent-length: 5\r\n\r\nhello
";

/// How many octets a piece has.
const PIECE: usize = 64;

/// Feeds a new auditor the transcript in pieces, and asks for the verdict.
pub fn seen(alloc: Global) -> Seen {
    let settings = Settings {
        slack: 0,
        ignored: FieldNames::new(alloc),
        unmarked: UnmarkedReplies::Allow,
        allowed: Allowed::nothing(alloc),
    };
    let mut auditor = Auditor::new(alloc, MapIndex::new(alloc), settings);
    let mut seen = Seen::Answered;
    for piece in TRANSCRIPT.chunks(PIECE) {
        seen = seen.then(next_of(auditor.feed(piece)));
    }
    let next = match auditor.finish() {
        Ok(Verdict::Yes(_)) => Next::Answered,
        Ok(_) => Next::Other,
        Err(fault) => next_behind(fault),
    };
    seen.then(next)
}

// What was returned for a piece.
fn next_of(fed: Result<(), AuditFault>) -> Next {
    match fed {
        Ok(()) => Next::Answered,
        Err(fault) => next_behind(fault),
    }
}

fn next_behind(fault: AuditFault) -> Next {
    match fault {
        AuditFault::Memory => Next::Memory,
        AuditFault::Failed => Next::Failed,
    }
}
