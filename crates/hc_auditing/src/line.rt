//! The line that says a verdict.
ghost use Rattle.std.specs.Prelude.{◌≡◌, IfOk, string_bytes};
ghost use Rattle.hc_auditing.specs.Line.{IsVerdictLine, malformed_line, no_line, yes_line};

use hc_history::{Counts, Verdict};
use std::alloc::{AllocError, Global};

/// The line of a verdict, with its line feed. It fails only where memory is refused.
pub fn verdict_line(alloc: Global, verdict: &Verdict) -> Result<String, AllocError>
    ensures { IfOk result (λ line. IsVerdictLine verdict.now (string_bytes line)) }
{
    match verdict {
        Verdict::Yes(counts) => right_line(alloc, counts),
        Verdict::No(position, reason) => {
            wrong_line(alloc, *position, reason.number(), reason.name())
        }
        Verdict::Malformed(position, fault) => {
            broken_line(alloc, *position, fault.number(), fault.name())
        }
    }
}

fn right_line(alloc: Global, counts: &Counts) -> Result<String, AllocError>
    ensures { IfOk result (λ line. string_bytes line ≡ yes_line counts.now) }
{
    let records = counts.records;
    let replies = counts.replies;
    let hits = counts.hits;
    let forwarded = counts.forwarded;
    let unmarked = counts.unmarked;
    format!(in alloc;
        "yes records={records} replies={replies} hits={hits} forwarded={forwarded} unmarked={unmarked}\n"
    )
}

fn wrong_line(alloc: Global, position: u64, number: u32, name: &str) -> Result<String, AllocError>
    ensures { IfOk result (λ line. string_bytes line ≡ no_line position number name.now) }
{
    format!(in alloc; "no {position} {number} {name}\n")
}

fn broken_line(alloc: Global, position: u64, number: u32, name: &str) -> Result<String, AllocError>
    ensures { IfOk result (λ line. string_bytes line ≡ malformed_line position number name.now) }
{
    format!(in alloc; "malformed {position} {number} {name}\n")
}
