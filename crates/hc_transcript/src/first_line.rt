//! The first line of a record.

ghost use Rattle.std.specs.Prelude.{◌≡◌, ℕ, ◌<◌, ◌≤◌, List, length, take, IfSome, IfNone};
ghost use Rattle.hc_transcript.specs.Limits.{longest_line};
ghost use Rattle.hc_transcript.specs.Lines.{BeginsLine, HasLongLine};

use crate::limits::LONGEST_LINE;

/// Where the first line ends, within the octets that a line may have with its line feed.
pub(crate) fn line_end(bytes: &[u8]) -> Option<usize>
    ensures found { IfSome result (λ end. (end < length bytes.now) × BeginsLine bytes.now (take end bytes.now)) }
    ensures long { IfNone result (longest_line ≤ length bytes.now → HasLongLine bytes.now) }
    ensures none { IfNone result ((text : List ℕ) → ¬ (BeginsLine bytes.now text)) }
{
    for (at, octet) in bytes.iter().enumerate() {
        if at == LONGEST_LINE {
            return None;
        }
        if *octet == b'\n' {
            return Some(at);
        }
    }
    None
}
