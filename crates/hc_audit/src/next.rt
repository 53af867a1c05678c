//! What the octets of a transcript are read as next.

ghost use Rattle.std.specs.Prelude.{◌≡◌};
ghost use Rattle.hc_audit.specs.Judging.{next_behind};

use hc_transcript::{Format, RecordFault};
use std::alloc::AllocError;

/// What the octets that were fed are read as next.
#[derive(Drop)]
pub(crate) enum Next {
    /// No record is whole.
    Waiting,
    /// A record, in a transcript of that format.
    Record(Format),
    /// They break at this position, by this fault.
    Broken(u64, RecordFault),
}

/// What a fault of the transcript at a position is to whoever reads on: the end of reading, but for want of memory.
pub(crate) fn next_behind(fault: RecordFault, position: u64) -> Result<Next, AllocError>
    ensures { result ≡ next_behind fault position }
{
    match fault {
        RecordFault::Memory => Err(AllocError),
        other => Ok(Next::Broken(position, other)),
    }
}
