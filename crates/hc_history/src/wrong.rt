//! All wrong replies of a transcript.

use crate::reasons::Reason;
use hc_transcript::RecordFault;

/// A wrong reply of a transcript.
#[derive(Clone, Copy, PartialEq, Eq)]
pub struct WrongReply {
    /// The position of its record, of which the first has 1.
    pub position: u64,
    /// Why it is wrong.
    pub reason: Reason,
}

/// How the reading of a transcript ends, whatever its replies are. Positions count the records from 1; the
/// opening has position 0.
#[derive(Clone, Copy, PartialEq, Eq)]
pub enum Ending {
    /// With its last record, or with its opening where there is none.
    Whole,
    /// It breaks at this position, by this fault.
    Broken(u64, RecordFault),
}
