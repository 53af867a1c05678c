//! Why a recording isn't split.

use hc_transcript::{RecordFault, RecordReader};
use std::io;

/// Why a recording isn't split.
#[derive(Clone, Copy)]
pub enum SplitFault {
    /// It breaks at this position, by this fault.
    Broken(u64, RecordFault),
    /// It isn't the one for which the parts were chosen.
    Changed,
    /// Memory was refused.
    Memory,
    /// A part can't be written, for this reason.
    Output(io::Error),
}

/// Why nothing is read on, where the reader met that fault.
pub(crate) fn fault_at(reader: &RecordReader, fault: RecordFault) -> SplitFault {
    match fault {
        RecordFault::Memory => SplitFault::Memory,
        fault => SplitFault::Broken(reader.position(), fault),
    }
}
