//! The auditor: it reads a transcript in pieces, and returns the verdict on it, by whatever index. A survey
//! goes on behind a wrong reply, and tells of all of them.
#![tactic(auto)]

mod auditor;
mod fault;
mod judge;
mod laws;
mod next;
mod survey;
mod surveying;
mod witness;

pub use auditor::Auditor;
pub use fault::AuditFault;
pub use hc_history::{
    Allowed, Counts, Ending, FieldNames, Finding, Mark, MarkedReply, Reason, Settings,
    UnmarkedReplies, Verdict, WrongReply,
};
pub use hc_index::Index;
pub use hc_transcript::{Format, RecordFault};
pub use laws::converting_keeps_a_yes;
pub use survey::Survey;
pub use witness::{JudgedReply, PassedRecord, Witness};
