//! What is known of the records so far, as far as the next reply needs it, behind one law: an index is
//! seen as the history of the records that it has noted.
#![tactic(auto)]

mod at_target;
mod candidates;
mod exchanges;
mod finding;
mod forwards;
mod index;
mod keeping;
mod kept;
mod list_index;
mod lives;
mod map_index;
mod noting;
mod opened;
mod pool;
mod targets;
mod windows;

pub use hc_history::{Candidate, Finding, MarkedReply, Reason, ReplyClaim, Settings};
pub use index::Index;
pub use kept::RecordedForward;
pub use list_index::ListIndex;
pub use map_index::MapIndex;
