//! What a report counts and lists, which of its wrong replies an earlier one has, and JSON of both: the members of objects
//! and the values of arrays as they are made.
#![tactic(auto)]

mod baseline;
mod counts;
mod held;
mod json;
mod listed;
mod made;
mod members;
mod tally;

pub use baseline::{Baseline, BaselineFault};
pub use counts::ReplyCounts;
pub use held::{NamedKind, NamedKinds};
pub use json::{NO_MARK, put_figures};
pub use listed::{ListedReplies, ListedReply, ShownRequest};
pub use made::Difference;
pub use members::{Array, Object};
pub use tally::Tally;
