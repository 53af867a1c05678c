//! The wrong replies of a recording that a document tells of: which these are, and, when it is read again, why each is wrong
//! and what came before it for its target.
#![tactic(auto)]

mod changes;
mod groups;
mod heading;
mod judged_by;
mod laws;
mod naming;
mod retelling;
mod rows;
mod time_line;
mod whole;

pub use laws::stale_from_is_when;
pub use naming::NamingReport;
pub use retelling::Retelling;
pub use whole::{Subject, document};
