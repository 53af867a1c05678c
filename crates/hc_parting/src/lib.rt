//! The commands `split` and `join`: a recording in files, its parts in a folder, and the verdicts on them.
#![tactic(auto)]

mod filling;
mod folder;
mod joining;
mod manifest;
mod splitting;
mod verdicts;

pub use filling::fill;
pub use joining::join;
pub use manifest::{entry_line, head_line};
pub use splitting::{SplitOrder, split};
pub use verdicts::verdict_said;
