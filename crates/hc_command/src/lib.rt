//! What the program `hcache` does beside audits: the report on all wrong replies of a transcript, the explanation of one,
//! records as text, the replay of a script, the conversion of a transcript, and the exit status.
#![tactic(auto)]

mod baseline;
mod converting;
mod documenting;
mod explaining;
mod objects;
mod replaying;
mod reporting;
mod run;
mod saying;
mod showing;
mod surveying;
mod twice;

pub use baseline::{BaselineTrouble, baseline_of};
pub use converting::convert;
pub use documenting::report_in_html;
pub use explaining::explain;
pub use replaying::replay;
pub use reporting::{Beside, ReportEnd, ReportForm, report};
pub use run::{answered, status};
pub use showing::show;
pub use twice::Twice;
