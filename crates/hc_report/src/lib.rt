//! A report on a recording: what its replies say of themselves, which are wrong, grouped by what is wrong in them, and
//! what could be let pass so that fewer are. It takes memory of bounded size, however many replies there are, but where it
//! counts all wrong replies by their kind.
#![tactic(auto)]

mod cases;
mod counting;
mod explained;
mod found;
mod json;
mod made;
mod report;
mod source;
mod text;
mod tries;

pub use counting::CountingReport;
pub use found::{Group, Suspect};
pub use made::other_setting;
pub use report::Report;
pub use tries::Helpful;
