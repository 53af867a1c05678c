//! The command line of `hcache`: what its words ask, its help, and why words are refused.
#![tactic(auto)]

mod arguments;
mod cache;
mod command;
mod order;
mod origins;
mod positions;
mod rows;

pub use arguments::{beside_html, not_text, parsed, without_baseline};
pub use hc_options::{AuditTerms, Minimums};
pub use order::{
    ExplainTerms, Order, ProxyLimits, ProxyPatience, Proxying, RecordTerms, ReportTerms, Serving,
};
