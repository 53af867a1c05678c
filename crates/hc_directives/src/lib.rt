//! The directives of Cache-Control (RFC 9111 section 5.2).
#![tactic(auto)]

mod cache_control;
mod known;
mod laws;
mod quoted;
mod spelling;

pub use cache_control::{Directives, Seconds};
pub use known::KnownDirectives;
pub use laws::{written_directive_read_back, written_token_read_back};
