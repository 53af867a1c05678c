//! What a proxy says on standard error: notices, each a line, and the voice that says them.
#![tactic(auto)]

mod notice;
mod voice;

pub use notice::{Greeting, Notice, Wrongs};
pub use voice::Voice;
