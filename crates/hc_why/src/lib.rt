//! What is known of one reply by the records before it, and what is asked of it.
#![tactic(auto)]

mod changes;
mod demands;
mod explaining;
mod first;
mod found;
mod seeking;
mod telling;

pub use changes::{Due, Ends};
pub use explaining::{Explanation, Way};
pub use first::FirstWrong;
pub use found::FoundReply;
pub use seeking::ReplyAt;
