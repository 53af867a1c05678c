//! What is remembered of the records before a reply, which stored response is named with it, and what is wrong by these.
#![tactic(auto)]

mod past;
mod shortfalls;
mod sources;
mod unstored;
mod window;
mod wrongs;

pub use past::{End, Heads, Past, copied_request, fields_of};
pub use shortfalls::{Nearest, Reach, Reaches, Shortfall, named, setting_of};
pub use unstored::{NO_GET, Unstored, tell_unstored};
pub use window::{Window, is_of_part};
pub use wrongs::{NoMark, Why, Wrong, names_response};
