//! The replies that the cache gives: what the origin answered, a stored response, that it still holds,
//! and those that the cache makes itself.
#![tactic(auto)]

mod laws;
mod lines;
mod replies;

pub use laws::{replies_have_the_stored_values, replies_have_their_marks, replies_tell_their_age};
pub use replies::{forwarded_reply, generated_reply, not_modified_reply, stored_reply};
