//! What a cache does for a request, and for what the origin answers: whether a request gets a reply from the store
//! or goes to the origin, what a response or a failure makes of the store and of the reply, and which records and
//! which octets go out. Each call changes the parts that it is given, and no other.
//!
//! A call fails only where memory is refused. What it was given to change may be changed in part then, so nobody goes
//! on with that.
#![tactic(auto)]

mod asking;
mod outcomes;
mod reacting;
mod releasing;
mod sending;

pub use outcomes::{AnsweredForward, Outcome, fail, renew, respond, store_behind};
pub use reacting::{OpenBehind, Reaction, Underway, forward_anew, react};
pub use releasing::{forward_alone, release};
pub use sending::{
    Addressee, record_failure, record_request, record_response, refuse, send_reply, send_request,
};
