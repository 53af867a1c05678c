//! What passes at the links of a cache, in order, and what of it is open: so whoever drives a cache knows what may happen
//! next.
#![tactic(auto)]

mod laws;
mod occurrence;
mod passages;
mod receiver;
mod resting;

pub use laws::{
    a_new_cache_mirrors_what_is_before, actions_leave_what_is_open,
    what_may_happen_in_turn_is_served, what_may_happen_is_served,
};
pub use occurrence::{Occurrence, Reason};
pub use passages::{a_move_elsewhere_leaves_a_passage, passages_tell_what_is_open};
pub use receiver::Receiver;
pub use resting::{
    an_end_stays, an_origins_end_closes_the_forward, leaving_connections_await_a_reply,
    what_has_ended_is_at_rest,
};
