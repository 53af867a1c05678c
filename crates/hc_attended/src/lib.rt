//! The links of a crowd, and what is noted of them: whatever may go on at one is noted, so none is left lying.
#![tactic(auto)]

mod attended;
mod clients;
mod cutting;
mod forwards;
mod guests;
mod lingering;
mod owing;
mod seeing;
mod settled;
mod shown;
mod times;
mod world;

pub use attended::Attended;
pub use cutting::Waiters;
pub use settled::{
    a_crowd_without_links_is_settled, nothing_is_left_lying, who_is_to_be_heard_has_a_turn,
};
pub use shown::Shown;
pub use times::Times;
pub use world::{Accepted, Ready, World};
