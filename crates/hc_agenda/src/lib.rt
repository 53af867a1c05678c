//! What is due and when: the moments that a cache is told, whose turn it is, deadlines, and who waits for a place. And what
//! is counted of many links: who may be accepted in a batch, and what is held and for whom.
#![tactic(auto)]

mod agenda;
mod deadline;
mod deadlines;
mod holding;
mod listening;
mod moments;
mod places;
mod reckoning;
mod turns;

pub use agenda::Agenda;
pub use deadline::{Deadline, Timeout, earlier};
pub use holding::Holding;
pub use listening::Listening;
pub use moments::{Moments, moments_follow_what_stays_ahead};
pub use places::{PlaceCandidate, Places};
pub use reckoning::{Heaviest, Load, Ranking, Reckoning};
pub use turns::{Turns, a_batch_gives_each_link_its_turn};
