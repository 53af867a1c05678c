//! Many clients at once: their links and those to the origin, in one thread that waits for none of them.
#![tactic(auto)]

mod abandoning;
mod accepting;
mod course;
mod crowd;
mod delivering;
mod displacing;
mod holding;
mod limits;
mod reaching;
mod told;
mod traffic;
mod troubles;
mod turning;
mod turning_away;
mod waiting;
mod watching;
mod welcoming;

pub use crowd::Crowd;
pub use hc_attended::{Accepted, Ready, World};
pub use hc_flow::Patience;
pub use limits::Limits;
pub use troubles::{Counted, Troubles, Whose};
