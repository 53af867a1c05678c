//! A stream that nobody waits for: what waits to be written there, what is heard of it, and how it is getting on.
#![tactic(auto)]

mod flow;
mod heard;
mod outbox;
mod pace;
mod patience;
mod pieces;
mod progress;
mod readiness;
mod stream;
mod weight;

pub use flow::Flow;
pub use heard::{Heard, hear_flow, wants_turn};
pub use outbox::{Emptying, Outbox};
pub use pace::{Pace, a_look_comes_in_time};
pub use patience::Patience;
pub use progress::ForwardProgress;
pub use readiness::Readiness;
pub use stream::{Arrival, Presence, Stream, Uptake};
pub use weight::weight_of;
