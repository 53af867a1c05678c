//! What a driver asks of links, and of who keeps its records: the traits, and recorders over them.
#![tactic(auto)]

mod batches;
mod buffered;
mod clients;
mod happened;
mod lapsing;
mod link;
mod links;
mod off;
mod reading;
mod recorder;
mod writing;

pub use batches::Batches;
pub use buffered::Buffered;
pub use clients::Clients;
pub use happened::Happened;
pub use lapsing::{Lapsing, Silence};
pub use link::{Clock, Link, LinkFailure, Origins};
pub use links::{Awaiting, Links};
pub use off::Off;
pub use reading::{Came, read_some, send_octets, send_text};
pub use recorder::Recorder;
