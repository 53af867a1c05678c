//! A recording that is split into parts by target, and what the verdicts on these tell of it.
#![tactic(auto)]

mod choosing;
mod families;
mod fault;
mod joining;
mod outlets;
mod parts;
mod routes;
mod splitter;
mod tables;
mod tally;

pub use choosing::FamilyReader;
pub use families::Families;
pub use fault::SplitFault;
pub use joining::{Joined, Told, join};
pub use outlets::Outlet;
pub use parts::Parts;
pub use routes::{RouteFault, Routes};
pub use splitter::Splitter;
pub use tables::{position_at, told};
pub use tally::{Extent, Tally};
