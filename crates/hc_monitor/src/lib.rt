//! What a proxy tells whoever watches over it: numbers in the text format of Prometheus, whether it serves, and a page; and the
//! requests by which these are asked for.
#![tactic(auto)]

mod asking;
mod board;
mod families;
mod figures;
mod marks;
mod metrics;
mod names;
mod page;
mod replying;
mod stand;
mod watching;

pub use asking::Wanted;
pub use board::Board;
pub use figures::{Classes, Figures, Ways};
pub use marks::{Class, Way, class_of, way_of};
pub use metrics::{Befell, Kind, metrics_of};
pub use replying::Body;
pub use stand::Stand;
pub use watching::Watching;
