//! Cache-Status (RFC 9211), and the lists of structured items that it is made of (RFC 8941).
#![tactic(auto)]

mod bare_items;
mod cache_status;
mod fault;
mod items;
mod laws;
mod marking;
mod marks;
mod members;
mod numbers;
mod parameters;
mod scan;
mod strings;
mod writing;

pub use cache_status::{CacheStatus, Handling};
pub use fault::{MarkFault, SfFault};
pub use items::{Bare, Member, Parameter, Parameters};
pub use laws::{member_read_back, one_list};
pub use marking::{mark, read_list};
pub use marks::Mark;
pub use writing::write_member;
