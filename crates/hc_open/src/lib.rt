//! What is open at a cache's links, by number: connections of clients, and forwards to the origin.
#![tactic(auto)]

mod groups;
mod links;
mod open_exchanges;
mod open_links;

pub use groups::Groups;
pub use links::{Client, Link};
pub use open_exchanges::OpenExchanges;
pub use open_links::OpenLinks;
