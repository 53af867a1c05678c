//! One client's connection and the forwards that are open for it, over links.
#![tactic(auto)]

mod client_side;
mod connection;
mod forwards;
mod peers;
mod resting;

pub use connection::Connection;
pub use resting::a_connection_at_rest_leaves_a_cache_at_rest;
