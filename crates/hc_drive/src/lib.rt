//! Serving clients: what happens at links is handed to a cache, what the cache does is carried out, and its records are
//! written. What a caller needs for that is here, too: the traits of links, and the replay of scripts.
#![tactic(auto)]

mod asked;
mod carrying;
mod clients;
mod crowds;
mod driving;
mod fault;
mod recorder;
mod rounds;
mod serving;
mod watcher;

pub use clients::{Surroundings, serve_clients};
pub use crowds::serve_crowd;
pub use driving::drive;
pub use fault::{DriveFault, ServingFault};
pub use hc_links::{Clock, Link, Origins};
pub use hc_scripts::replay;
pub use serving::serve_connection;
pub use watcher::{Unwatched, Watcher};
