//! The links of many clients, of the origin, and of those whom the cache doesn't know of, as tables by number.
#![tactic(auto)]

mod client;
mod clients;
mod forward;
mod forwards;
mod guests;
mod inviting;
mod lingerer;
mod links;
mod origin_link;
mod peers;
mod placing;
mod table;
mod telling;
mod turned_away;

pub use client::{Client, Hearing};
pub use forward::Forward;
pub use guests::Guests;
pub use lingerer::{Lingerer, Remainder};
pub use peers::Peers;
pub use table::Table;
pub use telling::happened;
pub use turned_away::MOST_TURNED_AWAY;
