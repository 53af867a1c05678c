//! Octets, the field lines of a message, and the lists and numbers in them.
#![tactic(auto)]

mod connection;
mod fields;
mod lists;
mod members;
mod numbers;
mod octets;
mod shared;
mod tokens;
mod views;
mod waiting;

pub use connection::is_among;
pub use fields::{Field, Fields, Values};
pub use lists::{ListMembers, list_members, trimmed};
pub use members::{Members, joined_lines_have_the_members};
pub use numbers::{END_OF_MOMENTS, LARGEST_NUMBER, decimal, number};
pub use octets::Octets;
pub use shared::SharedOctets;
pub use tokens::is_token;
pub use views::{FieldsView, LineSpan, Lines, piece};
pub use waiting::Waiting;
