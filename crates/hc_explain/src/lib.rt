//! The explanation of one reply of a recording, as text and as JSON.
#![tactic(auto)]

mod explaining;
mod facts;
mod object;
mod responses;
mod telling;

pub use explaining::{Explaining, Form, say_head};
