//! The life of one stored response: how it begins, which 304 freshens it, what invalidates it (RFC
//! 9111 sections 3, 4.3.4 and 4.4).
#![tactic(auto)]

mod identifying;
mod keeping;
mod laws;
mod sizes;
mod stored;

pub use identifying::identifies;
pub use laws::{
    freshened_fields_state_their_date, initial_fields_state_their_date,
    without_validator_never_identified,
};
pub use sizes::fits;
pub use stored::{Stored, initial, invalidates};
