//! Dates, ages and freshness lifetimes (RFC 9111 section 4.2).
#![tactic(auto)]

mod ages;
mod date_lines;
mod dates;
mod laws;
mod lifetimes;
mod saying;

pub use ages::{Times, age_value, current_age, fresh, staleness};
pub use date_lines::{date_stated, dated};
pub use dates::{date_text, read_date};
pub use laws::{
    age_value_has_a_limit, dated_fields_state_a_date, lifetime_has_a_limit,
    stale_response_stays_stale, written_date_read_back,
};
pub use lifetimes::{Freshness, explicit, freshness_stated, lifetime, stale_forbidden};
pub use saying::{says, seconds_said};
