//! How octets that others have written are shown, and moments.

use hc_cases::Unanswered;
use hc_fields::decimal;
use hc_shown::{push_moment, push_value};

/// Writes how the octets are shown as the value of the field of that name, the first of the parts.
pub fn say_value(octets: &[u8], parts: &[Vec<u8>], out: &mut String) -> Result<(), Unanswered> {
    match parts.first() {
        Some(name) => Ok(push_value(name.as_slice(), octets, out)?),
        None => Err(Unanswered::Unknown),
    }
}

/// Writes how the moment is shown that the octets, a decimal, tell.
pub fn say_moment(octets: &[u8], out: &mut String) -> Result<(), Unanswered> {
    match decimal(octets) {
        Some(moment) => Ok(push_moment(moment, out)?),
        None => Err(Unanswered::Unknown),
    }
}
