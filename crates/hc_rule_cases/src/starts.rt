//! Methods and statuses in cases.

use hc_cases::Unanswered;
use hc_fields::{decimal, is_token};
use hc_head::{Method, StatusCode};
use std::alloc::Global;

/// The method that a part is.
pub fn method_of(alloc: Global, part: &[u8]) -> Result<Method, Unanswered> {
    if !is_token(part) {
        return Err(Unanswered::NoMethod);
    }
    Ok(Method::from_slice(alloc, part)?)
}

/// The status whose number a part is.
pub fn status_of(part: &[u8]) -> Result<StatusCode, Unanswered> {
    decimal(part)
        .and_then(|number| u16::try_from(number).ok())
        .and_then(StatusCode::from_u16)
        .ok_or(Unanswered::NoStatus)
}
