//! Fields and answers as text.

use hc_cases::{show, show_line};
use hc_fields::Fields;
use std::alloc::AllocError;

/// Writes octets in brackets.
pub fn bracketed(octets: &[u8], out: &mut String) -> Result<(), AllocError> {
    out.push_str("[")?;
    show(octets, out)?;
    out.push_str("]")
}

/// Writes octets in brackets, or `none`.
pub fn optional(octets: Option<&[u8]>, out: &mut String) -> Result<(), AllocError> {
    match octets {
        Some(octets) => bracketed(octets, out),
        None => out.push_str("none"),
    }
}

/// Writes the lines of fields, each in brackets.
pub fn lines(fields: &Fields, out: &mut String) -> Result<(), AllocError> {
    for line in fields.lines() {
        out.push_str("[")?;
        show_line(line, out)?;
        out.push_str("]")?;
    }
    Ok(())
}
