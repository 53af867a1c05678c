//! Octets and answers as text.

use hc_fields::Field;
use std::alloc::AllocError;
use std::fmt::Write;

/// The most octets that `show` writes out.
const LONGEST: usize = 300;

/// Writes the octets as the texts of cases spell them, or how many they are and the first ones of
/// them where they are more than 300.
pub fn show(octets: &[u8], out: &mut String) -> Result<(), AllocError> {
    if octets.len() <= LONGEST {
        return show_short(octets, out);
    }
    let length = octets.len();
    let (front, _) = octets.split_at(8);
    write!(out, "{length} octets from ")?;
    show_short(front, out)
}

/// Writes the octets as the texts of cases spell them.
pub fn show_short(octets: &[u8], out: &mut String) -> Result<(), AllocError> {
    for octet in octets {
        show_octet(*octet, out)?;
    }
    Ok(())
}

fn show_octet(octet: u8, out: &mut String) -> Result<(), AllocError> {
    match octet {
        b'\r' => out.push_str("\\r"),
        b'\n' => out.push_str("\\n"),
        b'\t' => out.push_str("\\t"),
        b'\\' => out.push_str("\\\\"),
        b' '..=b'~' => out.push(char::from(octet)),
        _ => write!(out, "\\x{octet:02x}"),
    }
}

/// Writes the name and the value of a line of fields.
pub fn show_line(line: &Field, out: &mut String) -> Result<(), AllocError> {
    show_short(line.name.as_slice(), out)?;
    out.push_str(": ")?;
    show(line.value.as_slice(), out)
}

/// Writes `yes` or `no`.
pub fn yes_or_no(answer: bool, out: &mut String) -> Result<(), AllocError> {
    out.push_str(if answer { "yes" } else { "no" })
}

/// Writes a number and a name behind those that stand there.
pub fn show_named(number: u32, name: &str, out: &mut String) -> Result<(), AllocError> {
    if !out.is_empty() {
        out.push_str(", ")?;
    }
    write!(out, "{number} {name}")
}
