//! What is told of the replies that a client got.

use hc_cases::show_short;
use std::alloc::AllocError;
use std::fmt::Write;

/// Writes the status and the mark of each reply, and of those that are the same how many there are.
pub(crate) fn say_replies_in(got: &[u8], out: &mut String) -> Result<(), AllocError> {
    let mut last = 0;
    let mut times = 0u64;
    'places: for place in 0..got.len() {
        if reply_at(got, place).is_none() {
            continue;
        }
        if times > 0 && are_same(got, last, place) {
            times = times.saturating_add(1);
        } else {
            say_times(got, last, times, out)?;
            times = 1;
        }
        last = place;
    }
    say_times(got, last, times, out)
}

/// The status of a reply, and what its mark says.
#[derive(Clone, Copy)]
struct Reply<'a> {
    status: &'a [u8],
    mark: &'a [u8],
}

/// Whether the replies that begin there say the same.
fn are_same(got: &[u8], one: usize, other: usize) -> bool {
    match (reply_at(got, one), reply_at(got, other)) {
        (Some(one), Some(other)) => one.status == other.status && one.mark == other.mark,
        _ => false,
    }
}

/// The reply that begins there, if one does.
fn reply_at(got: &[u8], place: usize) -> Option<Reply<'_>> {
    let (_, rest) = got.split_at_checked(place)?;
    let rest = rest.strip_prefix(b"HTTP/1.1 ")?;
    let (status, fields) = rest.split_at_checked(3)?;
    Some(Reply {
        status,
        mark: mark_in(fields),
    })
}

/// What the mark of the cache says, in the fields that stand before the next empty line.
fn mark_in(fields: &[u8]) -> &[u8] {
    'places: for place in 0..fields.len() {
        let Some((_, rest)) = fields.split_at_checked(place) else {
            return b"";
        };
        if rest.starts_with(b"\r\n\r\n") {
            return b"";
        }
        if let Some(mark) = rest.strip_prefix(b"cache-status: hcache;") {
            return line_of(mark);
        }
    }
    b""
}

/// The octets before the end of a line.
fn line_of(text: &[u8]) -> &[u8] {
    match text.iter().position(|octet| *octet == b'\r') {
        Some(place) => &text[..place],
        None => text,
    }
}

/// Writes so many times the reply that begins there.
fn say_times(got: &[u8], place: usize, times: u64, out: &mut String) -> Result<(), AllocError> {
    if times == 0 {
        return Ok(());
    }
    out.push_str(" ")?;
    if times > 1 {
        write!(out, "{times} times ")?;
    }
    match reply_at(got, place) {
        Some(reply) => say_reply(reply, out),
        None => Ok(()),
    }
}

fn say_reply(reply: Reply<'_>, out: &mut String) -> Result<(), AllocError> {
    show_short(reply.status, out)?;
    if !reply.mark.is_empty() {
        out.push_str(" ")?;
        show_short(reply.mark, out)?;
    }
    out.push_str(",")
}
