//! Heads that are written.

use crate::blocks::fields_of_lines;
use crate::messages_parts::room;
use crate::messages_targets::head;
use crate::starts::status_of;
use hc_cases::{Case, Unanswered, show, yes_or_no};
use hc_head::{ResponseHead, Version};
use std::alloc::{AllocError, Global};
use std::fmt::Write;

// The head of a response.
fn response_head(
    alloc: Global,
    status: &[u8],
    lines: &[Vec<u8>],
) -> Result<ResponseHead, Unanswered> {
    let status = status_of(status)?;
    Ok(ResponseHead {
        status,
        version: Version::Http11,
        fields: fields_of_lines(alloc, lines)?,
    })
}

/// Writes a text and its length.
pub fn written(text: &[u8], out: &mut String) -> Result<(), AllocError> {
    show(text, out)?;
    let length = text.len();
    write!(out, "; {length} octets")
}

/// Writes whether the head of a request can be written: ROOM, METHOD, TARGET and lines.
pub fn writable_request(case: &Case<'_>, out: &mut String) -> Result<(), Unanswered> {
    let [within, method, target, lines @ ..] = case.about else {
        return Err(Unanswered::Unknown);
    };
    let room = room(within)?;
    let head = head(case.alloc, method, target, lines)?;
    let is = hc_head::writable_request(&head, room);
    drop(head);
    Ok(yes_or_no(is, out)?)
}

/// Writes whether the head of a response can be written: ROOM, STATUS and lines.
pub fn writable_response(case: &Case<'_>, out: &mut String) -> Result<(), Unanswered> {
    let [within, status, lines @ ..] = case.about else {
        return Err(Unanswered::Unknown);
    };
    let room = room(within)?;
    let head = response_head(case.alloc, status, lines)?;
    let is = hc_head::writable_response(&head, room);
    drop(head);
    Ok(yes_or_no(is, out)?)
}
