//! Messages that are written, and which octets of their texts have more than one owner.

use crate::messages_describing::{ShownHead, frame_fault};
use crate::messages_writing::written;
use hc_framing::{Kind, Message, MessageText, write_message};
use std::alloc::{AllocError, Global};
use std::fmt::Write;

/// Writes the text of the message that octets are, and how much of it is the body's own.
pub fn read_and_written<H: ShownHead>(
    alloc: Global,
    octets: &[u8],
    kind: Kind,
    out: &mut String,
) -> Result<(), AllocError> {
    match H::whole(alloc, octets, kind) {
        Ok(message) => {
            let text = text_of(alloc, &message, kind, out);
            drop(message);
            shared_text(&text?, out)
        }
        Err(fault) => frame_fault(fault, out),
    }
}

// The text of a message, which is written.
fn text_of<H: ShownHead>(
    alloc: Global,
    message: &Message<H>,
    kind: Kind,
    out: &mut String,
) -> Result<MessageText, AllocError> {
    let text = write_message(alloc, message, kind)?;
    written_text(alloc, &text, out)?;
    Ok(text)
}

// Writes the text of a message, and how long its second part is, where it has octets.
fn written_text(alloc: Global, text: &MessageText, out: &mut String) -> Result<(), AllocError> {
    let mut octets = Vec::new(alloc);
    text.append_to(&mut octets)?;
    described(text, octets.as_slice(), out)
}

fn described(text: &MessageText, octets: &[u8], out: &mut String) -> Result<(), AllocError> {
    written(octets, out)?;
    if text.len() != octets.len() || text.is_empty() {
        out.push_str(", miscounted")?;
    }
    let (_, rest) = text.parts();
    let length = rest.len();
    match (rest.is_empty(), rest.is_shared()) {
        (true, _) => Ok(()),
        (_, true) => write!(out, ", {length} of them the body's own"),
        (_, false) => write!(out, ", {length} of them copied"),
    }
}

// Writes whether a text that nobody else owns is copied where it is shared.
fn shared_text(text: &MessageText, out: &mut String) -> Result<(), AllocError> {
    let other = text.share()?;
    let (front, rest) = other.parts();
    if front.is_shared() && rest.is_shared() != rest.is_empty() {
        return Ok(());
    }
    out.push_str(", copied where it is shared")
}
