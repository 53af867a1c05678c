//! What the parts of a case of messages say.

use hc_cases::Unanswered;
use hc_fields::decimal;
use hc_framing::Kind;
use hc_head::Room;
use std::alloc::{AllocError, Global};

/// A number that a text writes in decimal digits.
fn number(text: &[u8]) -> Result<usize, Unanswered> {
    let number = decimal(text).ok_or(Unanswered::Unknown)?;
    usize::try_from(number).map_err(|_| Unanswered::Unknown)
}

/// `received`, `recorded`, or the most octets and the most fields.
pub fn room(text: &[u8]) -> Result<Room, Unanswered> {
    if text == b"received".as_slice() {
        return Ok(Room::RECEIVED);
    }
    if text == b"recorded".as_slice() {
        return Ok(Room::RECORDED);
    }
    let Some(at) = text.iter().position(|octet| *octet == b' ') else {
        return Err(Unanswered::Unknown);
    };
    Ok(Room {
        octets: number(&text[..at])?,
        fields: number(&text[at + 1..])?,
    })
}

/// `request`, or the method that a response answers: `GET` or `HEAD`.
pub fn kind(text: &[u8]) -> Result<Kind, Unanswered> {
    if text == b"request".as_slice() {
        return Ok(Kind::Request);
    }
    if text == b"GET".as_slice() {
        return Ok(Kind::Response { to_head: false });
    }
    if text == b"HEAD".as_slice() {
        return Ok(Kind::Response { to_head: true });
    }
    Err(Unanswered::Unknown)
}

/// The octets one behind another.
pub fn joined(alloc: Global, pieces: &[Vec<u8>]) -> Result<Vec<u8>, AllocError> {
    let mut octets = Vec::new(alloc);
    for piece in pieces {
        octets.extend_from_slice(piece.as_slice())?;
    }
    Ok(octets)
}
