//! Whether a head is read as itself once it is written.

ghost use Rattle.std.specs.Prelude.{◌≡◌, ℕ, ◌-◌, ◌<◌, ◌≤◌, ◌↔◌, IsTrue, List, ◌++◌, length, Option, Some, IfSome};
ghost use Rattle.std.specs.Option.{SomeIff};
ghost use Rattle.std.specs.List.{list_all, list_any};
ghost use Rattle.std.specs.Char.{is_ascii_uppercase};
ghost use Rattle.httparse.specs.Grammar.{is_uri_byte};
ghost use Rattle.hc_head.specs.Texts.{request_head_text, response_head_text};
ghost use Rattle.hc_head.specs.Writable.{has_framing, longest_body, BeginsWrittenRequest, BeginsWrittenResponse, IsWritableRequest, IsWritableResponse};
ghost use Rattle.hc_head.specs.declared.head.RequestHead.{RequestHead};
ghost use Rattle.hc_head.specs.declared.head.ResponseHead.{ResponseHead};
ghost use Rattle.hc_head.specs.declared.head.Room.{Room};
ghost use Rattle.hc_head.specs.Plain.{is_plain_name, is_plain_value, is_plain_field, IsPlainTarget, IsPlainRequest, IsPlainResponse};

use crate::head::{RequestHead, ResponseHead, Room};
use crate::weighing::room_behind_lines;
use hc_fields::{Field, Fields};
use httparse::{is_header_value, is_space_or_tab, is_token, is_uri_token};

/// The length of the longest body, in octets.
pub const LONGEST_BODY: usize = 16_777_216;

/// What a request's text has beside its method, its target and its fields.
const REQUEST_FRAME: &[u8] = b"  HTTP/1.1\r\ncontent-length: 16777216\r\n\r\n";

/// What a response's text has beside its fields.
const RESPONSE_FRAME: &[u8] = b"HTTP/1.1 200 \r\ncontent-length: 16777216\r\n\r\n";

fn has_framing(fields: &Fields) -> bool
    ensures { result ≡ has_framing fields.now }
{
    fields.contains(b"content-length") || fields.contains(b"transfer-encoding")
}

fn has_capital(name: &[u8]) -> bool
    ensures { result ≡ list_any is_ascii_uppercase name.now }
{
    name.iter().any(|octet| octet.is_ascii_uppercase())
}

fn is_plain_name(name: &[u8]) -> bool
    ensures { result ≡ is_plain_name name.now }
{
    is_token(name) && !has_capital(name)
}

fn is_plain_value(value: &[u8]) -> bool
    ensures { result ≡ is_plain_value value.now }
{
    match value {
        [] => true,
        [first, ..] if is_space_or_tab(*first) => false,
        [.., last] if is_space_or_tab(*last) => false,
        _ => is_header_value(value),
    }
}

fn are_plain_fields(fields: &[Field]) -> bool
    ensures { result ≡ list_all is_plain_field fields.now }
{
    fields.iter().all(|field| {
        is_plain_name(field.name.as_slice()) && is_plain_value(field.value.as_slice())
    })
}

fn is_visible(target: &[u8]) -> bool
    ensures { result ≡ list_all is_uri_byte target.now }
{
    target.iter().all(|octet| is_uri_token(*octet))
}

fn is_plain_target(target: &[u8]) -> bool
    ensures { IsTrue result ↔ IsPlainTarget target.now }
{
    !target.is_empty() && is_visible(target) && std::str::from_utf8(target).is_ok()
}

fn is_plain_request(head: &RequestHead) -> bool
    ensures { IsTrue result ↔ IsPlainRequest head.now }
{
    is_token(head.method.as_slice())
        && is_plain_target(head.target.as_slice())
        && are_plain_fields(head.fields.lines())
}

fn is_plain_response(head: &ResponseHead) -> bool
    ensures { IsTrue result ↔ IsPlainResponse head.now }
{
    // It has three digits, whatever it is.
    let _status = head.status.as_u16();
    are_plain_fields(head.fields.lines())
}

fn room_behind_request(room: usize, head: &RequestHead) -> Option<usize>
    ensures { SomeIff result (length (request_head_text head.now (Some longest_body)) ≤ room)
        (room - length (request_head_text head.now (Some longest_body))) }
{
    let room = room.checked_sub(head.method.as_slice().len())?;
    let room = room.checked_sub(head.target.len())?;
    let room = room.checked_sub(REQUEST_FRAME.len())?;
    room_behind_lines(room, head.fields.lines())
}

fn room_behind_response(room: usize, head: &ResponseHead) -> Option<usize>
    ensures { SomeIff result (length (response_head_text head.now (Some longest_body)) ≤ room)
        (room - length (response_head_text head.now (Some longest_body))) }
{
    // It has three digits, whatever it is.
    let _status = head.status.as_u16();
    let room = room.checked_sub(RESPONSE_FRAME.len())?;
    room_behind_lines(room, head.fields.lines())
}

/// A request's head that is writable, written with the length of a body or none, is read in the room
/// as it was written, whatever follows.
pub fn request_text_read_back()
    ensures { (head : RequestHead) (room : Room) → IsWritableRequest head room
        → (size : Option ℕ) → IfSome size (λ n. n ≤ longest_body) → (more : List ℕ)
        → BeginsWrittenRequest (request_head_text head size ++ more) room head size }
{}

/// A response's head that is writable, written with the length of a body or none, is read in the
/// room as it was written, whatever follows.
pub fn response_text_read_back()
    ensures { (head : ResponseHead) (room : Room) → IsWritableResponse head room
        → (size : Option ℕ) → IfSome size (λ n. n ≤ longest_body) → (more : List ℕ)
        → BeginsWrittenResponse (response_head_text head size ++ more) room head size }
{}

/// Whether a request's head is read in the room as itself once it is written, with the length of any
/// body or none.
pub fn writable_request(head: &RequestHead, room: Room) -> bool
    ensures { IsTrue result ↔ IsWritableRequest head.now room }
{
    !has_framing(&head.fields)
        && is_plain_request(head)
        && head.fields.len() < room.fields
        && room_behind_request(room.octets, head).is_some()
}

/// Whether a response's head is read in the room as itself once it is written, with the length of
/// any body or none.
pub fn writable_response(head: &ResponseHead, room: Room) -> bool
    ensures { IsTrue result ↔ IsWritableResponse head.now room }
{
    !has_framing(&head.fields)
        && is_plain_response(head)
        && head.fields.len() < room.fields
        && room_behind_response(room.octets, head).is_some()
}
