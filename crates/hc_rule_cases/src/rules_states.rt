//! Stored responses, made of texts. Each line of fields ends in CR LF.
ghost use Rattle.std.specs.Prelude.{◌<◌};

use crate::rules_describing::lines;
use hc_cases::{Unanswered, show};
use hc_fields::Octets;
use hc_framing::{FrameFault, Message, whole_request, whole_response};
use hc_fresh::Times;
use hc_head::{RequestHead, ResponseHead};
use hc_update::{Stored, initial};
use std::alloc::{AllocError, Global};
use std::fmt::Write;

// The texts one behind the other.
fn joined(alloc: Global, texts: &[&[u8]]) -> Result<Octets, AllocError> {
    let mut joined = Octets::new(alloc);
    for text in texts {
        joined.extend_from_slice(text)?;
    }
    Ok(joined)
}

/// Why a text isn't read.
pub fn unread(fault: FrameFault) -> Unanswered {
    match fault {
        FrameFault::Memory => Unanswered::Memory,
        _ => Unanswered::Unknown,
    }
}

/// The head of a request for `/a` with those lines.
pub fn request(alloc: Global, method: &[u8], lines: &[u8]) -> Result<RequestHead, Unanswered> {
    let start = b" /a HTTP/1.1\r\nhost: h\r\n".as_slice();
    let octets = joined(alloc, &[method, start, lines, b"\r\n"])?;
    request_of(alloc, octets.as_slice())
}

fn request_of(alloc: Global, octets: &[u8]) -> Result<RequestHead, Unanswered> {
    match whole_request(alloc, octets) {
        Ok(message) => Ok(message.head),
        Err(fault) => Err(unread(fault)),
    }
}

/// The head of a response with that status and those lines.
pub fn response(alloc: Global, status: &[u8], lines: &[u8]) -> Result<ResponseHead, Unanswered> {
    let octets = joined(alloc, &[b"HTTP/1.1 ", status, b" \r\n", lines, b"\r\n"])?;
    response_of(alloc, octets.as_slice())
}

fn response_of(alloc: Global, octets: &[u8]) -> Result<ResponseHead, Unanswered> {
    match whole_response(alloc, octets, false) {
        Ok(message) => Ok(message.head),
        Err(fault) => Err(unread(fault)),
    }
}

/// What is stored of a response, which came at that moment, to a GET with those lines, which was sent
/// at that moment.
pub fn stored_of(
    alloc: Global,
    asked: &[u8],
    request_time: u64,
    octets: &[u8],
    response_time: u64,
) -> Result<Stored, Unanswered>
    requires { response_time < 253_402_300_800 }
{
    let forward = request(alloc, b"GET", asked)?;
    match whole_response(alloc, octets, false) {
        Ok(response) => stored_as(alloc, forward, request_time, response, response_time),
        Err(fault) => Err(unread(fault)),
    }
}

fn stored_as(
    alloc: Global,
    forward: RequestHead,
    request_time: u64,
    response: Message<ResponseHead>,
    response_time: u64,
) -> Result<Stored, Unanswered>
    requires { response_time < 253_402_300_800 }
{
    match initial(alloc, forward, request_time, response, response_time) {
        Ok(state) => Ok(state),
        Err(AllocError) => Err(Unanswered::Memory),
    }
}

/// The same of a response of status 200 with those lines and the body `hello`, both at the moment 1000.
pub fn hello(alloc: Global, asked: &[u8], lines: &[u8]) -> Result<Stored, Unanswered> {
    let end = b"content-length: 5\r\n\r\nhello".as_slice();
    let octets = joined(alloc, &[b"HTTP/1.1 200 OK\r\n", lines, end])?;
    stored_of(alloc, asked, 1000, octets.as_slice(), 1000)
}

/// Writes a stored response.
pub fn described(state: &Stored, out: &mut String) -> Result<(), AllocError> {
    asked(&state.request, out)?;
    let status = state.status.as_u16();
    write!(out, "; {status} ")?;
    lines(&state.fields, out)?;
    out.push_str("; body ")?;
    show(state.body.as_slice(), out)?;
    times(&state.times, out)?;
    validity(state.invalid, state.validated_at, out)
}

fn asked(request: &RequestHead, out: &mut String) -> Result<(), AllocError> {
    show(request.method.as_slice(), out)?;
    out.push_str(" ")?;
    show(request.target.as_slice(), out)?;
    out.push_str(" ")?;
    lines(&request.fields, out)
}

fn validity(invalid: bool, validated_at: Option<u64>, out: &mut String) -> Result<(), AllocError> {
    out.push_str(if invalid { "; invalid" } else { "; valid" })?;
    match validated_at {
        Some(position) => write!(out, "; validated at {position}"),
        None => Ok(()),
    }
}

fn times(times: &Times, out: &mut String) -> Result<(), AllocError> {
    let date = times.date;
    let age = times.age_value;
    let request = times.request_time;
    let response = times.response_time;
    write!(out, "; date {date}, age {age}, times {request} {response}")
}
