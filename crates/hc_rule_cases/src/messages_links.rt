//! What arrives on links.
ghost use Rattle.std.specs.Prelude.{◌≡◌, ◌<◌, IfOk, Ok, false, true};
ghost use Rattle.hc_incoming.specs.RequestReading.{CanRead};
ghost use Rattle.hc_incoming.specs.ResponseReading.{CanRead as CanHear};

use crate::messages_describing;
use crate::messages_parts::{joined, kind};
use crate::messages_whole::other;
use hc_cases::{Case, Unanswered, show};
use hc_framing::{Kind, Message};
use hc_head::{RequestHead, ResponseHead, Target};
use hc_incoming::{
    Ended, RequestArrival, RequestReader, ResponseHeard, ResponseReader, Trouble, refusal_status,
};
use std::alloc::{AllocError, Global};
use std::fmt::Write;

/// Writes what arrives on a client connection with the octets and its end, in one piece, and what
/// arrives octet by octet where that is something else.
pub fn arrivals(case: &Case<'_>, out: &mut String) -> Result<(), Unanswered> {
    let octets = joined(case.alloc, case.about)?;
    Ok(arrivals_both_ways(case.alloc, &octets, out)?)
}

fn arrivals_both_ways(alloc: Global, octets: &[u8], out: &mut String) -> Result<(), AllocError> {
    let text = arrivals_of(alloc, octets, octets.len().max(1))?;
    let cut = arrivals_of(alloc, octets, 1)?;
    both(text.as_str(), cut.as_str(), out)
}

// Writes what comes of octets in one piece, and what comes of them one by one where that is something
// else.
fn both(text: &str, cut: &str, out: &mut String) -> Result<(), AllocError> {
    out.push_str(text)?;
    other(cut, "octet by octet", text, out)
}

// What arrives in pieces of that size, as text.
fn arrivals_of(alloc: Global, octets: &[u8], size: usize) -> Result<String, AllocError>
    requires { 0 < size }
{
    let mut text = String::new(alloc);
    let mut reader = RequestReader::new(alloc);
    read_requests(&mut reader, octets, size, &mut text)?;
    Ok(text)
}

fn read_requests(
    reader: &mut RequestReader,
    octets: &[u8],
    size: usize,
    text: &mut String,
) -> Result<(), AllocError>
    requires some { 0 < size }
    requires can { CanRead reader.old }
{
    'pieces: for piece in octets.chunks(size) {
        reader.hear(piece)?;
        if refused(reader, text)? {
            return Ok(());
        }
    }
    match reader.end()? {
        Some(trouble) => {
            text.push_str("end: ")?;
            show_refusal(trouble, text)
        }
        None => text.push_str("end: closed"),
    }
}

// Writes the requests that wait, and whether what follows them is refused.
fn refused(reader: &mut RequestReader, text: &mut String) -> Result<bool, AllocError>
    requires { CanRead reader.old }
    ensures { result ≡ Ok false → CanRead reader.new }
{
    'requests: loop {
        match reader.next()? {
            RequestArrival::Request(message, target) => shown(message, target, text)?,
            RequestArrival::Refused(trouble) => return refusal(trouble, text),
            RequestArrival::More => return Ok(false),
        }
    }
}

fn refusal(trouble: Trouble, text: &mut String) -> Result<bool, AllocError>
    ensures { IfOk result (λ is. is ≡ true) }
{
    show_refusal(trouble, text)?;
    Ok(true)
}

fn show_refusal(trouble: Trouble, text: &mut String) -> Result<(), AllocError> {
    let number = refusal_status(trouble).as_u16();
    let name = trouble.name();
    write!(text, "refused {number}, since {name}")
}

fn show_failure(trouble: Trouble, text: &mut String) -> Result<(), AllocError> {
    text.push_str("failed, since ")?;
    text.push_str(trouble.name())
}

fn shown(
    message: Message<RequestHead>,
    target: Target,
    text: &mut String,
) -> Result<(), AllocError> {
    show_request(&message, &target, text)
}

fn show_request(
    message: &Message<RequestHead>,
    target: &Target,
    text: &mut String,
) -> Result<(), AllocError> {
    show(target.path.as_slice(), text)?;
    text.push_str(" of ")?;
    show(target.host.as_slice(), text)?;
    text.push_str(" by ")?;
    messages_describing::message(message, text)?;
    text.push_str("; ")
}

/// Writes how many octets wait behind the first request, before and after they are dropped.
pub fn waiting(case: &Case<'_>, out: &mut String) -> Result<(), Unanswered> {
    let octets = joined(case.alloc, case.about)?;
    let mut reader = RequestReader::new(case.alloc);
    let heard = reader.hear(&octets);
    drop(octets);
    heard?;
    Ok(show_waiting(&mut reader, out)?)
}

fn show_waiting(reader: &mut RequestReader, out: &mut String) -> Result<(), AllocError>
    requires { CanRead reader.old }
{
    drop(reader.next()?);
    let before = reader.unread();
    reader.drop_unread();
    let after = reader.unread();
    write!(out, "{before} octets wait, then {after}")
}

/// Writes what a forward's connection gives with the octets and its end, in one piece, and what it
/// gives octet by octet where that is something else.
pub fn heard(case: &Case<'_>, out: &mut String) -> Result<(), Unanswered> {
    let Some((of, pieces)) = case.about.split_first() else {
        return Err(Unanswered::Unknown);
    };
    let to_head = kind(of)? == Kind::Response { to_head: true };
    let octets = joined(case.alloc, pieces)?;
    Ok(heard_both_ways(case.alloc, &octets, to_head, out)?)
}

fn heard_both_ways(
    alloc: Global,
    octets: &[u8],
    to_head: bool,
    out: &mut String,
) -> Result<(), AllocError> {
    let text = heard_of(alloc, octets, octets.len().max(1), to_head)?;
    let cut = heard_of(alloc, octets, 1, to_head)?;
    both(text.as_str(), cut.as_str(), out)
}

// What is heard in pieces of that size, as text.
fn heard_of(alloc: Global, octets: &[u8], size: usize, to_head: bool) -> Result<String, AllocError>
    requires { 0 < size }
{
    let mut text = String::new(alloc);
    let mut reader = ResponseReader::new(alloc, to_head);
    read_response(&mut reader, octets, size, &mut text)?;
    Ok(text)
}

fn read_response(
    reader: &mut ResponseReader,
    octets: &[u8],
    size: usize,
    text: &mut String,
) -> Result<(), AllocError>
    requires some { 0 < size }
    requires can { CanHear reader.old }
{
    'pieces: for piece in octets.chunks(size) {
        match reader.hear(piece)? {
            ResponseHeard::Response(message) => return response(message, text),
            ResponseHeard::Failed(trouble) => return show_failure(trouble, text),
            ResponseHeard::More => {}
        }
    }
    text.push_str("end: ")?;
    match reader.end()? {
        Ended::Response(message) => response(message, text),
        Ended::Failed(trouble) => show_failure(trouble, text),
    }
}

fn response(message: Message<ResponseHead>, text: &mut String) -> Result<(), AllocError> {
    messages_describing::message(&message, text)
}
