//! Records: where they stand, the line that a message starts with, its fields, and its body.

ghost use Rattle.std.specs.Prelude.{◌≡◌, ◌++◌, OnOk, string_bytes};
ghost use Rattle.std.specs.List.{flat_map};
ghost use Rattle.hc_transcript.specs.Items.{item_of};
ghost use Rattle.hc_shown.specs.Texts.{AddsRecord, body_text, cause_text, content_text, field_text, letter_of, more_text, place_text, request_text, response_text, some_text, version_name};

use crate::moment::push_moment;
use crate::octets::{push_first, push_octets};
use crate::values::{push_target, push_value};
use hc_fields::{Field, Fields, SharedOctets};
use hc_framing::Message;
use hc_head::{RequestHead, ResponseHead, Target, Version};
use hc_transcript::{Meaning, OwnedItem};
use std::alloc::AllocError;
use std::fmt::Write;

/// How many octets of a body are shown at most.
const SHOWN_OF_BODY: usize = 256;

/// Puts the record at that position at the end, as a block of lines that are indented but for the first: its position,
/// its letter, its number and its moment, and what passed.
pub(crate) fn push_record(
    position: u64,
    item: &OwnedItem,
    out: &mut String,
) -> Result<(), AllocError>
    ensures { OnOk result (AddsRecord position (item_of item.now) (string_bytes out.old) (string_bytes out.new)) }
{
    push_place(position, item, out)?;
    push_moment(item.moment, out)?;
    out.push_str("  ")?;
    push_content(&item.of, out)
}

// Puts where the record stands at the end, its kind and its number, and of a forward for which exchange it was made.
fn push_place(position: u64, item: &OwnedItem, out: &mut String) -> Result<(), AllocError>
    ensures { OnOk result (string_bytes out.new ≡ string_bytes out.old ++ place_text position item.now.number item.now.of) }
{
    let letter = letter_of(&item.of);
    let number = item.number;
    write!(out, "{position} {letter} {number}")?;
    push_cause(&item.of, out)?;
    out.push_str("  ")
}

fn letter_of(of: &Meaning) -> &'static str
    ensures { result.now ≡ letter_of of.now }
{
    match of {
        Meaning::ClientRequest { .. } => "q",
        Meaning::OriginRequest { .. } => "f",
        Meaning::OriginResponse(_) => "r",
        Meaning::OriginFailure => "x",
        Meaning::ClientReply(_) => "a",
    }
}

// Says for which exchange a forward was made, if that is told.
fn push_cause(of: &Meaning, out: &mut String) -> Result<(), AllocError>
    ensures { OnOk result (string_bytes out.new ≡ string_bytes out.old ++ cause_text of.now) }
{
    match of {
        Meaning::OriginRequest {
            cause: Some(cause),
            ..
        } => write!(out, " for {cause}"),
        _ => Ok(()),
    }
}

fn push_content(of: &Meaning, out: &mut String) -> Result<(), AllocError>
    ensures { OnOk result (string_bytes out.new ≡ string_bytes out.old ++ content_text of.now) }
{
    match of {
        Meaning::ClientRequest { request, target }
        | Meaning::OriginRequest {
            request,
            target,
            ..
        } => push_request(request, target, out),
        Meaning::OriginResponse(reply) | Meaning::ClientReply(reply) => push_response(reply, out),
        Meaning::OriginFailure => out.push_str("no answer\n"),
    }
}

fn push_request(
    request: &Message<RequestHead>,
    target: &Target,
    out: &mut String,
) -> Result<(), AllocError>
    ensures { OnOk result (string_bytes out.new ≡ string_bytes out.old ++ request_text request.now target.now) }
{
    push_octets(request.head.method.as_slice(), out)?;
    out.push(' ')?;
    push_target(target, out)?;
    let version = version_name(request.head.version);
    write!(out, " {version}\n")?;
    push_fields(&request.head.fields, out)?;
    push_body(&request.body, out)
}

fn push_response(response: &Message<ResponseHead>, out: &mut String) -> Result<(), AllocError>
    ensures { OnOk result (string_bytes out.new ≡ string_bytes out.old ++ response_text response.now) }
{
    let version = version_name(response.head.version);
    let status = response.head.status.as_u16();
    write!(out, "{version} {status}\n")?;
    push_fields(&response.head.fields, out)?;
    push_body(&response.body, out)
}

fn version_name(version: Version) -> &'static str
    ensures { result.now ≡ version_name version }
{
    match version {
        Version::Http10 => "HTTP/1.0",
        Version::Http11 => "HTTP/1.1",
    }
}

fn push_fields(fields: &Fields, out: &mut String) -> Result<(), AllocError>
    ensures { OnOk result (string_bytes out.new ≡ string_bytes out.old ++ flat_map field_text fields.now) }
{
    for field in fields.lines() {
        push_field(field, out)?;
    }
    Ok(())
}

fn push_field(field: &Field, out: &mut String) -> Result<(), AllocError>
    ensures { OnOk result (string_bytes out.new ≡ string_bytes out.old ++ field_text field.now) }
{
    let name = field.name.as_slice();
    out.push_str("  ")?;
    push_octets(name, out)?;
    out.push_str(": ")?;
    push_value(name, field.value.as_slice(), out)?;
    out.push('\n')
}

// Puts a line on a body at the end: how many octets it has, the first of them, and how many more there are. There is
// no line on one that is empty.
fn push_body(body: &SharedOctets, out: &mut String) -> Result<(), AllocError>
    ensures { OnOk result (string_bytes out.new ≡ string_bytes out.old ++ body_text body.now) }
{
    if body.is_empty() {
        return Ok(());
    }
    push_some(body.as_slice(), out)
}

fn push_some(octets: &[u8], out: &mut String) -> Result<(), AllocError>
    ensures { OnOk result (string_bytes out.new ≡ string_bytes out.old ++ some_text octets.now) }
{
    let length = octets.len();
    write!(out, "  {length} octets: \"")?;
    push_first(octets, SHOWN_OF_BODY, out)?;
    out.push('"')?;
    push_more(length, out)?;
    out.push('\n')
}

// Says how many octets there are besides those that are shown, if there are any.
fn push_more(length: usize, out: &mut String) -> Result<(), AllocError>
    ensures { OnOk result (string_bytes out.new ≡ string_bytes out.old ++ more_text length) }
{
    if length <= SHOWN_OF_BODY {
        return Ok(());
    }
    let more = length - SHOWN_OF_BODY;
    write!(out, ", and {more} more")
}
