//! The requests that the cache sends to the origin (RFC 9110 section 7.6).

ghost use Rattle.std.specs.Prelude.{◌≡◌, ◌++◌, ◌∷◌, IfOk, OnOk};
ghost use Rattle.hc_rules.specs.Forwards.{condition_lines, conditional_request, forward_head, front_lines, goes_forward, plain_request, unconditional_request, version_number, via_and_close, via_value, without_conditions};

use crate::tags::validator_in;
use crate::validators::Validator;
use hc_fields::{Field, Fields, FieldsView, Lines, Octets};
use hc_head::{Method, RequestHead, Target, Version};
use std::alloc::{AllocError, Global};

/// Whether a line of that name goes forward.
fn goes_forward(received: &Fields, name: &[u8]) -> bool
    ensures { result ≡ goes_forward received.now name.now }
{
    !(received.removed(name) || name == b"host".as_slice() || name == b"expect".as_slice())
}

/// Host, and behind it the lines that go forward.
fn front_lines(alloc: Global, target: &Target, received: &Fields) -> Result<Fields, AllocError>
    ensures { IfOk result (λ lines. lines ≡ front_lines target.now received.now) }
{
    let mut lines = Fields::new(alloc);
    lines.push(Field::new(alloc, b"host", target.host.as_slice())?)?;
    for line in received.lines() {
        if goes_forward(received, line.name.as_slice()) {
            lines.push(line.copy(alloc)?)?;
        }
    }
    Ok(lines)
}

fn remove_conditions(lines: &mut Fields)
    ensures { lines.new ≡ without_conditions lines.old }
{
    lines.remove(b"if-none-match");
    lines.remove(b"if-modified-since");
}

fn version_number(version: Version) -> &'static str
    ensures { result.now ≡ version_number version }
{
    match version {
        Version::Http10 => "1.0",
        Version::Http11 => "1.1",
    }
}

fn via_value(alloc: Global, version: Version, name: &[u8]) -> Result<Octets, AllocError>
    ensures { IfOk result (λ value. value ≡ via_value version name.now) }
{
    let mut value = Octets::from_slice(alloc, version_number(version).as_bytes())?;
    value.extend_from_slice(b" ")?;
    value.extend_from_slice(name)?;
    Ok(value)
}

fn push_via_and_close(lines: &mut Fields, version: Version, name: &[u8]) -> Result<(), AllocError>
    ensures { OnOk result (lines.new ≡ lines.old ++ via_and_close version name.now) }
{
    let alloc = lines.alloc();
    let via = via_value(alloc, version, name)?;
    lines.push(Field::new(alloc, b"via", via.as_slice())?)?;
    lines.push(Field::new(alloc, b"connection", b"close")?)
}

/// Adds what asks whether the stored response with those fields still holds.
fn push_condition(lines: &mut Fields, stored: &FieldsView<'_>) -> Result<(), AllocError>
    ensures { OnOk result (lines.new ≡ lines.old ++ condition_lines stored.now) }
{
    let alloc = lines.alloc();
    match validator_in(stored) {
        Validator::Tag(tag) => lines.push(Field::new(alloc, b"if-none-match", tag)?),
        Validator::Modified(date) => lines.push(Field::new(alloc, b"if-modified-since", date)?),
        Validator::Neither => Ok(()),
    }
}

/// A request by that method for the target, with those lines, which are moved.
fn forward_head(
    alloc: Global,
    method: Method,
    target: &Target,
    lines: Fields,
) -> Result<RequestHead, AllocError>
    ensures { IfOk result (λ head. head ≡ forward_head method target.now lines) }
{
    Ok(RequestHead {
        method,
        target: target.path.copy(alloc)?,
        version: Version::Http11,
        fields: lines,
    })
}

/// What the cache of that name sends to the origin for a request that it received, whose target that
/// is: the request, with the host of the target first, without what is for the client's connection,
/// and with its Via last, behind which the connection closes. The length of a body is told when it is
/// written.
pub fn plain_request(
    alloc: Global,
    name: &[u8],
    target: &Target,
    received: &RequestHead,
) -> Result<RequestHead, AllocError>
    ensures { IfOk result (λ head. head ≡ plain_request name.now target.now received.now) }
{
    let mut lines = front_lines(alloc, target, &received.fields)?;
    push_via_and_close(&mut lines, received.version, name)?;
    forward_head(alloc, received.method.clone()?, target, lines)
}

/// The same without the client's own If-None-Match and If-Modified-Since, so that no 304 answers it.
pub fn unconditional_request(
    alloc: Global,
    name: &[u8],
    target: &Target,
    received: &RequestHead,
) -> Result<RequestHead, AllocError>
    ensures { IfOk result (λ head. head ≡ unconditional_request name.now target.now received.now) }
{
    let mut lines = front_lines(alloc, target, &received.fields)?;
    remove_conditions(&mut lines);
    push_via_and_close(&mut lines, received.version, name)?;
    forward_head(alloc, received.method.clone()?, target, lines)
}

/// A GET that asks the origin whether a stored response with those fields still holds (RFC 9111
/// section 4.3.1), by its entity-tag, else by its Last-Modified, in place of the client's own
/// conditions. Where the response has neither, nothing is asked.
pub fn conditional_request<L: Lines>(
    alloc: Global,
    name: &[u8],
    target: &Target,
    received: &RequestHead,
    stored: &L,
) -> Result<RequestHead, AllocError>
    ensures { IfOk result (λ head. head ≡ conditional_request name.now target.now received.now (L.lines stored.now)) }
{
    let mut lines = front_lines(alloc, target, &received.fields)?;
    remove_conditions(&mut lines);
    push_condition(&mut lines, &stored.lent())?;
    push_via_and_close(&mut lines, received.version, name)?;
    forward_head(alloc, Method::GET, target, lines)
}
