//! How the body behind a head is framed.

ghost use Rattle.std.specs.Prelude.{◌≡◌, codes};
ghost use Rattle.std.specs.List.{before_first, flat_map};
ghost use Rattle.hc_fields.specs.Values.{values_of};
ghost use Rattle.hc_fields.specs.Lists.{trimmed};
ghost use Rattle.hc_framing.specs.Framing.{is_comma, members_of, member_length, first_length, each_writes, coded, sized, framing_by, ends_with_head, request_framing, response_framing};

use crate::fault::FrameFault;
use hc_fields::{FieldsView, decimal, trimmed};
use hc_head::{LONGEST_BODY, StatusCode, Version, is_interim};

/// No length has more digits.
const MOST_DIGITS: usize = 18;

/// Where a body ends.
#[derive(Clone, Copy, PartialEq, Eq)]
pub enum Framing {
    /// With the head: there is none.
    Nothing,
    /// After so many octets.
    Sized(u64),
    /// With the last chunk and its trailers.
    Chunked,
    /// With the connection.
    UntilClose,
}

/// The length that a member of a list writes.
fn member_length(member: &[u8]) -> Option<u64>
    ensures { result ≡ member_length member.now }
{
    let digits = trimmed(member);
    if digits.len() > MOST_DIGITS {
        return None;
    }
    decimal(digits)
}

/// The first member of a list.
fn first_member(value: &[u8]) -> &[u8]
    ensures { result.now ≡ before_first is_comma value.now }
{
    let comma = value.iter().position(|octet| *octet == b',');
    &value[..comma.unwrap_or(value.len())]
}

/// The length that the first member of a list writes.
fn first_length(value: &[u8]) -> Option<u64>
    ensures { result ≡ first_length (members_of value.now) }
{
    member_length(first_member(value))
}

/// Whether each member of a list writes that length.
fn each_writes(length: u64, value: &[u8]) -> bool
    ensures { result ≡ each_writes length (members_of value.now) }
{
    value
        .split(|octet| *octet == b',')
        .all(|member| member_length(member) == Some(length))
}

/// Whether each member of each Content-Length writes that length.
fn all_write(length: u64, fields: &FieldsView<'_>) -> bool
    ensures { result ≡ each_writes length (flat_map members_of
        (values_of (codes "content-length") fields.now)) }
{
    fields
        .values(b"content-length")
        .all(|value| each_writes(length, value))
}

/// The framing of a message with a Transfer-Encoding: `chunked` is the only coding.
fn coded(fields: &FieldsView<'_>) -> Result<Framing, FrameFault>
    ensures { result ≡ coded fields.now }
{
    let mut values = fields.values(b"transfer-encoding");
    match (values.next(), values.next()) {
        (Some(value), None) if trimmed(value).eq_ignore_ascii_case(b"chunked") => {
            Ok(Framing::Chunked)
        }
        _ => Err(FrameFault::BadCoding),
    }
}

/// The framing of a message without one: by its Content-Length, if there is one.
fn sized(default: Framing, fields: &FieldsView<'_>) -> Result<Framing, FrameFault>
    ensures { result ≡ sized default fields.now }
{
    let Some(first) = fields.values(b"content-length").next() else {
        return Ok(default);
    };
    let Some(length) = first_length(first) else {
        return Err(FrameFault::BadLength);
    };
    if !all_write(length, fields) {
        return Err(FrameFault::BadLength);
    }
    if length > LONGEST_BODY as u64 {
        return Err(FrameFault::BodyTooLong);
    }
    Ok(Framing::Sized(length))
}

/// The framing by the fields, or the default where none of them tells it.
fn framing_by(
    default: Framing,
    version: Version,
    fields: &FieldsView<'_>,
) -> Result<Framing, FrameFault>
    ensures { result ≡ framing_by default version fields.now }
{
    let has_coding = fields.contains(b"transfer-encoding");
    if has_coding && fields.contains(b"content-length") {
        return Err(FrameFault::BothLengths);
    }
    if has_coding && version == Version::Http10 {
        return Err(FrameFault::BadLength);
    }
    if has_coding {
        coded(fields)
    } else {
        sized(default, fields)
    }
}

/// How the body of a request is framed.
pub(crate) fn request_framing(
    version: Version,
    fields: &FieldsView<'_>,
) -> Result<Framing, FrameFault>
    ensures { result ≡ request_framing version fields.now }
{
    framing_by(Framing::Nothing, version, fields)
}

/// Whether a response ends with its head, whatever its fields say.
pub(crate) fn ends_with_head(to_head: bool, status: StatusCode) -> bool
    ensures { result ≡ ends_with_head to_head status }
{
    to_head
        || is_interim(status)
        || status == StatusCode::NO_CONTENT
        || status == StatusCode::NOT_MODIFIED
}

/// How the body of a response is framed; `to_head` tells whether it answers HEAD.
pub(crate) fn response_framing(
    to_head: bool,
    status: StatusCode,
    version: Version,
    fields: &FieldsView<'_>,
) -> Result<Framing, FrameFault>
    ensures { result ≡ response_framing to_head status version fields.now }
{
    if ends_with_head(to_head, status) {
        return Ok(Framing::Nothing);
    }
    framing_by(Framing::UntilClose, version, fields)
}
