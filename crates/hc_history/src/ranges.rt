//! Parts of what the origin answered, where an audit allows ranges.

ghost use Rattle.std.specs.Prelude.{◌≡◌, ◌==◌};
ghost use Rattle.hc_history.specs.Ranges.{asks_for_part, before_octet, behind_octet, content_range, is_no_part, is_no_part_told, is_part, is_part_told, numeral_of, range_told};

use crate::claim::ReplyClaim;
use hc_fields::decimal;
use hc_framing::BodyView;
use hc_head::{StatusCode, is_get};

/// What a Content-Range line tells (RFC 9110 section 14.4).
#[derive(Clone, Copy, PartialEq, Eq)]
pub(crate) enum ContentRange {
    /// The part from one octet to another, of so many.
    Part(u64, u64, u64),
    /// That there is no such part of so many octets.
    NoPart(u64),
}

/// The number that a decimal without a leading zero writes.
fn numeral(text: &[u8]) -> Option<u64>
    ensures { result ≡ numeral_of text.now }
{
    if text.len() > 1 && text[0] == b'0' {
        return None;
    }
    decimal(text)
}

/// What stands before the first such octet, or all where none stands there, and what stands behind it.
fn parted_at(text: &[u8], octet: u8) -> (&[u8], &[u8])
    ensures before { result.0.now ≡ before_octet octet text.now }
    ensures behind { result.1.now ≡ behind_octet octet text.now }
{
    for (at, one) in text.iter().enumerate() {
        if *one == octet {
            let (before, rest) = text.split_at(at);
            let (_, behind) = rest.split_at(1);
            return (before, behind);
        }
    }
    (text, &[])
}

/// What a Content-Range line tells: `bytes A-B/L` or `bytes */L`, in this spelling alone.
fn range_told(text: &[u8]) -> Option<ContentRange>
    ensures { result ≡ range_told text.now }
{
    let rest = text.strip_prefix(b"bytes ")?;
    let (span, whole) = parted_at(rest, b'/');
    let whole = numeral(whole)?;
    if span == b"*".as_slice() {
        return Some(ContentRange::NoPart(whole));
    }
    let (first, last) = parted_at(span, b'-');
    Some(ContentRange::Part(numeral(first)?, numeral(last)?, whole))
}

/// What the reply's one Content-Range line tells.
fn content_range(claim: &ReplyClaim<'_>) -> Option<ContentRange>
    ensures { result ≡ content_range claim.now }
{
    range_told(claim.fields().only(b"content-range")?)
}

/// Whether it is a GET with a Range field, and the audit allows parts.
fn asks_for_part(claim: &ReplyClaim<'_>) -> bool
    ensures { result ≡ asks_for_part claim.now }
{
    claim.settings.allowed.ranges
        && is_get(&claim.request.method)
        && claim.request.fields.contains(b"range")
}

/// Whether those octets are the part of the body that is told.
fn is_part_told(octets: &BodyView<'_>, body: &[u8], told: Option<ContentRange>) -> bool
    ensures { result ≡ is_part_told octets.now body.now told }
{
    let Some(ContentRange::Part(first, last, whole)) = told else {
        return false;
    };
    if last < first || whole <= last || whole != body.len() as u64 {
        return false;
    }
    let (_, rest) = body.split_at(first as usize);
    let (part, _) = rest.split_at((last - first) as usize + 1);
    octets.equals(part)
}

/// Whether it is told that there is no such part of a body of that length.
fn is_no_part_told(size: usize, told: Option<ContentRange>) -> bool
    ensures { result ≡ is_no_part_told size told }
{
    match told {
        Some(ContentRange::NoPart(whole)) => whole == size as u64,
        Some(ContentRange::Part(..)) | None => false,
    }
}

/// Whether the reply is a 206 with the part that it tells of a response of that status with that body.
pub(crate) fn is_part(claim: &ReplyClaim<'_>, status: StatusCode, body: &[u8]) -> bool
    ensures { result ≡ is_part claim.now status body.now }
{
    asks_for_part(claim)
        && claim.status() == StatusCode::PARTIAL_CONTENT
        && status == StatusCode::OK
        && is_part_told(claim.body(), body, content_range(claim))
}

/// Whether the reply is a 416 that tells the length of the body of a response of that status.
pub(crate) fn is_no_part(claim: &ReplyClaim<'_>, status: StatusCode, body: &[u8]) -> bool
    ensures { result ≡ is_no_part claim.now status body.now }
{
    asks_for_part(claim)
        && claim.status() == StatusCode::RANGE_NOT_SATISFIABLE
        && status == StatusCode::OK
        && is_no_part_told(body.len(), content_range(claim))
}
