//! What the heads of requests and responses share.

ghost use Rattle.std.specs.Prelude.{◌≡◌, ◌≤◌, length, map, take, All, IfOk};
ghost use Rattle.httparse.specs.Spans.{IsHeaderWithin};
ghost use Rattle.hc_head.specs.Heads.{field_at, version_of};
ghost use Rattle.hc_head.specs.Reading.{has_too_many};

use crate::fault::HeadFault;
use crate::head::{Step, Version};
use hc_fields::{Field, Fields, Octets};
use httparse::spans::HeaderSpan;
use std::alloc::{AllocError, Global};

/// The field lines that the spans cover, with their names in lower case.
pub(crate) fn fields_at(
    alloc: Global,
    bytes: &[u8],
    spans: &[HeaderSpan],
) -> Result<Fields, AllocError>
    requires { All (IsHeaderWithin (length bytes.now)) spans.now }
    ensures { IfOk result (λ fields. fields ≡ map (field_at bytes.now) spans.now) }
{
    let mut fields = Fields::new(alloc);
    for span in spans {
        let name = Octets::from_vec(span.name.of(bytes).to_ascii_lowercase(alloc)?);
        let value = Octets::from_slice(alloc, span.value.of(bytes))?;
        fields.push(Field { name, value })?;
    }
    Ok(fields)
}

/// The version by its minor number.
pub(crate) fn version_of(minor: u8) -> Version
    ensures { result ≡ version_of minor }
{
    if minor == 0 {
        Version::Http10
    } else {
        Version::Http11
    }
}

/// The first octets, at most so many.
pub(crate) fn front_of(bytes: &[u8], limit: usize) -> &[u8]
    ensures { result.now ≡ take limit bytes.now }
{
    if bytes.len() < limit {
        bytes
    } else {
        &bytes[..limit]
    }
}

/// Whether the result is that there are too many fields.
pub(crate) fn has_too_many<H>(answer: &Result<Step<H>, HeadFault>) -> bool
    ensures { result ≡ has_too_many answer.now }
{
    matches!(answer, Err(HeadFault::TooManyFields))
}
