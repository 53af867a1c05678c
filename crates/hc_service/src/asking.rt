//! What a client's request asks of a cache, whatever is stored.

ghost use Rattle.std.specs.Prelude.{◌≡◌};
ghost use Rattle.std.specs.List.{list_any};
ghost use Rattle.hc_fields.specs.Values.{has_name};
ghost use Rattle.hc_service.specs.Asking.{allows_age, allows_left, asks_for_fresh, bypass_names, ends_connection, is_bypass, is_http10};

use hc_directives::Seconds;
use hc_fields::Fields;
use hc_framing::Message;
use hc_head::{RequestHead, Version};

/// The fields that ask for a part, or on a condition that only the origin can judge.
const BYPASS_NAMES: [&[u8]; 4] = [b"range", b"if-range", b"if-match", b"if-unmodified-since"];

/// Whether a line has one of the names.
pub(crate) fn has_any(fields: &Fields, names: &[&[u8]]) -> bool
    ensures { result ≡ list_any (λ name. has_name name.now fields.now) names.now }
{
    names.iter().any(|name| fields.contains(name))
}

/// Whether only the origin can answer the request: it asks for a part or on a condition that only the
/// origin can judge, or it has a body.
pub fn is_bypass(request: &Message<RequestHead>) -> bool
    ensures { result ≡ is_bypass request.now }
{
    has_any(&request.head.fields, &BYPASS_NAMES) || !request.body.is_empty()
}

fn is_http10(version: Version) -> bool
    ensures { result ≡ is_http10 version }
{
    match version {
        Version::Http10 => true,
        Version::Http11 => false,
    }
}

/// Whether the connection closes behind the reply (RFC 9112 section 9.6).
pub fn ends_connection(asked: &RequestHead) -> bool
    ensures { result ≡ ends_connection asked.now }
{
    is_http10(asked.version) || asked.fields.removed(b"close")
}

/// Whether a max-age of the request allows that age.
pub(crate) fn allows_age(age: u32, said: Seconds) -> bool
    ensures { result ≡ allows_age age said }
{
    match said {
        Seconds::Absent => true,
        Seconds::Value(seconds) => age <= seconds,
        Seconds::Bare | Seconds::Unreadable => age == 0,
    }
}

/// Whether a min-fresh of the request allows a response that is fresh for so many seconds still.
pub(crate) fn allows_left(left: u32, said: Seconds) -> bool
    ensures { result ≡ allows_left left said }
{
    match said {
        Seconds::Value(seconds) => seconds <= left,
        Seconds::Absent | Seconds::Bare | Seconds::Unreadable => true,
    }
}

/// Whether a min-fresh of the request asks for anything.
pub(crate) fn asks_for_fresh(said: Seconds) -> bool
    ensures { result ≡ asks_for_fresh said }
{
    match said {
        Seconds::Value(_) => true,
        Seconds::Absent | Seconds::Bare | Seconds::Unreadable => false,
    }
}
