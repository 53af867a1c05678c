//! Requests that wait for the forward of another one, in place of forwards of their own (RFC 9111 section 4,
//! RFC 9211 section 2.6).

ghost use Rattle.std.specs.Prelude.{◌≡◌};
ghost use Rattle.hc_service.specs.Joining.{is_joinable, is_of_miss, may_be_joined, may_be_shared, plain_kind};

use crate::asking::has_any;
use crate::cases::Cause;
use crate::open::{ForwardKind, Purpose};
use crate::serving::is_fresh;
use hc_fresh::says;
use hc_head::{RequestHead, is_get};
use hc_update::Stored;

/// The fields by which a request says more than what it asks for.
const OWN_NAMES: [&[u8]; 4] = [
    b"authorization",
    b"cache-control",
    b"if-none-match",
    b"if-modified-since",
];

/// Whether what answers another request of its target may answer it: it is a GET that says nothing for itself
/// alone.
pub fn is_joinable(asked: &RequestHead) -> bool
    ensures { result ≡ is_joinable asked.now }
{
    is_get(&asked.method) && !has_any(&asked.fields, &OWN_NAMES)
}

/// Whether a request goes to the origin since nothing was stored of its target when it came.
fn is_of_miss(why: Cause) -> bool
    ensures { result ≡ is_of_miss why }
{
    match why {
        Cause::UriMiss => true,
        Cause::Method
        | Cause::Bypass
        | Cause::NoStore
        | Cause::VaryMiss
        | Cause::Stale
        | Cause::Request => false,
    }
}

/// How a request goes to the origin as it came.
pub fn plain_kind(why: Cause, asked: &RequestHead) -> ForwardKind
    ensures { result ≡ plain_kind why asked.now }
{
    if is_of_miss(why) && is_joinable(asked) {
        ForwardKind::Joinable
    } else {
        ForwardKind::Plain
    }
}

/// Whether other requests for its target may wait for a forward of that purpose.
pub fn may_be_joined(purpose: Purpose) -> bool
    ensures { result ≡ may_be_joined purpose }
{
    match purpose {
        Purpose::Background => false,
        Purpose::Reply { kind, .. } => kind.is_joinable(),
    }
}

/// Whether a stored response may be the reply to a request that has waited: it is fresh, and may be used
/// without validation.
pub fn may_be_shared(stored: &Stored, moment: u64) -> bool
    ensures { result ≡ may_be_shared stored.now moment }
{
    is_fresh(stored, moment) && !says(b"no-cache", &stored.fields)
}
