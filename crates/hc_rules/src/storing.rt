//! What a shared cache may store (RFC 9111 section 3).

ghost use Rattle.std.specs.Prelude.{◌≡◌, ◌||◌, not};
ghost use Rattle.hc_directives.specs.Known.{is_there};
ghost use Rattle.hc_fresh.specs.Lifetimes.{explicit};
ghost use Rattle.hc_rules.specs.Storing.{asks_for_storable, has_authorization, is_heuristically_cacheable, is_storable, is_understood, may_store};

use hc_directives::{Directives, KnownDirectives};
use hc_fresh::explicit;
use hc_head::{RequestHead, ResponseHead, ResponseHeadView, StatusCode, is_get};

/// The statuses that may be stored where nothing says so (RFC 9110 section 15.1), but 206.
const HEURISTICALLY_CACHEABLE: [StatusCode; 11] = [
    StatusCode::OK,
    StatusCode::NON_AUTHORITATIVE_INFORMATION,
    StatusCode::NO_CONTENT,
    StatusCode::MULTIPLE_CHOICES,
    StatusCode::MOVED_PERMANENTLY,
    StatusCode::PERMANENT_REDIRECT,
    StatusCode::NOT_FOUND,
    StatusCode::METHOD_NOT_ALLOWED,
    StatusCode::GONE,
    StatusCode::URI_TOO_LONG,
    StatusCode::NOT_IMPLEMENTED,
];

/// Whether a response of that status may be stored at all: one from 200 to 599, but a 206, which is a part (RFC
/// 9111 section 3.3), and a 304, which updates what is stored (section 4.3.4).
pub fn is_storable(status: StatusCode) -> bool
    ensures { result ≡ is_storable status }
{
    let number = status.as_u16();
    200 <= number
        && number <= 599
        && status != StatusCode::PARTIAL_CONTENT
        && status != StatusCode::NOT_MODIFIED
}

/// Whether a response of that status may be stored where nothing says so (RFC 9110 section 15.1).
pub fn is_heuristically_cacheable(status: StatusCode) -> bool
    ensures { result ≡ is_heuristically_cacheable status }
{
    HEURISTICALLY_CACHEABLE.contains(&status)
}

/// Whether that status is one that the cache understands, as `must-understand` asks (RFC 9111 section 5.2.2.3).
pub fn is_understood(status: StatusCode) -> bool
    ensures { result ≡ is_understood status }
{
    is_heuristically_cacheable(status)
        || status == StatusCode::FOUND
        || status == StatusCode::TEMPORARY_REDIRECT
}

/// Whether a request is a GET without `no-store`, so that what answers it may be stored (RFC 9111
/// section 5.2.1.5), and may update what is stored.
pub fn asks_for_storable(forward: &RequestHead) -> bool
    ensures { result ≡ asks_for_storable forward.now }
{
    is_get(&forward.method) && !Directives::read(&forward.fields).has(b"no-store")
}

fn has_authorization(forward: &RequestHead) -> bool
    ensures { result ≡ has_authorization forward.now }
{
    forward.fields.contains(b"authorization")
}

/// Whether `must-understand`, if it is there, is about a status that is understood.
fn is_understood_if_asked(known: &KnownDirectives, status: StatusCode) -> bool
    ensures { result ≡ (not known.now.must_understand || is_understood status) }
{
    !known.must_understand || is_understood(status)
}

/// Whether `no-store` is absent, or `must-understand` is there as well.
fn no_store_permits(known: &KnownDirectives) -> bool
    ensures { result ≡ (not known.now.no_store || known.now.must_understand) }
{
    !known.no_store || known.must_understand
}

/// Whether what answers an authorized request may be shared (RFC 9111 section 3.5).
pub fn permits_authorized(known: &KnownDirectives) -> bool
    ensures { result ≡ (known.now.must_revalidate || known.now.public || is_there known.now.s_maxage) }
{
    known.must_revalidate || known.public || known.s_maxage.is_there()
}

/// Whether the response says that it may be stored, or its status does (RFC 9111 section 3).
pub fn invites_storing(known: &KnownDirectives, response: &ResponseHeadView<'_>) -> bool
    ensures { result ≡ (known.now.public || is_heuristically_cacheable response.now.status || explicit response.now.fields) }
{
    known.public || is_heuristically_cacheable(response.status) || explicit(&response.fields)
}

/// Whether a shared cache may store the response to that request, which is the one that was sent to
/// the origin.
#[tactic(auto, using(hc_directives::proofs::KnownLemmas::seconds_are_there))]
pub fn may_store(forward: &RequestHead, response: &ResponseHead) -> bool
    ensures { result ≡ may_store forward.now response.now }
{
    if !asks_for_storable(forward) || !is_storable(response.status) {
        return false;
    }
    let known = Directives::read(&response.fields).known();
    is_understood_if_asked(&known, response.status)
        && no_store_permits(&known)
        && !known.private
        && (!has_authorization(forward) || permits_authorized(&known))
        && invites_storing(&known, &response.lent())
}
