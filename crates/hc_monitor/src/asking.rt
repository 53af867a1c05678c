//! Requests of whoever watches over a proxy.

use httparse::Status;
use httparse::spans::{EMPTY_HEADER_SPAN, HeaderSpan, RequestSpans, parse_request};

/// So many fields a request may have.
const MOST_FIELDS: usize = 64;

/// What whoever watches over a proxy asks for.
#[derive(Clone, Copy, PartialEq, Eq)]
pub enum Wanted {
    /// That isn't known yet: the head of the request isn't whole.
    More,
    /// The numbers.
    Metrics,
    /// Whether it serves.
    Health,
    /// The page.
    Page,
    /// What isn't there.
    Nothing,
    /// Something by another method than GET.
    Other,
    /// It isn't known: that is no request of HTTP/1.1.
    Broken,
}

/// What the octets that came ask for. What follows the head of a request is left out of account.
pub fn wanted_by(octets: &[u8]) -> Wanted {
    let mut fields: [HeaderSpan; MOST_FIELDS] = [EMPTY_HEADER_SPAN; MOST_FIELDS];
    match parse_request(octets, &mut fields) {
        Ok(Status::Complete(request)) => wanted_of(octets, request),
        Ok(Status::Partial) => Wanted::More,
        Err(_) => Wanted::Broken,
    }
}

/// What a request asks for whose head stands at the beginning of these octets.
fn wanted_of(octets: &[u8], request: RequestSpans) -> Wanted {
    let method = request.method;
    let target = request.path;
    let Some(method) = octets.get(method.start..method.end) else {
        return Wanted::Broken;
    };
    let Some(target) = octets.get(target.start..target.end) else {
        return Wanted::Broken;
    };
    if method == b"GET".as_slice() {
        wanted_at(target)
    } else {
        Wanted::Other
    }
}

/// What a target asks for. What follows a question mark is left out of account.
fn wanted_at(target: &[u8]) -> Wanted {
    let path = match target.iter().position(|octet| *octet == b'?') {
        Some(place) => &target[..place],
        None => target,
    };
    match path {
        b"/" => Wanted::Page,
        b"/metrics" => Wanted::Metrics,
        b"/health" => Wanted::Health,
        _ => Wanted::Nothing,
    }
}
