//! How a reply came about, as its Cache-Status says (RFC 9211), and the class of its status.

use memchr::memchr;

/// So many parameters are looked at, more than a mark has.
const MOST_PARAMETERS: usize = 16;

/// How a reply came about, as its Cache-Status says.
#[derive(Clone, Copy, PartialEq, Eq)]
pub enum Way {
    /// It is a hit.
    Hit,
    /// It is a hit that is given out stale.
    StaleHit,
    /// Another request's forward answered it, too.
    Collapsed,
    /// Nothing was stored of its target.
    UriMiss,
    /// Nothing that was stored there is for such a request.
    VaryMiss,
    /// What was stored there was stale.
    Stale,
    /// The request's method isn't answered from a store.
    Method,
    /// The request didn't want what was stored.
    Request,
    /// The store isn't for such a request.
    Bypass,
    /// It has no such mark.
    Unmarked,
}

/// The class of a status (RFC 9110 section 15).
#[derive(Clone, Copy, PartialEq, Eq)]
pub enum Class {
    /// 2xx.
    Successful,
    /// 3xx.
    Redirection,
    /// 4xx.
    ClientError,
    /// 5xx.
    ServerError,
    /// Any other.
    Other,
}

/// The class of a status, which has three digits.
pub fn class_of(status: &[u8]) -> Class {
    match status.first() {
        Some(b'2') => Class::Successful,
        Some(b'3') => Class::Redirection,
        Some(b'4') => Class::ClientError,
        Some(b'5') => Class::ServerError,
        _ => Class::Other,
    }
}

/// What the last member of a Cache-Status says, which is the cache's own: its parameters have no strings.
pub fn way_of(status: &[u8]) -> Way {
    let mut rest = last_member(status);
    let mut way = Way::Unmarked;
    'parameters: for _ in 0..MOST_PARAMETERS {
        let Some(behind) = behind_semicolon(rest) else {
            return way;
        };
        way = refined(way, first_parameter(behind));
        rest = behind;
    }
    way
}

/// What stands behind the first semicolon.
fn behind_semicolon(text: &[u8]) -> Option<&[u8]> {
    let place = memchr(b';', text)?;
    text.get(place.saturating_add(1)..)
}

/// What stands behind the last comma.
fn last_member(list: &[u8]) -> &[u8] {
    match list.iter().rposition(|octet| *octet == b',') {
        Some(place) => &list[place + 1..],
        None => list,
    }
}

/// What stands before the first semicolon.
fn first_parameter(text: &[u8]) -> &[u8] {
    match memchr(b';', text) {
        Some(place) => &text[..place],
        None => text,
    }
}

/// What a parameter says of how a reply came about.
const SAID: [(&[u8], Way); 8] = [
    (b"hit", Way::Hit),
    (b"collapsed", Way::Collapsed),
    (b"fwd=uri-miss", Way::UriMiss),
    (b"fwd=vary-miss", Way::VaryMiss),
    (b"fwd=stale", Way::Stale),
    (b"fwd=method", Way::Method),
    (b"fwd=request", Way::Request),
    (b"fwd=bypass", Way::Bypass),
];

/// What is known by one parameter more.
fn refined(way: Way, parameter: &[u8]) -> Way {
    let parameter = parameter.trim_ascii();
    for (said, other) in SAID.iter() {
        if *said == parameter {
            return *other;
        }
    }
    if way == Way::Hit && parameter.starts_with(b"ttl=-") {
        return Way::StaleHit;
    }
    way
}
