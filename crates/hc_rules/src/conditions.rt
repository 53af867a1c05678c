//! Whether a client may be told that what it has still holds (RFC 9111 section 4.3.2).

ghost use Rattle.std.specs.Prelude.{◌≡◌, Some, option_copied};
ghost use Rattle.hc_rules.specs.Conditions.{client_condition, has_stored, is_not_later, is_wildcard, lists_tag, match_weakly, only_date};

use crate::tags::{tag_in, without_weak_mark};
use hc_fields::{FieldsView, Lines, trimmed};
use hc_fresh::read_date;
use hc_head::StatusCode;

/// The names of the fields that a 304 has to repeat (RFC 9110 section 15.4.5).
pub const REPEATED_NAMES: [&[u8]; 6] = [
    b"cache-control",
    b"content-location",
    b"date",
    b"etag",
    b"expires",
    b"vary",
];

fn is_wildcard(value: Option<&[u8]>) -> bool
    ensures { result ≡ is_wildcard (option_copied value.entry) }
{
    match value {
        Some(value) => trimmed(value) == b"*".as_slice(),
        None => false,
    }
}

fn match_weakly(one: &[u8], other: &[u8]) -> bool
    ensures { result ≡ match_weakly one.now other.now }
{
    without_weak_mark(one) == without_weak_mark(other)
}

fn lists_tag(presented: &FieldsView<'_>, tag: &[u8]) -> bool
    ensures { result ≡ lists_tag presented.now (Some tag.now) }
{
    presented
        .members(b"if-none-match")
        .any(|member| match_weakly(member, tag))
}

fn has_stored(presented: &FieldsView<'_>, fields: &FieldsView<'_>) -> bool
    ensures { result ≡ has_stored presented.now fields.now }
{
    if is_wildcard(presented.only(b"if-none-match")) {
        return true;
    }
    match tag_in(fields) {
        Some(tag) => lists_tag(presented, tag),
        None => false,
    }
}

/// The date that the one line of that name is.
fn only_date(name: &[u8], fields: &FieldsView<'_>) -> Option<u64>
    ensures { result ≡ only_date name.now fields.now }
{
    read_date(fields.only(name)?)
}

fn is_not_later(modified: Option<u64>, since: Option<u64>) -> bool
    ensures { result ≡ is_not_later modified since }
{
    match (modified, since) {
        (Some(modified), Some(since)) => modified <= since,
        (None, _) | (_, None) => false,
    }
}

/// Whether the condition that a request with those fields presents holds for a stored response of
/// that status and those fields: whether its If-None-Match lists the response's tag or is `*`, or,
/// without an If-None-Match, whether the response isn't later than its If-Modified-Since. It never
/// does for another status than 200.
pub fn client_condition<P: Lines, L: Lines>(presented: &P, status: StatusCode, fields: &L) -> bool
    ensures { result ≡ client_condition (P.lines presented.now) status (L.lines fields.now) }
{
    condition_in(&presented.lent(), status, &fields.lent())
}

fn condition_in(presented: &FieldsView<'_>, status: StatusCode, fields: &FieldsView<'_>) -> bool
    ensures { result ≡ client_condition presented.now status fields.now }
{
    if status != StatusCode::OK {
        return false;
    }
    if presented.contains(b"if-none-match") {
        return has_stored(presented, fields);
    }
    is_not_later(
        only_date(b"last-modified", fields),
        only_date(b"if-modified-since", presented),
    )
}
