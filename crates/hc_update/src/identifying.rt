//! Which stored response a 304 is about (after RFC 9111 section 4.3.4).

ghost use Rattle.std.specs.Prelude.{◌≡◌, false, codes, IfOk, IsOk, Ok, option_copied};
ghost use Rattle.hc_fields.specs.Values.{has_name, only};
ghost use Rattle.hc_fields.specs.Lists.{list_members};
ghost use Rattle.hc_update.specs.Identifying.{are_same, identifies, may_freshen, may_identify, only_member_asked, validators_agree};

use crate::stored::Stored;
use hc_directives::Directives;
use hc_fields::{Fields, list_members};
use hc_head::{RequestHead, ResponseHead, StatusCode};
use hc_rules::{asks_for_storable, last_modified, selects, tag};
use std::alloc::{AllocError, Global};

/// Whether both are there, and the same.
fn are_same(one: Option<&[u8]>, other: Option<&[u8]>) -> bool
    ensures { result ≡ are_same (option_copied one.entry) (option_copied other.entry) }
{
    match (one, other) {
        (Some(one), Some(other)) => one == other,
        (None, _) | (_, None) => false,
    }
}

/// The one member of a list.
fn only_member(line: &[u8]) -> Option<&[u8]>
    ensures { option_copied result ≡ only (list_members line.now) }
{
    let mut members = list_members(line);
    let member = members.next()?;
    if members.next().is_some() {
        return None;
    }
    Some(member)
}

/// The one member of the one If-None-Match line.
fn only_member_asked(forwarded: &Fields) -> Option<&[u8]>
    ensures { option_copied result ≡ only_member_asked forwarded.now }
{
    only_member(forwarded.only(b"if-none-match")?)
}

fn validators_agree(stored: &Fields, forwarded: &Fields, received: &Fields) -> bool
    ensures { result ≡ validators_agree stored.now forwarded.now received.now }
{
    let received_tag = tag(received);
    if received_tag.is_some() {
        return are_same(received_tag, tag(stored));
    }
    let received_date = last_modified(received);
    if received_date.is_some() {
        return are_same(received_date, last_modified(stored));
    }
    if forwarded.contains(b"if-none-match") {
        return are_same(only_member_asked(forwarded), tag(stored));
    }
    are_same(forwarded.only(b"if-modified-since"), last_modified(stored))
}

fn may_freshen(response: &ResponseHead) -> bool
    ensures { result ≡ may_freshen response.now }
{
    let directives = Directives::read(&response.fields);
    response.status == StatusCode::NOT_MODIFIED
        && !directives.has(b"private")
        && !directives.has(b"no-store")
}

/// Whether it may be about the stored response, whatever Vary selects. No memory is taken.
fn may_identify(state: &Stored, forward: &RequestHead, response: &ResponseHead) -> bool
    ensures { result ≡ may_identify state.now forward.now response.now }
{
    may_freshen(response)
        && asks_for_storable(forward)
        && validators_agree(&state.fields, &forward.fields, &response.fields)
}

/// Whether the response to that request, which was sent to the origin for the stored response's own
/// target, is a 304 that is about the stored response, so that it freshens it. Memory is taken only
/// where the stored response has a Vary line and all but what that selects speaks for it.
pub fn identifies(
    alloc: Global,
    state: &Stored,
    forward: &RequestHead,
    response: &ResponseHead,
) -> Result<bool, AllocError>
    ensures answer { IfOk result (λ is. is ≡ identifies state.now forward.now response.now) }
    ensures no_vary { has_name (codes "vary") state.now.fields ≡ false → IsOk result }
    ensures other { may_identify state.now forward.now response.now ≡ false → result ≡ Ok false }
{
    if !may_identify(state, forward, response) {
        return Ok(false);
    }
    selects(alloc, &state.fields, &state.request.fields, &forward.fields)
}
