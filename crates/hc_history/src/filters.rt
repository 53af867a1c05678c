//! The filters that a stored response passes, one after another, to be what a reply carries.

ghost use Rattle.std.specs.Prelude.{◌≡◌, ◌-ℤ◌, IfOk, Some, codes, option_and_then, pos};
ghost use Rattle.hc_fields.specs.Values.{only_value};
ghost use Rattle.hc_fields.specs.Numbers.{number_of};
ghost use Rattle.hc_history.specs.Filters.{has_body, has_its_age, has_its_body, has_its_ttl, is_age, is_asked_for, is_earned, is_ttl, is_valid, within};
ghost use Rattle.hc_history.specs.Allowing.{age_is_allowed, body_is_allowed, fields_are_allowed, filters, ttl_is_allowed};
ghost use Rattle.hc_history.specs.Furthest.{passed};
ghost use Rattle.hc_history.specs.Usable.{age_of, lifetime_of};

use crate::allowing::{
    is_near_age, lifetime_is_allowed, may_be_used, selection_is_allowed, takes_default,
};
use crate::claim::{ReplyClaim, asks_head};
use crate::compared::{has_allowed_fields, is_not_modified};
use crate::ranges::is_no_part;
use crate::usable::{age_of, freshness_of};
use hc_fields::number;
use hc_head::{Target, is_get, same_target};
use hc_rules::client_condition;
use hc_update::Stored;
use std::alloc::{AllocError, Global};

/// Whether two numbers are at most the slack apart.
pub(crate) fn within(slack: u32, one: u32, other: u32) -> bool
    ensures { result ≡ within slack one other }
{
    one.abs_diff(other) <= slack
}

/// Whether the request is GET or HEAD, of that target.
fn is_asked_for(claim: &ReplyClaim<'_>, target: &Target) -> bool
    ensures { result ≡ is_asked_for claim.now target.now }
{
    (is_get(&claim.request.method) || asks_head(claim)) && same_target(target, claim.target)
}

/// Whether it isn't invalidated (RFC 9111 section 4.4).
fn is_valid(state: &Stored) -> bool
    ensures { result ≡ is_valid state.now }
{
    !state.invalid
}

/// Whether the reply has that body, or none where the request is HEAD.
pub(crate) fn has_body(claim: &ReplyClaim<'_>, body: &[u8]) -> bool
    ensures { result ≡ has_body claim.now body.now }
{
    if asks_head(claim) {
        claim.body().is_empty()
    } else {
        claim.body().equals(body)
    }
}

/// Whether the reply is a 304 that the client's condition earns (RFC 9111 section 4.3.2).
fn is_earned(claim: &ReplyClaim<'_>, state: &Stored) -> bool
    ensures { result ≡ is_earned claim.now state.now }
{
    is_not_modified(claim)
        && claim.body().is_empty()
        && client_condition(&claim.request.fields, state.status, &state.fields)
}

/// Whether the reply has its status and its body, or is a 304 in its place.
fn has_its_body(claim: &ReplyClaim<'_>, state: &Stored) -> bool
    ensures { result ≡ has_its_body claim.now state.now }
{
    (claim.status() == state.status && has_body(claim, state.body.as_slice()))
        || is_earned(claim, state)
}

/// Whether the reply has its status and its body, or says that there is no such part of it.
fn body_is_allowed(claim: &ReplyClaim<'_>, state: &Stored) -> bool
    ensures { result ≡ body_is_allowed claim.now state.now }
{
    has_its_body(claim, state) || is_no_part(claim, state.status, state.body.as_slice())
}

/// Whether the reply has its fields, or what is allowed in their place.
fn fields_are_allowed(
    alloc: Global,
    claim: &ReplyClaim<'_>,
    state: &Stored,
) -> Result<bool, AllocError>
    ensures { IfOk result (λ allowed. allowed ≡ fields_are_allowed claim.now state.now) }
{
    if has_allowed_fields(alloc, claim, state)? {
        return Ok(true);
    }
    Ok(is_no_part(claim, state.status, state.body.as_slice()))
}

/// Whether an Age tells that age, give or take the slack.
fn is_age(claim: &ReplyClaim<'_>, age: u32, told: Option<u32>) -> bool
    ensures { result ≡ is_age claim.now age told }
{
    match told {
        Some(told) => within(claim.settings.slack, told, age),
        None => false,
    }
}

/// The number that the one Age of the reply is.
fn age_told(claim: &ReplyClaim<'_>) -> Option<u32>
    ensures { result ≡ option_and_then number_of (only_value (codes "age") claim.now.reply.head.fields) }
{
    number(claim.fields().only(b"age")?)
}

/// Whether the reply has its Age (RFC 9111 section 5.1).
fn has_its_age(claim: &ReplyClaim<'_>, state: &Stored) -> bool
    ensures { result ≡ has_its_age claim.now state.now }
{
    is_age(claim, age_of(claim, state), age_told(claim))
}

/// Whether the reply has its Age, or one that is allowed in its place.
fn age_is_allowed(claim: &ReplyClaim<'_>, state: &Stored) -> bool
    ensures { result ≡ age_is_allowed claim.now state.now }
{
    has_its_age(claim, state) || is_near_age(claim, age_of(claim, state), age_told(claim))
}

/// Whether the seconds that a mark tells are those that are left, give or take the slack.
fn is_ttl(claim: &ReplyClaim<'_>, left: i64, told: i64) -> bool
    ensures { result ≡ is_ttl claim.now left (Some told) }
{
    told.abs_diff(left) <= u64::from(claim.settings.slack)
}

/// The seconds for which a stored response of that lifetime is fresh still, negative where it is stale.
fn seconds_left(claim: &ReplyClaim<'_>, state: &Stored, lifetime: u32) -> i64
    ensures { result ≡ pos lifetime -ℤ pos (age_of claim.now state.now) }
{
    i64::from(lifetime) - i64::from(age_of(claim, state))
}

/// Whether the reply's mark tells the seconds for which it is fresh still, if it tells any (RFC 9211 section 2.4).
fn has_its_ttl(claim: &ReplyClaim<'_>, state: &Stored, lifetime: u32) -> bool
    requires { lifetime ≡ lifetime_of state.now }
    ensures { result ≡ has_its_ttl claim.now state.now }
{
    match claim.ttl {
        Some(told) => is_ttl(claim, seconds_left(claim, state, lifetime), told),
        None => true,
    }
}

/// Whether the mark tells those seconds, or they are those of a default lifetime.
fn ttl_is_allowed(claim: &ReplyClaim<'_>, state: &Stored, lifetime: u32) -> bool
    requires { lifetime ≡ lifetime_of state.now }
    ensures { result ≡ ttl_is_allowed claim.now state.now }
{
    has_its_ttl(claim, state, lifetime) || takes_default(claim, state)
}

/// How many filters a stored response of that target passes, one after another, from the first on. It
/// fails only where memory is refused.
pub fn passed(
    alloc: Global,
    claim: &ReplyClaim<'_>,
    target: &Target,
    state: &Stored,
) -> Result<u32, AllocError>
    ensures { IfOk result (λ n. n ≡ passed (filters claim.now (record { target = target.now; state = state.now }))) }
{
    if !is_asked_for(claim, target) {
        return Ok(0);
    }
    if !selection_is_allowed(alloc, claim, state)? {
        return Ok(1);
    }
    if !is_valid(state) {
        return Ok(2);
    }
    let stated = freshness_of(state);
    if !lifetime_is_allowed(claim, state, stated) {
        return Ok(3);
    }
    if !may_be_used(claim, state, stated) {
        return Ok(4);
    }
    if !body_is_allowed(claim, state) {
        return Ok(5);
    }
    if !fields_are_allowed(alloc, claim, state)? {
        return Ok(6);
    }
    if !age_is_allowed(claim, state) {
        return Ok(7);
    }
    if !ttl_is_allowed(claim, state, stated.lifetime) {
        return Ok(8);
    }
    Ok(9)
}
