//! What an audit allows beside the strict rules: what selects, what may be used, and the Age.

ghost use Rattle.std.specs.Prelude.{◌≡◌, IfOk};
ghost use Rattle.hc_fresh.specs.Lifetimes.{freshness_stated};
ghost use Rattle.hc_history.specs.Allowed.{is_named};
ghost use Rattle.hc_history.specs.Allowing.{allowed_lifetime, allowed_staleness, at_least, grace_permits, is_allowed_fresh, is_allowed_stale, is_allowed_usable, is_met_or_normalized, is_near_age, is_normalized, lifetime_is_allowed, selection_is_allowed, takes_default, use_is_allowed, widens_use};

use crate::allowed::Allowed;
use crate::claim::ReplyClaim;
use crate::filters::within;
use crate::settings::FieldNames;
use crate::usable::{age_of, freshness_of, is_usable, is_within, lifetime_of, permits_staleness};
use hc_fresh::{Freshness, explicit, says, stale_forbidden, staleness};
use hc_rules::{is_heuristically_cacheable, is_met};
use hc_update::Stored;
use std::alloc::{AllocError, Global};

/// Whether one of the names is that member of a list, in any case.
fn is_named(names: &FieldNames, member: &[u8]) -> bool
    ensures { result ≡ is_named names.now member.now }
{
    names
        .names()
        .iter()
        .any(|name| member.eq_ignore_ascii_case(name.as_slice()))
}

/// Whether a member of Vary is the name of a field that the cache normalizes; `*` names none.
fn is_normalized(allowed: &Allowed, member: &[u8]) -> bool
    ensures { result ≡ is_normalized allowed.now member.now }
{
    is_named(&allowed.normalized, member) && member != b"*".as_slice()
}

/// Whether a member of Vary is met, or passed over by its name (RFC 9111 section 4.1).
pub fn is_met_or_normalized(
    alloc: Global,
    claim: &ReplyClaim<'_>,
    state: &Stored,
    member: &[u8],
) -> Result<bool, AllocError>
    ensures { IfOk result (λ met. met ≡ is_met_or_normalized claim.now state.now member.now) }
{
    if is_met(alloc, member, &state.request.fields, &claim.request.fields)? {
        return Ok(true);
    }
    Ok(is_normalized(&claim.settings.allowed, member))
}

/// Whether its Vary selects the request, but for what a cache normalizes (RFC 9111 section 4.1).
pub(crate) fn selection_is_allowed(
    alloc: Global,
    claim: &ReplyClaim<'_>,
    state: &Stored,
) -> Result<bool, AllocError>
    ensures { IfOk result (λ selected. selected ≡ selection_is_allowed claim.now state.now) }
{
    for member in state.fields.members(b"vary") {
        if !is_met_or_normalized(alloc, claim, state, member)? {
            return Ok(false);
        }
    }
    Ok(true)
}

/// Whether a default lifetime is allowed to a stored response (RFC 9111 section 4.2.2).
pub(crate) fn takes_default(claim: &ReplyClaim<'_>, state: &Stored) -> bool
    ensures { result ≡ takes_default claim.now state.now }
{
    claim.settings.allowed.default_lifetime.is_some()
        && !explicit(&state.fields)
        && (says(b"public", &state.fields) || is_heuristically_cacheable(state.status))
}

/// Those seconds at least, if that is so.
fn at_least(seconds: Option<u32>, takes: bool, lifetime: u32) -> u32
    ensures { result ≡ at_least seconds takes lifetime }
{
    match seconds {
        Some(seconds) if takes => lifetime.max(seconds),
        Some(_) | None => lifetime,
    }
}

/// Its lifetime, by default where it states none.
fn allowed_lifetime(claim: &ReplyClaim<'_>, state: &Stored) -> u32
    ensures { result ≡ allowed_lifetime claim.now state.now }
{
    let takes = takes_default(claim, state);
    at_least(
        claim.settings.allowed.default_lifetime,
        takes,
        lifetime_of(state),
    )
}

/// By how many seconds it is stale by the lifetime that is allowed to it, 0 where it is fresh.
pub fn allowed_staleness(claim: &ReplyClaim<'_>, state: &Stored) -> u32
    ensures { result ≡ allowed_staleness claim.now state.now }
{
    staleness(allowed_lifetime(claim, state), age_of(claim, state))
}

/// Whether a grace permits that staleness, give or take the slack.
fn grace_permits(slack: u32, stale: u32, grace: Option<u32>) -> bool
    ensures { result ≡ grace_permits slack stale grace }
{
    match grace {
        Some(seconds) => u64::from(stale) <= u64::from(seconds) + u64::from(slack),
        None => false,
    }
}

/// Whether a default lifetime or a grace is allowed at all.
fn widens_use(allowed: &Allowed) -> bool
    ensures { result ≡ widens_use allowed.now }
{
    allowed.default_lifetime.is_some() || allowed.grace.is_some()
}

/// Whether it is fresh by the lifetime that is allowed to it, give or take the slack.
pub fn is_allowed_fresh(claim: &ReplyClaim<'_>, state: &Stored) -> bool
    ensures { result ≡ is_allowed_fresh claim.now state.now }
{
    is_within(claim, state, allowed_lifetime(claim, state))
}

/// Whether it may be served stale by that lifetime, or by the grace (RFC 9111 section 4.2.4).
fn is_allowed_stale(claim: &ReplyClaim<'_>, state: &Stored) -> bool
    ensures { result ≡ is_allowed_stale claim.now state.now }
{
    let stale = allowed_staleness(claim, state);
    !stale_forbidden(&state.fields)
        && (permits_staleness(claim, state, stale)
            || grace_permits(claim.settings.slack, stale, claim.settings.allowed.grace))
}

/// Whether it may be used by that lifetime, or by the grace.
fn is_allowed_usable(claim: &ReplyClaim<'_>, state: &Stored) -> bool
    ensures { result ≡ is_allowed_usable claim.now state.now }
{
    widens_use(&claim.settings.allowed)
        && !says(b"no-cache", &state.fields)
        && (is_allowed_fresh(claim, state) || is_allowed_stale(claim, state))
}

/// Whether it may be used for the reply.
pub fn use_is_allowed(claim: &ReplyClaim<'_>, state: &Stored) -> bool
    ensures { result ≡ use_is_allowed claim.now state.now }
{
    may_be_used(claim, state, freshness_of(state))
}

/// The same, where what it states of its freshness is known.
pub(crate) fn may_be_used(claim: &ReplyClaim<'_>, state: &Stored, stated: Freshness) -> bool
    requires { stated ≡ freshness_stated state.now.fields state.now.times.date }
    ensures { result ≡ use_is_allowed claim.now state.now }
{
    is_usable(claim, state, stated) || is_allowed_usable(claim, state)
}

/// Whether it states a lifetime, or may be used without (RFC 9111 section 4.2.1); what it states is known.
pub(crate) fn lifetime_is_allowed(claim: &ReplyClaim<'_>, state: &Stored, stated: Freshness) -> bool
    requires { stated ≡ freshness_stated state.now.fields state.now.times.date }
    ensures { result ≡ lifetime_is_allowed claim.now state.now }
{
    stated.is_explicit || may_be_used(claim, state, stated)
}

/// Whether an Age tells that age, give or take what is allowed beside the slack.
pub(crate) fn is_near_age(claim: &ReplyClaim<'_>, age: u32, told: Option<u32>) -> bool
    ensures { result ≡ is_near_age claim.now age told }
{
    match told {
        Some(told) => within(claim.settings.allowed.age_slack, told, age),
        None => false,
    }
}
