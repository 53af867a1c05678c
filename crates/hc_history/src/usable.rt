//! Whether a stored response may be used for a reply (RFC 9111 section 4).

ghost use Rattle.std.specs.Prelude.{◌≡◌, ◌+◌, ◌&&◌, ◌||◌, nat_lt, codes};
ghost use Rattle.hc_fresh.specs.Lifetimes.{freshness_stated, seconds_said};
ghost use Rattle.hc_history.specs.Usable.{age_of, error_permits, is_fresh_within, is_usable, lifetime_of, max_stale_permits, meanwhile_permits, permits, permits_stale, permits_staleness, request_permits, staleness_at, validated_since};

use crate::claim::ReplyClaim;
use hc_directives::Seconds;
use hc_fields::Fields;
use hc_fresh::{
    Freshness, current_age, freshness_stated, lifetime, seconds_said, stale_forbidden, staleness,
};
use hc_update::Stored;

/// The freshness lifetime of a stored response (RFC 9111 section 4.2.1).
pub fn lifetime_of(state: &Stored) -> u32
    ensures { result ≡ lifetime_of state.now }
{
    lifetime(&state.fields, state.times.date)
}

/// What it states of its freshness, read at once.
pub(crate) fn freshness_of(state: &Stored) -> Freshness
    ensures { result ≡ freshness_stated state.now.fields state.now.times.date }
{
    freshness_stated(&state.fields, state.times.date)
}

/// Its age at the moment of the reply (RFC 9111 section 4.2.3).
pub fn age_of(claim: &ReplyClaim<'_>, state: &Stored) -> u32
    ensures { result ≡ age_of claim.now state.now }
{
    current_age(state.times, claim.moment)
}

/// By how many seconds it is stale then, 0 where it is fresh.
fn staleness_of(claim: &ReplyClaim<'_>, state: &Stored) -> u32
    ensures { result ≡ staleness_at state.now claim.now.moment }
{
    staleness(lifetime_of(state), age_of(claim, state))
}

/// Whether a directive of those seconds permits that staleness, give or take the slack.
fn permits(claim: &ReplyClaim<'_>, staleness: u32, seconds: Seconds) -> bool
    ensures { result ≡ permits claim.now.settings.slack staleness seconds }
{
    match seconds {
        Seconds::Value(seconds) => {
            u64::from(staleness) <= u64::from(seconds) + u64::from(claim.settings.slack)
        }
        Seconds::Absent | Seconds::Bare | Seconds::Unreadable => false,
    }
}

/// Whether a max-stale of those seconds permits that staleness; a bare one permits any (RFC 9111
/// section 5.2.1.2).
fn max_stale_permits(claim: &ReplyClaim<'_>, staleness: u32, seconds: Seconds) -> bool
    ensures { result ≡ max_stale_permits claim.now.settings.slack staleness seconds }
{
    match seconds {
        Seconds::Bare => true,
        Seconds::Value(_) => permits(claim, staleness, seconds),
        Seconds::Absent | Seconds::Unreadable => false,
    }
}

/// Whether the request's max-stale permits that staleness.
pub fn request_permits(claim: &ReplyClaim<'_>, stale: u32) -> bool
    ensures { result ≡ request_permits claim.now.settings.slack stale claim.now.request.fields }
{
    let seconds = seconds_said(b"max-stale", &claim.request.fields);
    max_stale_permits(claim, stale, seconds)
}

/// Whether its stale-while-revalidate permits that staleness (RFC 5861 section 3).
pub fn meanwhile_permits(claim: &ReplyClaim<'_>, state: &Stored, stale: u32) -> bool
    ensures { result ≡ meanwhile_permits claim.now.settings.slack stale state.now.fields }
{
    let seconds = seconds_said(b"stale-while-revalidate", &state.fields);
    permits(claim, stale, seconds)
}

/// Whether a stale-if-error of those fields, of the response or of the request, permits that staleness
/// (RFC 5861 section 4).
pub fn said_on_error(claim: &ReplyClaim<'_>, fields: &Fields, stale: u32) -> bool
    ensures { result ≡ permits claim.now.settings.slack stale (seconds_said (codes "stale-if-error") fields.now) }
{
    let seconds = seconds_said(b"stale-if-error", fields);
    permits(claim, stale, seconds)
}

/// Whether an error or a failure stands in the window, and stale-if-error permits that staleness
/// (RFC 5861 section 4).
fn on_error(claim: &ReplyClaim<'_>, state: &Stored, stale: u32) -> bool
    ensures { result ≡ ((claim.now.has_error || claim.now.has_failure)
        && error_permits claim.now.settings.slack stale claim.now.request.fields state.now.fields) }
{
    (claim.has_error || claim.has_failure)
        && (said_on_error(claim, &state.fields, stale)
            || said_on_error(claim, &claim.request.fields, stale))
}

/// Whether that staleness is permitted.
pub(crate) fn permits_staleness(claim: &ReplyClaim<'_>, state: &Stored, stale: u32) -> bool
    ensures { result ≡ permits_staleness claim.now state.now stale }
{
    request_permits(claim, stale)
        || meanwhile_permits(claim, state, stale)
        || on_error(claim, state, stale)
        || claim.has_failure
}

/// Whether it may be served stale (RFC 9111 section 4.2.4).
fn permits_stale(claim: &ReplyClaim<'_>, state: &Stored) -> bool
    ensures { result ≡ permits_stale claim.now state.now }
{
    !stale_forbidden(&state.fields) && permits_staleness(claim, state, staleness_of(claim, state))
}

/// Whether it was validated after that position.
pub fn validated_since(since: u64, validated_at: Option<u64>) -> bool
    ensures { result ≡ validated_since since validated_at }
{
    match validated_at {
        Some(position) => since < position,
        None => false,
    }
}

/// Whether its age is within that lifetime, give or take the slack.
pub(crate) fn is_within(claim: &ReplyClaim<'_>, state: &Stored, lifetime: u32) -> bool
    ensures { result ≡ nat_lt (age_of claim.now state.now) (lifetime + claim.now.settings.slack) }
{
    u64::from(age_of(claim, state)) < u64::from(lifetime) + u64::from(claim.settings.slack)
}

/// Whether it is fresh, give or take the slack.
pub fn is_fresh_within(claim: &ReplyClaim<'_>, state: &Stored) -> bool
    ensures { result ≡ is_fresh_within claim.now.settings.slack state.now claim.now.moment }
{
    is_within(claim, state, lifetime_of(state))
}

/// Whether it may be used for the reply; what it states of its freshness is known.
pub(crate) fn is_usable(claim: &ReplyClaim<'_>, state: &Stored, stated: Freshness) -> bool
    requires { stated ≡ freshness_stated state.now.fields state.now.times.date }
    ensures { result ≡ is_usable claim.now state.now }
{
    validated_since(claim.since, state.validated_at)
        || (!stated.no_cache
            && (is_within(claim, state, stated.lifetime) || permits_stale(claim, state)))
}
