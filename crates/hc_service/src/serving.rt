//! Whether a stored response may be served to a request at a moment (RFC 9111 section 4).

ghost use Rattle.std.specs.Prelude.{◌≡◌, ◌||◌};
ghost use Rattle.hc_history.specs.Usable.{age_at, max_stale_permits, permits, permits_by_request, permits_on_error, staleness_at};
ghost use Rattle.hc_service.specs.Serving.{has_still, is_fresh, is_fresh_enough, is_permitted_stale, may_be_served, may_be_used, may_replace, ttl_at, while_revalidating};

use crate::asking::{allows_age, allows_left, asks_for_fresh};
use hc_directives::Seconds;
use hc_fields::Fields;
use hc_fresh::{current_age, fresh, says, seconds_said, stale_forbidden, staleness};
use hc_history::lifetime_of;
use hc_rules::client_condition;
use hc_update::Stored;

/// The age of a stored response at a moment, in seconds (RFC 9111 section 4.2.3).
pub fn age_at(stored: &Stored, moment: u64) -> u32
    ensures { result ≡ age_at stored.now moment }
{
    current_age(stored.times, moment)
}

/// Whether a stored response is fresh at a moment (RFC 9111 section 4.2).
pub fn is_fresh(stored: &Stored, moment: u64) -> bool
    ensures { result ≡ is_fresh stored.now moment }
{
    fresh(lifetime_of(stored), age_at(stored, moment))
}

/// For how many seconds a stored response is fresh still, negative where it is stale (RFC 9211 section
/// 2.4).
pub fn ttl_at(stored: &Stored, moment: u64) -> i64
    ensures { result ≡ ttl_at stored.now moment }
{
    i64::from(lifetime_of(stored)) - i64::from(age_at(stored, moment))
}

/// By how many seconds a stored response is stale at a moment, 0 where it is fresh.
fn staleness_at(stored: &Stored, moment: u64) -> u32
    ensures { result ≡ staleness_at stored.now moment }
{
    staleness(lifetime_of(stored), age_at(stored, moment))
}

/// Whether a directive permits that staleness.
fn permits(stale: u32, said: Seconds) -> bool
    ensures { result ≡ permits 0 stale said }
{
    match said {
        Seconds::Value(seconds) => stale <= seconds,
        Seconds::Absent | Seconds::Bare | Seconds::Unreadable => false,
    }
}

/// Whether a max-stale of the request permits that staleness; a bare one permits any (RFC 9111 section
/// 5.2.1.2).
fn max_stale_permits(stale: u32, said: Seconds) -> bool
    ensures { result ≡ max_stale_permits 0 stale said }
{
    match said {
        Seconds::Bare => true,
        Seconds::Value(_) => permits(stale, said),
        Seconds::Absent | Seconds::Unreadable => false,
    }
}

/// Whether stale-while-revalidate of a stored response permits how stale it is at a moment (RFC 5861
/// section 3).
pub fn while_revalidating(stored: &Stored, moment: u64) -> bool
    ensures { result ≡ while_revalidating stored.now moment }
{
    permits(
        staleness_at(stored, moment),
        seconds_said(b"stale-while-revalidate", &stored.fields),
    )
}

/// Whether stale-if-error of a stored response or of the request permits how stale it is at a moment
/// (RFC 5861 section 4).
fn on_error(asked: &Fields, stored: &Stored, moment: u64) -> bool
    ensures { result ≡ permits_on_error 0 asked.now stored.now moment }
{
    let stale = staleness_at(stored, moment);
    permits(stale, seconds_said(b"stale-if-error", &stored.fields))
        || permits(stale, seconds_said(b"stale-if-error", asked))
}

/// Whether a stored response may be used without validation for a request of those fields.
fn may_be_used(asked: &Fields, stored: &Stored) -> bool
    ensures { result ≡ may_be_used asked.now stored.now }
{
    !says(b"no-cache", &stored.fields) && !says(b"no-cache", asked)
}

/// Whether a stored response is fresh, and for as long as the request asks.
fn is_fresh_enough(asked: &Fields, stored: &Stored, moment: u64) -> bool
    ensures { result ≡ is_fresh_enough asked.now stored.now moment }
{
    let lifetime = lifetime_of(stored);
    let age = age_at(stored, moment);
    fresh(lifetime, age)
        && allows_left(
            lifetime.saturating_sub(age),
            seconds_said(b"min-fresh", asked),
        )
}

/// Whether the request's max-stale or its own stale-while-revalidate permits how stale a stored response
/// is at a moment.
fn permits_staleness(asked: &Fields, stored: &Stored, moment: u64) -> bool
    ensures { result ≡ (permits_by_request 0 asked.now stored.now moment || while_revalidating stored.now moment) }
{
    max_stale_permits(
        staleness_at(stored, moment),
        seconds_said(b"max-stale", asked),
    ) || while_revalidating(stored, moment)
}

/// Whether a stored response that isn't fresh may be served stale (RFC 9111 section 4.2.4).
fn is_permitted_stale(asked: &Fields, stored: &Stored, moment: u64) -> bool
    ensures { result ≡ is_permitted_stale asked.now stored.now moment }
{
    !is_fresh(stored, moment)
        && !stale_forbidden(&stored.fields)
        && !asks_for_fresh(seconds_said(b"min-fresh", asked))
        && permits_staleness(asked, stored, moment)
}

/// Whether a stored response may be served at a moment to a request of those fields.
pub fn may_be_served(asked: &Fields, stored: &Stored, moment: u64) -> bool
    ensures { result ≡ may_be_served asked.now stored.now moment }
{
    may_be_used(asked, stored)
        && allows_age(age_at(stored, moment), seconds_said(b"max-age", asked))
        && (is_fresh_enough(asked, stored, moment) || is_permitted_stale(asked, stored, moment))
}

/// Whether a stored response may take the place of an error or of a failure: it is fresh, or may be
/// served stale on errors (RFC 5861 section 4).
pub fn may_replace(asked: &Fields, stored: &Stored, moment: u64) -> bool
    ensures { result ≡ may_replace asked.now stored.now moment }
{
    may_be_used(asked, stored)
        && (is_fresh(stored, moment)
            || (!stale_forbidden(&stored.fields) && on_error(asked, stored, moment)))
}

/// Whether the client's own condition holds for a stored response, so that what the client has still
/// holds (RFC 9111 section 4.3.2).
pub fn has_still(asked: &Fields, stored: &Stored) -> bool
    ensures { result ≡ has_still asked.now stored.now }
{
    client_condition(asked, stored.status, &stored.fields)
}
