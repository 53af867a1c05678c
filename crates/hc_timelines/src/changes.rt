//! What a record made of what is stored.

ghost use Rattle.std.specs.Prelude.{◌≡◌};
ghost use Rattle.hc_timelines.specs.Standings.{change_at, lifetime_with, stale_from, standing_of, takes_lifetime};

use hc_fresh::{Times, current_age, explicit, says};
use hc_history::lifetime_of;
use hc_rules::is_heuristically_cacheable;
use hc_update::Stored;

/// A stored response, as far as a time line tells of it.
#[derive(Clone, Copy)]
pub(crate) struct Standing {
    /// Whether something has invalidated it.
    pub(crate) invalid: bool,
    /// The position of the record that validated it last, if one did.
    pub(crate) validated_at: Option<u64>,
    /// Its freshness lifetime.
    pub(crate) lifetime: u32,
    /// The moment from which on it is stale.
    pub(crate) stale_from: u64,
}

// Whether a stored response may be lent a lifetime, since it states none.
fn takes_lifetime(state: &Stored) -> bool
    ensures { result ≡ takes_lifetime state.now }
{
    !explicit(&state.fields)
        && (says(b"public", &state.fields) || is_heuristically_cacheable(state.status))
}

// Its freshness lifetime, where that is lent to what states none, if one is.
fn lifetime_with(lent: Option<u32>, state: &Stored) -> u32
    ensures { result ≡ lifetime_with lent state.now }
{
    match lent {
        Some(seconds) if takes_lifetime(state) => lifetime_of(state).max(seconds),
        _ => lifetime_of(state),
    }
}

// The moment from which on a response of that lifetime is stale.
fn stale_from(lifetime: u32, times: Times) -> u64
    ensures { result ≡ stale_from lifetime times }
{
    let came = times.response_time;
    came.saturating_add(u64::from(lifetime.saturating_sub(current_age(times, came))))
}

/// How a stored response stands.
pub(crate) fn standing_of(lent: Option<u32>, state: &Stored) -> Standing
    ensures { result ≡ standing_of lent state.now }
{
    let lifetime = lifetime_with(lent, state);
    Standing {
        invalid: state.invalid,
        validated_at: state.validated_at,
        lifetime,
        stale_from: stale_from(lifetime, state.times),
    }
}

/// What a record made of a stored response.
#[derive(Clone, Copy)]
pub(crate) enum Change {
    /// It is stored.
    Stored(Standing),
    /// It was validated, and freshened.
    Validated(Standing),
    /// It was invalidated.
    Invalidated,
}

/// What the record at that position made of a response that stood so before, if it was stored, and stands so now, if it is.
pub(crate) fn change_at(
    position: u64,
    before: Option<Standing>,
    now: Option<Standing>,
) -> Option<Change>
    ensures { result ≡ change_at position before now }
{
    let now = now?;
    let Some(before) = before else {
        return Some(Change::Stored(now));
    };
    if now.validated_at == Some(position) {
        return Some(Change::Validated(now));
    }
    if now.invalid && !before.invalid {
        return Some(Change::Invalidated);
    }
    None
}
