//! The age of a stored response (RFC 9111 section 4.2.3), and whether it is fresh at that age.

ghost use Rattle.std.specs.Prelude.{◌≡◌};
ghost use Rattle.hc_fresh.specs.Ages.{age_stated, age_value, current_age, fresh, staleness};

use hc_fields::{FieldsView, LARGEST_NUMBER, Lines, list_members, number};

/// What the age of a response is counted from (RFC 9111 section 4.2.3), in seconds since 1 January
/// 1970, but for the value of its Age.
#[derive(Clone, Copy, PartialEq, Eq)]
pub struct Times {
    /// The moment that its Date shows.
    pub date: u64,
    /// The seconds that its Age tells, 0 where there is none.
    pub age_value: u32,
    /// When the request that it answers was sent.
    pub request_time: u64,
    /// When it came.
    pub response_time: u64,
}

/// The number that the first member of the first Age line is.
fn stated_age(fields: &FieldsView<'_>) -> Option<u32>
    ensures { result ≡ age_stated fields.now }
{
    let line = fields.values(b"age").next()?;
    number(list_members(line).next()?)
}

/// The seconds that the Age of a response tells (RFC 9111 section 5.1), 0 where it tells none.
pub fn age_value<L: Lines>(fields: &L) -> u32
    ensures { result ≡ age_value (L.lines fields.now) }
{
    stated_age(&fields.lent()).unwrap_or(0)
}

/// The age of a response at a moment, in seconds.
pub fn current_age(times: Times, now: u64) -> u32
    ensures { result ≡ current_age times now }
{
    let apparent = times.response_time.saturating_sub(times.date);
    let delay = times.response_time.saturating_sub(times.request_time);
    let corrected = u64::from(times.age_value).saturating_add(delay);
    let resident = now.saturating_sub(times.response_time);
    let age = corrected.max(apparent).saturating_add(resident);
    age.min(u64::from(LARGEST_NUMBER)) as u32
}

/// Whether a response of that freshness lifetime is fresh at that age (RFC 9111 section 4.2).
pub fn fresh(lifetime: u32, age: u32) -> bool
    ensures { result ≡ fresh lifetime age }
{
    lifetime > age
}

/// By how many seconds a response is stale, 0 where it is fresh.
pub fn staleness(lifetime: u32, age: u32) -> u32
    ensures { result ≡ staleness lifetime age }
{
    age.saturating_sub(lifetime)
}
