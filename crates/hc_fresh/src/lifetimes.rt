//! How long a stored response stays fresh (RFC 9111 section 4.2.1).

ghost use Rattle.std.specs.Prelude.{◌≡◌};
ghost use Rattle.hc_directives.specs.Directives.{cache_control};
ghost use Rattle.hc_directives.specs.Known.{known_directives};
ghost use Rattle.hc_fresh.specs.Lifetimes.{seconds_stated, seconds_until, expires_lifetime, stated_lifetime, freshness_lifetime, freshness_stated, explicit, stale_forbidden};

use crate::dates::read_date;
use hc_directives::{Directives, KnownDirectives, Seconds};
use hc_fields::{FieldsView, LARGEST_NUMBER, Lines};

/// The lifetime that a directive states, if it is there.
fn seconds_stated(said: Seconds) -> Option<u32>
    ensures { result ≡ seconds_stated said }
{
    match said {
        Seconds::Absent => None,
        Seconds::Value(seconds) => Some(seconds),
        Seconds::Bare | Seconds::Unreadable => Some(0),
    }
}

/// The seconds from a date to that of an Expires.
fn seconds_until(date: u64, expires: &[u8]) -> u32
    ensures { result ≡ seconds_until date expires.now }
{
    match read_date(expires) {
        Some(end) => end.saturating_sub(date).min(u64::from(LARGEST_NUMBER)) as u32,
        None => 0,
    }
}

/// The lifetime that the first Expires states, if there is one.
fn stated_by_expires(fields: &FieldsView<'_>, date: u64) -> Option<u32>
    ensures { result ≡ expires_lifetime fields.now date }
{
    let expires = fields.values(b"expires").next()?;
    Some(seconds_until(date, expires))
}

/// What a response states of its freshness.
#[derive(Clone, Copy)]
pub struct Freshness {
    /// Whether it states a lifetime, readable or not.
    pub is_explicit: bool,
    /// Its freshness lifetime in a shared cache, in seconds.
    pub lifetime: u32,
    /// Whether it says no-cache, whatever the argument (RFC 9111 section 5.2.2.4).
    pub no_cache: bool,
}

/// The lifetime that a response of that date states, whose directives are known.
fn stated(known: &KnownDirectives, fields: &FieldsView<'_>, date: u64) -> Option<u32>
    requires { known.now ≡ known_directives (cache_control fields.now).directives }
    ensures { result ≡ stated_lifetime fields.now date }
{
    if let Some(seconds) = seconds_stated(known.s_maxage) {
        return Some(seconds);
    }
    if let Some(seconds) = seconds_stated(known.max_age) {
        return Some(seconds);
    }
    stated_by_expires(fields, date)
}

/// The freshness lifetime, in seconds, that a response of that date has in a shared cache.
pub fn lifetime<L: Lines>(fields: &L, date: u64) -> u32
    ensures { result ≡ freshness_lifetime (L.lines fields.now) date }
{
    lifetime_in(&fields.lent(), date)
}

fn lifetime_in(fields: &FieldsView<'_>, date: u64) -> u32
    ensures { result ≡ freshness_lifetime fields.now date }
{
    let known = Directives::read(fields).known();
    stated(&known, fields, date).unwrap_or(0)
}

/// What a response of that date states of its freshness. Its directives are read once.
pub fn freshness_stated<L: Lines>(fields: &L, date: u64) -> Freshness
    ensures { result ≡ freshness_stated (L.lines fields.now) date }
{
    freshness_stated_in(&fields.lent(), date)
}

fn freshness_stated_in(fields: &FieldsView<'_>, date: u64) -> Freshness
    ensures { result ≡ freshness_stated fields.now date }
{
    let known = Directives::read(fields).known();
    Freshness {
        is_explicit: states_lifetime(&known, fields),
        lifetime: stated(&known, fields, date).unwrap_or(0),
        no_cache: known.no_cache,
    }
}

/// Whether a response states a lifetime, readable or not.
pub fn explicit<L: Lines>(fields: &L) -> bool
    ensures { result ≡ explicit (L.lines fields.now) }
{
    explicit_in(&fields.lent())
}

fn explicit_in(fields: &FieldsView<'_>) -> bool
    ensures { result ≡ explicit fields.now }
{
    let known = Directives::read(fields).known();
    states_lifetime(&known, fields)
}

/// Whether a response states a lifetime, whose directives are known.
#[tactic(auto, using(hc_directives::proofs::KnownLemmas::seconds_are_there))]
fn states_lifetime(known: &KnownDirectives, fields: &FieldsView<'_>) -> bool
    requires { known.now ≡ known_directives (cache_control fields.now).directives }
    ensures { result ≡ explicit fields.now }
{
    known.s_maxage.is_there() || known.max_age.is_there() || fields.contains(b"expires")
}

/// Whether a response says that a shared cache never serves it stale (RFC 9111 section 4.2.4).
pub fn stale_forbidden<L: Lines>(fields: &L) -> bool
    ensures { result ≡ stale_forbidden (L.lines fields.now) }
{
    stale_forbidden_in(&fields.lent())
}

#[tactic(auto, using(hc_directives::proofs::KnownLemmas::seconds_are_there))]
fn stale_forbidden_in(fields: &FieldsView<'_>) -> bool
    ensures { result ≡ stale_forbidden fields.now }
{
    let known = Directives::read(fields).known();
    known.no_cache || known.must_revalidate || known.proxy_revalidate || known.s_maxage.is_there()
}
