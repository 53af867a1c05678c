//! Why a stored response may not be used for a reply (RFC 9111 section 4).

ghost use Rattle.std.specs.Prelude.{◌≡◌};
ghost use Rattle.hc_history.specs.Allowing.{allowed_lifetime};
ghost use Rattle.hc_use.specs.Trusting.{is_fresh_at, is_fresh_by_age_alone};
ghost use Rattle.hc_use.specs.Demanding.{lifetime_sections, stale_sections, use_sections};
ghost use Rattle.hc_use.specs.Forbidding.{forbids_stale, unusable_by};
ghost use Rattle.hc_use.specs.Stale.{is_number, is_read, said_lifetime};
ghost use Rattle.hc_use.specs.Using.{lent_to, stale_by, usage_of};

use crate::aging::{AGE_ALONE, AgeOrigin, AgeParts, age_parts, say_slack};
use crate::demand::Demand;
use crate::permits::is_permitted;
use crate::stale::{Setting, StaleSaid, stale_said, takes_lifetime, told_setting};
use hc_directives::{Directives, Seconds};
use hc_fresh::{explicit, fresh, says, seconds_said, staleness};
use hc_history::{ReplyClaim, age_of, lifetime_of};
use hc_shown::Teller;
use hc_update::Stored;

/// What forbids to use a stored response.
#[derive(Clone, Copy, PartialEq, Eq)]
pub enum Unusable {
    /// It says `no-cache`, and nothing has validated it (RFC 9111 section 5.2.2.4).
    NoCache,
    /// It is stale and says `must-revalidate` (section 5.2.2.2).
    MustRevalidate,
    /// It is stale and says `proxy-revalidate` (section 5.2.2.8).
    ProxyRevalidate,
    /// It is stale and says `s-maxage` (section 5.2.2.10).
    SMaxage,
    /// It is stale, and nothing permits to serve it so (section 4.2.4).
    NothingPermits,
}

/// How old a stored response is, and what forbids to use it.
#[derive(Clone, Copy)]
pub struct Usage {
    /// The lifetime that it states, if it states one.
    pub lifetime: Option<u32>,
    /// Whether that isn't by what should be a number, and is none.
    pub is_read: bool,
    /// Whether a cache may guess one.
    pub may_be_guessed: bool,
    /// The lifetime that the audit gives it by default, where that is more.
    pub lent: Option<u32>,
    /// Its age at the reply.
    pub age: u32,
    /// What that is reckoned from.
    pub parts: AgeParts,
    /// By how many seconds it is stale then, if it isn't fresh.
    pub stale_by: Option<u32>,
    /// What forbids to use it.
    pub forbidden: Unusable,
    /// What forbids to give it stale, whether or not it says `no-cache`.
    pub forbids_stale: Unusable,
    /// Whether it might be given as stale as it is, did it not say `no-cache`.
    pub is_permitted: bool,
    /// By how many seconds these may be off.
    pub slack: u32,
    /// What is said of how stale it may be served.
    pub said: StaleSaid,
    /// The setting by which it may be used, if there is one.
    pub setting: Option<Setting>,
}

// What forbids to give a stored response stale, the first thing that does but for `no-cache`.
#[tactic(auto, using(hc_directives::proofs::KnownLemmas::seconds_are_there))]
fn forbids_stale(state: &Stored) -> Unusable
    ensures { result ≡ forbids_stale state.now.fields }
{
    let known = Directives::read(&state.fields).known();
    if known.must_revalidate {
        Unusable::MustRevalidate
    } else if known.proxy_revalidate {
        Unusable::ProxyRevalidate
    } else if known.s_maxage.is_there() {
        Unusable::SMaxage
    } else {
        Unusable::NothingPermits
    }
}

// What forbids to use a stored response that may not be used, the first thing that does.
fn unusable_by(state: &Stored) -> Unusable
    ensures { result ≡ unusable_by state.now.fields }
{
    if says(b"no-cache", &state.fields) {
        Unusable::NoCache
    } else {
        forbids_stale(state)
    }
}

// What the response says of its lifetime by a directive.
fn said_lifetime(state: &Stored) -> Seconds
    ensures { result ≡ said_lifetime state.now.fields }
{
    if says(b"s-maxage", &state.fields) {
        seconds_said(b"s-maxage", &state.fields)
    } else {
        seconds_said(b"max-age", &state.fields)
    }
}

// Whether a directive says a number, or isn't there.
fn is_number(said: Seconds) -> bool
    ensures { result ≡ is_number said }
{
    match said {
        Seconds::Absent | Seconds::Value(_) => true,
        Seconds::Bare | Seconds::Unreadable => false,
    }
}

/// Whether the response doesn't state its lifetime by what should be a number, and is none.
pub(crate) fn is_read(state: &Stored) -> bool
    ensures { result ≡ is_read state.now.fields }
{
    is_number(said_lifetime(state))
}

// The lifetime that the audit gives the response, which states none.
fn lent_to(claim: &ReplyClaim<'_>, state: &Stored) -> Option<u32>
    ensures { result ≡ lent_to claim.now state.now }
{
    if takes_lifetime(state) {
        claim.settings.allowed.default_lifetime
    } else {
        None
    }
}

// The lifetime that is counted with.
fn counted_lifetime(claim: &ReplyClaim<'_>, state: &Stored) -> u32
    ensures { result ≡ allowed_lifetime claim.now state.now }
{
    match lent_to(claim, state) {
        Some(seconds) => lifetime_of(state).max(seconds),
        None => lifetime_of(state),
    }
}

// By how many seconds a response of that age is stale, if it isn't fresh.
fn stale_by(lifetime: u32, age: u32) -> Option<u32>
    ensures { result ≡ stale_by lifetime age }
{
    if fresh(lifetime, age) {
        None
    } else {
        Some(staleness(lifetime, age))
    }
}

/// How old a stored response is at the reply, and what forbids to use it.
pub fn usage_at(claim: &ReplyClaim<'_>, state: &Stored) -> Usage
    ensures { result ≡ usage_of claim.now state.now }
{
    Usage {
        lifetime: explicit(&state.fields).then_some(lifetime_of(state)),
        is_read: is_read(state),
        may_be_guessed: takes_lifetime(state),
        lent: lent_to(claim, state),
        age: age_of(claim, state),
        parts: age_parts(claim, state),
        stale_by: stale_by(counted_lifetime(claim, state), age_of(claim, state)),
        forbidden: unusable_by(state),
        forbids_stale: forbids_stale(state),
        is_permitted: is_permitted(claim, state),
        slack: claim.settings.slack,
        said: stale_said(claim, state),
        setting: told_setting(claim, state),
    }
}

impl Unusable {
    /// The words for it.
    pub fn words(&self) -> &'static str {
        match self {
            Unusable::NoCache => "no-cache forbids use without validation",
            Unusable::MustRevalidate => "must-revalidate forbids stale",
            Unusable::ProxyRevalidate => "proxy-revalidate forbids stale",
            Unusable::SMaxage => "s-maxage forbids stale",
            Unusable::NothingPermits => "nothing permits stale",
        }
    }
}

const NO_CACHE: Demand = Demand {
    sections: "RFC 9111 section 5.2.2.4",
    words: "what says no-cache MUST NOT be used before it is validated",
};

const NO_CACHE_FIELDS: Demand = Demand {
    sections: "no RFC (RFC 9111 section 5.2.2.4 lets the rest be used of what says no-cache of some fields), but this auditor's stricter rule",
    words: "what says no-cache, of whichever fields, isn't used before it is validated",
};

impl Usage {
    /// What is asked of a response that states no lifetime: no RFC forbids to use it where a cache may guess one, but where it says
    /// `no-cache`, if that isn't said of fields alone which the reply leaves out.
    pub fn demand_of_lifetime(&self, leaves_fields_out: bool) -> Demand
        ensures { result.sections.now ≡ lifetime_sections self.now leaves_fields_out }
    {
        let says_no_cache = self.forbidden == Unusable::NoCache;
        if says_no_cache && !leaves_fields_out {
            NO_CACHE
        } else if !self.may_be_guessed {
            Demand::of(
                "RFC 9111 section 4.2.2",
                "a lifetime can only be guessed of what is public, or of a status that may be stored where nothing says so",
            )
        } else if says_no_cache {
            NO_CACHE_FIELDS
        } else {
            Demand::of(
                "no RFC (RFC 9111 section 4.2.2 permits heuristics), but this auditor's stricter rule",
                "what says no lifetime has none, but for --default-ttl",
            )
        }
    }

    // Whether a response of its lifetime is fresh at that age, as far as the audit is told to look.
    fn is_fresh_at(&self, age: u32) -> bool
        ensures { result ≡ is_fresh_at self.now age }
    {
        let lifetime = self.lifetime.unwrap_or(0).max(self.lent.unwrap_or(0));
        u64::from(age) < u64::from(lifetime) + u64::from(self.slack)
    }

    // Whether the response is fresh where its age is counted by its Age alone.
    fn is_fresh_by_age_alone(&self) -> bool
        ensures { result ≡ is_fresh_by_age_alone self.now }
    {
        match self.parts.by_age_alone() {
            Some(age) => self.is_fresh_at(age),
            None => false,
        }
    }

    /// What is asked of the use of a response, after an error of the origin or not. What says `no-cache` of fields alone which
    /// the reply leaves out may be used as if it didn't.
    pub fn demand_of_use(&self, leaves_fields_out: bool, is_after_error: bool) -> Demand
        ensures { result.sections.now ≡ use_sections self.now leaves_fields_out is_after_error }
    {
        let says_no_cache = self.forbidden == Unusable::NoCache;
        if says_no_cache && !leaves_fields_out {
            NO_CACHE
        } else if says_no_cache && (self.is_fresh_at(self.age) || self.is_permitted) {
            NO_CACHE_FIELDS
        } else if !self.is_read {
            Demand::of(
                "no RFC (RFC 9111 section 4.2.1 encourages a cache to take as stale what says no number, and asks no more), but this auditor's stricter rule",
                "what says a lifetime that is no number has the lifetime 0",
            )
        } else if self.is_fresh_by_age_alone() {
            Demand::of(
                AGE_ALONE,
                "what is stale by its Age or by its Date isn't given before it is validated, but where that is permitted",
            )
        } else {
            self.demand_of_stale(is_after_error)
        }
    }

    // What is asked of what is stale.
    fn demand_of_stale(&self, is_after_error: bool) -> Demand
        ensures { result.sections.now ≡ stale_sections self.now.forbids_stale is_after_error }
    {
        match self.forbids_stale {
            Unusable::MustRevalidate => Demand::of(
                "RFC 9111 section 5.2.2.2",
                "what says must-revalidate MUST NOT be used once it is stale, before it is validated",
            ),
            Unusable::ProxyRevalidate => Demand::of(
                "RFC 9111 section 5.2.2.8",
                "what says proxy-revalidate MUST NOT be used once it is stale, before it is validated",
            ),
            Unusable::SMaxage => Demand::of(
                "RFC 9111 section 5.2.2.10",
                "what says s-maxage MUST NOT be used once it is stale, before it is validated",
            ),
            _ if is_after_error => Demand::of(
                "no RFC (RFC 9111 section 4.3.3 lets a cache take an error for no answer, and give what is stale), but this auditor's stricter rule",
                "what is stale is given after an error where stale-if-error permits that, and else the error is",
            ),
            _ => Demand::of(
                "RFC 9111 section 4.2.4",
                "what is stale MUST NOT be given before it is validated, but where that is permitted",
            ),
        }
    }
}

/// What is said of a lifetime that is none, by an Expires (RFC 9111 sections 4.2.1 and 5.3).
const PAST: &str =
    "lifetime 0 (an Expires that is no date, or not later than the Date, is past: RFC 9111 section 5.3)";

impl Usage {
    /// Tells how old the response is, its lifetime, which it states or is given, and by how much it is stale.
    pub(crate) fn tell_age<T: Teller>(&self, origin: AgeOrigin, teller: &mut T) {
        match self.lifetime {
            Some(0) if origin.is_by_expires => teller.words(PAST),
            Some(seconds) => teller.count("lifetime ", u64::from(seconds), ""),
            None => teller.words("no lifetime is stated"),
        }
        teller.some("lifetime", seconds(self.lifetime));
        if let Some(lent) = self.lent {
            teller.number("default_ttl", ", ", u64::from(lent), " by --default-ttl");
        }
        teller.number("age", ", age ", u64::from(self.age), "");
        self.parts.tell(origin, teller);
        teller.some("stale_by", seconds(self.stale_by));
        match self.stale_by {
            Some(seconds) => teller.count(": stale by ", u64::from(seconds), ""),
            None => teller.words(": fresh"),
        }
    }

    /// Tells why the response may not be used. It is told whether an error or a failure stands between request and reply.
    pub fn tell<T: Teller>(&self, had_error: bool, origin: AgeOrigin, teller: &mut T) {
        self.tell_age(origin, teller);
        say_slack(self.slack, " by --slack)", teller);
        teller.words("; ");
        teller.words(self.forbidden.words());
        teller.word("forbidden", self.forbidden.words());
        self.said.tell(teller);
        if let (Some(stale), Unusable::NothingPermits) = (self.stale_by, self.forbidden) {
            self.said.say_over(stale, had_error, teller);
        }
        match self.setting {
            Some(setting) => {
                let (name, least) = setting.named();
                teller.word("setting", name);
                teller.some("least", least);
            }
            None => teller.some("setting", None),
        }
    }
}

/// So many seconds, if there are any.
pub(crate) fn seconds(some: Option<u32>) -> Option<u64> {
    match some {
        Some(seconds) => Some(u64::from(seconds)),
        None => None,
    }
}
