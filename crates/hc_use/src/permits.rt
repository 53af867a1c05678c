//! What permits to give a stored response that is stale (RFC 9111 section 4.2.4, RFC 5861).

ghost use Rattle.std.specs.Prelude.{◌≡◌};
ghost use Rattle.hc_use.specs.Permits.{permit_by, permit_of, stale_use_of};
ghost use Rattle.hc_use.specs.Stale.{is_forbidden, is_permitted};

use crate::aging::AgeOrigin;
use crate::stale::number_in;
use crate::usage::{Usage, usage_at};
use hc_fresh::{fresh, says};
use hc_history::{
    ReplyClaim, age_of, allowed_staleness, is_allowed_fresh, is_fresh_within, lifetime_of,
    meanwhile_permits, request_permits, said_on_error, use_is_allowed, validated_since,
};
use hc_shown::Teller;
use hc_update::Stored;

/// The first thing that permits to give a stale response, with its seconds where the audit says them.
#[derive(Clone, Copy)]
pub enum Permit {
    Slack,
    DefaultLifetime(u32),
    MaxStale,
    WhileRevalidating,
    IfError,
    AskedIfError,
    Unreachable,
    Grace(u32),
}

/// A response that is stale at a reply, and may be given all the same.
#[derive(Clone, Copy)]
pub struct StaleUse {
    /// How old it is.
    pub usage: Usage,
    /// What permits to give it.
    pub permit: Permit,
}

// The first thing that permits that staleness.
fn permit_by(claim: &ReplyClaim<'_>, state: &Stored, stale: u32) -> Permit
    ensures { result ≡ permit_by claim.now state.now stale }
{
    let is_broken = claim.has_error || claim.has_failure;
    if request_permits(claim, stale) {
        Permit::MaxStale
    } else if meanwhile_permits(claim, state, stale) {
        Permit::WhileRevalidating
    } else if is_broken && said_on_error(claim, &state.fields, stale) {
        Permit::IfError
    } else if is_broken && said_on_error(claim, &claim.request.fields, stale) {
        Permit::AskedIfError
    } else if claim.has_failure {
        Permit::Unreachable
    } else {
        match claim.settings.allowed.grace {
            Some(seconds) => Permit::Grace(seconds),
            None => Permit::Unreachable,
        }
    }
}

// Whether a directive forbids to give the response stale, but for `no-cache`.
fn is_forbidden(state: &Stored) -> bool
    ensures { result ≡ is_forbidden state.now.fields }
{
    says(b"must-revalidate", &state.fields)
        || says(b"proxy-revalidate", &state.fields)
        || says(b"s-maxage", &state.fields)
}

/// Whether the response might be given as stale as it is, did it not say `no-cache`.
pub(crate) fn is_permitted(claim: &ReplyClaim<'_>, state: &Stored) -> bool
    ensures { result ≡ is_permitted claim.now state.now }
{
    let stale = allowed_staleness(claim, state);
    let is_broken = claim.has_error || claim.has_failure;
    let is_said = request_permits(claim, stale)
        || meanwhile_permits(claim, state, stale)
        || (is_broken && said_on_error(claim, &state.fields, stale))
        || (is_broken && said_on_error(claim, &claim.request.fields, stale));
    !is_forbidden(state) && (is_said || claim.has_failure)
}

// The first thing that permits to give a response which is stale and may be used.
fn first_permit(claim: &ReplyClaim<'_>, state: &Stored) -> Permit
    ensures { result ≡ permit_of claim.now state.now }
{
    if is_fresh_within(claim, state) {
        Permit::Slack
    } else if is_allowed_fresh(claim, state) {
        match claim.settings.allowed.default_lifetime {
            Some(seconds) => Permit::DefaultLifetime(seconds),
            None => Permit::Slack,
        }
    } else {
        permit_by(claim, state, allowed_staleness(claim, state))
    }
}

/// How old a response is that is stale at the reply and may be given all the same, and what permits that. None where it
/// is fresh, was validated behind the request, or may not be used.
pub fn stale_use(claim: &ReplyClaim<'_>, state: &Stored) -> Option<StaleUse>
    ensures { result ≡ stale_use_of claim.now state.now }
{
    let is_used_stale = !validated_since(claim.since, state.validated_at)
        && !fresh(lifetime_of(state), age_of(claim, state))
        && use_is_allowed(claim, state);
    if !is_used_stale {
        return None;
    }
    Some(StaleUse {
        usage: usage_at(claim, state),
        permit: first_permit(claim, state),
    })
}

impl Permit {
    // A word for it.
    fn name(&self) -> &'static str {
        match self {
            Permit::Slack => "slack",
            Permit::DefaultLifetime(_) => "default_ttl",
            Permit::MaxStale => "max_stale",
            Permit::WhileRevalidating => "stale_while_revalidate",
            Permit::IfError => "stale_if_error",
            Permit::AskedIfError => "asked_stale_if_error",
            Permit::Unreachable => "unreachable",
            Permit::Grace(_) => "grace",
        }
    }

    // The text before its seconds, and the one after them.
    fn words(&self) -> (&'static str, &'static str) {
        match self {
            Permit::Slack => ("by this audit's --slack", ""),
            Permit::DefaultLifetime(_) => (
                "by this audit's --default-ttl",
                " (RFC 9111 section 4.2.2)",
            ),
            Permit::MaxStale => ("by max-stale", " of the request (RFC 9111 section 5.2.1.2)"),
            Permit::WhileRevalidating => (
                "by stale-while-revalidate",
                " of the response (RFC 5861 section 3)",
            ),
            Permit::IfError => ("by stale-if-error", " of the response (RFC 5861 section 4)"),
            Permit::AskedIfError => ("by stale-if-error", " of the request (RFC 5861 section 4)"),
            Permit::Unreachable => (
                "since the origin can't be reached",
                " (RFC 9111 section 4.2.4)",
            ),
            Permit::Grace(_) => ("by this audit's --grace", " (RFC 9111 section 4.2.4)"),
        }
    }
}

impl StaleUse {
    // The seconds of what permits to give the response, where that has any.
    fn permitted_seconds(&self) -> Option<u64> {
        let said = self.usage.said;
        match self.permit {
            Permit::Slack => Some(u64::from(self.usage.slack)),
            Permit::DefaultLifetime(seconds) | Permit::Grace(seconds) => Some(u64::from(seconds)),
            Permit::MaxStale => number_in(said.max_stale),
            Permit::WhileRevalidating => number_in(said.while_revalidating),
            Permit::IfError => number_in(said.if_error),
            Permit::AskedIfError => number_in(said.asked_if_error),
            Permit::Unreachable => None,
        }
    }

    /// Tells what permits to give the response.
    pub fn tell<T: Teller>(&self, origin: AgeOrigin, teller: &mut T) {
        teller.words("no fault: ");
        self.usage.tell_age(origin, teller);
        let (before, after) = self.permit.words();
        let seconds = self.permitted_seconds();
        let is_lent = matches!(self.permit, Permit::DefaultLifetime(_));
        teller.separator(is_lent, " ", ", permitted ");
        teller.words(before);
        if let Some(seconds) = seconds {
            teller.count(" ", seconds, "");
        }
        teller.words(after);
        teller.word("permitted_by", self.permit.name());
        teller.some("permitted_seconds", seconds);
    }
}
