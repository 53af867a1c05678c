//! How stale a response may be served (RFC 9111 sections 4.2.4 and 5.2.1.2, RFC 5861), and which setting of an audit
//! would permit more.

ghost use Rattle.std.specs.Prelude.{◌≡◌, min};
ghost use Rattle.hc_use.specs.Stale.{greater, most_seconds, over_of, seconds_in, settings_with, stale_said_of, takes_lifetime, tolerated, told_setting};

use crate::usage::seconds;
use hc_directives::Seconds;
use hc_fresh::{explicit, says, seconds_said, stale_forbidden, staleness};
use hc_history::{ReplyClaim, Settings, UnmarkedReplies, age_of, lifetime_of};
use hc_rules::is_heuristically_cacheable;
use hc_shown::Teller;
use hc_update::Stored;

/// The most seconds that an option takes.
const MOST_SECONDS: u64 = 2_147_483_648;

/// What a response says of how stale it may be served, and what the request of a reply asks.
#[derive(Clone, Copy)]
pub struct StaleSaid {
    pub max_stale: Seconds,
    pub while_revalidating: Seconds,
    pub if_error: Seconds,
    pub asked_if_error: Seconds,
}

/// How a stale response is over what a directive permits.
#[derive(Clone, Copy)]
enum Excess {
    /// By so many seconds, where so many are permitted.
    By(u32, u32),
    /// So many are permitted on an error, and none came.
    NoError(u32),
}

/// A setting by which an audit lets more pass, with its seconds.
#[derive(Clone, Copy)]
pub enum Setting {
    /// A lifetime for what states none (RFC 9111 section 4.2.2).
    DefaultLifetime(u64),
    /// How stale anything may be (section 4.2.4).
    Grace(u64),
    /// By how much an age may be off, wherever one is compared.
    Slack(u64),
    /// By how much the Age of a reply may be off.
    AgeSlack(u64),
    /// Replies without a mark.
    Unmarked,
    /// Fields that a reply alone has.
    AddedFields,
    /// Lines of one name as one line.
    JoinedLines,
    /// Parts of a response.
    Ranges,
    /// Added fields, joined lines and ranges.
    All,
    /// Marks that are inferred.
    InferredMarks,
}

/// What a response and the request say of how stale it may be served.
pub(crate) fn stale_said(claim: &ReplyClaim<'_>, state: &Stored) -> StaleSaid
    ensures { result ≡ stale_said_of claim.now state.now }
{
    let asked = &claim.request.fields;
    StaleSaid {
        max_stale: seconds_said(b"max-stale", asked),
        while_revalidating: seconds_said(b"stale-while-revalidate", &state.fields),
        if_error: seconds_said(b"stale-if-error", &state.fields),
        asked_if_error: seconds_said(b"stale-if-error", asked),
    }
}

// The seconds that a directive says, where it says a number.
fn seconds_in(said: Seconds) -> Option<u32>
    ensures { result ≡ seconds_in said }
{
    match said {
        Seconds::Value(seconds) => Some(seconds),
        Seconds::Absent | Seconds::Bare | Seconds::Unreadable => None,
    }
}

// The greater of both, as far as they are there.
fn greater(one: Option<u32>, other: Option<u32>) -> Option<u32>
    ensures { result ≡ greater one other }
{
    match (one, other) {
        (Some(one), Some(other)) => Some(one.max(other)),
        (Some(one), None) => Some(one),
        (None, other) => other,
    }
}

// By how many seconds the response may be stale at most, if it may be at all.
fn tolerated(claim: &ReplyClaim<'_>, state: &Stored) -> Option<u32>
    ensures { result ≡ tolerated claim.now state.now }
{
    if stale_forbidden(&state.fields) {
        return None;
    }
    let said = stale_said(claim, state);
    let max_stale = seconds_in(said.max_stale);
    let by_both = greater(max_stale, seconds_in(said.while_revalidating));
    let ever = greater(claim.settings.allowed.grace, by_both);
    if claim.has_error || claim.has_failure {
        let on_error = greater(seconds_in(said.if_error), seconds_in(said.asked_if_error));
        greater(ever, on_error)
    } else {
        ever
    }
}

/// Whether the response may be given a lifetime.
pub(crate) fn takes_lifetime(state: &Stored) -> bool
    ensures { result ≡ takes_lifetime state.now }
{
    !explicit(&state.fields)
        && (says(b"public", &state.fields) || is_heuristically_cacheable(state.status))
}

/// The setting by which the response may be used that may not be used without, if there is one that an option takes.
pub(crate) fn told_setting(claim: &ReplyClaim<'_>, state: &Stored) -> Option<Setting>
    ensures { result ≡ told_setting claim.now state.now }
{
    if says(b"no-cache", &state.fields) {
        return None;
    }
    if takes_lifetime(state) {
        let (age, slack) = (age_of(claim, state), u64::from(claim.settings.slack));
        let least = match tolerated(claim, state) {
            Some(seconds) => u64::from(age).saturating_sub(u64::from(seconds) + slack),
            None => (u64::from(age) + 1).saturating_sub(slack),
        };
        if MOST_SECONDS < least {
            return None;
        }
        return Some(Setting::DefaultLifetime(least));
    }
    if stale_forbidden(&state.fields) {
        return None;
    }
    let stale = staleness(lifetime_of(state), age_of(claim, state));
    let least = u64::from(stale.saturating_sub(claim.settings.slack));
    if MOST_SECONDS < least {
        None
    } else {
        Some(Setting::Grace(least))
    }
}

// Those seconds, or as many as settings may have.
fn within(seconds: u64) -> u32
    ensures { result ≡ min seconds most_seconds }
{
    u32::try_from(seconds).unwrap_or(u32::MAX)
}

impl Setting {
    /// Sets it in those settings.
    pub fn allow(&self, settings: &mut Settings)
        ensures { settings.new ≡ settings_with self.now settings.old }
    {
        let allowed = &mut settings.allowed;
        match self {
            Setting::DefaultLifetime(seconds) => {
                allowed.default_lifetime = Some(within(*seconds));
            }
            Setting::Grace(seconds) => allowed.grace = Some(within(*seconds)),
            Setting::Slack(seconds) => settings.slack = within(*seconds),
            Setting::AgeSlack(seconds) => allowed.age_slack = within(*seconds),
            Setting::Unmarked => settings.unmarked = UnmarkedReplies::Allow,
            Setting::AddedFields => allowed.added_fields = true,
            Setting::JoinedLines => allowed.joined_lines = true,
            Setting::Ranges => allowed.ranges = true,
            Setting::All => {
                allowed.added_fields = true;
                allowed.joined_lines = true;
                allowed.ranges = true;
            }
            Setting::InferredMarks => allowed.inferred_marks = true,
        }
    }

    /// Whether those settings let less of it pass.
    pub fn is_more(&self, settings: &Settings) -> bool {
        let allowed = &settings.allowed;
        match self {
            Setting::DefaultLifetime(seconds) => allowed.default_lifetime < Some(within(*seconds)),
            Setting::Grace(seconds) => allowed.grace < Some(within(*seconds)),
            Setting::Slack(seconds) => settings.slack < within(*seconds),
            Setting::AgeSlack(seconds) => settings.slack.max(allowed.age_slack) < within(*seconds),
            Setting::Unmarked => settings.unmarked != UnmarkedReplies::Allow,
            Setting::AddedFields => !allowed.added_fields,
            Setting::JoinedLines => !allowed.joined_lines,
            Setting::Ranges => !allowed.ranges,
            Setting::All => !(allowed.added_fields && allowed.joined_lines && allowed.ranges),
            Setting::InferredMarks => !allowed.inferred_marks,
        }
    }

    /// The words by which it is asked for, and its seconds, where it has any.
    pub fn named(&self) -> (&'static str, Option<u64>) {
        match self {
            Setting::DefaultLifetime(seconds) => ("--default-ttl", Some(*seconds)),
            Setting::Grace(seconds) => ("--grace", Some(*seconds)),
            Setting::Slack(seconds) => ("--slack", Some(*seconds)),
            Setting::AgeSlack(seconds) => ("--age-slack", Some(*seconds)),
            Setting::Unmarked => ("without --errors-only", None),
            Setting::AddedFields => ("--allow added-fields", None),
            Setting::JoinedLines => ("--allow joined-lines", None),
            Setting::Ranges => ("--allow ranges", None),
            Setting::All => ("--allow all", None),
            Setting::InferredMarks => ("--infer-marks", None),
        }
    }
}

/// The seconds of a directive that says a number.
pub(crate) fn number_in(said: Seconds) -> Option<u64> {
    seconds(seconds_in(said))
}

// How a response that is so stale is over what a directive permits, which may do so on an error alone, if it says a number.
fn over(said: Seconds, is_on_error: bool, stale: u32, had_error: bool) -> Option<Excess>
    ensures { result ≡ over_of said is_on_error stale had_error }
{
    match said {
        Seconds::Value(permitted) => {
            if is_on_error && !had_error {
                Some(Excess::NoError(permitted))
            } else {
                Some(Excess::By(stale.saturating_sub(permitted), permitted))
            }
        }
        Seconds::Absent | Seconds::Bare | Seconds::Unreadable => None,
    }
}

impl StaleSaid {
    /// Tells the seconds of each directive to an object.
    pub(crate) fn tell<T: Teller>(&self, teller: &mut T) {
        teller.some("max_stale", number_in(self.max_stale));
        teller.some("stale_while_revalidate", number_in(self.while_revalidating));
        teller.some("stale_if_error", number_in(self.if_error));
        teller.some("asked_stale_if_error", number_in(self.asked_if_error));
    }

    // What each directive says, with its name, a text of which message it is, and whether it permits nothing without an error.
    fn rows(&self) -> [(Seconds, &'static str, &'static str, bool); 4] {
        let meanwhile = "stale-while-revalidate";
        let (of_response, of_request) = (" of the response", " of the request");
        [
            (self.while_revalidating, meanwhile, of_response, false),
            (self.max_stale, "max-stale", of_request, false),
            (self.if_error, "stale-if-error", of_response, true),
            (self.asked_if_error, "stale-if-error", of_request, true),
        ]
    }

    /// Tells by how much a response that is so stale is staler than each number permits, or that there was no error for it.
    pub(crate) fn say_over<T: Teller>(&self, stale: u32, had_error: bool, teller: &mut T) {
        for (said, name, of_message, is_on_error) in self.rows() {
            let permitted = match over(said, is_on_error, stale, had_error) {
                Some(Excess::By(over, permitted)) => {
                    teller.count("; ", u64::from(over), " over ");
                    permitted
                }
                Some(Excess::NoError(permitted)) => {
                    teller.words("; no error for ");
                    permitted
                }
                None => continue,
            };
            teller.words(name);
            teller.count(" ", u64::from(permitted), of_message);
        }
    }
}
