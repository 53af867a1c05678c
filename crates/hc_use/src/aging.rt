//! The seconds that a reply tells, and those that are due (RFC 9111 sections 4.2.3 and 5.1, RFC 9211 section 2.4).

ghost use Rattle.std.specs.Prelude.{◌≡◌, [], ◌∷◌, codes};
ghost use Rattle.hc_fields.specs.Values.{values_of};
ghost use Rattle.hc_fresh.specs.Ages.{apparent_age, response_delay};
ghost use Rattle.hc_use.specs.Aging.{IsAgeGap, IsAgeTold, age_off, parts_of, ttl_due, ttl_gap_of, ttl_off};
ghost use Rattle.hc_use.specs.Demanding.{age_sections, is_about, is_ttl_about, ttl_sections};
ghost use Rattle.hc_use.specs.Stale.{is_stated};
ghost use Rattle.hc_use.specs.Trusting.{age_by_age_alone};

use crate::demand::Demand;
use crate::usage::is_read;
use hc_fields::{FieldsView, LARGEST_NUMBER, number};
use hc_fresh::{Times, explicit};
use hc_head::StatusCode;
use hc_history::{ReplyClaim, age_of, lifetime_of};
use hc_shown::{FieldOf, RecordName, Teller};
use hc_update::Stored;

/// What the Age lines of a reply tell.
#[derive(Clone, Copy)]
pub enum AgeTold {
    Missing,
    Several,
    Unreadable,
    Seconds(u32),
}

/// What the age of a response at a reply is reckoned from (RFC 9111 section 4.2.3).
#[derive(Clone, Copy)]
pub struct AgeParts {
    /// When it was asked for, when it came, and what its Date and its Age tell.
    pub times: Times,
    /// For how many seconds it was stored.
    pub resident: u64,
}

/// The Age that a reply tells, and the one that is due.
#[derive(Clone, Copy)]
pub struct AgeGap {
    /// What the reply tells.
    pub told: AgeTold,
    /// The age that the response has at the reply.
    pub due: u32,
    /// What that is reckoned from.
    pub parts: AgeParts,
    /// By how many seconds the Age may be off.
    pub slack: u32,
    /// Whether these are those of `--age-slack`, which are more than those of `--slack`.
    pub is_own_slack: bool,
}

/// The seconds for which a reply says to be fresh still, and those that are due.
#[derive(Clone, Copy)]
pub struct TtlGap {
    /// What the mark tells.
    pub told: Option<i64>,
    /// The lifetime of the response.
    pub lifetime: u32,
    /// Its age at the reply.
    pub age: u32,
    /// What that is reckoned from.
    pub parts: AgeParts,
    /// Whether it states that lifetime, so that a cache has no other to give it.
    pub is_stated: bool,
    /// By how many seconds they may be off.
    pub slack: u32,
}

/// What an age and a lifetime are counted from, as far as it is known.
#[derive(Clone, Copy)]
pub struct AgeOrigin {
    /// The 304 that freshened the response last.
    pub validator: Option<RecordName>,
    /// The forward that this answers, or that the response does where no 304 freshened it.
    pub sent: Option<RecordName>,
    /// The response, where it came with an Age, and a 304 freshened it.
    pub aged: Option<Aged>,
    /// Whether Expires alone says the lifetime.
    pub is_by_expires: bool,
}

/// A response that came with an Age.
#[derive(Clone, Copy)]
pub struct Aged {
    /// The position of its record.
    pub position: u64,
    /// Whether the 304 that freshened it last has an Age, too.
    pub is_aged_anew: bool,
}

// What the Age lines among those fields tell.
fn age_told(fields: &FieldsView<'_>) -> AgeTold
    ensures { IsAgeTold (values_of (codes "age") fields.now) result }
{
    let mut values = fields.values(b"age");
    let Some(value) = values.next() else {
        return AgeTold::Missing;
    };
    if values.next().is_some() {
        return AgeTold::Several;
    }
    match number(value) {
        Some(seconds) => AgeTold::Seconds(seconds),
        None => AgeTold::Unreadable,
    }
}

/// What the age of the response at the reply is reckoned from.
pub(crate) fn age_parts(claim: &ReplyClaim<'_>, state: &Stored) -> AgeParts
    ensures { result ≡ parts_of claim.now state.now }
{
    AgeParts {
        times: state.times,
        resident: claim.moment.saturating_sub(state.times.response_time),
    }
}

/// The Age that the reply tells, and the one that is due.
pub fn age_gap(claim: &ReplyClaim<'_>, state: &Stored) -> AgeGap
    ensures { IsAgeGap claim.now state.now result }
{
    let (slack, own) = (claim.settings.slack, claim.settings.allowed.age_slack);
    AgeGap {
        told: age_told(claim.fields()),
        due: age_of(claim, state),
        parts: age_parts(claim, state),
        slack: slack.max(own),
        is_own_slack: slack < own,
    }
}

// Whether the response states its lifetime, in a way that can be read.
fn is_stated(state: &Stored) -> bool
    ensures { result ≡ is_stated state.now.fields }
{
    explicit(&state.fields) && is_read(state)
}

/// The seconds for which the reply says to be fresh still, and those that are due.
pub fn ttl_gap(claim: &ReplyClaim<'_>, state: &Stored) -> TtlGap
    ensures { result ≡ ttl_gap_of claim.now state.now }
{
    TtlGap {
        told: claim.ttl,
        lifetime: lifetime_of(state),
        age: age_of(claim, state),
        parts: age_parts(claim, state),
        is_stated: is_stated(state),
        slack: claim.settings.slack,
    }
}

/// Of what counts by Age alone.
pub(crate) const AGE_ALONE: &str =
    "no RFC (RFC 9111 section 4.2.3 lets a cache count by Age alone), but this auditor's stricter rule";

/// What is asked of the seconds of a mark.
const TTL: &str = "ttl tells for how many seconds more the response is fresh";

/// Tells by how many seconds something may be off, if it may be, and after them by which option.
pub(crate) fn say_slack<T: Teller>(slack: u32, by_option: &str, teller: &mut T) {
    if slack != 0 {
        teller.count(" (give or take ", u64::from(slack), by_option);
    }
}

// Whether a recorder says that it wrote the Age of the reply of those fields, by its Date.
fn is_by_recorder(reply: &FieldsView<'_>) -> bool {
    for member in reply.members(b"cache-status") {
        if member == b"recorder;age-by-date".as_slice() {
            return true;
        }
    }
    false
}

impl AgeParts {
    // For how many seconds the response was on its way.
    fn delay(&self) -> u64
        ensures { result ≡ response_delay self.now.times }
    {
        let times = self.times;
        times.response_time.saturating_sub(times.request_time)
    }

    // How old its Date said it to be when it came.
    fn apparent(&self) -> u64
        ensures { result ≡ apparent_age self.now.times }
    {
        self.times.response_time.saturating_sub(self.times.date)
    }

    /// The age that is counted by the response's Age alone, where its Date tells of more.
    pub(crate) fn by_age_alone(&self) -> Option<u32>
        ensures { result ≡ age_by_age_alone self.now }
    {
        let corrected = u64::from(self.times.age_value).saturating_add(self.delay());
        if self.apparent() <= corrected {
            return None;
        }
        let age = corrected.saturating_add(self.resident);
        Some(age.min(u64::from(LARGEST_NUMBER)) as u32)
    }

    /// Tells of what an age is the sum, after what stands for the age: the age that the response had when it came, by its Date or
    /// by its Age and the time that it took, and the seconds since.
    pub(crate) fn tell<T: Teller>(&self, origin: AgeOrigin, teller: &mut T) {
        let times = self.times;
        teller.fact("request_time", times.request_time);
        teller.fact("response_time", times.response_time);
        teller.fact("date_value", times.date);
        teller.fact("age_value", u64::from(times.age_value));
        teller.fact("resident_time", self.resident);
        teller.words(" = ");
        if self.by_age_alone().is_some() {
            teller.count("", self.apparent(), " (Date)");
        } else {
            if times.age_value != 0 {
                teller.count("", u64::from(times.age_value), " (Age) + ");
            }
            teller.count("", self.delay(), " (on its way");
            if let Some(sent) = origin.sent {
                teller.record(" since ", sent);
            }
            teller.words(")");
        }
        teller.count(" + ", self.resident, " (stored");
        if let Some(validator) = origin.validator {
            teller.record(" since the 304 ", validator);
        }
        teller.words(")");
    }
}

impl AgeGap {
    /// By how many seconds the Age is off, and whether it is too low: none where it tells no seconds.
    pub fn off(&self) -> Option<(u64, bool)>
        ensures { result ≡ age_off self.now.told self.now.due }
    {
        match self.told {
            AgeTold::Seconds(told) => Some((u64::from(told.abs_diff(self.due)), told < self.due)),
            AgeTold::Missing | AgeTold::Several | AgeTold::Unreadable => None,
        }
    }

    // Whether those seconds are what is counted by the response's Age alone.
    fn is_by_age_alone(&self, told: u32) -> bool
        ensures { result ≡ is_about (age_by_age_alone self.now.parts) told self.now.slack }
    {
        match self.parts.by_age_alone() {
            Some(counted) => counted.abs_diff(told) <= self.slack,
            None => false,
        }
    }

    /// What is asked of the Age of a reply of that status, whose response a 304 has validated for the request itself, or at all, or
    /// none has.
    pub fn demand(&self, is_for_it: bool, was_validated: bool, status: StatusCode) -> Demand
        ensures { result.sections.now ≡ age_sections self.now is_for_it was_validated }
    {
        match (self.told, was_validated) {
            (AgeTold::Missing, _) if is_for_it => Demand::of(
                "no RFC (RFC 9111 section 4 asks for an Age where what is stored is used without validation), but this auditor's stricter rule",
                "what comes from the store has an Age, also after a 304 to the request itself",
            ),
            (AgeTold::Missing, _) if status == StatusCode::NOT_MODIFIED => Demand::of(
                "RFC 9111 section 4",
                "a 304 that a cache makes of what is stored MUST have an Age, as all that comes from the store",
            ),
            (AgeTold::Missing, _) => Demand::of(
                "RFC 9111 section 4",
                "a reply from the store MUST have an Age",
            ),
            (AgeTold::Several | AgeTold::Unreadable, _) => {
                Demand::of("RFC 9111 section 5.1", "Age is one number of seconds")
            }
            (AgeTold::Seconds(told), _) if self.is_by_age_alone(told) => Demand::of(
                AGE_ALONE,
                "Age is what the response's Age or its Date says, whichever is more, with the seconds since",
            ),
            (AgeTold::Seconds(_), true) => Demand::of(
                "RFC 9111 sections 4.2 and 5.1",
                "a response's age, which Age tells, is the time since it was generated, or was validated last, at the origin",
            ),
            (AgeTold::Seconds(_), false) => Demand::of(
                "RFC 9111 sections 4 and 4.2.3",
                "Age MUST be what the response's Age or Date says, with the seconds that it was on its way, and those since",
            ),
        }
    }

    // Tells the seconds that the reply of those fields has, whether the recorder wrote them, and what would be due counted from
    // the arrival of the response alone, if that is something else.
    fn tell_seconds<T: Teller>(&self, told: u32, reply: &FieldsView<'_>, teller: &mut T) {
        let by_option = if self.is_own_slack {
            " by --age-slack)"
        } else {
            " by --slack)"
        };
        say_slack(self.slack, by_option, teller);
        teller.number("told", ", the reply has ", u64::from(told), "");
        if is_by_recorder(reply) {
            teller.words(", which the recorder wrote, by the reply's Date");
            teller.flag("by_recorder", true);
        }
        if u64::from(self.due) != self.parts.resident {
            let before = " (counted from its arrival alone ";
            teller.count(before, self.parts.resident, ")");
        }
    }

    /// Tells the Age that is due, with its sum, and the one that the reply of those fields tells; and that the Age with which the
    /// response came counts no more since a 304, whose own counts as so much.
    pub fn tell<T: Teller>(&self, reply: &FieldsView<'_>, origin: AgeOrigin, teller: &mut T) {
        teller.number("due", "age: due ", u64::from(self.due), "");
        teller.fact("slack", u64::from(self.slack));
        self.parts.tell(origin, teller);
        if let AgeTold::Seconds(told) = self.told {
            self.tell_seconds(told, reply, teller);
        } else {
            teller.some("told", None);
            teller.words(", the reply has ");
        }
        match self.told {
            AgeTold::Seconds(_) => {}
            AgeTold::Missing => teller.words("none"),
            AgeTold::Several => teller.words("several lines"),
            AgeTold::Unreadable => teller.said_value(&FieldOf::new(b"age", reply)),
        }
        let Some(aged) = origin.aged else {
            return;
        };
        if aged.is_aged_anew {
            let counted = u64::from(self.parts.times.age_value);
            let before = "; since that 304, which has an Age that counts as ";
            teller.count(before, counted, "");
        } else {
            teller.words("; since that 304, which has no Age");
        }
        let after = " came counts no more (RFC 9111 section 4.2)";
        teller.count(", the Age with which ", aged.position, after);
    }
}

impl TtlGap {
    /// The seconds that are due.
    pub fn due(&self) -> i64
        ensures { result ≡ ttl_due self.now }
    {
        i64::from(self.lifetime) - i64::from(self.age)
    }

    /// By how many seconds it is off, and whether it is too low: none where it tells none.
    pub fn off(&self) -> Option<(u64, bool)>
        ensures { result ≡ ttl_off (ttl_due self.now) self.now.told }
    {
        let told = self.told?;
        Some((told.abs_diff(self.due()), told < self.due()))
    }

    // Whether those seconds are what is left where the response's Age alone is counted.
    fn is_by_age_alone(&self, told: Option<i64>) -> bool
        ensures { result ≡ is_ttl_about self.now (age_by_age_alone self.now.parts) told }
    {
        match (self.parts.by_age_alone(), told) {
            (Some(age), Some(told)) => {
                let left = i64::from(self.lifetime) - i64::from(age);
                told.abs_diff(left) <= u64::from(self.slack)
            }
            _ => false,
        }
    }

    /// What is asked of them.
    pub fn demand(&self) -> Demand
        ensures { result.sections.now ≡ ttl_sections self.now }
    {
        if !self.is_stated {
            return Demand::of(
                "no RFC (RFC 9211 section 2.4 counts a lifetime that the cache itself gives), but this auditor's stricter rule",
                TTL,
            );
        }
        if self.is_by_age_alone(self.told) {
            return Demand::of(AGE_ALONE, TTL);
        }
        Demand::of("RFC 9211 section 2.4", TTL)
    }

    /// Tells the seconds for which the reply is due to say that it is fresh still, and those that it says.
    pub fn tell<T: Teller>(&self, teller: &mut T) {
        teller.signed("due", "ttl: due ", self.due());
        teller.number("lifetime", " = ", u64::from(self.lifetime), " (lifetime)");
        teller.number("age", " - ", u64::from(self.age), " (age)");
        teller.fact("slack", u64::from(self.slack));
        say_slack(self.slack, " by --slack)", teller);
        teller.words(", the reply has ");
        match self.told {
            Some(told) => teller.signed("told", "", told),
            None => {
                teller.words("none");
                teller.some("told", None);
            }
        }
    }
}
