//! In what the status or the body of a reply differs from a stored response's.

ghost use Rattle.std.specs.Prelude.{◌≡◌, codes};
ghost use Rattle.hc_rules.specs.Conditions.{only_date};
ghost use Rattle.hc_gaps.specs.Contents.{IsContentGap, body_gap_of, has_body};
ghost use Rattle.hc_gaps.specs.Demanding.{content_sections, failing_sections, found_sections, gap_sections, is_by_date, is_of_success, is_transformed, unearned_sections};

use hc_fields::Fields;
use hc_framing::BodyView;
use hc_fresh::{read_date, says};
use hc_head::{Method, StatusCode, is_head};
use hc_history::ReplyClaim;
use hc_rules::client_condition;
use hc_shown::{FieldOf, Teller};
use hc_update::Stored;
use hc_use::Demand;

// What a reply claims, and a stored response.
type Pair<'a> = (&'a ReplyClaim<'a>, &'a Stored);

/// How the body of a reply differs from the one that is due.
#[derive(Clone, Copy)]
pub struct BodyGap {
    // Whether the request is HEAD, so that no body is due.
    is_head: bool,
    /// How many octets the response's body has.
    pub due: u64,
    /// How many the reply's has.
    pub told: u64,
    /// How many octets both begin with: after these they first differ.
    pub agreed: u64,
}

// The name of a condition of a request, and that of what a response has for it (RFC 9110 section 13.2.2).
type Condition = (&'static str, &'static str);

// The conditions that origins alone evaluate (RFC 9111 section 4.3.2), and those that caches do.
const MATCH: Condition = ("if-match", "etag");

const UNMODIFIED_SINCE: Condition = ("if-unmodified-since", "last-modified");

const NONE_MATCH: Condition = ("if-none-match", "etag");

const MODIFIED_SINCE: Condition = ("if-modified-since", "last-modified");

// What a reply is that has another status or another body.
#[derive(Clone, Copy)]
enum Content {
    // A 304 where the response has another status than 200.
    OfNoSuccess,
    // The same where that is a success, too, and the condition holds.
    OfSuccess,
    // A 304 by If-Modified-Since, which holds where the Date stands for the Last-Modified that the response lacks.
    ByDate,
    // A 304 that no condition earns: this one of the request, if it has one.
    Unearned(Option<Condition>),
    // A 416, and a part, in an audit that allows ranges.
    Unsatisfied,
    Part,
    // A 412 by a condition that origins alone evaluate.
    Evaluated(Condition),
    // A 412 by another one, if by one.
    Failed(Option<Condition>),
    // A 203, by which a proxy says that it transforms a body.
    Transformed,
    Other,
}

/// In what the status or the body of a reply differs from a stored response's.
#[derive(Clone, Copy)]
pub struct ContentGap {
    content: Content,
    due: StatusCode,
    told: StatusCode,
    bodies: Option<BodyGap>,
}

/// Whether the reply to a request of that method has the body that is due, or none where the request is HEAD.
pub fn has_body(method: &Method, told: &BodyView<'_>, due: &[u8]) -> bool
    ensures { result ≡ has_body method.now told.now due.now }
{
    if is_head(method) {
        told.is_empty()
    } else {
        told.equals(due)
    }
}

/// How the body of the reply to a request of that method differs from the one that is due, if it does.
pub fn body_gap(method: &Method, told: &BodyView<'_>, due: &[u8]) -> Option<BodyGap>
    ensures { result ≡ body_gap_of method.now told.now due.now }
{
    if has_body(method, told, due) {
        return None;
    }
    Some(BodyGap {
        is_head: is_head(method),
        due: due.len() as u64,
        told: told.len() as u64,
        agreed: told.agreed_len(due) as u64,
    })
}

// The first of those conditions that a request has.
fn first_asked(conditions: &[Condition], claim: &ReplyClaim<'_>) -> Option<Condition> {
    for condition in conditions {
        if claim.request.fields.contains(condition.0.as_bytes()) {
            return Some(*condition);
        }
    }
    None
}

// What a reply of status 412 is.
fn failed(claim: &ReplyClaim<'_>) -> Content
    ensures { found_sections result ≡ failing_sections claim.now }
{
    let asked = &claim.request.fields;
    if asked.contains(b"if-match") {
        return Content::Evaluated(MATCH);
    }
    if asked.contains(b"if-unmodified-since") {
        return Content::Evaluated(UNMODIFIED_SINCE);
    }
    Content::Failed(first_asked(&[NONE_MATCH], claim))
}

// The date of If-Modified-Since.
fn since(asked: &Fields) -> Option<u64>
    ensures { result ≡ only_date (codes "if-modified-since") asked.now }
{
    read_date(asked.only(b"if-modified-since")?)
}

// Whether the condition of the request is If-Modified-Since, which holds by the Date of the response, since it has no
// Last-Modified.
fn is_by_date(claim: &ReplyClaim<'_>, state: &Stored) -> bool
    ensures { result ≡ is_by_date claim.now state.now }
{
    let asked = &claim.request.fields;
    if asked.contains(b"if-none-match") || state.fields.contains(b"last-modified") {
        return false;
    }
    match since(asked) {
        Some(since) => state.times.date <= since,
        None => false,
    }
}

// Whether the response is a success of another status than 200, for which the condition of the request holds.
fn is_of_success(claim: &ReplyClaim<'_>, state: &Stored) -> bool
    ensures { result ≡ is_of_success claim.now state.now }
{
    let asked = &claim.request.fields;
    state.status.as_u16() < 300 && client_condition(asked, StatusCode::OK, &state.fields)
}

// What a 304 is that no condition earns.
fn unearned(claim: &ReplyClaim<'_>, state: &Stored) -> Content
    ensures { found_sections result ≡ unearned_sections claim.now state.now }
{
    if state.status != StatusCode::OK {
        if is_of_success(claim, state) {
            return Content::OfSuccess;
        }
        return Content::OfNoSuccess;
    }
    if is_by_date(claim, state) {
        return Content::ByDate;
    }
    Content::Unearned(first_asked(&[NONE_MATCH, MODIFIED_SINCE], claim))
}

// Whether the reply says by its status that a proxy transforms the body of the response, which doesn't forbid that.
fn is_transformed(claim: &ReplyClaim<'_>, state: &Stored) -> bool
    ensures { result ≡ is_transformed claim.now state.now }
{
    let status = claim.status();
    status == StatusCode::NON_AUTHORITATIVE_INFORMATION
        && state.status == StatusCode::OK
        && !says(b"no-transform", &state.fields)
}

// What a reply is that has another status or another body than the response.
fn content_of(claim: &ReplyClaim<'_>, state: &Stored) -> Content
    ensures { found_sections result ≡ content_sections claim.now state.now }
{
    let status = claim.status();
    if status == StatusCode::NOT_MODIFIED && claim.body().is_empty() {
        return unearned(claim, state);
    }
    if status == StatusCode::RANGE_NOT_SATISFIABLE && claim.settings.allowed.ranges {
        return Content::Unsatisfied;
    }
    if status == StatusCode::PARTIAL_CONTENT && claim.settings.allowed.ranges {
        return Content::Part;
    }
    if status == StatusCode::PRECONDITION_FAILED {
        return failed(claim);
    }
    if is_transformed(claim, state) {
        return Content::Transformed;
    }
    Content::Other
}

/// In what the status or the body of the reply differs from the response's.
pub fn content_gap(claim: &ReplyClaim<'_>, state: &Stored) -> ContentGap
    ensures { IsContentGap claim.now state.now result }
{
    ContentGap {
        content: content_of(claim, state),
        due: state.status,
        told: claim.status(),
        bodies: body_gap(&claim.request.method, claim.body(), state.body.as_slice()),
    }
}

/// Parts that are right where an audit allows ranges.
pub const PERMITTED_PART: Demand = Demand {
    sections: "no RFC (RFC 9110 sections 14.2 and 15.5.17 let a cache give a part, or say that there is none), but this auditor's stricter rule",
    words: "a reply is all of a response, but for --allow ranges",
};

/// What is asked of the status and the body of a reply.
const WHOLE: &str =
    "a reply has the stored response's status and body, or is a 304 that a condition earns";

impl BodyGap {
    /// Tells how many octets both bodies have to an object.
    pub fn tell<T: Teller>(&self, teller: &mut T) {
        teller.fact("due_octets", self.due);
        teller.fact("told_octets", self.told);
        teller.fact("agreed_octets", self.agreed);
    }

    // Tells how the body of the response differs from that of the reply.
    fn say<T: Teller>(&self, teller: &mut T) {
        if self.is_head {
            let before = "body: due none in a reply to HEAD, the reply has ";
            return teller.count(before, self.told, " octets");
        }
        teller.count("body: due ", self.due, " octets, ");
        teller.count("the reply has ", self.told, "");
        if self.agreed != 0 {
            teller.count("; the first ", self.agreed, " octets agree");
        }
    }
}

/// What stands between a condition and what the response has for it.
const ITS: &str = ", the stored response's ";

fn number(status: StatusCode) -> u64 {
    u64::from(status.as_u16())
}

// Tells the condition that the request presents, and after a text what the response has for it.
fn tell_condition<T: Teller>(
    (asked, validator): Condition,
    between: &str,
    (claim, state): Pair<'_>,
    teller: &mut T,
) {
    let field = FieldOf::new(asked.as_bytes(), &claim.request.fields);
    teller.words(asked);
    teller.value(asked, " ", &field);
    let field = FieldOf::new(validator.as_bytes(), &state.fields);
    teller.words(between);
    teller.words(validator);
    teller.value(validator, " ", &field);
}

// Tells after a text of which part the reply tells, and how long the whole is.
fn tell_range<T: Teller>(before: &str, (claim, state): Pair<'_>, teller: &mut T) {
    let range = FieldOf::new(b"content-range", claim.fields());
    teller.value("content-range", before, &range);
    teller.fact("whole_octets", state.body.len() as u64);
}

impl ContentGap {
    // Whether it is a 304 that nothing earns.
    fn is_unearned(&self) -> bool {
        matches!(
            self.content,
            Content::OfNoSuccess | Content::OfSuccess | Content::ByDate | Content::Unearned(_)
        )
    }

    // Whether it is the body alone that differs.
    fn is_of_body(&self) -> bool {
        !self.is_unearned() && self.due == self.told
    }

    /// A word for it, as `other_body`.
    pub fn kind(&self) -> &'static str {
        if self.is_of_body() {
            "other_body"
        } else {
            "other_status"
        }
    }

    /// Tells words for it, as `another body`.
    pub fn name<T: Teller>(&self, teller: &mut T) {
        if self.is_of_body() {
            teller.words("another body");
        } else {
            teller.count("another status: ", number(self.told), "");
        }
    }

    /// What is asked of the status and the body of the reply.
    pub fn demand(&self) -> Demand
        ensures { result.sections.now ≡ gap_sections self.now }
    {
        match self.content {
            Content::OfNoSuccess | Content::Unearned(_) => {
                Demand::of("RFC 9111 section 4.3.2", WHOLE)
            }
            Content::OfSuccess => Demand::of(
                "no RFC (RFC 9110 section 13.2.1 lets a condition be asked of whatever is 2xx), but this auditor's stricter rule",
                "a condition of a client is asked of a stored response of status 200 alone",
            ),
            Content::ByDate => Demand::of(
                "no RFC (RFC 9111 section 4.3.2 lets a Date stand for the Last-Modified that isn't there), but this auditor's stricter rule",
                "no Date stands for a Last-Modified that isn't there",
            ),
            Content::Transformed => Demand::of(
                "no RFC (RFC 9110 section 7.7 lets a proxy transform a body, and section 15.3.4 say so), but this auditor's stricter rule",
                WHOLE,
            ),
            Content::Unsatisfied => Demand::of(
                "RFC 9110 section 15.5.17",
                "a 416 SHOULD tell by Content-Range how long the whole is",
            ),
            Content::Part => Demand::of(
                "RFC 9110 section 14.2",
                "a range is answered by the whole that is stored, or by that part of it",
            ),
            Content::Evaluated(_) => Demand::of(
                "RFC 9111 section 4.3.2",
                "a cache MUST NOT evaluate If-Match and If-Unmodified-Since: it gives what is stored, or asks the origin",
            ),
            Content::Failed(_) | Content::Other => Demand::of("RFC 9111 section 4", WHOLE),
        }
    }

    /// Tells how the status or the body of the reply differs from the response's.
    pub fn tell<T: Teller>(&self, claim: &ReplyClaim<'_>, state: &Stored, teller: &mut T) {
        let pair = (claim, state);
        if self.is_unearned() {
            return self.tell_unearned(pair, teller);
        }
        teller.fact("due_status", number(self.due));
        teller.fact("told_status", number(self.told));
        if let Some(bodies) = self.bodies {
            bodies.tell(teller);
        }
        match self.content {
            // What was due in its place, and what it has (RFC 9110 section 15.5.17).
            Content::Unsatisfied => {
                let whole = state.body.len() as u64;
                teller.count("due ", number(self.due), "");
                teller.count(" with all ", whole, " octets that are stored, ");
                teller.count("or a 416 with content-range \"bytes */", whole, "\"; ");
                tell_range("the reply is a 416 with content-range ", pair, teller);
            }
            Content::Part => {
                self.say(teller);
                tell_range("; content-range ", pair, teller);
            }
            Content::Evaluated(condition) => self.tell_evaluated(condition, pair, teller),
            Content::Failed(Some(condition)) => {
                self.say(teller);
                teller.words("; ");
                tell_condition(condition, ITS, pair, teller);
            }
            _ => self.say(teller),
        }
    }

    fn tell_unearned<T: Teller>(&self, pair: Pair<'_>, teller: &mut T) {
        teller.words("no condition earns the 304: ");
        match self.content {
            Content::Unearned(Some(condition)) => tell_condition(condition, ITS, pair, teller),
            Content::ByDate => tell_condition(MODIFIED_SINCE, ITS, pair, teller),
            Content::Unearned(None) => teller.words("the request has none"),
            _ => teller.number("due_status", "its status is ", number(self.due), ""),
        }
    }

    // Tells how the statuses and the bodies differ.
    fn say<T: Teller>(&self, teller: &mut T) {
        let is_of_body = self.due == self.told;
        if !is_of_body {
            teller.count("status: due ", number(self.due), "");
            teller.count(", the reply has ", number(self.told), "");
        }
        if let Some(bodies) = self.bodies {
            teller.separator(is_of_body, "", "; ");
            bodies.say(teller);
        }
    }

    // Tells the condition that a cache evaluated which origins alone evaluate, what was due, and what came.
    fn tell_evaluated<T: Teller>(&self, condition: Condition, pair: Pair<'_>, teller: &mut T) {
        teller.words("the cache evaluated ");
        tell_condition(condition, " against the stored response's ", pair, teller);
        teller.count(", which it must not: due ", number(self.due), "");
        if let Some(bodies) = self.bodies {
            teller.count(" with ", bodies.due, " octets");
        }
        let before = " as it is stored, or an answer of the origin, the reply has ";
        teller.count(before, number(self.told), "");
        if let Some(bodies) = self.bodies {
            teller.count(" with ", bodies.told, " octets");
        }
    }
}
