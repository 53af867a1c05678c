//! What came between a request and its reply.

ghost use Rattle.std.specs.Prelude.{◌≡◌, ◌==◌, ◌||◌};
ghost use Rattle.hc_head.specs.Statuses.{partial_content};
ghost use Rattle.hc_history.specs.Ranges.{range_not_satisfiable};
ghost use Rattle.hc_history.specs.Forwarded.{asks_the_same};

use crate::past::{End, Past};
use hc_gaps::{BodyGap, body_gap};
use hc_head::{Method, StatusCode, is_get, is_head};
use hc_history::ReplyClaim;
use hc_shown::Teller;
use hc_transcript::ToldCause;
use hc_use::Newest;

/// In what the end of a forward differs first from what a reply carries.
#[derive(Clone, Copy)]
enum Apart {
    /// It is a failure.
    Failure,
    /// It was made for another exchange, or for none, and has this status.
    Cause(StatusCode),
    /// It answers another method.
    Method,
    /// The reply is a part of a response, or says that there is no such part: this is the whole.
    Part(StatusCode),
    /// It is a 304, by which a stored response may be freshened and given.
    NotModified,
    /// It has another status, this one.
    Status(StatusCode),
    /// It has another body: in what it differs, where it is remembered.
    Body(Option<BodyGap>),
    /// In nothing: the reply carries it.
    Nothing,
}

/// What came between a request and its reply.
#[derive(Clone, Copy)]
pub struct Window {
    // Whether there is a response of the same path under another host, which the reply would carry.
    has_near: bool,
    // Whether a response of the target is there.
    has_response: bool,
    // The latest response of the target that may have been made for the reply, or else a failure.
    latest: Option<Apart>,
    // Whether more was recorded than is remembered.
    is_forgotten: bool,
}

// Whether a forward of that method asks what the request asks: by its method, or by GET for HEAD.
pub(crate) fn asks_the_same(claim: &ReplyClaim<'_>, method: &Method) -> bool
    ensures { result ≡ asks_the_same claim.now method.now }
{
    let asked = &claim.request.method;
    *method == *asked || (is_head(asked) && is_get(method))
}

/// Whether a reply of that status is a part, or says that there is none.
pub fn is_of_part(status: StatusCode) -> bool
    ensures { result ≡ (status == partial_content || status == range_not_satisfiable) }
{
    status == StatusCode::PARTIAL_CONTENT || status == StatusCode::RANGE_NOT_SATISFIABLE
}

impl End {
    // In what it differs first from what the reply carries.
    fn apart(&self, claim: &ReplyClaim<'_>) -> Apart {
        let Some(status) = self.status else {
            return Apart::Failure;
        };
        if !self.may_answer(claim) {
            return Apart::Cause(status);
        }
        if !asks_the_same(claim, &self.method) {
            return Apart::Method;
        }
        let status_told = claim.status();
        if status != status_told && status == StatusCode::NOT_MODIFIED {
            return Apart::NotModified;
        }
        if status == StatusCode::OK && is_of_part(status_told) {
            return Apart::Part(status);
        }
        if status != status_told {
            return Apart::Status(status);
        }
        let Some(body) = &self.body else {
            return Apart::Body(None);
        };
        match body_gap(&claim.request.method, claim.body(), body.as_slice()) {
            Some(gap) => Apart::Body(Some(gap)),
            None => Apart::Nothing,
        }
    }

    /// Whether it stands in the window, and the reply would carry it, if the host of its target were that of the reply's.
    pub fn is_near(&self, claim: &ReplyClaim<'_>) -> bool {
        claim.since < self.named.position
            && !self.is_of(claim.target)
            && self.target.path == claim.target.path
            && matches!(self.apart(claim), Apart::Nothing)
    }
}

impl Window {
    /// What is remembered of the window of a reply.
    pub(crate) fn read(claim: &ReplyClaim<'_>, past: &Past) -> Self {
        let mut window = Window {
            has_near: false,
            has_response: false,
            latest: None,
            is_forgotten: claim.since < past.forgotten,
        };
        for end in past.ends.iter() {
            if end.is_in_window(claim) {
                window.take(claim, end);
            } else if end.is_near(claim) {
                window.has_near = true;
            }
        }
        window
    }

    // Takes in the end of a forward of the target.
    fn take(&mut self, claim: &ReplyClaim<'_>, end: &End) {
        let is_later = end.status.is_some() || self.latest.is_none();
        if is_later && end.may_answer(claim) {
            self.latest = Some(end.apart(claim));
        }
        self.has_response = self.has_response || end.status.is_some();
    }

    // A word for what it holds, as `other_answer`, and words for it, which the host of a response of another one follows.
    pub(crate) fn words(&self) -> (&'static str, &'static str) {
        if self.has_near {
            return ("other_host", "the response of host ");
        }
        match self.latest {
            Some(Apart::Part(_)) => ("part", "the whole of which it may be a part in the window"),
            Some(Apart::NotModified) => ("not_modified", "a 304 in the window"),
            Some(Apart::Failure) | None if self.is_forgotten => (
                "forgotten",
                "more was recorded than is remembered",
            ),
            Some(Apart::Failure) => ("only_failures", "only failures in the window"),
            None => ("no_answer", "no response in the window"),
            Some(_) => ("other_answer", "other responses in the window"),
        }
    }
}

/// The latest response in the window of the same path under another host that the reply would carry.
pub(crate) fn latest_near<'a>(claim: &ReplyClaim<'_>, past: &'a Past) -> Option<&'a End> {
    let mut latest = None;
    for end in past.ends.iter() {
        if end.is_near(claim) {
            latest = Some(end);
        }
    }
    latest
}

// Tells for which exchange a forward was made, where that is told.
fn tell_cause<T: Teller>(cause: ToldCause, teller: &mut T) {
    match cause {
        ToldCause::Exchange(number) => {
            return teller.number("cause", " for exchange ", number, "");
        }
        ToldCause::NoExchange => teller.words(" for no exchange"),
        ToldCause::Untold => {}
    }
    teller.some("cause", None);
}

// Tells where two bodies differ first, and how long they are.
fn tell_body<T: Teller>(gap: &BodyGap, teller: &mut T) {
    gap.tell(teller);
    teller.count(" (", gap.due, " octets, the reply's ");
    teller.count("", gap.told, "");
    if gap.agreed != 0 {
        teller.count("; the first ", gap.agreed, " agree");
    }
    teller.words(")");
}

impl Apart {
    // A word for it, and words.
    fn words(&self) -> (&'static str, &'static str) {
        match self {
            Apart::Failure => ("failure", ""),
            Apart::Cause(_) => ("cause", " is "),
            Apart::Method => ("method", " answers "),
            Apart::Part(_) => ("part", " is "),
            Apart::NotModified => ("not_modified", " is 304"),
            Apart::Status(_) => ("status", " is "),
            Apart::Body(_) => ("body", " has another body"),
            Apart::Nothing => ("nothing", " is carried"),
        }
    }

    // Tells in what that end of a forward differs from what the reply carries.
    fn tell<T: Teller>(&self, end: &End, teller: &mut T) {
        let (name, words) = self.words();
        teller.word("apart", name);
        teller.words(words);
        match self {
            Apart::Cause(status) | Apart::Status(status) | Apart::Part(status) => {
                teller.count("", u64::from(status.as_u16()), "");
            }
            Apart::Method => teller.said_octets("", end.method.as_slice(), ""),
            Apart::Body(Some(gap)) => tell_body(gap, teller),
            _ => {}
        }
    }
}

impl Window {
    /// Tells each end of a forward in it, and what it holds if these are all failures.
    pub fn tell<T: Teller>(&self, claim: &ReplyClaim<'_>, ends: &Newest<&End>, teller: &mut T) {
        teller.begin_list("window");
        for (place, end) in ends.named.iter().enumerate() {
            teller.separator(place == 0, "", ", ");
            teller.begin_item();
            teller.place(end.named);
            teller.record("", end.named);
            tell_cause(end.told_cause(claim), teller);
            end.apart(claim).tell(end, teller);
            teller.end();
        }
        teller.end();
        teller.more("more_in_window", ends.older);
        self.say_failures(ends, teller);
    }

    // Tells that there are no ends, or that they are failures.
    fn say_failures<T: Teller>(&self, ends: &Newest<&End>, teller: &mut T) {
        if ends.is_empty() {
            teller.words("no forward of the target ended between request and reply");
        } else if !self.has_response {
            teller.words(if ends.is_one() {
                ": a failure, no response"
            } else {
                ": failures, no response"
            });
        }
    }
}
