//! Why nothing of a target is stored (RFC 9111 section 3).

use crate::past::{End, Past};
use crate::sources::tell_lifetime;
use hc_head::{Method, is_get, is_get_or_head};
use hc_history::ReplyClaim;
use hc_shown::Teller;
use hc_use::{Forbids, Newest};

/// What is said of a method whose replies come from no store.
pub const NO_GET: &str = " is neither GET nor HEAD";

/// Why no response comes out of a store.
#[derive(Clone, Copy)]
pub enum Unstored {
    /// The method of the request is neither GET nor HEAD.
    OtherMethod,
    /// That forbids to store the latest response of the target that may not be stored.
    Forbidden(Forbids),
    /// More was recorded than is remembered.
    Forgotten,
    /// No response of the target is recorded.
    Unrecorded,
}

impl Unstored {
    /// What is remembered of why no response of the target is stored, where none is.
    pub(crate) fn read(claim: &ReplyClaim<'_>, past: &Past) -> Self {
        if !is_get_or_head(&claim.request.method) {
            return Unstored::OtherMethod;
        }
        match past.forbidden.peek(claim.target) {
            Some(forbids) => Unstored::Forbidden(*forbids),
            None if past.has_forgotten_target => Unstored::Forgotten,
            None => Unstored::Unrecorded,
        }
    }

    /// Whether nothing is recorded.
    pub fn is_unrecorded(&self) -> bool {
        matches!(self, Unstored::Unrecorded)
    }

    /// A word for it, and words.
    pub(crate) fn words(&self) -> (&'static str, &'static str) {
        match self {
            Unstored::OtherMethod => ("other_method", "the request is neither GET nor HEAD"),
            Unstored::Forbidden(_) => ("not_stored", "the latest response must not be stored: "),
            Unstored::Forgotten => ("forgotten", "more was recorded than is remembered"),
            Unstored::Unrecorded => ("nothing_recorded", "no response of the target is recorded"),
        }
    }
}

// Tells which forward a response answers, and its method where that isn't GET.
fn say_asked<T: Teller>(end: &End, teller: &mut T) {
    match end.sent {
        Some(sent) if !is_get(&end.method) => {
            teller.said_octets(", the answer to the ", end.method.as_slice(), " ");
            teller.record("", sent);
        }
        _ => end.say_sent(teller),
    }
}

// Tells a response, what it is, and what forbids to store it.
fn tell_forbidden<T: Teller>(end: &End, forbids: &Forbids, teller: &mut T) {
    teller.place(end.named);
    teller.record("", end.named);
    end.tell_status("status", " (", teller);
    match &end.heads {
        Some(heads) if teller.is_text() => tell_lifetime(&heads.response.fields, teller),
        _ => {}
    }
    say_asked(end, teller);
    teller.words("), since ");
    let mut forbidden = teller.page();
    forbids.tell(teller.is_text(), &mut forbidden);
    teller.said("forbidden", forbidden);
}

/// Tells the responses that may not be stored after a text, if there are any.
pub fn tell_unstored<T: Teller>(before: &str, ends: &Newest<&End>, teller: &mut T) {
    teller.begin_list("recorded");
    for (place, end) in ends.named.iter().enumerate() {
        if let Some(forbids) = &end.forbids {
            teller.separator(place == 0, before, "; ");
            teller.begin_item();
            tell_forbidden(end, forbids, teller);
            teller.end();
        }
    }
    teller.end();
    teller.more("more_recorded", ends.older);
}

impl Unstored {
    /// Tells why no response of the target comes out of a store for a request of that method, of which those may not be stored.
    pub fn tell<T: Teller>(&self, method: &Method, ends: &Newest<&End>, teller: &mut T) {
        if matches!(self, Unstored::OtherMethod) {
            teller.said_octets("", method.as_slice(), NO_GET);
            if teller.is_text() {
                return;
            }
        } else if ends.is_empty() {
            teller.words(
                "no response of the target is recorded before the reply: was the cache empty when the recording began?",
            );
        }
        let before = "what is recorded of the target must not be stored: ";
        tell_unstored(before, ends, teller);
    }
}
