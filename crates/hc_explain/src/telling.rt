//! What is told of a reply: the lines of a text, and the members of an object. Words and columns are told to a text alone,
//! and what has a name alone to an object.

use crate::responses::{tell_broken, tell_right, tell_stale, tell_wrong};
use hc_history::{Finding, ReplyClaim};
use hc_past::{End, Reach};
use hc_shown::{FieldOf, Teller};
use hc_why::{Explanation, Way};

/// The fields of a request that say what it asks besides its target.
const ASKING: [&[u8]; 8] = [
    b"range",
    b"if-range",
    b"if-none-match",
    b"if-modified-since",
    b"if-match",
    b"if-unmodified-since",
    b"cache-control",
    b"pragma",
];

/// Tells what is known of a reply beside the facts that are told first.
pub(crate) fn tell<T: Teller>(known: &Explanation<'_>, teller: &mut T) {
    tell_setting(known, teller);
    tell_reply(known, teller);
    tell_responses(known, teller);
    match &known.why {
        None => tell_right(known, teller),
        Some(why) => tell_wrong(known, why, teller),
    }
    tell_stale(known, teller);
}

// Tells an object what would be found with the setting by which the response that is named may be used.
fn tell_setting<T: Teller>(known: &Explanation<'_>, teller: &mut T) {
    match known.with_setting {
        Some(Finding::Right) => teller.word("with_setting", "right"),
        Some(Finding::Wrong(reason)) => teller.word("with_setting", reason.name()),
        None => {}
    }
}

/// Begins a line about a request and its reply.
pub(crate) fn begin_between<T: Teller>(word: &str, known: &Explanation<'_>, teller: &mut T) {
    teller.count(word, known.claim.since, "-");
    teller.count("", known.position, "");
    teller.fill();
}

// Tells what the reply says, and what the request asks besides its target.
fn tell_reply<T: Teller>(known: &Explanation<'_>, teller: &mut T) {
    let claim = &known.claim;
    teller.begin("reply");
    begin_between("reply  ", known, teller);
    teller.moment(claim.moment);
    teller.fact("moment", claim.moment);
    teller.method("method", "  ", &claim.request.method, " ");
    let mut target = teller.page();
    target.target(claim.target);
    teller.said("target", target);
    teller.number("status", " -> ", u64::from(claim.status().as_u16()), "");
    teller.number("octets", ", ", claim.body().len() as u64, " octets, ");
    say_mark(known, teller);
    teller.known(
        "cache_status",
        &FieldOf::new(b"cache-status", claim.fields()),
    );
    teller.flag("inferred", claim.is_inferred);
    teller.words("\n");
    tell_asked(claim, teller);
    teller.end();
}

// Tells the Range, the conditions and the Cache-Control of the request, as far as it has them.
fn tell_asked<T: Teller>(claim: &ReplyClaim<'_>, teller: &mut T) {
    let fields = &claim.request.fields;
    let mut is_first = true;
    teller.begin_list("asked");
    for name in &ASKING {
        if fields.contains(name) {
            teller.separator(is_first, "asked           ", ", ");
            teller.begin_item();
            teller.octets("name", "", name);
            teller.value("value", " ", &FieldOf::new(name, fields));
            teller.end();
            is_first = false;
        }
    }
    teller.end();
    if !is_first {
        teller.words("\n");
    }
}

// Says as what the reply is judged, and by which mark: the last member of its Cache-Status.
fn say_mark<T: Teller>(known: &Explanation<'_>, teller: &mut T) {
    let claim = &known.claim;
    let judged = match known.way {
        Way::Hit => "a hit",
        Way::Forwarded => "forwarded",
        Way::Collapsed => "collapsed",
        Way::Unmarked => return say_cache_status(claim, teller),
    };
    teller.words(judged);
    teller.words(if claim.is_inferred {
        " as is inferred, "
    } else if has_several_marks(claim) {
        " by the last member of "
    } else {
        " by "
    });
    say_cache_status(claim, teller);
}

pub(crate) fn say_cache_status<T: Teller>(claim: &ReplyClaim<'_>, teller: &mut T) {
    let fields = claim.fields();
    if fields.contains(b"cache-status") {
        teller.words("Cache-Status ");
        teller.said_value(&FieldOf::new(b"cache-status", fields));
    } else {
        teller.words("no Cache-Status");
    }
}

// Whether the Cache-Status of the reply has several members or lines.
fn has_several_marks(claim: &ReplyClaim<'_>) -> bool {
    let fields = claim.fields();
    match fields.only(b"cache-status") {
        Some(value) => value.contains(&b','),
        None => fields.contains(b"cache-status"),
    }
}

// Tells an object responses, with the first rules that they break.
fn tell_reaches<T: Teller>(name: &'static str, reaches: &[Reach], teller: &mut T) {
    teller.begin_list(name);
    for reach in reaches {
        teller.begin_item();
        teller.fact("position", reach.position);
        tell_broken(reach.breaks, teller);
        teller.end();
    }
    teller.end();
}

// Tells an object the records of responses.
fn tell_ends<T: Teller>(name: &'static str, ends: &[&End], claim: &ReplyClaim<'_>, teller: &mut T) {
    teller.begin_list(name);
    for end in ends {
        teller.begin_item();
        end.tell_source(claim, teller);
        teller.end();
    }
    teller.end();
}

// Tells an object the responses that the reply may carry, and their records.
fn tell_responses<T: Teller>(known: &Explanation<'_>, teller: &mut T) {
    if teller.is_text() {
        return;
    }
    let (claim, ends) = (&known.claim, &known.ends);
    tell_reaches("responses", known.reaches.named.as_slice(), teller);
    teller.fact("more_responses", known.reaches.more);
    tell_reaches("before", known.before.named.as_slice(), teller);
    tell_ends("sources", ends.sources.as_slice(), claim, teller);
    tell_ends("unstored", ends.unstored.named.as_slice(), claim, teller);
    if let Some(carried) = ends.carried {
        teller.begin("carried");
        carried.tell_source(claim, teller);
        teller.end();
    }
}
