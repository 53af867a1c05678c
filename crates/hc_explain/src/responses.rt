//! What is told of the response that a reply carries, or that it is to carry: the rule that it breaks, and what was due.

use crate::telling::{begin_between, say_cache_status};
use hc_history::{Reason, ReplyClaim};
use hc_past::{End, Nearest, NoMark, Shortfall, Unstored, Why, Window, tell_unstored};
use hc_shown::Teller;
use hc_use::Rule;
use hc_why::{Due, Ends, Explanation, Way};

/// What a reply has that isn't from the store.
const ANSWER: &str = "an answer of the origin to this request";

/// Tells what a right reply carries; to a text not what one without a mark may carry.
pub(crate) fn tell_right<T: Teller>(known: &Explanation<'_>, teller: &mut T) {
    if let (Way::Forwarded, Some(end)) = (known.way, known.ends.carried) {
        return say_carried(end, &known.claim, teller);
    }
    let Some(nearest) = &known.nearest else {
        return;
    };
    if known.way == Way::Unmarked && teller.is_text() {
        return;
    }
    begin_nearest(known, nearest, teller);
    if !teller.is_text() {
        tell_fall(known, nearest, teller);
    }
    teller.end();
}

/// Tells what permits to give the response that is named, where it is stale.
pub(crate) fn tell_stale<T: Teller>(known: &Explanation<'_>, teller: &mut T) {
    if let (Some(_), Some(nearest)) = (&known.stale, &known.nearest) {
        teller.begin("stale");
        teller.words("stale           ");
        known.tell_stale(nearest, teller);
        if teller.is_text() {
            tell_trouble(&known.ends, teller);
        }
        teller.words("\n");
        teller.end();
    }
}

// Begins a line about the response at that position, of which this is the record.
fn begin_place<T: Teller>(word: &str, position: u64, source: Option<&End>, teller: &mut T) {
    match source {
        Some(source) => teller.record(word, source.named),
        None => teller.count(word, position, ""),
    }
    teller.fill();
}

// Writes the line of a response that the reply carries.
fn say_carried<T: Teller>(end: &End, claim: &ReplyClaim<'_>, teller: &mut T) {
    if teller.is_text() {
        begin_place("from   ", 0, Some(end), teller);
        end.tell_source(claim, teller);
        teller.words("\n");
    }
}

// Tells what the records after the response that is named made of it.
fn tell_changes<T: Teller>(known: &Explanation<'_>, nearest: &Nearest<'_>, teller: &mut T) {
    if let Some(validator) = known.ends.validator {
        teller.begin("validator");
        teller.place(validator.named);
        teller.some_record("forward", validator.sent);
        teller.end();
        teller.record(", which the 304 ", validator.named);
        validator.say_sent(teller);
        let is_sent = validator.sent.is_some();
        teller.words(if is_sent { ", freshens" } else { " freshens" });
    }
    let date = known.own_date(nearest);
    teller.some("date", date);
    if let Some(date) = date {
        teller.words(", Date ");
        teller.moment(date);
    }
}

fn position_of(end: Option<&End>) -> Option<u64> {
    Some(end?.named.position)
}

// Tells the error and the failure of the window after which the response was given.
fn tell_trouble<T: Teller>(ends: &Ends<'_>, teller: &mut T) {
    teller.some("error", position_of(ends.error));
    if let Some(error) = ends.error {
        teller.record(", given after the error ", error.named);
        error.tell_status("error_status", ", a ", teller);
        teller.words(", which validates nothing");
    }
    teller.some("failure", position_of(ends.failure));
    if let Some(failure) = ends.failure {
        teller.record(", given after the failure ", failure.named);
        teller.words(", to which no response came");
    }
}

/// Tells an object the rule that is broken, or null.
pub(crate) fn tell_broken<T: Teller>(rule: Option<Rule>, teller: &mut T) {
    match rule {
        Some(rule) => teller.word("breaks", rule.reason().name()),
        None => teller.some("breaks", None),
    }
}

// Begins to tell of the response that is named: the line from where it came, and its object, which `tell_fall` goes on with.
fn begin_nearest<T: Teller>(known: &Explanation<'_>, nearest: &Nearest<'_>, teller: &mut T) {
    let source = known.source(nearest.position);
    begin_place("from   ", nearest.position, source, teller);
    match source {
        Some(source) if teller.is_text() => source.tell_source(&known.claim, teller),
        _ => {}
    }
    teller.begin("response");
    teller.fact("position", nearest.position);
    teller.some("validated_at", nearest.state.validated_at);
    tell_broken(nearest.breaks(), teller);
    tell_changes(known, nearest, teller);
    if !teller.is_text() || (known.stale.is_none() && known.why.is_some()) {
        tell_trouble(&known.ends, teller);
    }
    teller.words("\n");
}

// Tells in what the response that is named falls short.
fn tell_fall<T: Teller>(known: &Explanation<'_>, nearest: &Nearest<'_>, teller: &mut T) {
    match &nearest.shortfall {
        Some(shortfall) => known.tell_shortfall(nearest, shortfall, teller),
        None if teller.is_text() => {}
        None => known.tell_not_about(nearest, teller),
    }
}

fn say_reason<T: Teller>(reason: Reason, teller: &mut T) {
    teller.count("", u64::from(reason.number()), " ");
    teller.words(reason.name());
}

// Says which rule a response breaks first.
fn say_reach<T: Teller>(breaks: Option<Rule>, teller: &mut T) {
    match breaks {
        None => teller.words("passes all"),
        Some(rule) => {
            teller.words("fails ");
            say_reason(rule.reason(), teller);
        }
    }
}

// Tells the responses that the reply may carry, a line for each: it begins with the one that is named.
fn begin_sources<T: Teller>(known: &Explanation<'_>, teller: &mut T) {
    let mut breaks = None;
    if let Some(nearest) = &known.nearest {
        begin_nearest(known, nearest, teller);
        breaks = nearest.breaks();
    }
    for reach in known.reaches.named.iter().skip(1) {
        let source = known.source(reach.position);
        begin_place("other  ", reach.position, source, teller);
        teller.words(if reach.breaks == breaks {
            "would be wrong, too: "
        } else {
            "is ruled out: "
        });
        say_reach(reach.breaks, teller);
        teller.words("\n");
    }
    if known.reaches.more != 0 {
        teller.count("other           and ", known.reaches.more, " more\n");
    }
}

/// Tells why a reply is wrong: first that it is no hit, where that is known.
pub(crate) fn tell_wrong<T: Teller>(known: &Explanation<'_>, why: &Why, teller: &mut T) {
    teller.begin("why");
    if !teller.is_text() {
        teller.word("kind", why.kind(known.nearest.as_ref()));
        let mut what = teller.page();
        let near = known.ends.near.last().copied();
        why.name(known.nearest.as_ref(), near, &mut what);
        teller.said("what", what);
    }
    let own = known.own_answer();
    if let Some(end) = own {
        say_own(end, teller);
    }
    tell_why(known, why, teller);
    match (known.way, known.ends.carried, own) {
        (Way::Hit, Some(end), None) => say_own(end, teller),
        _ => {}
    }
    teller.end();
}

// Writes the line of the answer of its own window that a reply carries which is marked as a hit.
fn say_own<T: Teller>(end: &End, teller: &mut T) {
    teller.record("window          ", end.named);
    teller.words(
        " is carried: the reply is an answer of its own window, though it is marked as a hit\n",
    );
}

fn tell_why<T: Teller>(known: &Explanation<'_>, why: &Why, teller: &mut T) {
    match (why, &known.nearest) {
        (Why::NoResponse(unstored), _) => tell_no_response(known, unstored, teller),
        (Why::Response, Some(nearest)) => {
            say_validated(known, nearest, teller);
            begin_sources(known, teller);
            if let Some(shortfall) = &nearest.shortfall {
                begin_rule(shortfall.rule().reason(), teller);
            }
            end_nearest(known, nearest, teller);
        }
        (Why::NotForwarded(window), _) => tell_not_forwarded(known, window, teller),
        (Why::NotCollapsible, _) => tell_collapsing(known, teller),
        (Why::Unmarked(mark), _) => {
            teller.word("mark", mark.name());
            say_marks(known, Reason::Unmarked, unmarked(*mark), teller);
        }
        (Why::BothMarks, _) => say_marks(
            known,
            Reason::BothMarks,
            " says both hit and fwd",
            teller,
        ),
        (Why::Response, None) | (Why::Unasked, _) => {}
    }
}

// Begins the line that says why a rule doesn't hold.
fn begin_rule<T: Teller>(reason: Reason, teller: &mut T) {
    teller.count("rule ", u64::from(reason.number()), "");
    teller.fill();
}

// Ends what is told of the response that is named: in what it falls short, and what was due.
fn end_nearest<T: Teller>(known: &Explanation<'_>, nearest: &Nearest<'_>, teller: &mut T) {
    tell_fall(known, nearest, teller);
    teller.end();
    if teller.is_text() && nearest.shortfall.is_some() {
        teller.words("\n");
        say_due(known, nearest, teller);
    }
}

// The same where it is said first which rule it breaks, and not what was due.
fn end_failing<T: Teller>(known: &Explanation<'_>, nearest: &Nearest<'_>, teller: &mut T) {
    teller.count("", nearest.position, " ");
    say_reach(nearest.breaks(), teller);
    if nearest.shortfall.is_some() {
        teller.words(": ");
    }
    tell_fall(known, nearest, teller);
    teller.end();
}

// Writes the line of the 304 after the request that validated the response which is named, where the reply is judged as
// a hit all the same.
fn say_validated<T: Teller>(known: &Explanation<'_>, nearest: &Nearest<'_>, teller: &mut T) {
    let Some(validator) = known.ends.validator else {
        return;
    };
    if known.way != Way::Hit || !known.was_validated(nearest) {
        return;
    }
    begin_between("window ", known, teller);
    teller.record("", validator.named);
    teller.count(" is 304 and validates ", nearest.position, "");
    teller.words(if known.claim.is_inferred {
        "; the reply is inferred to be a hit all the same\n"
    } else {
        "; the reply's mark says a hit all the same, and as that it is judged\n"
    });
}

// Tells why nothing is stored that the reply might be, after the response that it gives, if one is recorded.
fn tell_no_response<T: Teller>(known: &Explanation<'_>, unstored: &Unstored, teller: &mut T) {
    let given = known.ends.given;
    if let Some(end) = given {
        say_carried(end, &known.claim, teller);
    }
    begin_rule(Reason::NoResponse, teller);
    unstored.tell(&known.claim.request.method, &known.ends.unstored, teller);
    teller.words("\n");
    if !unstored.is_unrecorded() {
        say_due_answer(known, "", given, teller);
    }
}

// What a Cache-Status says that is no mark.
fn unmarked(mark: NoMark) -> &'static str {
    match mark {
        NoMark::Absent => ": only an error may have no mark",
        NoMark::Partial => ": it says no forward, and a hit of status 206 counts as no mark",
        NoMark::Silent => " says neither hit nor fwd",
    }
}

fn say_marks<T: Teller>(known: &Explanation<'_>, reason: Reason, says: &str, teller: &mut T) {
    begin_rule(reason, teller);
    say_cache_status(&known.claim, teller);
    teller.words(says);
    teller.words("\n");
}

// Tells why the reply is no collapsed one.
fn tell_collapsing<T: Teller>(known: &Explanation<'_>, teller: &mut T) {
    begin_sources(known, teller);
    begin_rule(Reason::NotCollapsible, teller);
    match &known.nearest {
        Some(nearest) => end_failing(known, nearest, teller),
        None => {
            let before = "no storable response came after the request at ";
            teller.count(before, known.claim.since, "");
        }
    }
    if known.nearest.is_none() || !teller.is_text() {
        tell_unstored(": ", &known.ends.unstored, teller);
    }
    let mut is_first = true;
    for reach in known.before.named.iter() {
        teller.separator(is_first, "; before it: ", ", ");
        teller.count("", reach.position, " ");
        say_reach(reach.breaks, teller);
        is_first = false;
    }
    teller.say_more(known.before.more);
    teller.words("\n");
}

// Tells what came between request and reply, and the rule that the stored response breaks that is named, if one is.
fn tell_not_forwarded<T: Teller>(known: &Explanation<'_>, window: &Window, teller: &mut T) {
    begin_between("window ", known, teller);
    window.tell(&known.claim, &known.ends.window, teller);
    let Some(nearest) = &known.nearest else {
        teller.words("; stored: nothing\n");
        return tell_near(known, teller);
    };
    teller.words("\n");
    tell_near(known, teller);
    begin_nearest(known, nearest, teller);
    if known.stands_for(nearest) {
        return end_forwarding(known, nearest, teller);
    }
    teller.words("stored          ");
    end_failing(known, nearest, teller);
    teller.words("\n");
}

fn tell_near<T: Teller>(known: &Explanation<'_>, teller: &mut T) {
    teller.begin_list("near");
    for end in known.ends.near.named.iter() {
        teller.begin_item();
        teller.place(end.named);
        teller.record("near   ", end.named);
        teller.fill();
        let before = "agrees in path, status and body: its host is ";
        teller.octets("host", before, end.target.host.as_slice());
        teller.said_octets(", asked is ", known.claim.target.host.as_slice(), "\n");
        teller.end();
    }
    teller.end();
}

// Tells of a reply that went forward and is to be a stored response, or gives it, which rule a hit would break so.
fn end_forwarding<T: Teller>(known: &Explanation<'_>, nearest: &Nearest<'_>, teller: &mut T) {
    begin_rule(Reason::NotForwarded, teller);
    if let Some(shortfall) = &nearest.shortfall {
        teller.words("NotForwarded stands here for ");
        say_reason(shortfall.rule().reason(), teller);
        teller.words(": ");
    }
    say_standing(known, nearest, teller);
    let is_short = nearest.shortfall.is_some();
    teller.words(if is_short { ": " } else { "\n" });
    end_nearest(known, nearest, teller);
}

// Says which stored response such a reply is to be, or gives: the first where a 304 after the request validated it.
fn say_standing<T: Teller>(known: &Explanation<'_>, nearest: &Nearest<'_>, teller: &mut T) {
    let was_validated = known.was_validated(nearest);
    teller.words(if known.claim.is_inferred {
        "it went forward, as is inferred, and "
    } else if was_validated {
        "it went forward, as it says, and "
    } else {
        "it says that it went forward, and "
    });
    match nearest.state.validated_at {
        Some(at) if was_validated => {
            teller.count("the origin answered by the 304 ", at, ", so due is ");
            teller.count("", nearest.position, " with the fields of ");
            teller.count("", at, "");
        }
        _ => {
            let after = ", which is stored, and nothing that came between request and reply";
            teller.count("gives ", nearest.position, after);
        }
    }
}

// Writes the line of what was due in place of the response that is named, where that may not be given. Where it isn't
// selected, a 304 which isn't about it is no such answer.
fn say_due<T: Teller>(known: &Explanation<'_>, nearest: &Nearest<'_>, teller: &mut T) {
    match &nearest.shortfall {
        Some(Shortfall::Selected(_)) => {
            let is_none = known.ends.not_about.listed.is_empty();
            let besides = if is_none { "" } else { " that is no 304" };
            say_due_answer(known, besides, known.given(nearest), teller);
        }
        Some(Shortfall::Valid | Shortfall::Lifetime(_) | Shortfall::Use(_)) => {
            say_due_unused(known, nearest, teller);
        }
        _ => {}
    }
}

// Begins the line of what was due by what came to the request, and returns whether that is an answer of the origin.
fn begin_due<T: Teller>(known: &Explanation<'_>, teller: &mut T) -> bool {
    teller.words("due             ");
    match known.ends.due {
        Due::Error(end) => {
            teller.record("the error ", end.named);
            end.tell_status("", ", a ", teller);
            false
        }
        Due::Failure(end) => {
            let before = "an error of the cache's own, as 504, since the forward failed: ";
            teller.record(before, end.named);
            false
        }
        Due::Answer(_) => {
            teller.words(ANSWER);
            true
        }
    }
}

// Writes the line of what was due in place of the store, and what came in its place, if it is known that the reply gives this.
fn say_due_answer<T: Teller>(
    known: &Explanation<'_>,
    besides: &str,
    given: Option<&End>,
    teller: &mut T,
) {
    if begin_due(known, teller) {
        teller.words(besides);
    }
    if let Some(end) = given {
        teller.record("; came ", end.named);
        end.say_sent(teller);
    }
    teller.words("\n");
}

// Writes the line of what was due in place of a response that may not be used: this one, too, once a 304 has validated
// it, where it has something by which one may.
fn say_due_unused<T: Teller>(known: &Explanation<'_>, nearest: &Nearest<'_>, teller: &mut T) {
    if begin_due(known, teller) && nearest.has_validator() {
        teller.count(", or ", nearest.position, " once a 304 has validated it");
        if let Some(invalidator) = known.ends.invalidators.last() {
            teller.count(" after ", invalidator.named.position, "");
        }
    }
    if let Some(end) = known.given(nearest) {
        teller.record("; came ", end.named);
        say_differences(known, teller);
    }
    teller.words("\n");
}

// Says in which fields the reply differs from the response that it gives, if that is known.
fn say_differences<T: Teller>(known: &Explanation<'_>, teller: &mut T) {
    let Some(differences) = &known.came else {
        return;
    };
    if differences.is_nothing() {
        return teller.words(" as it was stored");
    }
    let mut named = teller.page();
    differences.name(&mut named);
    teller.words(", but for fields: ");
    teller.said("", named);
}
