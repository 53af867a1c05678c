//! The ends of forwards that are told of with a reply: what they made of the response that is named, and what was due in its
//! place.

ghost use Rattle.std.specs.Prelude.{◌≡◌, ◌&&◌, IfOk, IfSome, OnOk, Option, Some, map, option_copied, true, if◌then◌else◌};
ghost use Rattle.hc_head.specs.Targets.{same_target};
ghost use Rattle.hc_history.specs.Claims.{Claim};
ghost use Rattle.hc_why.specs.Demanding.{are_safe, has_unselected, is_by_safe};
ghost use Rattle.hc_why.specs.Due.{due_at, due_by, is_after_error, name_of_end, none_told, place_among, place_of_end, told_after, told_by, told_by_all, told_of, validated_in};
ghost use Rattle.hc_why.specs.Listing.{AreNotAbout, IsNotAbout, IsNotAboutOf, Lists, is_of, is_since_it, is_unselected};
ghost use Rattle.hc_past.specs.Remembered.{end_seen};
ghost use Rattle.hc_past.specs.declared.shortfalls.Nearest.{Nearest};

use crate::explaining::Explanation;
use hc_fields::{END_OF_MOMENTS, Fields, is_among};
use hc_gaps::{Against, agree, first_against};
use hc_head::{StatusCode, Target, is_error_status};
use hc_history::{ReplyClaim, passed};
use hc_past::{End, Heads, Nearest, Why, copied_request};
use hc_rules::selects;
use hc_shown::Teller;
use hc_update::{Stored, invalidates};
use hc_use::{Demand, Newest, Rule};
use std::alloc::{AllocError, Global};

/// What an unsafe method invalidated isn't given.
pub(crate) const INVALIDATED: Demand = Demand {
    sections: "RFC 9111 section 4.4",
    words: "what an unsafe method invalidated MUST NOT be given before it is validated",
};

/// The methods that are registered as safe, and aren't taken so here.
const SAFE: [&[u8]; 5] = [b"PRI", b"PROPFIND", b"QUERY", b"REPORT", b"SEARCH"];

/// What a safe method invalidates as well.
pub(crate) const INVALIDATED_BY_SAFE: Demand = Demand {
    sections: "no RFC (RFC 9111 section 4.4 asks it of unsafe methods, and this one is registered as safe), but this auditor's stricter rule",
    words: "what a method but GET, HEAD, OPTIONS and TRACE invalidated isn't given before it is validated",
};

/// HEAD changes nothing that is stored.
const FRESHENED_BY_HEAD: Demand = Demand {
    sections: "no RFC (RFC 9111 section 4.3.5 asks that a 200 to HEAD updates what is stored, unless it tells another length), but this auditor's stricter rule",
    words: "a reply has the stored response's fields as the latest 304 about it left them, whatever a HEAD brought",
};

/// A 304 of the response's target that isn't about it.
#[derive(Clone, Copy)]
pub struct NotAbout<'a> {
    // The end of its forward.
    end: &'a End,
    // The first thing that stands against it.
    against: Against,
    // Whether no RFC says so.
    is_stricter: bool,
    // Whether its validator is that of the response.
    agrees: bool,
}

/// The 304s of the response's target that aren't about it.
pub struct NotAboutIt<'a> {
    /// The newest of them.
    pub listed: Newest<NotAbout<'a>>,
    // The latest of which no RFC says so.
    stricter: Option<NotAbout<'a>>,
    // The latest that Vary alone keeps from being about it.
    unselected: Option<NotAbout<'a>>,
}

impl Drop for NotAboutIt<'_> {
    fn drop(self) {
        let NotAboutIt {
            listed,
            stricter: _,
            unselected: _,
        } = self;
        drop(listed);
    }
}

/// What was due in place of a response that may not be given.
#[derive(Clone, Copy)]
pub enum Due<'a> {
    /// An answer of the origin to the request: whether what came is a 5xx all the same, which a cache may take for none.
    Answer(bool),
    /// The error by which the origin answered it last.
    Error(&'a End),
    /// An error of the cache's own, since the forward failed that was made for it last.
    Failure(&'a End),
}

/// The ends of forwards that are told of with a reply.
pub struct Ends<'a> {
    /// The responses that it may carry, as far as they are named.
    pub sources: Vec<&'a End>,
    /// Those of the target that may not be stored, where that is what is wrong.
    pub unstored: Newest<&'a End>,
    /// The latest of those that the reply gives, named or not.
    pub given: Option<&'a End>,
    /// Those in the window, where the reply went forward.
    pub window: Newest<&'a End>,
    /// Those in it of the same path under another host that the reply would carry.
    pub near: Newest<&'a End>,
    /// The latest in it that the reply carries.
    pub carried: Option<&'a End>,
    /// Whether the reply has the status and the body of a response of the target from before its request.
    pub(crate) is_given_before: bool,
    /// What was due, by the latest in the window of a forward that may have been made for the request.
    pub due: Due<'a>,
    /// The latest error of the origin in the window, to whatever request of the target.
    pub error: Option<&'a End>,
    /// The latest failure there.
    pub failure: Option<&'a End>,
    /// The 304 that freshened the response last that is named.
    pub validator: Option<&'a End>,
    /// What invalidated it since it is as it is.
    pub invalidators: Newest<&'a End>,
    /// The 304s that aren't about it: of the window, since one was about it; of an invalidated one those since; and whenever
    /// they came those that no RFC says so of.
    pub not_about: NotAboutIt<'a>,
    // The latest 200 to HEAD since which is about it.
    updated: Option<&'a End>,
}

impl Drop for Ends<'_> {
    fn drop(self) {
        let Ends {
            sources,
            unstored,
            given: _,
            window,
            near,
            carried: _,
            is_given_before: _,
            due: _,
            error: _,
            failure: _,
            validator: _,
            invalidators,
            not_about,
            updated: _,
        } = self;
        drop(sources);
        drop(unstored);
        drop(window);
        drop(near);
        drop(invalidators);
        drop(not_about);
    }
}

// The first thing that stands against that it is a 304 about the response; nothing where it is none, or is about it.
fn against<'a>(
    alloc: Global,
    nearest: &Nearest<'_>,
    end: &'a End,
) -> Result<Option<NotAbout<'a>>, AllocError>
    ensures { (claim : Claim) → is_of claim end.now ≡ true → IfOk result (λ found. IfSome found (IsNotAbout claim nearest.now)) }
{
    let Some(heads) = &end.heads else {
        return Ok(None);
    };
    let (state, forward, response) = (nearest.state, &heads.forward, &heads.response);
    if response.status != StatusCode::NOT_MODIFIED {
        return Ok(None);
    }
    let first = if end.named.position < nearest.position {
        Some(Against::Earlier)
    } else {
        first_against(alloc, state, forward, response)?
    };
    let Some(against) = first else {
        return Ok(None);
    };
    Ok(Some(NotAbout {
        end,
        against,
        is_stricter: against.is_stricter(alloc, state, forward, response)?,
        agrees: agree(state, forward, response),
    }))
}

// Whether a response tells the same by a validator as what is stored, or tells nothing by it.
fn has_no_other(name: &[u8], received: &Fields, stored: &Fields) -> bool {
    match (received.only(name), stored.only(name)) {
        (Some(received), Some(stored)) => received == stored,
        _ => !received.contains(name),
    }
}

// Whether a 200 to HEAD is about a stored response: this might have been chosen for its forward, and has the validators that it
// tells (RFC 9111 section 4.3.5). A length that it tells isn't kept of a head that was read.
fn may_update(alloc: Global, state: &Stored, heads: &Heads) -> Result<bool, AllocError> {
    let received = &heads.response.fields;
    let is_same = has_no_other(b"etag", received, &state.fields)
        && has_no_other(b"last-modified", received, &state.fields);
    if !is_same {
        return Ok(false);
    }
    selects(
        alloc,
        &state.fields,
        &state.request.fields,
        &heads.forward.fields,
    )
}

// The later one of those 304s that are looked for: that one, if it is one, or else the one before.
fn later<'a>(is_one: bool, one: NotAbout<'a>, before: Option<NotAbout<'a>>) -> Option<NotAbout<'a>>
    ensures { result ≡ (if is_one then Some one.entry else before.entry) }
{
    if is_one { Some(one) } else { before }
}

impl<'a> NotAboutIt<'a> {
    // None.
    fn none(alloc: Global) -> Self
        ensures { (claim : Claim) (nearest : Option Nearest) → AreNotAbout claim nearest result }
    {
        NotAboutIt {
            listed: Newest::new(alloc),
            stricter: None,
            unselected: None,
        }
    }

    // Adds one that is newer than all others.
    fn push(&mut self, one: NotAbout<'a>) -> Result<(), AllocError>
        ensures { (claim : Claim) (nearest : Option Nearest) → IsNotAboutOf claim nearest one.entry → AreNotAbout claim nearest self.old
            → OnOk result (AreNotAbout claim nearest self.new) }
    {
        self.stricter = later(one.is_stricter, one, self.stricter);
        self.unselected = later(one.is_unselected(), one, self.unselected);
        self.listed.push(one)
    }
}

// Whether the reply is wrong by responses that may not be stored: where it was collapsed by those in its window.
fn is_by_unstored(why: Option<Why>, is_in_window: bool) -> bool {
    match why {
        Some(Why::NoResponse(_)) => true,
        Some(Why::NotCollapsible) => is_in_window,
        _ => false,
    }
}

// Whether it is wrong by what came in its window.
fn is_by_window(why: Option<Why>) -> bool {
    matches!(why, Some(Why::NotForwarded(_)))
}

// Which is the later one of those that are looked for: that end of a forward, if it is one, or else the one before.
fn latest<'a>(is_one: bool, end: &'a End, before: Option<&'a End>) -> Option<&'a End>
    ensures { name_of_end (option_copied result) ≡ (if is_one then Some end.now.named else name_of_end (option_copied before.entry)) }
{
    if is_one { Some(end) } else { before }
}

// The end of a forward for that target at that position, if it is one of these.
fn end_at<'a>(ends: &'a [End], target: &Target, position: u64) -> Option<&'a End>
    ensures { place_of_end (option_copied result) ≡ place_among target.now (Some position) (map end_seen ends.now) }
{
    'ends: for end in ends {
        if end.named.position == position && end.is_of(target) {
            return Some(end);
        }
    }
    None
}

// What is due: what that end of a forward makes due, if it may have been made for the request, or else what was due before.
fn due_with<'a>(is_asked_for: bool, end: &'a End, before: Due<'a>) -> Due<'a>
    ensures { due_at result ≡ (if is_asked_for then due_by end.now.named end.now.status else due_at before.entry) }
{
    if !is_asked_for {
        return before;
    }
    let Some(status) = end.status else {
        return Due::Failure(end);
    };
    if is_error_status(status) {
        Due::Error(end)
    } else {
        Due::Answer(500 <= status.as_u16())
    }
}

impl Due<'_> {
    /// Whether the origin answered the request by a 5xx.
    pub(crate) fn is_after_error(&self) -> bool
        ensures { result ≡ is_after_error (due_at self.now) }
    {
        match self {
            Due::Error(_) => true,
            Due::Answer(is_error) => *is_error,
            Due::Failure(_) => false,
        }
    }
}

impl<'a> Ends<'a> {
    /// None.
    pub(crate) fn none(alloc: Global) -> Self
        ensures told { told_of result ≡ none_told }
        ensures lists { (claim : Claim) (nearest : Option Nearest) → Lists claim nearest result }
    {
        Ends {
            sources: Vec::new(alloc),
            unstored: Newest::new(alloc),
            given: None,
            window: Newest::new(alloc),
            near: Newest::new(alloc),
            carried: None,
            is_given_before: false,
            due: Due::Answer(false),
            error: None,
            failure: None,
            validator: None,
            invalidators: Newest::new(alloc),
            not_about: NotAboutIt::none(alloc),
            updated: None,
        }
    }

    /// Those that are told of with a reply of which that is known.
    pub(crate) fn read(known: &Explanation<'a>) -> Result<Self, AllocError>
        ensures told { IfOk result (λ ends. told_of ends ≡ told_by_all known.now.claim none_told (map end_seen known.now.past.now.ends.items)) }
        ensures validator { IfOk result (λ ends. place_of_end (option_copied ends.validator)
            ≡ place_among known.now.claim.target (validated_in known.now.nearest) (map end_seen known.now.past.now.ends.items)) }
        ensures lists { IfOk result (Lists known.now.claim known.now.nearest) }
    {
        let mut ends = Ends::none(known.alloc);
        ends.fill(known)?;
        ends.validator = known.validator();
        Ok(ends)
    }

    // Takes in all that are remembered.
    fn fill(&mut self, known: &Explanation<'a>) -> Result<(), AllocError>
        ensures told { OnOk result (told_of self.new ≡ told_by_all known.now.claim (told_of self.old) (map end_seen known.now.past.now.ends.items)) }
        ensures lists { Lists known.now.claim known.now.nearest self.old → OnOk result (Lists known.now.claim known.now.nearest self.new) }
    {
        let (older, newer) = known.past.ends.as_slices();
        self.take_all(known, older)?;
        self.take_all(known, newer)
    }

    // Takes in these.
    fn take_all(&mut self, known: &Explanation<'_>, ends: &'a [End]) -> Result<(), AllocError>
        ensures told { OnOk result (told_of self.new ≡ told_by_all known.now.claim (told_of self.old) (map end_seen ends.now)) }
        ensures lists { Lists known.now.claim known.now.nearest self.old → OnOk result (Lists known.now.claim known.now.nearest self.new) }
    {
        'ends: for end in ends {
            self.take(known, end)?;
        }
        Ok(())
    }

    // Takes in the next one.
    fn take(&mut self, known: &Explanation<'_>, end: &'a End) -> Result<(), AllocError>
        ensures told { OnOk result (told_of self.new ≡ told_after known.now.claim (told_of self.old) (end_seen end.now)) }
        ensures lists { Lists known.now.claim known.now.nearest self.old → OnOk result (Lists known.now.claim known.now.nearest self.new) }
    {
        if !end.is_of(known.claim.target) {
            return self.take_near(known, end);
        }
        self.take_place(&known.claim, end);
        self.take_source(known, end)?;
        self.take_wrong(known, end)?;
        self.take_change(known, end)
    }

    // Takes in one of another target, where the reply is wrong as one that went forward, and would carry it.
    fn take_near(&mut self, known: &Explanation<'_>, end: &'a End) -> Result<(), AllocError>
        ensures told { OnOk result (told_of self.new ≡ told_of self.old) }
        ensures lists { Lists known.now.claim known.now.nearest self.old → OnOk result (Lists known.now.claim known.now.nearest self.new) }
    {
        match known.why {
            Some(Why::NotForwarded(_)) if end.is_near(&known.claim) => self.near.push(end),
            _ => Ok(()),
        }
    }

    // Takes in one of the target: one of the window, or whether the reply gives one from before that.
    fn take_place(&mut self, claim: &ReplyClaim<'_>, end: &'a End)
        ensures told { same_target end.now.target claim.now.target ≡ true → told_of self.new ≡ told_after claim.now (told_of self.old) (end_seen end.now) }
        ensures lists { (nearest : Option Nearest) → Lists claim.now nearest self.old → Lists claim.now nearest self.new }
    {
        if claim.since < end.named.position {
            self.take_in_window(claim, end);
            return;
        }
        self.is_given_before = self.is_given_before || end.is_given(claim);
    }

    // Takes in one of the target in the window: what the reply carries, an error or a failure, and what is due.
    fn take_in_window(&mut self, claim: &ReplyClaim<'_>, end: &'a End)
        ensures told { told_of self.new ≡ told_by claim.now (told_of self.old) (end_seen end.now) }
        ensures lists { (nearest : Option Nearest) → Lists claim.now nearest self.old → Lists claim.now nearest self.new }
    {
        self.carried = latest(end.is_carried(claim), end, self.carried);
        self.error = latest(end.is_error(), end, self.error);
        self.failure = latest(end.status.is_none(), end, self.failure);
        self.due = due_with(end.is_asked_for(claim), end, self.due);
    }

    // Takes in the record of a response that is named.
    fn take_source(&mut self, known: &Explanation<'_>, end: &'a End) -> Result<(), AllocError>
        ensures told { OnOk result (told_of self.new ≡ told_of self.old) }
        ensures lists { Lists known.now.claim known.now.nearest self.old → OnOk result (Lists known.now.claim known.now.nearest self.new) }
    {
        if !known.reaches.names(end.named.position) {
            return Ok(());
        }
        self.sources.push(end)?;
        Ok(())
    }

    // Takes in one of the target, if the reply is wrong by it.
    fn take_wrong(&mut self, known: &Explanation<'_>, end: &'a End) -> Result<(), AllocError>
        ensures told { OnOk result (told_of self.new ≡ told_of self.old) }
        ensures lists { is_of known.now.claim end.now ≡ true → Lists known.now.claim known.now.nearest self.old → OnOk result (Lists known.now.claim known.now.nearest self.new) }
    {
        let is_in_window = known.claim.since < end.named.position;
        if is_by_unstored(known.why, is_in_window) {
            return self.take_unstored(&known.claim, end);
        }
        if !is_in_window {
            return Ok(());
        }
        if is_by_window(known.why) {
            return self.window.push(end);
        }
        Ok(())
    }

    // Takes in one of the target, if it may not be stored.
    fn take_unstored(&mut self, claim: &ReplyClaim<'_>, end: &'a End) -> Result<(), AllocError>
        ensures told { OnOk result (told_of self.new ≡ told_of self.old) }
        ensures lists { (nearest : Option Nearest) → is_of claim.now end.now ≡ true → Lists claim.now nearest self.old
            → OnOk result (Lists claim.now nearest self.new) }
    {
        let Some(_) = end.forbids else {
            return Ok(());
        };
        self.given = latest(end.is_given(claim), end, self.given);
        self.unstored.push(end)
    }

    // Takes in what one of the target made of the response that is named, or might have, since it is as it is: what freshened it;
    // what invalidated it, where no 304 before that might have helped; a 200 to HEAD that is about it; and a 304 that isn't. Such
    // a one might have been about it in the window, but for those before one that was; or, where it is invalidated, at any time.
    fn take_change(&mut self, known: &Explanation<'_>, end: &'a End) -> Result<(), AllocError>
        ensures told { OnOk result (told_of self.new ≡ told_of self.old) }
        ensures lists { is_of known.now.claim end.now ≡ true → Lists known.now.claim known.now.nearest self.old → OnOk result (Lists known.now.claim known.now.nearest self.new) }
    {
        let Some(nearest) = &known.nearest else {
            return Ok(());
        };
        let position = end.named.position;
        let validated_at = nearest.state.validated_at;
        let is_since = validated_at.unwrap_or(nearest.position) < position;
        self.take_since(known.alloc, nearest, end, is_since)?;
        let is_awaited = if nearest.breaks() == Some(Rule::Valid) {
            is_since
        } else {
            known.claim.since < position && (is_since || validated_at.is_none())
        };
        match against(known.alloc, nearest, end)? {
            Some(not_about) if is_awaited || (not_about.is_stricter && is_since) => {
                self.not_about.push(not_about)
            }
            _ => Ok(()),
        }
    }

    // Takes in what invalidated the response that is named since it is as it is, or a 200 to HEAD that is about it.
    fn take_since(
        &mut self,
        alloc: Global,
        nearest: &Nearest<'_>,
        end: &'a End,
        is_since: bool,
    ) -> Result<(), AllocError>
        ensures told { OnOk result (told_of self.new ≡ told_of self.old) }
        ensures lists { (claim : Claim) → is_of claim end.now ≡ true → is_since ≡ is_since_it nearest.now end.now
            → Lists claim (Some nearest.now) self.old → OnOk result (Lists claim (Some nearest.now) self.new) }
    {
        if !is_since {
            return Ok(());
        }
        let Some(status) = end.status else {
            return Ok(());
        };
        if nearest.breaks() == Some(Rule::Valid) && invalidates(&end.method, status) {
            self.not_about = NotAboutIt::none(alloc);
            return self.invalidators.push(end);
        }
        match &end.heads {
            Some(heads) if end.is_ok_to_head() && may_update(alloc, nearest.state, heads)? => {
                self.updated = Some(end);
            }
            _ => {}
        }
        Ok(())
    }

    /// Whether what invalidated the response are methods that are registered as safe.
    pub(crate) fn is_by_safe(&self) -> bool
        ensures { result ≡ is_by_safe self.now }
    {
        let invalidators = &self.invalidators;
        !invalidators.is_empty()
            && invalidators.older == 0
            && are_safe(invalidators.named.as_slice())
    }

    /// Whether a 304 isn't about the response by its Vary alone.
    pub(crate) fn has_unselected(&self) -> bool
        ensures { result ≡ has_unselected self.now }
    {
        self.not_about.unselected.is_some()
    }
}

// Whether those answer methods that are registered as safe.
fn are_safe(ends: &[&End]) -> bool
    ensures { result ≡ are_safe ends.now }
{
    ends.iter()
        .all(|end| is_among(&SAFE, end.method.as_slice()))
}

impl NotAbout<'_> {
    // Whether Vary alone keeps it from being about the response.
    fn is_unselected(&self) -> bool
        ensures { result ≡ is_unselected self.now }
    {
        self.agrees && matches!(self.against, Against::Unselected)
    }
}

// A stored response in memory of its own.
fn copied(alloc: Global, state: &Stored) -> Result<Stored, AllocError> {
    Ok(Stored {
        request: copied_request(alloc, &state.request)?,
        status: state.status,
        fields: state.fields.copy(alloc)?,
        body: state.body.share()?,
        times: state.times,
        invalid: state.invalid,
        validated_at: state.validated_at,
    })
}

impl<'a> Explanation<'a> {
    // The end of a forward by which the response that is named was validated last.
    fn validator(&self) -> Option<&'a End>
        ensures { place_of_end (option_copied result)
            ≡ place_among self.now.claim.target (validated_in self.now.nearest) (map end_seen self.now.past.now.ends.items) }
    {
        let Some(nearest) = &self.nearest else {
            return None;
        };
        let Some(position) = nearest.state.validated_at else {
            return None;
        };
        let (older, newer) = self.past.ends.as_slices();
        match end_at(older, self.claim.target, position) {
            Some(end) => Some(end),
            None => end_at(newer, self.claim.target, position),
        }
    }
}

impl Explanation<'_> {
    // Whether the response that is named would keep the rule that it breaks, and the reply have its fields, had that answer
    // freshened it; a 200 to HEAD validates nothing, and with it all rules are to be kept.
    fn helps(&self, end: &End) -> Result<bool, AllocError> {
        let (Some(nearest), Some(heads), Some(sent)) = (&self.nearest, &end.heads, end.sent) else {
            return Ok(false);
        };
        let Some(rule) = nearest.breaks() else {
            return Ok(false);
        };
        let (sent_at, came_at) = (sent.moment, end.named.moment);
        if END_OF_MOMENTS <= came_at {
            return Ok(false);
        }
        let mut state = copied(self.alloc, nearest.state)?;
        state.freshen(&heads.response, sent_at, came_at, end.named.position)?;
        if end.is_ok_to_head() {
            state.invalid = nearest.state.invalid;
            state.validated_at = nearest.state.validated_at;
        }
        let least = if end.is_ok_to_head() {
            Rule::Ttl
        } else {
            Rule::Fields
        };
        let wanted = rule.reason().number().max(least.reason().number());
        let claim = &self.claim;
        Ok(wanted <= passed(self.alloc, claim, claim.target, &state)?)
    }

    /// What is asked where the response that is named would keep the rule that it breaks, had an answer freshened it of which RFCs
    /// permit that: the latest 304 of which none says that it isn't about it, or a 200 to HEAD.
    pub(crate) fn permitted_change(&self) -> Result<Option<Demand>, AllocError> {
        match self.ends.not_about.stricter {
            Some(latest) if self.helps(latest.end)? => {
                return Ok(Some(latest.against.stricter_demand()));
            }
            _ => {}
        }
        match self.ends.updated {
            Some(end) if self.helps(end)? => Ok(Some(FRESHENED_BY_HEAD)),
            _ => Ok(None),
        }
    }
}

// Tells a response that invalidated another one.
fn tell_invalidator<T: Teller>(end: &End, teller: &mut T) {
    teller.place(end.named);
    teller.some_record("forward", end.sent);
    teller.record("", end.named);
    end.tell_status("status", ", a ", teller);
    teller.method("method", " to the ", &end.method, " ");
    if let Some(sent) = end.sent {
        teller.record("", sent);
        teller.words(" ");
    }
    teller.words("of the same target, invalidated it");
}

impl Ends<'_> {
    /// Tells what invalidated the response.
    pub(crate) fn tell_invalidators<T: Teller>(&self, teller: &mut T) {
        teller.begin_list("invalidated_by");
        for (place, end) in self.invalidators.named.iter().enumerate() {
            teller.separator(place == 0, "", "; ");
            teller.begin_item();
            tell_invalidator(end, teller);
            teller.end();
        }
        teller.end();
        teller.say_more(self.invalidators.older);
    }
}

impl Explanation<'_> {
    /// Tells each 304 that isn't about that response, which came since it was invalidated or after the request.
    pub fn tell_not_about<T: Teller>(&self, nearest: &Nearest<'_>, teller: &mut T) {
        teller.begin_list("not_modified");
        for not_about in self.ends.not_about.listed.named.iter() {
            teller.begin_item();
            self.tell_one_not_about(nearest, not_about, teller);
            teller.end();
        }
        teller.end();
        teller.more("more_not_modified", self.ends.not_about.listed.older);
    }

    // Tells that a 304 doesn't validate the response, and why (RFC 9111 section 4.3.4).
    fn tell_one_not_about<T: Teller>(
        &self,
        nearest: &Nearest<'_>,
        not_about: &NotAbout<'_>,
        teller: &mut T,
    ) {
        let (end, against) = (not_about.end, not_about.against);
        let Some(heads) = &end.heads else {
            return;
        };
        teller.place(end.named);
        teller.some_record("forward", end.sent);
        teller.record("; the 304 ", end.named);
        end.say_sent(teller);
        let is_invalid = nearest.breaks() == Some(Rule::Valid);
        let is_before = end.named.position < self.claim.since;
        teller.words(if self.was_validated(nearest) || is_invalid || is_before {
            ", came since"
        } else {
            ", came after the request"
        });
        teller.count(", but doesn't validate ", nearest.position, "");
        if not_about.is_stricter {
            teller.words(" (this auditor's stricter rule): ");
            teller.flag("stricter", true);
        } else if matches!(against, Against::Unselected) {
            teller.word("against", against.name());
            return teller.words(": Vary doesn't select its forward either");
        } else {
            teller.words(" (RFC 9111 section 4.3.4): ");
        }
        let (forwarded, received) = (&heads.forward.fields, &heads.response.fields);
        against.tell(&nearest.state.fields, forwarded, received, teller);
    }
}
