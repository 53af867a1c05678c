//! What is known of one reply, right or wrong.

ghost use Rattle.std.specs.Prelude.{◌≡◌, List, None, map, option_copied, true, is_some, nat_lt, unwrap_or, IfOk, IfSome, OnOk, if◌then◌else◌};
ghost use Rattle.hc_head.specs.declared.head.Target.{Target};
ghost use Rattle.hc_transcript.specs.History.{exchange_of};
ghost use Rattle.hc_transcript.specs.Items.{Item};
ghost use Rattle.hc_history.specs.Right.{IsFinding};
ghost use Rattle.hc_history.specs.Seen.{IsSeenAs};
ghost use Rattle.hc_audit.specs.Hearing.{IsReplyBehind};
ghost use Rattle.hc_use.specs.Stale.{settings_with};
ghost use Rattle.hc_why.specs.Demanding.{has_own_answer, is_given_of, is_own, source_among, stands_for};
ghost use Rattle.hc_why.specs.Due.{name_of_end, none_told, place_among, place_of_end, told_by_all, told_of};
ghost use Rattle.hc_why.specs.Explaining.{AreFieldsOf, Explains, IsFoundWith, Leaves, Names, TellsValidator, TellsWindow, carries_answer, judged_of, named_since, names_one, stale_told, way_by, way_name};
ghost use Rattle.hc_why.specs.Listing.{Lists};
ghost use Rattle.hc_past.specs.Naming.{setting_by, shortfall_in};
ghost use Rattle.hc_past.specs.Remembered.{IsPastOf, end_seen};

use crate::changes::Ends;
use hc_audit::JudgedReply;
use hc_fresh::date_stated;
use hc_gaps::{Differences, PERMITTED_PART, compare};
use hc_history::{Candidate, Finding, Mark, Reason, ReplyClaim, is_judged_collapsed};
use hc_index::Index;
use hc_past::{
    End, Nearest, Past, Reaches, Shortfall, Why, fields_of, is_of_part, named, names_response,
    setting_of,
};
use hc_transcript::ToldCause;
use hc_use::{Demand, Rule, Setting, StaleUse, stale_use};
use std::alloc::{AllocError, Global};

/// The way that a reply went, by the mark by which it is judged.
#[derive(Clone, Copy, PartialEq, Eq)]
pub enum Way {
    /// It is a hit.
    Hit,
    /// It went forward by itself.
    Forwarded,
    /// It waited for another request's forward.
    Collapsed,
    /// It doesn't say.
    Unmarked,
}

impl Way {
    /// The word for it.
    pub fn name(&self) -> &'static str
        ensures { result.now ≡ way_name self.now }
    {
        match self {
            Way::Hit => "hit",
            Way::Forwarded => "forwarded",
            Way::Collapsed => "collapsed",
            Way::Unmarked => "unmarked",
        }
    }
}

/// What is known of one reply, and of the records that are named with it.
pub struct Explanation<'a> {
    pub(crate) alloc: Global,
    /// The position of its record.
    pub position: u64,
    /// What it says, and what was asked.
    pub claim: ReplyClaim<'a>,
    /// The way that it went.
    pub way: Way,
    /// That it is right, or why it is wrong.
    pub finding: Finding,
    /// What would be found with the setting by which the response that is named may be used, where there is one.
    pub with_setting: Option<Finding>,
    /// How stale the response is that is named, and what permits to give it, where it is a hit that may give what is stale.
    pub stale: Option<StaleUse>,
    /// What is wrong, if something is.
    pub why: Option<Why>,
    /// The response that is named, if one is.
    pub nearest: Option<Nearest<'a>>,
    /// What is asked of the reply, where no RFC does, and what was done is permitted.
    pub(crate) permitted: Option<Demand>,
    /// The fields in which the reply differs from it, where it may not be given, and the reply gives it.
    pub came: Option<Differences>,
    /// The responses that it may carry, but for those before its request where it was collapsed.
    pub reaches: Reaches,
    /// Those before its request, where it was collapsed.
    pub before: Reaches,
    /// The ends of forwards that are told of.
    pub ends: Ends<'a>,
    /// What came before the reply.
    pub(crate) past: &'a Past,
}

impl Drop for Explanation<'_> {
    fn drop(self) {
        let Explanation {
            alloc: _,
            position: _,
            claim,
            way: _,
            finding: _,
            with_setting: _,
            stale: _,
            why: _,
            nearest,
            permitted: _,
            came,
            reaches,
            before,
            ends,
            past: _,
        } = self;
        drop(claim);
        drop(nearest);
        drop(came);
        drop(reaches);
        drop(before);
        drop(ends);
    }
}

/// The way of a reply of that mark.
pub(crate) fn way_of(claim: &ReplyClaim<'_>, mark: Mark) -> Way
    ensures { result ≡ way_by claim.now.format mark }
{
    match mark {
        Mark::Hit { .. } => Way::Hit,
        Mark::Forwarded { collapsed } if is_judged_collapsed(claim, collapsed) => Way::Collapsed,
        Mark::Forwarded { .. } => Way::Forwarded,
        Mark::Both | Mark::Unmarked => Way::Unmarked,
    }
}

/// What an audit would find of a reply with that setting.
pub(crate) fn found_with<I: Index>(
    alloc: Global,
    judged: &JudgedReply<'_, I>,
    setting: Setting,
) -> Result<Finding, AllocError>
    ensures { (h : List Item) → IsSeenAs judged.now.format (I.seen judged.now.index.now) h
        → IfOk result (IsFinding judged.now.format (settings_with setting judged.now.settings.now)
        (exchange_of judged.now.exchange h) judged.now.moment judged.now.reply h) }
{
    let mut settings = judged.settings.copy(alloc)?;
    setting.allow(&mut settings);
    judged.found_with(&settings)
}

// What is asked of a reply that is a part, or says that there is none, where it would be right in an audit that allows ranges.
fn permitted_part<I: Index>(
    alloc: Global,
    judged: &JudgedReply<'_, I>,
) -> Result<Option<Demand>, AllocError> {
    let reply = judged.reply.reply();
    if !is_of_part(reply.head.status) || judged.settings.allowed.ranges {
        return Ok(None);
    }
    let mut settings = judged.settings.copy(alloc)?;
    Setting::Ranges.allow(&mut settings);
    if gets_further(judged.finding, judged.found_with(&settings)?) {
        Ok(Some(PERMITTED_PART))
    } else {
        Ok(None)
    }
}

// Whether a reply of the one finding, which is wrong, keeps the rule that it breaks with the other one.
fn gets_further(finding: Finding, other: Finding) -> bool {
    match (finding, other) {
        (Finding::Wrong(_), Finding::Right) => true,
        (Finding::Wrong(reason), Finding::Wrong(other)) => reason.number() < other.number(),
        (Finding::Right, _) => false,
    }
}

// What an audit would find of a reply with the setting by which the response that is named may be used, if there is one.
fn found_with_setting<I: Index>(
    alloc: Global,
    judged: &JudgedReply<'_, I>,
    nearest: Option<&Nearest<'_>>,
) -> Result<Option<Finding>, AllocError>
    ensures { (h : List Item) → IsSeenAs judged.now.format (I.seen judged.now.index.now) h
        → IfOk result (IsFoundWith (judged_of judged.now) h (setting_by (shortfall_in (option_copied nearest.entry)))) }
{
    match setting_of(nearest) {
        Some(setting) => Ok(Some(found_with(alloc, judged, setting)?)),
        None => Ok(None),
    }
}

// The position after which the response is named of a reply that went so: that of its request, where it was collapsed.
fn named_since(way: Way, claim: &ReplyClaim<'_>) -> u64
    ensures { result ≡ named_since way claim.now }
{
    match way {
        Way::Collapsed => claim.since,
        Way::Hit | Way::Forwarded | Way::Unmarked => 0,
    }
}

// That candidate, if one is named of a reply of which that is found.
fn of_finding(finding: Finding, candidate: Option<Candidate>) -> Option<Candidate>
    ensures { result ≡ (if names_one finding then candidate else None) }
{
    match finding {
        Finding::Wrong(reason) if !names_response(reason) => None,
        _ => candidate,
    }
}

// Lists the responses that a reply may carry: those after a position, the one that is named first, and those up to it.
fn list(
    after: &mut Reaches,
    before: &mut Reaches,
    candidates: &[Candidate],
    named: Option<Candidate>,
    bound: u64,
) -> Result<(), AllocError> {
    if let Some(named) = &named {
        after.push(named)?;
    }
    for candidate in candidates {
        if candidate.position <= bound {
            before.push(candidate)?;
        } else if named != Some(*candidate) {
            after.push(candidate)?;
        }
    }
    Ok(())
}

impl<'a> Explanation<'a> {
    /// What is known of that reply after the records before it. None where no exchange of its number is open.
    pub fn read<I: Index>(
        alloc: Global,
        judged: &JudgedReply<'a, I>,
        past: &'a Past,
    ) -> Result<Option<Self>, AllocError>
        ensures is { (h : List Item) → IsReplyBehind I.seen h judged.now → IfOk result (λ found. IfSome found (Explains (judged_of judged.now) h)) }
        ensures there { (h : List Item) → IsReplyBehind I.seen h judged.now → IfOk result (λ found. is_some found ≡ true) }
        ensures past { IfOk result (λ found. IfSome found (λ explanation. explanation.past.now ≡ past.now)) }
        // What it tells of the window is so, where all is remembered that the items before the reply have for its path.
        ensures told { (h : List Item) (target : Target) → IsReplyBehind I.seen h judged.now → IsPastOf target h past.now
            → IfOk result (λ found. IfSome found (λ explanation. explanation.claim.target.path ≡ target.path → TellsWindow h explanation)) }
        ensures validator { (h : List Item) (target : Target) → IsReplyBehind I.seen h judged.now → IsPastOf target h past.now
            → IfOk result (λ found. IfSome found (λ explanation. explanation.claim.target.path ≡ target.path → TellsValidator explanation)) }
    {
        let Some(claim) = judged.claim() else {
            return Ok(None);
        };
        let permitted = permitted_part(alloc, judged)?;
        let way = way_of(&claim, judged.mark);
        let candidates = judged.candidates()?;
        let bound = named_since(way, &claim);
        let candidate = named(judged.index, &claim, candidates.as_slice(), bound);
        let of_it = of_finding(judged.finding, candidate);
        let nearest = Nearest::read(alloc, judged.index, &claim, of_it)?;
        let with_setting = found_with_setting(alloc, judged, nearest.as_ref())?;
        let mut explanation = Explanation {
            alloc,
            position: judged.position,
            claim,
            way,
            finding: judged.finding,
            with_setting,
            stale: None,
            why: None,
            nearest,
            permitted,
            came: None,
            reaches: Reaches::new(alloc),
            before: Reaches::new(alloc),
            ends: Ends::none(alloc),
            past,
        };
        explanation.fill(candidates.as_slice(), candidate, bound)?;
        Ok(Some(explanation))
    }

    // Takes in what the records before it tell.
    fn fill(
        &mut self,
        candidates: &[Candidate],
        named: Option<Candidate>,
        bound: u64,
    ) -> Result<(), AllocError>
        ensures leaves { OnOk result (Leaves self.old self.new) }
        ensures named { OnOk result (self.new.nearest ≡ (if carries_answer self.new then None else self.old.nearest)) }
        ensures with_setting { OnOk result (self.new.with_setting ≡ (if carries_answer self.new then None else self.old.with_setting)) }
        ensures stale { OnOk result (self.new.stale ≡ stale_told self.new.way self.new.claim self.new.nearest) }
        ensures came { OnOk result (AreFieldsOf self.new.claim self.new.nearest self.new.came) }
        ensures lists { OnOk result (Lists self.new.claim self.old.nearest self.new.ends) }
        ensures told { OnOk result (told_of self.new.ends ≡ told_by_all self.new.claim none_told (map end_seen self.new.past.now.ends.items)) }
        ensures validator { OnOk result (IfSome self.new.nearest (λ nearest. place_of_end (option_copied self.new.ends.validator)
            ≡ place_among self.new.claim.target nearest.state.now.validated_at (map end_seen self.new.past.now.ends.items))) }
    {
        list(
            &mut self.reaches,
            &mut self.before,
            candidates,
            named,
            bound,
        )?;
        self.fill_why()?;
        self.ends = Ends::read(self)?;
        self.name_none();
        self.fill_permitted()?;
        self.stale = self.stale_of();
        self.came = self.came_of()?;
        Ok(())
    }

    // Names no response where it carries what came in its window.
    fn name_none(&mut self)
        ensures leaves { Leaves self.old self.new }
        ensures ends { self.new.ends ≡ self.old.ends }
        ensures named { self.new.nearest ≡ (if carries_answer self.old then None else self.old.nearest) }
        ensures with_setting { self.new.with_setting ≡ (if carries_answer self.old then None else self.old.with_setting) }
    {
        if self.carries_answer() {
            self.nearest = None;
            self.with_setting = None;
        }
    }

    // Whether it is right, went forward, and carries what came in its window.
    fn carries_answer(&self) -> bool
        ensures { result ≡ carries_answer self.now }
    {
        match (self.finding, self.way) {
            (Finding::Right, Way::Forwarded) => self.ends.carried.is_some(),
            _ => false,
        }
    }

    // Takes in what is asked where what was done is permitted.
    fn fill_permitted(&mut self) -> Result<(), AllocError>
        ensures names { OnOk result (Names self.old self.new) }
        ensures ends { OnOk result (self.new.ends ≡ self.old.ends) }
    {
        let permitted = self.permitted_change()?.or(self.permitted_selection()?);
        self.permitted = permitted.or(self.permitted);
        Ok(())
    }

    // The fields in which the reply differs from the response that is named, where it gives this, which it may not, and all of
    // this is known.
    fn came_of(&self) -> Result<Option<Differences>, AllocError>
        ensures { IfOk result (AreFieldsOf self.now.claim self.now.nearest) }
    {
        let Some(nearest) = &self.nearest else {
            return Ok(None);
        };
        let is_due = matches!(
            &nearest.shortfall,
            Some(Shortfall::Valid | Shortfall::Lifetime(_) | Shortfall::Use(_))
        );
        if !is_due || !nearest.is_whole() || self.given(nearest).is_none() {
            return Ok(None);
        }
        Ok(Some(compare(self.alloc, &self.claim, nearest.state)?))
    }

    // How stale the response is that is named, and what permits to give it, where the reply is a hit, and it keeps the rules
    // on what stale responses may be given.
    fn stale_of(&self) -> Option<StaleUse>
        ensures { result ≡ stale_told self.now.way self.now.claim self.now.nearest }
    {
        let nearest = self.nearest.as_ref()?;
        match nearest.breaks() {
            None | Some(Rule::Body | Rule::Fields | Rule::Age | Rule::Ttl)
                if self.way == Way::Hit => stale_use(&self.claim, nearest.state),
            _ => None,
        }
    }

    // Takes in why it is wrong, if it is.
    fn fill_why(&mut self) -> Result<(), AllocError>
        ensures { OnOk result (Names self.old self.new) }
    {
        let Finding::Wrong(reason) = self.finding else {
            return Ok(());
        };
        self.why = Some(Why::read(self.alloc, &self.claim, reason, self.past)?);
        Ok(())
    }

    /// The record of the response at that position, if it is named.
    pub fn source(&self, position: u64) -> Option<&'a End>
        ensures { option_copied result ≡ source_among position self.now.ends.sources.items }
    {
        'sources: for end in self.ends.sources.iter() {
            if end.named.position == position {
                return Some(*end);
            }
        }
        None
    }

    /// The moment that the Date of that response shows, where that isn't the one at which it came.
    pub fn own_date(&self, nearest: &Nearest<'_>) -> Option<u64> {
        let times = &nearest.state.times;
        let (date, came) = if nearest.is_whole() {
            (times.date, times.response_time)
        } else {
            let source = self.source(nearest.position)?;
            (date_stated(fields_of(Some(source))?)?, source.named.moment)
        };
        if date == came { None } else { Some(date) }
    }

    /// Whether a 304 after the request validated that response.
    pub fn was_validated(&self, nearest: &Nearest<'_>) -> bool
        ensures { result ≡ nat_lt self.now.claim.since (unwrap_or nearest.now.state.now.validated_at 0) }
    {
        self.claim.since < nearest.state.validated_at.unwrap_or(0)
    }

    /// The record of that response, if the reply has its status and its body.
    pub fn given(&self, nearest: &Nearest<'_>) -> Option<&'a End>
        ensures { is_some (name_of_end (option_copied result))
            ≡ is_given_of self.now.claim (source_among nearest.now.position self.now.ends.sources.items) }
    {
        let source = self.source(nearest.position)?;
        if source.is_given(&self.claim) {
            Some(source)
        } else {
            None
        }
    }

    /// Whether a reply that went forward is to be that stored response, or gives it.
    pub fn stands_for(&self, nearest: &Nearest<'_>) -> bool
        ensures { result ≡ stands_for self.now nearest.now }
    {
        self.was_validated(nearest) || self.given(nearest).is_some()
    }

    /// The answer to a forward of its own that a wrong hit carries as a whole, where it is known whose that was, and nothing came
    /// before its request that it might have come from.
    pub fn own_answer(&self) -> Option<&'a End>
        ensures { option_copied result ≡ (if has_own_answer self.now then option_copied self.now.ends.carried else None) }
    {
        let carried = self.ends.carried?;
        let is_wrong_hit = matches!(self.way, Way::Hit)
            && self.why.is_some()
            && !self.ends.is_given_before;
        if is_wrong_hit && self.is_own(carried) && carried.is_given(&self.claim) {
            Some(carried)
        } else {
            None
        }
    }

    // Whether its forward is known to have been made for the request, or no other exchange of the target has been open since.
    fn is_own(&self, end: &End) -> bool
        ensures { result ≡ is_own self.now end.now }
    {
        let is_told = match end.told_cause(&self.claim) {
            ToldCause::Exchange(number) => number == self.claim.exchange,
            ToldCause::NoExchange | ToldCause::Untold => false,
        };
        is_told || self.past.is_alone(self.claim.since)
    }
}
