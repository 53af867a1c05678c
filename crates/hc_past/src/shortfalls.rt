//! In what a stored response falls short of what a reply carries: one thing for each rule; and which response is named.

ghost use Rattle.std.specs.Prelude.{◌≡◌, ◌||◌, not, true, List, find, nat_lt, None, IfOk, IfSome, IsSome};
ghost use Rattle.std.specs.Option.{option_copied, option_map};
ghost use Rattle.hc_transcript.specs.Items.{Item};
ghost use Rattle.hc_transcript.specs.declared.format.Format.{Format};
ghost use Rattle.hc_history.specs.Candidates.{AreCandidates, IsCandidate};
ghost use Rattle.hc_history.specs.Seen.{IsSeenAs};
ghost use Rattle.hc_rules.specs.Validators.{has_validator};
ghost use Rattle.hc_past.specs.Naming.{GetsFurthest, IsOneOf, IsPreferred, IsShortfall, IsThatOf, first_after, first_with_body, has_all, has_its_body, rule_of, setting_by, shortfall_in};

use hc_gaps::{ContentGap, Differences, Selection, compare, content_gap, has_body, unmet_members};
use hc_history::{Candidate, ReplyClaim};
use hc_index::Index;
use hc_rules::{last_modified, tag};
use hc_shown::Page;
use hc_update::Stored;
use hc_use::{
    AgeGap, NAMED, Rule, Setting, TtlGap, Usage, age_gap, rule_behind, ttl_gap, usage_at,
};
use std::alloc::{AllocError, Global};

/// In what a stored response falls short of what a reply carries.
pub enum Shortfall {
    /// The request is neither GET nor HEAD.
    Asked,
    /// Its Vary doesn't select the request.
    Selected(Selection),
    /// It is invalidated.
    Valid,
    /// It states no lifetime, and may not be used without.
    Lifetime(Usage),
    /// It may not be used.
    Use(Usage),
    /// The reply has another status, or another body.
    Body(ContentGap),
    /// The reply has other fields.
    Fields(Differences),
    /// The reply has another Age.
    Age(AgeGap),
    /// The reply's mark tells other seconds.
    Ttl(TtlGap),
}

impl Drop for Shortfall {
    fn drop(self) {
        match self {
            Shortfall::Selected(selection) => drop(selection),
            Shortfall::Fields(differences) => drop(differences),
            Shortfall::Asked | Shortfall::Valid | Shortfall::Body(_) => {}
            Shortfall::Lifetime(_) | Shortfall::Use(_) => {}
            Shortfall::Age(_) | Shortfall::Ttl(_) => {}
        }
    }
}

impl Shortfall {
    // In what the response falls short that breaks that rule, if it breaks one.
    fn read(
        alloc: Global,
        claim: &ReplyClaim<'_>,
        state: &Stored,
        rule: Option<Rule>,
    ) -> Result<Option<Self>, AllocError>
        ensures rule { IfOk result (λ found. option_map rule_of found ≡ rule) }
        ensures told { IfOk result (λ found. IfSome found (IsShortfall claim.now state.now)) }
    {
        let Some(rule) = rule else {
            return Ok(None);
        };
        match rule {
            Rule::Asked => Ok(Some(Shortfall::Asked)),
            Rule::Selected => {
                let unmet = unmet_members(alloc, claim, state)?;
                Ok(Some(Shortfall::Selected(unmet)))
            }
            Rule::Valid => Ok(Some(Shortfall::Valid)),
            Rule::Lifetime => Ok(Some(Shortfall::Lifetime(usage_at(claim, state)))),
            Rule::Use => Ok(Some(Shortfall::Use(usage_at(claim, state)))),
            Rule::Body => Ok(Some(Shortfall::Body(content_gap(claim, state)))),
            Rule::Fields => Ok(Some(Shortfall::Fields(compare(alloc, claim, state)?))),
            Rule::Age => Ok(Some(Shortfall::Age(age_gap(claim, state)))),
            Rule::Ttl => Ok(Some(Shortfall::Ttl(ttl_gap(claim, state)))),
        }
    }

    /// The rule that it breaks.
    pub fn rule(&self) -> Rule
        ensures { result ≡ rule_of self.now }
    {
        match self {
            Shortfall::Asked => Rule::Asked,
            Shortfall::Selected(_) => Rule::Selected,
            Shortfall::Valid => Rule::Valid,
            Shortfall::Lifetime(_) => Rule::Lifetime,
            Shortfall::Use(_) => Rule::Use,
            Shortfall::Body(_) => Rule::Body,
            Shortfall::Fields(_) => Rule::Fields,
            Shortfall::Age(_) => Rule::Age,
            Shortfall::Ttl(_) => Rule::Ttl,
        }
    }

    /// By how many seconds the reply is off, and whether it tells too few, if that is what is wrong.
    pub fn off(&self) -> Option<(u64, bool)> {
        match self {
            Shortfall::Age(gap) => gap.off(),
            Shortfall::Ttl(gap) => gap.off(),
            _ => None,
        }
    }

    /// A word for it, as `fields`, and words, as `nothing permits stale`, where these are always the same.
    pub(crate) fn words(&self) -> (&'static str, &'static str) {
        match self {
            Shortfall::Asked => ("other_method", "the request is neither GET nor HEAD"),
            Shortfall::Selected(_) => ("unselected", ""),
            Shortfall::Valid => ("invalidated", "no 304 since"),
            Shortfall::Lifetime(usage) | Shortfall::Use(usage) => (
                "unusable",
                usage.forbidden.words(),
            ),
            Shortfall::Body(gap) => (gap.kind(), ""),
            Shortfall::Fields(_) => ("fields", ""),
            Shortfall::Age(gap) => match gap.off() {
                None => ("age_missing", "no Age"),
                Some((_, true)) => ("age_off", "Age too low"),
                Some((_, false)) => ("age_off", "Age too high"),
            },
            Shortfall::Ttl(gap) => match gap.off() {
                Some((_, true)) => ("seconds_off", "ttl too low"),
                _ => ("seconds_off", "ttl too high"),
            },
        }
    }

    /// Writes words for it that aren't always the same, as `dropped x-validated, changed date`.
    pub(crate) fn name(&self, page: &mut Page) {
        match self {
            Shortfall::Selected(selection) => selection.name(page),
            Shortfall::Body(gap) => gap.name(page),
            Shortfall::Fields(differences) => differences.name(page),
            _ => {}
        }
    }

    /// What forbids to use the response, if that is what is wrong.
    pub fn usage(&self) -> Option<&Usage> {
        match self {
            Shortfall::Lifetime(usage) | Shortfall::Use(usage) => Some(usage),
            _ => None,
        }
    }

    /// The fields in which the reply differs, if these are what is wrong.
    pub fn differences(&self) -> Option<&Differences> {
        match self {
            Shortfall::Fields(differences) => Some(differences),
            _ => None,
        }
    }
}

/// The response that is named: of those that get furthest the one with the reply's body, or else the newest.
#[derive(Drop)]
pub struct Nearest<'a> {
    /// The position of its record.
    pub position: u64,
    /// What is left of it.
    pub state: &'a Stored,
    /// In what it falls short; nothing where it keeps all rules.
    pub shortfall: Option<Shortfall>,
}

impl<'a> Nearest<'a> {
    /// That candidate, if there is one.
    pub fn read<I: Index>(
        alloc: Global,
        index: &'a I,
        claim: &ReplyClaim<'_>,
        named: Option<Candidate>,
    ) -> Result<Option<Self>, AllocError>
        ensures told { (format : Format) (h : List Item) → IsSeenAs format (I.seen index.now) h
            → IfOk result (λ found. IfSome found (IsThatOf claim.now h named)) }
        ensures there { (format : Format) (h : List Item) → IsSeenAs format (I.seen index.now) h → IsSome named → IfSome named (IsCandidate claim.now h)
            → IfOk result (λ found. IsSome found) }
    {
        let Some(candidate) = named else {
            return Ok(None);
        };
        let Some(state) = index.response(claim.target, candidate.position) else {
            return Ok(None);
        };
        let rule = rule_behind(candidate.passed);
        Ok(Some(Nearest {
            position: candidate.position,
            state,
            shortfall: Shortfall::read(alloc, claim, state, rule)?,
        }))
    }

    /// The first rule that it breaks; none where it keeps all.
    pub fn breaks(&self) -> Option<Rule>
        ensures { result ≡ option_map rule_of self.now.shortfall }
    {
        match &self.shortfall {
            Some(shortfall) => Some(shortfall.rule()),
            None => None,
        }
    }

    /// Whether it has something by which a 304 may validate it.
    pub fn has_validator(&self) -> bool
        ensures { result ≡ has_validator self.now.state.now.fields }
    {
        tag(&self.state.fields).is_some() || last_modified(&self.state.fields).is_some()
    }

    // Whether all of it is left: not of an invalidated one that nothing may validate any more.
    pub fn is_whole(&self) -> bool
        ensures { result ≡ (not self.now.state.now.invalid || has_validator self.now.state.now.fields) }
    {
        !self.state.invalid || self.has_validator()
    }
}

/// In what that response falls short, if there is one, and it does.
pub(crate) fn shortfall_of<'n>(nearest: Option<&'n Nearest<'_>>) -> Option<&'n Shortfall>
    ensures { option_copied result ≡ shortfall_in (option_copied nearest.entry) }
{
    nearest?.shortfall.as_ref()
}

/// The setting by which it may be used, where it may not be used without, and there is one.
pub fn setting_of(nearest: Option<&Nearest<'_>>) -> Option<Setting>
    ensures { result ≡ setting_by (shortfall_in (option_copied nearest.entry)) }
{
    match shortfall_of(nearest)? {
        Shortfall::Lifetime(usage) | Shortfall::Use(usage) => usage.setting,
        Shortfall::Asked | Shortfall::Selected(_) | Shortfall::Valid => None,
        Shortfall::Body(_) | Shortfall::Fields(_) | Shortfall::Age(_) | Shortfall::Ttl(_) => None,
    }
}

// Whether the response at that position has the body of the reply.
fn has_its_body<I: Index>(index: &I, claim: &ReplyClaim<'_>, position: u64) -> bool
    ensures { (format : Format) (h : List Item) → IsSeenAs format (I.seen index.now) h → result ≡ has_its_body claim.now h position }
{
    match index.response(claim.target, position) {
        Some(state) => has_body(&claim.request.method, claim.body(), state.body.as_slice()),
        None => false,
    }
}

// The first candidate after a position.
fn first_after(candidates: &[Candidate], since: u64) -> Option<&Candidate>
    ensures { option_copied result ≡ first_after since candidates.now }
{
    candidates.iter().find(|one| since < one.position)
}

// Whether a candidate stands after a position, gets so far, and has the body of the reply.
fn has_all<I: Index>(
    index: &I,
    claim: &ReplyClaim<'_>,
    since: u64,
    passed: u32,
    one: &Candidate,
) -> bool
    ensures after { result ≡ true → nat_lt since one.now.position ≡ true }
    ensures gets { result ≡ true → one.now.passed ≡ passed }
    ensures exact { (format : Format) (h : List Item) → IsSeenAs format (I.seen index.now) h → result ≡ has_all claim.now h since passed one.now }
{
    since < one.position && one.passed == passed && has_its_body(index, claim, one.position)
}

// The first candidate after a position that gets so far, and has the body of the reply.
fn first_with_body<I: Index>(
    index: &I,
    claim: &ReplyClaim<'_>,
    candidates: &[Candidate],
    since: u64,
    passed: u32,
) -> Option<Candidate>
    ensures one_of { IfSome result (IsOneOf candidates.now since passed) }
    ensures first { (format : Format) (h : List Item) → IsSeenAs format (I.seen index.now) h
        → result ≡ first_with_body claim.now h since passed candidates.now }
{
    'candidates: for one in candidates {
        if has_all(index, claim, since, passed, one) {
            return Some(*one);
        }
    }
    None
}

/// The candidate that is named of those after a position: of those that get furthest the one with the reply's
/// body, and of these the newest.
#[tactic(auto, using(crate::proofs::NamingLemmas::named_gets, crate::proofs::NamingLemmas::named_is_preferred))]
pub fn named<I: Index>(
    index: &I,
    claim: &ReplyClaim<'_>,
    candidates: &[Candidate],
    since: u64,
) -> Option<Candidate>
    ensures some { IfSome result (GetsFurthest candidates.now since) }
    // Of the candidates in order it is the one with the reply's body, or else the newest.
    ensures preferred { (format : Format) (h : List Item) → IsSeenAs format (I.seen index.now) h → AreCandidates claim.now h candidates.now
        → IfSome result (IsPreferred claim.now h since) }
    ensures none { result ≡ None → first_after since candidates.now ≡ None }
{
    let furthest = *first_after(candidates, since)?;
    first_with_body(index, claim, candidates, since, furthest.passed).or(Some(furthest))
}

/// A response, and the first rule that it breaks.
#[derive(Clone, Copy, PartialEq, Eq)]
pub struct Reach {
    /// The position of its record.
    pub position: u64,
    /// The first rule that it breaks; none where it keeps all.
    pub breaks: Option<Rule>,
}

/// Responses, the one that gets furthest first, and how many more there are.
#[derive(Drop)]
pub struct Reaches {
    /// At most so many as are named.
    pub named: Vec<Reach>,
    /// How many more there are.
    pub more: u64,
}

impl Reaches {
    /// None.
    pub fn new(alloc: Global) -> Self {
        Reaches {
            named: Vec::new(alloc),
            more: 0,
        }
    }

    /// Adds a response, which gets no further than the others.
    pub fn push(&mut self, candidate: &Candidate) -> Result<(), AllocError> {
        if NAMED <= self.named.len() {
            self.more = self.more.saturating_add(1);
            return Ok(());
        }
        self.named.push(Reach {
            position: candidate.position,
            breaks: rule_behind(candidate.passed),
        })?;
        Ok(())
    }

    /// Whether the response at that position is named.
    pub fn names(&self, position: u64) -> bool {
        for reach in self.named.iter() {
            if reach.position == position {
                return true;
            }
        }
        false
    }
}
