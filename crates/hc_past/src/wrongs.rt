//! What is wrong with a reply.

ghost use Rattle.std.specs.Prelude.{◌≡◌, All, List, Some, None, IfOk, IfSome};
ghost use Rattle.hc_transcript.specs.declared.format.Format.{Format};
ghost use Rattle.hc_transcript.specs.Items.{Item};
ghost use Rattle.hc_history.specs.Candidates.{AreCandidates, IsCandidate};
ghost use Rattle.hc_history.specs.Names.{reason_number};
ghost use Rattle.hc_history.specs.Reused.{IsFirstFailed};
ghost use Rattle.hc_history.specs.Seen.{IsSeenAs};
ghost use Rattle.hc_past.specs.Naming.{HasNone, IsNamed, IsOfOneOf, first_after, named_after, names_response, reason_told};

use crate::past::{End, Past};
use crate::shortfalls::{Nearest, Shortfall, named, shortfall_of};
use crate::unstored::Unstored;
use crate::window::{Window, latest_near};
use hc_gaps::Differences;
use hc_head::StatusCode;
use hc_history::{Candidate, Mark, Reason, ReplyClaim};
use hc_index::Index;
use hc_shown::{Page, Teller};
use hc_status::{MarkFault, mark};
use std::alloc::{AllocError, Global};

/// Why a reply counts as one without a mark.
#[derive(Clone, Copy, PartialEq, Eq)]
pub enum NoMark {
    /// It has no Cache-Status.
    Absent,
    /// It is a hit of status 206.
    Partial,
    /// Its Cache-Status says neither that it is a hit nor that it went forward.
    Silent,
}

/// What is wrong with a reply, besides in what the response falls short that is named.
#[derive(Clone, Copy)]
pub enum Why {
    /// No response that may be stored is of its target.
    NoResponse(Unstored),
    /// The response that is named breaks a rule.
    Response,
    /// It is marked as forwarded, and carries nothing of its window.
    NotForwarded(Window),
    /// It has no mark.
    Unmarked(NoMark),
    /// It is marked as a hit and as forwarded.
    BothMarks,
    /// It is marked as collapsed: the response after its request that is named breaks a rule, or there is none that
    /// may be stored.
    NotCollapsible,
    /// It answers no open exchange.
    Unasked,
}

/// What is wrong with a reply, and the response that is named, if one is.
pub struct Wrong<'a> {
    /// What is wrong.
    pub why: Why,
    /// The response that is named.
    pub nearest: Option<Nearest<'a>>,
    /// The latest response of the same path under another host that a reply would carry which went forward.
    pub near: Option<&'a End>,
}

impl Drop for Wrong<'_> {
    fn drop(self) {
        let Wrong {
            why: _,
            nearest,
            near: _,
        } = self;
        drop(nearest);
    }
}

// Why a reply counts as one without a mark.
fn no_mark(alloc: Global, claim: &ReplyClaim<'_>) -> Result<NoMark, AllocError> {
    let fields = claim.fields();
    if !fields.contains(b"cache-status") {
        return Ok(NoMark::Absent);
    }
    if claim.status() != StatusCode::PARTIAL_CONTENT {
        return Ok(NoMark::Silent);
    }
    match mark(alloc, fields) {
        Ok(Mark::Hit { .. }) => Ok(NoMark::Partial),
        Ok(_) => Ok(NoMark::Silent),
        Err(MarkFault::Memory) => Err(AllocError),
    }
}

impl NoMark {
    /// A word for it.
    pub fn name(&self) -> &'static str {
        match self {
            NoMark::Absent => "absent",
            NoMark::Partial => "partial",
            NoMark::Silent => "silent",
        }
    }
}

impl Why {
    /// What is wrong with a reply for that reason.
    pub fn read(
        alloc: Global,
        claim: &ReplyClaim<'_>,
        reason: Reason,
        past: &Past,
    ) -> Result<Self, AllocError> {
        match reason {
            Reason::NoResponse => Ok(Why::NoResponse(Unstored::read(claim, past))),
            Reason::NotForwarded => Ok(Why::NotForwarded(Window::read(claim, past))),
            Reason::Unmarked => Ok(Why::Unmarked(no_mark(alloc, claim)?)),
            Reason::BothMarks => Ok(Why::BothMarks),
            Reason::NotCollapsible => Ok(Why::NotCollapsible),
            _ => Ok(Why::Response),
        }
    }

    // A word for it, as `fields`, where that response is named, and words, which others may follow.
    fn words(&self, nearest: Option<&Nearest<'_>>) -> (&'static str, &'static str) {
        match self {
            Why::NoResponse(unstored) => unstored.words(),
            Why::NotForwarded(window) => window.words(),
            Why::Unmarked(NoMark::Partial) => ("partial", "a hit of status 206"),
            Why::Unmarked(_) => ("unmarked", "no mark"),
            Why::NotCollapsible if nearest.is_some() => (
                "lacks",
                "the response after the request fails by ",
            ),
            Why::NotCollapsible => ("lacks", "no response after the request"),
            Why::Response => match shortfall_of(nearest) {
                Some(shortfall) => shortfall.words(),
                None => ("nothing", ""),
            },
            Why::BothMarks | Why::Unasked => ("nothing", ""),
        }
    }

    /// A word for it, as `fields`, where that response is named.
    pub fn kind(&self, nearest: Option<&Nearest<'_>>) -> &'static str {
        self.words(nearest).0
    }

    /// Writes short words for it, as `dropped x-validated, changed date` or `nothing permits stale`, where those are named, if
    /// there are; none where the reason says all.
    pub fn name(&self, nearest: Option<&Nearest<'_>>, near: Option<&End>, page: &mut Page) {
        page.words(self.words(nearest).1);
        if let Some(near) = near {
            page.said_octets("", near.target.host.as_slice(), "");
        }
        match self {
            Why::NoResponse(Unstored::Forbidden(forbids)) => forbids.tell(false, page),
            Why::NotCollapsible => {
                if let Some(nearest) = nearest {
                    let reason = match nearest.breaks() {
                        Some(rule) => rule.reason(),
                        None => Reason::NotCollapsible,
                    };
                    page.words(reason.name());
                }
            }
            Why::Response => {
                if let Some(shortfall) = shortfall_of(nearest) {
                    shortfall.name(page);
                }
            }
            _ => {}
        }
    }
}

/// Whether a response is named of a reply that is wrong for that reason.
pub fn names_response(reason: Reason) -> bool
    ensures { result ≡ names_response reason }
{
    !matches!(
        reason,
        Reason::NoResponse | Reason::Unmarked | Reason::BothMarks
    )
}

// The position behind which the response is named of a reply that is wrong for that reason.
fn named_after(reason: Reason, claim: &ReplyClaim<'_>) -> u64
    ensures { result ≡ named_after reason claim.now }
{
    match reason {
        Reason::NotCollapsible => claim.since,
        _ => 0,
    }
}

impl<'a> Wrong<'a> {
    /// What is wrong with a reply for that reason, of which those are the candidates, by what is remembered of the
    /// records before it. It fails only where memory is refused.
    pub fn read<I: Index>(
        alloc: Global,
        index: &'a I,
        claim: &ReplyClaim<'a>,
        reason: Reason,
        candidates: &[Candidate],
        past: &'a Past,
    ) -> Result<Self, AllocError>
        // The response that is named gets as far as any.
        ensures named { (format : Format) (h : List Item) → IsSeenAs format (I.seen index.now) h → AreCandidates claim.now h candidates.now
            → IfOk result (λ wrong. IfSome wrong.nearest (IsNamed claim.now h (named_after reason claim.now))) }
        // None is named only where none stands there.
        ensures there { (format : Format) (h : List Item) → IsSeenAs format (I.seen index.now) h → AreCandidates claim.now h candidates.now
            → IfOk result (λ wrong. wrong.nearest ≡ None → HasNone claim.now h (named_after reason claim.now)) }
        // Whatever list is handed in, it is that of one of these, which gets as far as the first of them.
        ensures told { (format : Format) (h : List Item) → IsSeenAs format (I.seen index.now) h
            → IfOk result (λ wrong. IfSome wrong.nearest (IsOfOneOf claim.now h candidates.now (named_after reason claim.now))) }
        // None is named of candidates only where none of these stands there.
        ensures first { (format : Format) (h : List Item) → IsSeenAs format (I.seen index.now) h → All (IsCandidate claim.now h) candidates.now
            → IfOk result (λ wrong. wrong.nearest ≡ None → first_after (named_after reason claim.now) candidates.now ≡ None) }
        // It breaks the rule by which a hit is wrong.
        ensures breaks { (format : Format) (h : List Item) → IsSeenAs format (I.seen index.now) h → AreCandidates claim.now h candidates.now
            → IsFirstFailed (reason_number reason) claim.now h → IfOk result (λ wrong. IfSome wrong.nearest (λ nearest. reason_told nearest ≡ Some reason)) }
    {
        let named = named(index, claim, candidates, named_after(reason, claim));
        Ok(Wrong {
            why: Why::read(alloc, claim, reason, past)?,
            nearest: Nearest::read(alloc, index, claim, named)?,
            near: match reason {
                Reason::NotForwarded => latest_near(claim, past),
                _ => None,
            },
        })
    }

    /// A reply that answers no open exchange.
    pub fn unasked() -> Self {
        Wrong {
            why: Why::Unasked,
            nearest: None,
            near: None,
        }
    }

    /// In what a response falls short, if that is what is wrong.
    pub fn shortfall(&self) -> Option<&Shortfall> {
        match self.why {
            Why::Response => shortfall_of(self.nearest.as_ref()),
            _ => None,
        }
    }

    /// In what a response falls short, if that is what is wrong, which is moved.
    pub fn into_shortfall(self) -> Option<Shortfall> {
        let Wrong {
            why,
            nearest,
            near: _,
        } = self;
        let Nearest {
            position: _,
            state: _,
            shortfall,
        } = nearest?;
        match why {
            Why::Response => shortfall,
            _ => None,
        }
    }

    /// The fields in which a response falls short, if these are what is wrong.
    pub fn differences(&self) -> Option<&Differences> {
        self.shortfall()?.differences()
    }

    /// Whether no response of the target is recorded.
    pub fn is_unrecorded(&self) -> bool {
        matches!(self.why, Why::NoResponse(Unstored::Unrecorded))
    }
}
