//! What is asked of a reply that is wrong.

ghost use Rattle.std.specs.Prelude.{◌≡◌, option_copied};
ghost use Rattle.std.specs.Option.{option_map};
ghost use Rattle.hc_gaps.specs.Demanding.{first_in, renewed_in};
ghost use Rattle.hc_gaps.specs.Forms.{leaves_out};
ghost use Rattle.hc_why.specs.Demanding.{IsAskedByResponse, IsAskedOf, IsDemanded, demanded_sections, forbidden_sections, forbids_given, is_breach, is_for_it, is_not_forwarded, keep_all, keeps_all, may_be, unstored_sections, unstored_told};

use crate::changes::{INVALIDATED, INVALIDATED_BY_SAFE};
use crate::explaining::Explanation;
use hc_fields::{Fields, Lines};
use hc_gaps::{FieldsOrigin, leaves_out};
use hc_head::{StatusCode, is_head};
use hc_history::{Finding, Reason};
use hc_past::{End, Heads, Nearest, Reach, Shortfall, Unstored, Why};
use hc_rules::selects;
use hc_shown::RecordName;
use hc_transcript::ToldCause;
use hc_use::{Demand, Forbids, NO_HIT, PRIVATE_FIELDS, STORED_ANSWER, UNRECORDED};
use std::alloc::AllocError;

/// A 304 is given to no later request.
const NO_RESPONSE: Demand = Demand {
    sections: "no RFC (RFC 9111 section 3 lets a 304 be stored by a cache that understands it), but this auditor's stricter rule",
    words: "a 304 updates what is stored, and isn't itself what a later request is given",
};

/// Vary compares what was forwarded.
const AS_FORWARDED: Demand = Demand {
    sections: "no RFC (RFC 9111 section 4.1 compares with the request as it was asked, before it was forwarded), but this auditor's stricter rule",
    words: "a stored response answers no request that differs in what its Vary names from what was forwarded for it",
};

impl Explanation<'_> {
    /// What is asked where the response that is named isn't selected by the request that was forwarded, but by the one that was
    /// asked, as far as that is known.
    pub(crate) fn permitted_selection(&self) -> Result<Option<Demand>, AllocError> {
        let Some(nearest) = &self.nearest else {
            return Ok(None);
        };
        let is_it = self.finding == Finding::Wrong(Reason::Vary);
        let (true, Some(source)) = (is_it, self.source(nearest.position)) else {
            return Ok(None);
        };
        let Some(
            Heads {
                asked: Some(asked),
                ..
            },
        ) = &source.heads
        else {
            return Ok(None);
        };
        if source.told_cause(&self.claim) == ToldCause::NoExchange {
            return Ok(None);
        }
        let request = &self.claim.request.fields;
        if selects(self.alloc, &nearest.state.fields, asked, request)? {
            Ok(Some(AS_FORWARDED))
        } else {
            Ok(None)
        }
    }

    /// What is asked of a reply that is wrong for that reason, by the first that is there: an answer of its own that is marked as a
    /// hit; what RFCs permit of it; what forbids to store what it gives; and the way in which the stored response that is named falls
    /// short, where that is what it doesn't keep, or where the reply went forward and is to be that response, or gives it.
    pub fn demand(&self, reason: Reason) -> Demand
        ensures { IsDemanded self.now reason result.sections.now }
    {
        if self.own_answer().is_some() {
            return NO_HIT;
        }
        if let Some(permitted) = self.permitted {
            return permitted;
        }
        match self.why {
            Some(Why::NoResponse(Unstored::OtherMethod)) => STORED_ANSWER,
            Some(Why::NoResponse(_)) => self.demand_of_storing(),
            Some(Why::NotForwarded(_)) => self.demand_by_response(reason, true),
            _ => self.demand_by_response(reason, false),
        }
    }

    // What is asked by the response that is named, if it bears on that, of a reply that went forward or not.
    fn demand_by_response(&self, reason: Reason, is_forwarded: bool) -> Demand
        ensures { IsAskedByResponse self.now reason is_forwarded self.now.nearest result.sections.now }
    {
        if let Some(nearest) = &self.nearest {
            if let Some(shortfall) = &nearest.shortfall {
                let stands_for = is_forwarded && self.stands_for(nearest);
                if is_breach(shortfall, reason) || stands_for {
                    return self.demand_of(nearest, shortfall);
                }
            }
        }
        Demand::of_reason(reason, self.may_be(reason))
    }

    // Whether what went forward may be of the cache's own making, or what was collapsed is what was stored before its request, and
    // may be given.
    fn may_be(&self, reason: Reason) -> bool
        ensures { result ≡ may_be self.now reason }
    {
        if is_not_forwarded(reason) {
            500 <= self.claim.status().as_u16()
        } else {
            keep_all(self.before.named.as_slice())
        }
    }

    // The response by which it is told why nothing is stored: the latest that the reply gives, or else the latest of those that
    // are named.
    fn unstored_told(&self) -> Option<&End>
        ensures { option_copied result ≡ unstored_told self.now.ends }
    {
        if let Some(given) = self.ends.given {
            return Some(given);
        }
        let last = self.ends.unstored.named.last()?;
        Some(*last)
    }

    // What of that forbids to store a response as the reply gives it: of a 304 nothing by its status and method.
    fn forbids_given(&self, forbids: Forbids, status: Option<StatusCode>) -> Forbids
        ensures { result ≡ forbids_given self.now.claim status forbids }
    {
        let is_304 = status == Some(StatusCode::NOT_MODIFIED);
        let is_part = self.claim.status() == StatusCode::PARTIAL_CONTENT;
        let asks_head = is_head(&self.claim.request.method);
        Forbids {
            status: forbids.status && !is_304,
            method: forbids.method && !is_304,
            uncacheable: forbids.uncacheable && !is_304,
            by_head: forbids.by_head && !is_304 && !asks_head,
            partial: forbids.partial && !is_part,
            ..forbids
        }
    }

    // What is asked of a hit for which nothing is stored: by what forbids to store the response that it gives, or else the
    // latest.
    fn demand_of_storing(&self) -> Demand
        ensures { result.sections.now ≡ unstored_sections self.now }
    {
        let Some(end) = self.unstored_told() else {
            return UNRECORDED;
        };
        let (Some(forbids), Some(heads)) = (end.forbids, &end.heads) else {
            return UNRECORDED;
        };
        let forbids = self.forbids_given(forbids, end.status);
        let leaves_out = self.leaves_out(b"private", &heads.response.fields);
        demand_by(forbids, leaves_out)
    }

    // Whether those of a response say the directive of fields alone, of which the reply has none.
    fn leaves_out(&self, directive: &[u8], response: &Fields) -> bool
        ensures { result ≡ leaves_out directive.now response.now self.now.claim.reply.head.fields }
    {
        leaves_out(directive, &response.lent(), self.claim.fields())
    }

    // What is asked by the way in which that response falls short.
    fn demand_of(&self, nearest: &Nearest<'_>, shortfall: &Shortfall) -> Demand
        ensures { IsAskedOf self.now nearest.now shortfall.now result.sections.now }
    {
        let origin = self.fields_origin(nearest);
        let about = Circumstances {
            leaves_out: self.leaves_out(b"no-cache", &nearest.state.fields),
            is_after_304: self.ends.has_unselected(),
            is_after_error: self.ends.due.is_after_error(),
            is_by_safe: self.ends.is_by_safe(),
            status: self.claim.status(),
            position: nearest.position,
            validator: origin.validator,
            first: origin.first,
            is_for_it: self.is_validated_for_it(nearest),
            was_validated: nearest.state.validated_at.is_some(),
        };
        about.demand(shortfall)
    }

    // Whether a 304 after the request validated that response which may have come for the request.
    fn is_validated_for_it(&self, nearest: &Nearest<'_>) -> bool
        ensures { result ≡ is_for_it self.now.claim nearest.now (option_copied self.now.ends.validator) }
    {
        match self.ends.validator {
            Some(validator) => self.was_validated(nearest) && validator.may_answer(&self.claim),
            None => false,
        }
    }
}

// What is asked of a hit by what forbids to store the response that it gives: where that is private of fields alone, which the
// reply leaves out, by the rest.
fn demand_by(forbids: Forbids, leaves_out: bool) -> Demand
    ensures { result.sections.now ≡ forbidden_sections forbids leaves_out }
{
    if forbids.is_nothing() {
        return NO_RESPONSE;
    }
    if !leaves_out {
        return forbids.demand();
    }
    let others = Forbids {
        private: false,
        ..forbids
    };
    if others.is_nothing() {
        PRIVATE_FIELDS
    } else {
        others.demand()
    }
}

// Whether one of those responses keeps all rules.
fn keep_all(reaches: &[Reach]) -> bool
    ensures { result ≡ keep_all reaches.now }
{
    reaches.iter().any(|reach| keeps_all(reach))
}

fn keeps_all(reach: &Reach) -> bool
    ensures { result ≡ keeps_all reach.now }
{
    match reach.breaks {
        Some(_) => false,
        None => true,
    }
}

fn is_not_forwarded(reason: Reason) -> bool
    ensures { result ≡ is_not_forwarded reason }
{
    matches!(reason, Reason::NotForwarded)
}

// Whether that is the breach of a reply that is wrong for that reason.
fn is_breach(shortfall: &Shortfall, reason: Reason) -> bool
    ensures { result ≡ is_breach shortfall.now reason }
{
    shortfall.rule().reason().number() == reason.number()
}

// What bears on what is asked, beside the way in which a response falls short.
#[derive(Clone, Copy)]
struct Circumstances<'a> {
    // Whether the response says no-cache of fields alone, of which the reply has none.
    leaves_out: bool,
    // Whether a 304 came that Vary alone kept from validating it.
    is_after_304: bool,
    // Whether the origin answered the request by a 5xx.
    is_after_error: bool,
    // Whether what invalidated the response are methods that are registered as safe.
    is_by_safe: bool,
    // The status of the reply.
    status: StatusCode,
    // The position of the response.
    position: u64,
    // The 304 that freshened the response last, with its fields, as far as it is known.
    validator: Option<(RecordName, &'a Fields)>,
    // The fields with which the response came, as far as they are known.
    first: Option<&'a Fields>,
    // Whether a 304 to the request validated the response, or may have.
    is_for_it: bool,
    // Whether a 304 ever did.
    was_validated: bool,
}

impl<'a> Circumstances<'a> {
    // What the fields of the response come from.
    fn fields_origin(&self) -> FieldsOrigin<'a>
        ensures renewed { renewed_in result ≡ option_map (λ validator. validator.1.now) self.now.validator }
        ensures first { first_in result ≡ option_map (λ first. first.now) self.now.first }
    {
        FieldsOrigin {
            validator: self.validator,
            position: self.position,
            first: self.first,
        }
    }

    // What is asked of a response that falls short so: by one thing for each rule.
    fn demand(&self, shortfall: &Shortfall) -> Demand
        ensures { result.sections.now ≡ demanded_sections shortfall.now self.now }
    {
        match shortfall {
            Shortfall::Asked => STORED_ANSWER,
            Shortfall::Selected(selection) => selection.demand(self.is_after_304),
            Shortfall::Valid if self.is_by_safe => INVALIDATED_BY_SAFE,
            Shortfall::Valid => INVALIDATED,
            Shortfall::Lifetime(usage) => usage.demand_of_lifetime(self.leaves_out),
            Shortfall::Use(usage) => usage.demand_of_use(self.leaves_out, self.is_after_error),
            Shortfall::Body(gap) => gap.demand(),
            Shortfall::Fields(found) => found.demand(self.status, self.fields_origin()),
            Shortfall::Age(gap) => gap.demand(self.is_for_it, self.was_validated, self.status),
            Shortfall::Ttl(gap) => gap.demand(),
        }
    }
}
