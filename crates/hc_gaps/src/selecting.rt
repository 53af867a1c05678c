//! In what a request differs from the one that a stored response answers (RFC 9111 section 4.1).

ghost use Rattle.std.specs.Prelude.{◌≡◌, ◌++◌, List, ℕ, [], ◌∷◌, filter, IfOk, OnOk};
ghost use Rattle.hc_gaps.specs.Demanding.{has_named_other, has_other, has_star, names_all, selecting_sections};
ghost use Rattle.hc_gaps.specs.Selecting.{AreNamed, AreUnmet, is_unmet};

use crate::forms::means_the_same;
use hc_fields::{Lines, Octets, is_token};
use hc_history::{ReplyClaim, is_met_or_normalized};
use hc_shown::{FieldOf, Page, RecordName, Teller};
use hc_update::Stored;
use hc_use::{Demand, NAMED};
use std::alloc::{AllocError, Global};

/// A member of a Vary that doesn't select the request.
#[derive(Drop)]
pub struct UnmetMember {
    /// The member, as it is written.
    pub member: Octets,
    /// Whether it names a field; what names none, as `*`, selects no request.
    pub is_name: bool,
    /// Whether both requests mean the same by the field, though it is written in other ways.
    pub is_form: bool,
}

/// Of what a 304 validates that Vary doesn't select.
const OPEN: &str =
    "no RFC (RFC 9111 sections 4.1 and 4.3 leave this open), but this auditor's stricter rule";

/// By which members of its Vary a response doesn't answer a request.
pub struct Selection {
    /// The first of them.
    pub unmet: Vec<UnmetMember>,
    /// How many more there are.
    pub more: u64,
}

impl Drop for Selection {
    fn drop(self) {
        let Selection { unmet, more: _ } = self;
        drop(unmet);
    }
}

/// By which members of its Vary the response doesn't answer the request.
pub fn unmet_members(
    alloc: Global,
    claim: &ReplyClaim<'_>,
    state: &Stored,
) -> Result<Selection, AllocError>
    // The first of them are named, and all others are counted.
    ensures { IfOk result (AreUnmet claim.now state.now) }
{
    let mut found = Selection {
        unmet: Vec::new(alloc),
        more: 0,
    };
    for member in state.fields.members(b"vary") {
        found.take(alloc, claim, state, member)?;
    }
    Ok(found)
}

impl Selection {
    // Takes in a member: one that doesn't select the request is named, or counted where there is no room.
    fn take(
        &mut self,
        alloc: Global,
        claim: &ReplyClaim<'_>,
        state: &Stored,
        member: &[u8],
    ) -> Result<(), AllocError>
        ensures { OnOk result ((members : List (List ℕ)) → AreNamed claim.now state.now members self.old
            → AreNamed claim.now state.now (members ++ filter (is_unmet claim.now state.now) (member.now ∷ [])) self.new) }
    {
        if is_met_or_normalized(alloc, claim, state, member)? {
            return Ok(());
        }
        if NAMED <= self.unmet.len() {
            self.more = self.more.saturating_add(1);
            return Ok(());
        }
        let (answered, asked) = (&state.request.fields, &claim.request.fields);
        let is_form = means_the_same(alloc, member, &answered.lent(), &asked.lent(), true)?;
        self.unmet.push(UnmetMember {
            member: Octets::from_slice(alloc, member)?,
            is_name: is_token(member) && member != b"*".as_slice(),
            is_form,
        })?;
        Ok(())
    }

    // Whether Vary has `*`.
    fn has_star(&self) -> bool
        ensures { result ≡ has_star self.now }
    {
        self.unmet
            .iter()
            .any(|unmet| unmet.member.as_slice() == b"*".as_slice())
    }

    // Whether the requests differ by what they mean in a field that Vary names, or may, since not all members are named here.
    fn has_other(&self) -> bool
        ensures { result ≡ has_other self.now }
    {
        self.more != 0 || self.has_named_other()
    }

    // Whether they differ so in a field that one of the members names which are told.
    fn has_named_other(&self) -> bool
        ensures { result ≡ has_named_other self.now }
    {
        self.unmet
            .iter()
            .any(|unmet| unmet.is_name && !unmet.is_form)
    }

    // Whether each of the members is the name of a field.
    fn names_all(&self) -> bool
        ensures { result ≡ names_all self.now }
    {
        self.unmet.iter().all(|unmet| unmet.is_name)
    }

    /// What is asked of the reply, after a 304 that Vary alone kept from validating the response, or none.
    pub fn demand(&self, is_after_304: bool) -> Demand
        ensures { result.sections.now ≡ selecting_sections self.now is_after_304 }
    {
        match (self.has_star(), self.has_other()) {
            (true, _) if is_after_304 => Demand::of(
                OPEN,
                "Vary \"*\" selects no request, also none that a 304 answers",
            ),
            (true, _) => Demand::of(
                "RFC 9111 section 4.1",
                "Vary \"*\" selects no request: what has it MUST NOT be used before it is validated",
            ),
            (false, true) if is_after_304 => Demand::of(
                OPEN,
                "a stored response answers no request that its Vary doesn't select, also none that a 304 answers",
            ),
            (false, true) => Demand::of(
                "RFC 9111 section 4.1",
                "a stored response MUST NOT answer a request that differs from its own in what its Vary names",
            ),
            (false, false) if self.names_all() => Demand::of(
                "no RFC (RFC 9111 section 4.1 lets a cache normalize space, case and order where they mean nothing in a field), but this auditor's stricter rule",
                "a stored response answers no request that differs from its own in what its Vary names, but for --normalized",
            ),
            (false, false) => Demand::of(
                "no RFC (RFC 9111 section 4.1 says nothing of a member of Vary that is no name), but this auditor's stricter rule",
                "a Vary with a member that is neither \"*\" nor the name of a field selects no request",
            ),
        }
    }

    /// Writes words for it, as `Vary accept, cookie`.
    pub fn name(&self, page: &mut Page) {
        let mut is_first = true;
        for unmet in self.unmet.iter() {
            page.separator(is_first, "Vary ", ", ");
            page.said_octets("", unmet.member.as_slice(), "");
            is_first = false;
        }
        page.say_more(self.more);
    }

    /// Tells what each member of the Vary of the response at that position finds in both requests, of which the one that this
    /// answers may be known.
    pub fn tell<T: Teller>(
        &self,
        claim: &ReplyClaim<'_>,
        state: &Stored,
        (position, sent): (u64, Option<RecordName>),
        teller: &mut T,
    ) {
        teller.count("Vary of ", position, "");
        teller.begin_list("unmet");
        let mut is_first = true;
        for unmet in self.unmet.iter() {
            let member = unmet.member.as_slice();
            let answered = FieldOf::new(member, &state.request.fields);
            let asked = FieldOf::new(member, &claim.request.fields);
            teller.separator(is_first, " names ", "; ");
            teller.begin_item();
            teller.quoted("member", member);
            if unmet.is_name {
                teller.words(": its forward ");
                if let Some(sent) = sent {
                    teller.record("", sent);
                    teller.words(" ");
                }
                teller.value("answered", "has ", &answered);
                teller.value("asked", ", this request has ", &asked);
            } else {
                teller.words(", which selects no request");
                teller.known("answered", &answered);
                teller.known("asked", &asked);
            }
            teller.end();
            is_first = false;
        }
        teller.end();
        teller.more("more_unmet", self.more);
    }
}
