//! The second reading, which explains the reply that the first one found, and the line that heads the explanation.

ghost use Rattle.std.specs.Prelude.{◌≡◌, ◌++◌, ◌∷◌, List, [], ℕ, true, IfOk, IfSome, OnOk, string_bytes};
ghost use Rattle.hc_head.specs.declared.head.Target.{Target};
ghost use Rattle.hc_head.specs.Targets.{same_target};
ghost use Rattle.hc_transcript.specs.Items.{Item};
ghost use Rattle.hc_history.specs.declared.verdicts.Finding.{Finding};
ghost use Rattle.hc_audit.specs.Hearing.{IsReplyBehind, item_judged};
ghost use Rattle.hc_why.specs.Explaining.{claim_judged, judged_of};
ghost use Rattle.hc_why.specs.Found.{finding_of, position_of, way_found};
ghost use Rattle.hc_explain.specs.declared.explaining.Form.{Form};
ghost use Rattle.hc_explain.specs.Facts.{IsFormOf, IsJsonOf, IsTextOf};
ghost use Rattle.hc_explain.specs.Heads.{IsHead};
ghost use Rattle.hc_explain.specs.Hearing.{HasHeard, HasTold, IsExplained, IsOf, IsToldAmong, Keeps, RemembersAll};

use crate::facts::{asked_of, put_facts, say_broken};
use crate::object::NestedObject;
use crate::telling::tell;
use hc_audit::{JudgedReply, PassedRecord, Witness};
use hc_figures::Object;
use hc_history::Finding;
use hc_index::Index;
use hc_past::Past;
use hc_shown::Page;
use hc_use::Demand;
use hc_why::{Explanation, FoundReply};
use std::alloc::{AllocError, Global};
use std::fmt::Write;

/// Writes the head line of an explanation, without its end: `no 444 3 Invalidated`, or `right 444 hit`.
pub fn say_head(found: &FoundReply, out: &mut String) -> Result<(), AllocError>
    ensures { OnOk result ((head : List ℕ) × IsHead (position_of found.now) (finding_of found.now) (way_found found.now) head
        × (string_bytes out.new ≡ string_bytes out.old ++ head)) }
{
    let position = found.position;
    match found.finding {
        Finding::Right => {
            let way = found.way.name();
            write!(out, "right {position} {way}")
        }
        Finding::Wrong(reason) => {
            let number = reason.number();
            let name = reason.name();
            write!(out, "no {position} {number} {name}")
        }
    }
}

/// In which form a reply is explained.
#[derive(Clone, Copy, PartialEq, Eq)]
pub enum Form {
    /// As lines of text.
    Text,
    /// As a JSON object on one line.
    Json,
}

/// A witness that explains a reply. It is to read the transcript in which the reply was found, from its beginning on and at
/// least up to the reply.
pub struct Explaining {
    alloc: Global,
    found: FoundReply,
    form: Form,
    past: Past,
    told: Option<String>,
    asked: Option<Demand>,
    is_after: bool,
}

impl Drop for Explaining {
    fn drop(self) {
        let Explaining {
            alloc: _,
            found,
            form: _,
            past,
            told,
            asked: _,
            is_after: _,
        } = self;
        drop(found);
        drop(past);
        drop(told);
    }
}

impl Explaining {
    /// Looks for all that is told of that reply.
    pub fn new(alloc: Global, found: FoundReply, form: Form) -> Result<Self, AllocError>
        ensures { IfOk result (λ explaining. HasHeard explaining []) }
    {
        let past = Past::new(alloc, Some(found.target.copy(alloc)?))?;
        Ok(Explaining {
            alloc,
            found,
            form,
            past,
            told: None,
            asked: None,
            is_after: false,
        })
    }

    /// Whether it looks for the reply at that position, of which that is found, and tells of it in that form.
    pub fn is_of(&self, position: u64, finding: Finding, form: Form) -> bool
        ensures { result ≡ true → IsOf self.now position finding form }
    {
        self.found.position == position && self.found.finding == finding && self.form == form
    }

    /// Whether the records so far have the reply, so that no further record can tell more.
    pub fn is_after(&self) -> bool {
        self.is_after
    }

    // Tells of that reply, if it is the one that was found.
    fn tell<I: Index>(&mut self, judged: &JudgedReply<'_, I>) -> Result<(), AllocError>
        ensures kept { Keeps self.old self.new }
        ensures told { (h : List Item) → IsReplyBehind I.seen h judged.now
            → (judged.now.position ≡ self.old.found.position → RemembersAll self.old.found.target h self.old.past)
            → HasTold self.old h → OnOk result (HasTold self.new (item_judged judged.now ∷ h)) }
    {
        if !self.found.is_as(judged) {
            return Ok(());
        }
        self.told = explained(self.alloc, judged, self.form, &self.past, &mut self.asked)?;
        Ok(())
    }

    /// The reply that it looks for.
    pub fn found(&self) -> &FoundReply {
        &self.found
    }

    /// What is told of it, once it was read again, as it was.
    pub fn told(&self) -> Option<&str> {
        match &self.told {
            Some(told) => Some(told.as_str()),
            None => None,
        }
    }

    /// What is asked that it doesn't keep, once it was read so.
    pub fn asked(&self) -> Option<Demand> {
        self.asked
    }

    /// What is told of the reply, which is moved. None where it wasn't read again, as it was.
    pub fn into_told(mut self) -> Option<String>
        ensures { (h : List Item) (position : ℕ) (finding : Finding) (form : Form) → HasHeard self h → IsOf self position finding form
            → IfSome result (λ text. IsToldAmong form h position finding (string_bytes text)) }
    {
        self.told.take()
    }
}

// What is told of that reply, in that form, and what is asked that it doesn't keep.
fn explained<I: Index>(
    alloc: Global,
    judged: &JudgedReply<'_, I>,
    form: Form,
    past: &Past,
    asked: &mut Option<Demand>,
) -> Result<Option<String>, AllocError>
    ensures { (h : List Item) (target : Target) → IsReplyBehind I.seen h judged.now → RemembersAll target h past.now
        → IfSome (claim_judged (judged_of judged.now) h) (λ claim. same_target target claim.target ≡ true)
        → IfOk result (λ told. IfSome told (λ text. IsExplained form (judged_of judged.now) h (string_bytes text))) }
{
    let Some(known) = Explanation::read(alloc, judged, past)? else {
        return Ok(None);
    };
    *asked = Some(asked_of(&known));
    Ok(Some(told_of(alloc, &known, form)?))
}

// What is told of it, in that form.
fn told_of(alloc: Global, known: &Explanation<'_>, form: Form) -> Result<String, AllocError>
    ensures { IfOk result (λ text. IsFormOf form known.now (string_bytes text)) }
{
    match form {
        Form::Text => text_of(alloc, known),
        Form::Json => json_of(alloc, known),
    }
}

// The lines of a text.
fn text_of(alloc: Global, known: &Explanation<'_>) -> Result<String, AllocError>
    ensures { IfOk result (λ text. IsTextOf known.now (string_bytes text)) }
{
    let mut text = String::new(alloc);
    say_broken(known, &mut text)?;
    let mut page = Page::new(alloc);
    tell(known, &mut page);
    let rest = page.into_text()?;
    text.push_str(rest.as_str())?;
    Ok(text)
}

// An object on one line.
fn json_of(alloc: Global, known: &Explanation<'_>) -> Result<String, AllocError>
    ensures { IfOk result (λ text. IsJsonOf known.now (string_bytes text)) }
{
    let mut nested = NestedObject::new(alloc);
    tell(known, &mut nested);
    let members = nested.into_members()?;
    let mut object = Object::of(alloc, members);
    put_facts(known, &mut object);
    object.into_text()
}

impl<I: Index> Witness<I> for Explaining {
    ghost tells = { λ explaining wrongs. Unit {0} };

    // Up to the reply it remembers how forwards for its path ended.
    ghost hears = { λ explaining h. HasHeard explaining h };

    fn pass(&mut self, passed: &PassedRecord<'_, I>) -> Result<(), AllocError> {
        if self.found.position <= passed.position {
            self.is_after = true;
            return Ok(());
        }
        self.past.pass(passed)
    }

    fn see(&mut self, judged: &JudgedReply<'_, I>) -> Result<(), AllocError> {
        if judged.position < self.found.position {
            self.past.answer(judged.exchange, judged.position);
            return Ok(());
        }
        self.is_after = true;
        self.tell(judged)
    }
}
