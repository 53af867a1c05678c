//! The first reading, which looks for the reply.

ghost use Rattle.std.specs.Prelude.{◌≡◌, ◌++◌, ℕ, suc, List, [], ◌∷◌, None, true, false, is_some, nat_le, slice_get, IfSome, IsSome, OnOk};
ghost use Rattle.hc_transcript.specs.Items.{Item};
ghost use Rattle.hc_history.specs.declared.wrong.WrongReply.{WrongReply};
ghost use Rattle.hc_audit.specs.Hearing.{IsReplyBehind, item_judged};
ghost use Rattle.hc_audit.specs.Told.{wrong_of};
ghost use Rattle.hc_why.specs.Found.{finding_of, position_of};
ghost use Rattle.hc_why.specs.Seeking.{HasFound, HasFoundAmong, HasHeard, IsFoundAt, IsOfPlace, first_of, has_passed, place_of, reason_in, wrong_at};
ghost use Rattle.hc_past.specs.Standing.{stands_at};

use crate::first::FirstWrong;
use crate::found::FoundReply;
use hc_audit::{JudgedReply, PassedRecord, Witness};
use hc_history::{Finding, Reason, WrongReply};
use hc_index::Index;
use std::alloc::{AllocError, Global};

impl FirstWrong {
    /// It has seen no reply.
    pub fn new(alloc: Global) -> Self
        ensures none { first_of result ≡ None }
        ensures found { HasFound result }
    {
        FirstWrong {
            alloc,
            first: None,
            found: None,
        }
    }

    /// The first wrong reply, if there was one.
    pub fn first_wrong(&self) -> Option<WrongReply>
        ensures { result ≡ first_of self.now }
    {
        self.first
    }

    /// Whether it was found, so that no further record tells more of it.
    pub fn is_behind(&self) -> bool
        ensures { result ≡ is_some (first_of self.now) }
    {
        self.first.is_some()
    }
}

impl<I: Index> Witness<I> for FirstWrong {
    ghost tells = { λ seeker wrongs. first_of seeker ≡ slice_get wrongs 0 };

    ghost hears = { λ seeker h. HasFound seeker };

    fn pass(&mut self, _: &PassedRecord<'_, I>) -> Result<(), AllocError> {
        Ok(())
    }

    fn see(&mut self, judged: &JudgedReply<'_, I>) -> Result<(), AllocError> {
        let Finding::Wrong(reason) = judged.finding else {
            return Ok(());
        };
        if self.first.is_some() {
            return Ok(());
        }
        let found = FoundReply::read(self.alloc, judged)?;
        self.first = Some(WrongReply {
            position: judged.position,
            reason,
        });
        self.found = found;
        Ok(())
    }
}

/// A witness that looks for the reply at a position.
pub struct ReplyAt {
    alloc: Global,
    position: u64,
    is_behind: bool,
    // Why the reply there is wrong, if it is.
    reason: Option<Reason>,
    found: Option<FoundReply>,
}

impl Drop for ReplyAt {
    fn drop(self) {
        let ReplyAt {
            alloc: _,
            position: _,
            is_behind: _,
            reason: _,
            found,
        } = self;
        drop(found);
    }
}

impl ReplyAt {
    /// It has seen no record.
    pub fn new(alloc: Global, position: u64) -> Self
        ensures place { place_of result ≡ position }
        ensures tells { IsFoundAt result [] }
        ensures hears { HasHeard result [] }
    {
        ReplyAt {
            alloc,
            position,
            is_behind: position == 0,
            reason: None,
            found: None,
        }
    }

    /// The position.
    pub fn position(&self) -> u64
        ensures { result ≡ place_of self.now }
    {
        self.position
    }

    /// What was found of the reply, which is moved. None where another record, or none, stands there.
    #[tactic(auto, using(crate::proofs::SeekingLemmas::not_standing))]
    pub fn into_found(mut self) -> Option<FoundReply>
        // It is wrong where one of the wrong replies stands there, by its reason.
        ensures place { (wrongs : List WrongReply) → IsFoundAt self wrongs
            → IfSome result (λ reply. IsOfPlace (place_of self) wrongs (position_of reply) (finding_of reply)) }
        // It stands there.
        ensures stands { (h : List Item) → HasHeard self h → IsSome result → stands_at (place_of self) h ≡ true }
        // Where there is none, no reply stands there,
        ensures no_reply { (h : List Item) → HasHeard self h → result ≡ None → stands_at (place_of self) h ≡ false }
        // and no wrong one is told of.
        ensures none { (h : List Item) (wrongs : List WrongReply) → HasHeard self h → IsFoundAt self wrongs → result ≡ None
            → wrong_at (place_of self) wrongs ≡ None }
    {
        self.found.take()
    }

    /// Whether the record at the position has passed, so that no further one tells more of it.
    pub fn is_behind(&self) -> bool
        ensures { result ≡ has_passed self.now }
    {
        self.is_behind
    }

    // Takes in that the record at that position has passed.
    fn pass_by(&mut self, position: u64)
        ensures told { (wrongs : List WrongReply) → IsFoundAt self.old wrongs → IsFoundAt self.new wrongs }
        ensures found { (h : List Item) → HasFoundAmong self.old h → HasFoundAmong self.new h }
        ensures passed { (before : ℕ) → position ≡ suc before → has_passed self.old ≡ nat_le (place_of self.old) before
            → has_passed self.new ≡ nat_le (place_of self.new) (suc before) }
    {
        if self.position <= position {
            self.is_behind = true;
        }
    }

    // Takes in a reply.
    fn take<I: Index>(&mut self, judged: &JudgedReply<'_, I>) -> Result<(), AllocError>
        ensures told { (wrongs : List WrongReply) → IsFoundAt self.old wrongs
            → OnOk result (IsFoundAt self.new (wrongs ++ wrong_of judged.now.position judged.now.finding)) }
        ensures found { (h : List Item) → HasFoundAmong self.old h → IsReplyBehind I.seen h judged.now
            → OnOk result (HasFoundAmong self.new (item_judged judged.now ∷ h)) }
        ensures kept { OnOk result ((place_of self.new ≡ place_of self.old) × (has_passed self.new ≡ has_passed self.old)) }
    {
        if judged.position != self.position {
            return Ok(());
        }
        if self.reason.is_some() {
            return Ok(());
        }
        self.reason = reason_in(judged.finding);
        self.found = FoundReply::read(self.alloc, judged)?;
        Ok(())
    }
}

// Why a reply is wrong of which that is found, if it is.
fn reason_in(finding: Finding) -> Option<Reason>
    ensures { result ≡ reason_in finding }
{
    match finding {
        Finding::Right => None,
        Finding::Wrong(reason) => Some(reason),
    }
}

impl<I: Index> Witness<I> for ReplyAt {
    ghost tells = { λ seeker wrongs. IsFoundAt seeker wrongs };

    ghost hears = { λ seeker h. HasHeard seeker h };

    fn pass(&mut self, passed: &PassedRecord<'_, I>) -> Result<(), AllocError> {
        self.pass_by(passed.position);
        Ok(())
    }

    fn see(&mut self, judged: &JudgedReply<'_, I>) -> Result<(), AllocError> {
        self.take(judged)?;
        self.pass_by(judged.position);
        Ok(())
    }
}
