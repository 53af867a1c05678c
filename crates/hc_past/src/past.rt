//! What is remembered of the records before a reply: how the forwards ended.

ghost use Rattle.std.specs.Prelude.{◌≡◌, ◌&&◌, ◌||◌, not, [], None, Some, IfOk, IfSome, OnOk, bytes_eq, option_and_then, option_copied, if◌then◌else◌};
ghost use Rattle.hc_use.specs.Forbidding.{forbids_nothing, forbids_of};
ghost use Rattle.std.specs.Option.{option_map};
ghost use Rattle.hc_head.specs.Targets.{same_target};
ghost use Rattle.hc_transcript.specs.Items.{item_number, moment_of};
ghost use Rattle.hc_transcript.specs.Records.{told_in};
ghost use Rattle.hc_history.specs.Forwarded.{asks_the_same};

use crate::window::asks_the_same;
use hc_audit::PassedRecord;
use hc_fields::{Fields, Octets, SharedOctets};
use hc_framing::{BodyView, RequestView, ResponseView};
use hc_gaps::has_body;
use hc_head::{
    Method, RequestHead, ResponseHead, ResponseHeadView, StatusCode, Target, is_error_status,
    is_head, same_target,
};
use hc_history::{ReplyClaim, carries, may_be_for};
use hc_index::{Index, RecordedForward};
use hc_shown::RecordName;
use hc_transcript::{Kind, MeaningView, ToldCause};
use hc_use::{Forbids, what_forbids};
use lru::{DefaultHasher, LruCache};
use std::alloc::{AllocError, Global};
use std::collections::{BTreeMap, VecDeque};
use std::num::NonZeroUsize;

/// How many ends of forwards are remembered, of whatever target.
const MOST_ENDS: usize = 1024;

/// Of how many targets it is remembered why a response may not be stored.
const MOST_TARGETS: usize = 4096;

/// The most octets of a body that is remembered where all targets are.
const LONGEST_BODY: usize = 16_384;

/// The head of a forward, and that of the response to it.
#[derive(Drop)]
pub struct Heads {
    /// The fields of the request that the forward was made for, as far as it is known for which, and that waits still.
    pub asked: Option<Fields>,
    /// What was sent to the origin.
    pub forward: RequestHead,
    /// What the origin answered.
    pub response: ResponseHead,
}

/// The end of a forward.
#[derive(Drop)]
pub struct End {
    /// Its record.
    pub named: RecordName,
    /// The record of the forward, where one target alone is remembered.
    pub sent: Option<RecordName>,
    /// What the forward asked for.
    pub target: Target,
    /// By which method.
    pub method: Method,
    /// The exchange that it was made for: none where no reply waits for it, and in the first format.
    pub cause: Option<u64>,
    /// The status of what the origin answered; none where it failed.
    pub status: Option<StatusCode>,
    /// What forbids to store the answer, if something does.
    pub forbids: Option<Forbids>,
    /// The body of the answer; none where that is too long to be remembered.
    pub body: Option<SharedOctets>,
    /// The heads, where one target alone is remembered.
    pub heads: Option<Heads>,
}

// A request that waits for its reply.
#[derive(Drop)]
struct Asked {
    // The position of its record.
    position: u64,
    fields: Fields,
}

/// What is remembered of the records before a reply: of one target, or of hosts that have its path, all ends of forwards,
/// with their heads and bodies; of all targets the latest ends, and what forbids to store the latest response of each. The latter
/// takes no more than so much memory.
pub struct Past {
    alloc: Global,
    // The one target, if it is one.
    only: Option<Target>,
    // The records of the open forwards by their numbers, where it is one target.
    sent: BTreeMap<u64, RecordName>,
    // The requests of the open exchanges by their numbers, where it is one target.
    asked: BTreeMap<u64, Asked>,
    // The position of the latest reply there, 0 where there is none.
    answered: u64,
    /// The ends of forwards that are remembered, the oldest first.
    pub ends: VecDeque<End>,
    /// The position of the latest end that is forgotten, 0 where none is.
    pub(crate) forgotten: u64,
    /// What forbids to store the latest response of a target that may not be stored.
    pub(crate) forbidden: LruCache<Target, Forbids, DefaultHasher>,
    /// Whether a target is forgotten of which a response may not be stored.
    pub(crate) has_forgotten_target: bool,
    ghost few_targets: { forbidden.cap ≡ 4096 },
}

impl Drop for Past {
    fn drop(self) {
        let Past {
            alloc: _,
            only,
            sent,
            asked,
            answered: _,
            ends,
            forgotten: _,
            forbidden,
            has_forgotten_target: _,
        } = self;
        drop(only);
        drop(sent);
        drop(asked);
        drop(ends);
        drop(forbidden);
    }
}

/// A head in memory of its own, but for how its target is written.
pub fn copied_request(alloc: Global, head: &RequestHead) -> Result<RequestHead, AllocError>
    ensures { IfOk result (λ copy. copy ≡ record head.now { target = [] }) }
{
    Ok(RequestHead {
        method: head.method.clone()?,
        target: Octets::new(alloc),
        version: head.version,
        fields: head.fields.copy(alloc)?,
    })
}

// What forbids to store that answer to that request, if something does.
fn forbidden_by(request: &RequestHead, answer: &ResponseHeadView<'_>) -> Option<Forbids>
    ensures { result ≡ (if forbids_nothing (forbids_of request.now answer.now) then None else Some (forbids_of request.now answer.now)) }
{
    let forbids = what_forbids(request, answer);
    if forbids.is_nothing() {
        None
    } else {
        Some(forbids)
    }
}

// Whether a target is forgotten, if it was so before, by one that is put among them where it was known, or pushed something out.
fn has_forgotten(before: bool, is_known: bool, is_pushed: bool) -> bool
    ensures { result ≡ (before || (not is_known && is_pushed)) }
{
    before || (!is_known && is_pushed)
}

// The record that passed, of that kind.
fn record_of<I>(passed: &PassedRecord<'_, I>, kind: Kind) -> RecordName
    ensures { result ≡ record { position = passed.now.position; kind = kind; number = item_number passed.now.item.now; moment = moment_of passed.now.item.now } }
{
    RecordName {
        position: passed.position,
        kind,
        number: passed.item.number(),
        moment: passed.item.moment(),
    }
}

impl Past {
    ghost use Rattle.std.specs.Prelude.{◌==◌, ℕ, true, None, Option, List, [], ◌∷◌, IsSome};
    ghost use Rattle.hc_framing.specs.declared.message.Message.{Message};
    ghost use Rattle.hc_head.specs.declared.head.ResponseHead.{ResponseHead};
    ghost use Rattle.hc_head.specs.declared.head.Target.{Target};
    ghost use Rattle.hc_transcript.specs.History.{cause_of, forward_of, next_position};
    ghost use Rattle.hc_transcript.specs.Items.{ClientReply, ClientRequest, Item, OriginRequest};
    ghost use Rattle.hc_audit.specs.Hearing.{IsRecordBehind, item_passed};
    ghost use Rattle.hc_past.specs.Remembered.{EndKnown, EndSeen, HasAsked, IsAlone, IsKnownOf, IsLatestOf, IsPastOf, Remembers, RemembersForbidden, RemembersKnown, RemembersLatest, all_forbidden, all_known_of, all_known_with, answered_by, any_ends_with, end_known, end_seen, ends_with, forbidden_first, forbidden_to, forbidden_with, heads_seen, is_alone, known_with, most_ends, named_as, open_sent, sent_of, short_body, short_end, without_target};

    /// Nothing, so far, of that target, of which all is remembered; or of all targets, of which the latest is.
    pub fn new(alloc: Global, only: Option<Target>) -> Result<Self, AllocError>
        ensures ends { (target : Target) → only ≡ Some target → IfOk result (IsPastOf target []) }
        ensures asked { (target : Target) → only ≡ Some target → IfOk result (HasAsked target []) }
        ensures known { (target : Target) → only ≡ Some target → IfOk result (IsKnownOf target []) }
        ensures latest { only ≡ None → IfOk result (IsLatestOf []) }
        ensures forbidden { only ≡ None → IfOk result (RemembersForbidden []) }
    {
        let targets = NonZeroUsize::new(MOST_TARGETS).unwrap();
        Ok(Past {
            alloc,
            only,
            sent: BTreeMap::new(alloc),
            asked: BTreeMap::new(alloc),
            answered: 0,
            ends: VecDeque::new(alloc),
            forgotten: 0,
            forbidden: LruCache::sparse(alloc, targets)?,
            has_forgotten_target: false,
        })
    }

    // Whether what was asked for has the path of the one target, where it is one.
    fn is_of_one(&self, target: &Target) -> bool
        ensures { (one : Target) → self.now.only ≡ Some one → result ≡ bytes_eq target.now.path one.path }
    {
        match &self.only {
            Some(only) => target.path == only.path,
            None => false,
        }
    }

    // Whether it is remembered how the forwards for that target ended.
    fn is_remembered(&self, target: &Target) -> bool
        ensures one { (one : Target) → self.now.only ≡ Some one → result ≡ bytes_eq target.now.path one.path }
        ensures all { self.now.only ≡ None → result ≡ true }
    {
        match &self.only {
            Some(only) => target.path == only.path,
            None => true,
        }
    }

    /// Takes in the next record. It fails only where memory is refused.
    pub fn pass<I: Index>(&mut self, passed: &PassedRecord<'_, I>) -> Result<(), AllocError>
        // Of one target it is the past of all items, if it was that of those before.
        ensures ends { (h : List Item) (target : Target) → IsPastOf target h self.old → IsRecordBehind I.seen h passed.now
            → OnOk result (IsPastOf target (item_passed passed.now ∷ h) self.new) }
        // So it is with what else is known of the ends.
        ensures known { (h : List Item) (target : Target) → IsKnownOf target h self.old → IsRecordBehind I.seen h passed.now
            → OnOk result (IsKnownOf target (item_passed passed.now ∷ h) self.new) }
        // Of all targets it is so with the latest ends.
        ensures latest { (h : List Item) → IsLatestOf h self.old → IsRecordBehind I.seen h passed.now → OnOk result (IsLatestOf (item_passed passed.now ∷ h) self.new) }
        // So it is with the targets of responses that may not be stored.
        ensures forbidden { (h : List Item) → RemembersForbidden (all_forbidden h) self.old → IsRecordBehind I.seen h passed.now
            → OnOk result (RemembersForbidden (all_forbidden (item_passed passed.now ∷ h)) self.new) }
        // So it is with what was asked.
        ensures asked { (h : List Item) (target : Target) → HasAsked target h self.old → IsRecordBehind I.seen h passed.now
            → OnOk result (HasAsked target (item_passed passed.now ∷ h) self.new) }
    {
        let item = passed.item;
        match &item.of {
            MeaningView::OriginRequest { target, .. } => self.take_sent(passed, target),
            MeaningView::ClientRequest { target, request } => self.take_asked(
                passed, target, request,
            ),
            MeaningView::OriginResponse(response) => {
                self.take(passed, Kind::OriginResponse, Some(response))
            }
            MeaningView::OriginFailure => self.take(passed, Kind::OriginFailure, None),
            MeaningView::ClientReply(_) => {
                self.answer(passed.item.number(), passed.position);
                Ok(())
            }
        }
    }

    // Takes in a forward for that target.
    fn take_sent<I: Index>(
        &mut self,
        passed: &PassedRecord<'_, I>,
        target: &Target,
    ) -> Result<(), AllocError>
        ensures ends { (one : Target) (ends : List EndSeen) → Remembers one ends self.old → Remembers one ends self.new }
        ensures known { (h : List Item) (one : Target) (request : Message RequestHead) (cause : Option ℕ) → IsKnownOf one h self.old → passed.now.position ≡ next_position h
            → OnOk result (IsKnownOf one (OriginRequest (item_number passed.now.item.now) (moment_of passed.now.item.now) request target.now cause ∷ h) self.new) }
        ensures latest { (most : ℕ) (ends : List EndSeen) → RemembersLatest most ends self.old → RemembersLatest most ends self.new }
        ensures forbidden { (all : List (Target × Forbids)) → RemembersForbidden all self.old → RemembersForbidden all self.new }
        ensures asked { (h : List Item) (one : Target) → HasAsked one h self.old → HasAsked one h self.new }
    {
        let number = passed.item.number();
        if !self.is_of_one(target) {
            self.sent.remove(&number);
            return Ok(());
        }
        let named = record_of(passed, Kind::OriginRequest);
        self.sent.insert(number, named)?;
        Ok(())
    }

    // Takes in a request for that target.
    fn take_asked<I: Index>(
        &mut self,
        passed: &PassedRecord<'_, I>,
        target: &Target,
        request: &RequestView<'_>,
    ) -> Result<(), AllocError>
        ensures ends { (one : Target) (ends : List EndSeen) → Remembers one ends self.old → Remembers one ends self.new }
        ensures known { (one : Target) (sent : ℕ → Option RecordName) (known : List EndKnown) → RemembersKnown one sent known self.old → RemembersKnown one sent known self.new }
        ensures latest { (most : ℕ) (ends : List EndSeen) → RemembersLatest most ends self.old → RemembersLatest most ends self.new }
        ensures forbidden { (all : List (Target × Forbids)) → RemembersForbidden all self.old → RemembersForbidden all self.new }
        ensures asked { (h : List Item) (one : Target) → HasAsked one h self.old → passed.now.position ≡ next_position h
            → OnOk result (HasAsked one (ClientRequest (item_number passed.now.item.now) (moment_of passed.now.item.now) request.now target.now ∷ h) self.new) }
    {
        let number = passed.item.number();
        if !self.is_of_one(target) {
            drop(self.asked.remove(&number));
            return Ok(());
        }
        let asked = Asked {
            position: passed.position,
            fields: request.head.fields.copy(self.alloc)?,
        };
        drop(self.asked.insert(number, asked)?);
        Ok(())
    }

    // The fields of the request that a forward was made for of that cause, if that is told, or only one can be meant.
    fn asked_for(&self, cause: Option<u64>) -> Option<&Fields> {
        match cause {
            Some(exchange) => Some(&self.asked.get(&exchange)?.fields),
            None if self.asked.len() == 1 => Some(&self.asked.values().next()?.fields),
            None => None,
        }
    }

    /// Takes in a reply to an exchange of the one target.
    pub fn answer(&mut self, exchange: u64, position: u64)
        ensures ends { (one : Target) (ends : List EndSeen) → Remembers one ends self.old → Remembers one ends self.new }
        ensures known { (one : Target) (sent : ℕ → Option RecordName) (known : List EndKnown) → RemembersKnown one sent known self.old → RemembersKnown one sent known self.new }
        ensures latest { (most : ℕ) (ends : List EndSeen) → RemembersLatest most ends self.old → RemembersLatest most ends self.new }
        ensures forbidden { (all : List (Target × Forbids)) → RemembersForbidden all self.old → RemembersForbidden all self.new }
        ensures asked { (h : List Item) (one : Target) (moment : ℕ) (reply : Message ResponseHead) → HasAsked one h self.old → position ≡ next_position h
            → HasAsked one (ClientReply exchange moment reply ∷ h) self.new }
    {
        if self.asked.remove(&exchange).is_none() {
            return;
        }
        self.answered = position;
    }

    /// Whether no exchange of the one target but the one whose request stands at that position has been open since.
    pub fn is_alone(&self, since: u64) -> bool
        ensures exact { result ≡ is_alone since self.now }
        // In the history none is open but one, and none was answered since.
        ensures alone { (h : List Item) (target : Target) → HasAsked target h self.now → result ≡ true → IsAlone target.path since h }
        ensures apart { (h : List Item) (target : Target) → HasAsked target h self.now → IsAlone target.path since h → result ≡ true }
    {
        let waiting = self.asked.len();
        self.answered < since && waiting <= 1
    }

    // Takes in the end of a forward: that response, or a failure.
    fn take<I: Index>(
        &mut self,
        passed: &PassedRecord<'_, I>,
        kind: Kind,
        response: Option<&ResponseView<'_>>,
    ) -> Result<(), AllocError>
        ensures asked { (h : List Item) (one : Target) → HasAsked one h self.old → HasAsked one h self.new }
        ensures forbidden { (h : List Item) (all : List (Target × Forbids)) → RemembersForbidden all self.old → IsRecordBehind I.seen h passed.now
            → OnOk result (RemembersForbidden (forbidden_to (option_copied response.entry) (forward_of (item_number passed.now.item.now) h) all) self.new) }
        ensures known { (h : List Item) (one : Target) → IsKnownOf one h self.old → IsRecordBehind I.seen h passed.now
            → OnOk result (RemembersKnown one (λ f. if (item_number passed.now.item.now) == f then None else open_sent one.path h f)
            (all_known_with one.path (sent_of (item_number passed.now.item.now) h) (option_copied response.entry) (forward_of (item_number passed.now.item.now) h) (all_known_of one.path h)) self.new) }
        ensures latest { (h : List Item) (ends : List EndSeen) → RemembersLatest most_ends ends self.old → IsRecordBehind I.seen h passed.now
            → OnOk result (RemembersLatest most_ends (any_ends_with (named_as kind passed.now.position (item_number passed.now.item.now) (moment_of passed.now.item.now))
            (cause_of (item_number passed.now.item.now) h) (option_copied response.entry) (forward_of (item_number passed.now.item.now) h) ends) self.new) }
        ensures ends { (h : List Item) (one : Target) (ends : List EndSeen) → Remembers one ends self.old → IsRecordBehind I.seen h passed.now
            → OnOk result (Remembers one (ends_with one.path (named_as kind passed.now.position (item_number passed.now.item.now) (moment_of passed.now.item.now)) (cause_of (item_number passed.now.item.now) h) (option_copied response.entry)
            (forward_of (item_number passed.now.item.now) h) ends) self.new) }
    {
        let number = passed.item.number();
        let Some(forward) = passed.index.forward(number) else {
            return Ok(());
        };
        if !self.is_remembered(&forward.target) {
            return Ok(());
        }
        let sent = self.sent.remove(&number);
        let mut end = End::begun(self.alloc, record_of(passed, kind), sent, forward)?;
        self.take_answer(&mut end, &forward.request, response)?;
        self.make_room();
        self.share_latest(passed.index);
        self.ends.push_back(end)?;
        Ok(())
    }

    // Has the body of the latest end in the memory of what the index keeps of the answer, where that has the same. The index
    // knows of it by now, so that each body is copied, and then shared, once.
    fn share_latest<I: Index>(&mut self, index: &I)
        ensures asked { (h : List Item) (one : Target) → HasAsked one h self.old → HasAsked one h self.new }
        ensures ends { (one : Target) (ends : List EndSeen) → Remembers one ends self.old → Remembers one ends self.new }
        ensures known { (one : Target) (sent : ℕ → Option RecordName) (known : List EndKnown) → RemembersKnown one sent known self.old → RemembersKnown one sent known self.new }
        ensures latest { (most : ℕ) (ends : List EndSeen) → RemembersLatest most ends self.old → RemembersLatest most ends self.new }
        ensures forbidden { (all : List (Target × Forbids)) → RemembersForbidden all self.old → RemembersForbidden all self.new }
    {
        if let Some(latest) = self.ends.pop_back() {
            self.ends.push_back_reserved(latest.sharing(index));
        }
    }

    // Takes in what is remembered of the answer to that request, if there is one: where one target alone is, all of it.
    fn take_answer(
        &mut self,
        end: &mut End,
        request: &RequestHead,
        response: Option<&ResponseView<'_>>,
    ) -> Result<(), AllocError>
        ensures kept { (one : Target) (ends : List EndSeen) → Remembers one ends self.old → Remembers one ends self.new }
        ensures known { (one : Target) (sent : ℕ → Option RecordName) (known : List EndKnown) → RemembersKnown one sent known self.old → RemembersKnown one sent known self.new }
        ensures latest { (most : ℕ) (ends : List EndSeen) → RemembersLatest most ends self.old → RemembersLatest most ends self.new }
        ensures forbidden { (all : List (Target × Forbids)) → RemembersForbidden all self.old
            → OnOk result (RemembersForbidden (forbidden_with end.old.target request.now (option_copied response.entry) all) self.new) }
        ensures asked { (h : List Item) (one : Target) → HasAsked one h self.old → HasAsked one h self.new }
        ensures short { self.old.only ≡ None → end.old.body ≡ None → OnOk result (end_seen end.new ≡ short_end (answered_by (option_copied response.entry) (end_seen end.old))) }
        ensures heads { IsSome self.old.only → OnOk result (end_known end.new ≡ known_with request.now (option_copied response.entry) (end_known end.old)) }
        ensures taken { IsSome self.old.only → OnOk result (end_seen end.new ≡ answered_by (option_copied response.entry) (end_seen end.old)) }
    {
        let Some(response) = response else {
            return Ok(());
        };
        let head = &response.head;
        end.forbids = forbidden_by(request, head);
        self.forbid(&end.target, end.forbids)?;
        end.status = Some(head.status);
        end.body = self.remembered_body(&response.body)?;
        end.heads = self.remembered_heads(end.cause, request, head)?;
        Ok(())
    }

    // The body of an answer, if it is remembered: of one target each is, and else one that isn't too long.
    fn remembered_body(&self, body: &BodyView<'_>) -> Result<Option<SharedOctets>, AllocError>
        ensures one { IsSome self.now.only → IfOk result (λ remembered. remembered ≡ Some body.now) }
        ensures all { self.now.only ≡ None → IfOk result (λ remembered. remembered ≡ short_body (Some body.now)) }
    {
        if self.only.is_none() && LONGEST_BODY < body.len() {
            return Ok(None);
        }
        Ok(Some(body.copy_shared(self.alloc)?))
    }

    // The heads, if they are remembered.
    fn remembered_heads(
        &self,
        cause: Option<u64>,
        request: &RequestHead,
        head: &ResponseHeadView<'_>,
    ) -> Result<Option<Heads>, AllocError>
        ensures { IsSome self.now.only → IfOk result (λ heads. heads_seen heads ≡ Some (record { forward = without_target request.now; response = head.now })) }
    {
        if self.only.is_none() {
            return Ok(None);
        }
        let asked = match self.asked_for(cause) {
            Some(fields) => Some(fields.copy(self.alloc)?),
            None => None,
        };
        Ok(Some(Heads {
            asked,
            forward: copied_request(self.alloc, request)?,
            response: head.copy(self.alloc)?,
        }))
    }

    // Takes in what forbids to store the latest response of a target, if something does.
    fn forbid(&mut self, target: &Target, forbids: Option<Forbids>) -> Result<(), AllocError>
        ensures only { self.new.only ≡ self.old.only }
        ensures asked { (h : List Item) (one : Target) → HasAsked one h self.old → HasAsked one h self.new }
        ensures ends { (one : Target) (ends : List EndSeen) → Remembers one ends self.old → Remembers one ends self.new }
        ensures known { (one : Target) (sent : ℕ → Option RecordName) (known : List EndKnown) → RemembersKnown one sent known self.old → RemembersKnown one sent known self.new }
        ensures latest { (most : ℕ) (ends : List EndSeen) → RemembersLatest most ends self.old → RemembersLatest most ends self.new }
        ensures forbidden { (all : List (Target × Forbids)) → RemembersForbidden all self.old
            → OnOk result (RemembersForbidden (forbidden_first target.now forbids all) self.new) }
    {
        let Some(forbids) = forbids else {
            return Ok(());
        };
        let is_known = self.forbidden.contains(target);
        let target = target.copy(self.alloc)?;
        let forgotten = self.forbidden.push(target, forbids)?;
        let is_pushed = forgotten.is_some();
        self.has_forgotten_target = has_forgotten(self.has_forgotten_target, is_known, is_pushed);
        Ok(())
    }

    // Forgets the oldest end where as many are remembered as may be, of all targets.
    fn make_room(&mut self)
        ensures asked { (h : List Item) (one : Target) → HasAsked one h self.old → HasAsked one h self.new }
        ensures ends { (one : Target) (ends : List EndSeen) → Remembers one ends self.old → Remembers one ends self.new }
        ensures forbidden { (all : List (Target × Forbids)) → RemembersForbidden all self.old → RemembersForbidden all self.new }
        ensures known { (one : Target) (sent : ℕ → Option RecordName) (known : List EndKnown) → RemembersKnown one sent known self.old → RemembersKnown one sent known self.new }
        // Then there is room for one more.
        ensures latest { (ends : List EndSeen) → RemembersLatest most_ends ends self.old → RemembersLatest 1023 ends self.new }
    {
        if self.only.is_some() {
            return;
        }
        if self.ends.len() < MOST_ENDS {
            return;
        }
        let Some(oldest) = self.ends.pop_front() else {
            return;
        };
        self.forgotten = oldest.named.position;
    }
}

impl End {
    ghost use Rattle.hc_index.specs.Lists.{forward_seen};
    ghost use Rattle.hc_past.specs.Remembered.{carries_answer, end_by, end_known, end_seen, fields_in, has_field, is_error_by_status, is_given, is_in_window, is_ok_to_head, may_answer};

    // That of an open forward, of which no answer is known yet.
    fn begun(
        alloc: Global,
        named: RecordName,
        sent: Option<RecordName>,
        forward: &RecordedForward,
    ) -> Result<Self, AllocError>
        ensures seen { IfOk result (λ end. end_seen end ≡ end_by named forward.now.cause None (forward_seen forward.now)) }
        ensures known { IfOk result (λ end. end_known end ≡ record { sent = sent; forbids = None; heads = None }) }
    {
        Ok(End {
            named,
            sent,
            target: forward.target.copy(alloc)?,
            method: forward.request.method.clone()?,
            cause: forward.cause,
            status: None,
            forbids: None,
            body: None,
            heads: None,
        })
    }

    // The body in the memory of what the index keeps of the answer, where that has the same.
    fn shared_body<I: Index>(&self, index: &I) -> Option<SharedOctets>
        ensures { IfSome result (λ shared. self.now.body ≡ Some shared) }
    {
        let body = self.body.as_ref()?;
        let kept = index.response(&self.target, self.named.position)?;
        if kept.body.as_slice() != body.as_slice() {
            return None;
        }
        kept.body.share().ok()
    }

    // The same end, of which the index and this share the body, where they can.
    fn sharing<I: Index>(mut self, index: &I) -> End
        ensures seen { end_seen result ≡ end_seen self }
        ensures known { end_known result ≡ end_known self }
    {
        if let Some(shared) = self.shared_body(index) {
            self.body = Some(shared);
        }
        self
    }

    /// Whether it is of that target.
    pub fn is_of(&self, target: &Target) -> bool
        ensures { result ≡ same_target self.now.target target.now }
    {
        same_target(&self.target, target)
    }

    /// What is told of the exchange that its forward was made for, in the recording of that reply.
    pub fn told_cause(&self, claim: &ReplyClaim<'_>) -> ToldCause
        ensures { result ≡ told_in claim.now.format self.now.cause }
    {
        ToldCause::told_in(claim.format, self.cause)
    }

    /// Whether its forward may have been made for the reply that claims that, as far as that is told.
    pub fn may_answer(&self, claim: &ReplyClaim<'_>) -> bool
        ensures { result ≡ may_answer claim.now (end_seen self.now) }
    {
        may_be_for(self.told_cause(claim), claim.exchange)
    }

    /// Whether the answer is known to have that field.
    pub fn has(&self, name: &[u8]) -> bool
        ensures { result ≡ has_field name.now (fields_in self.now.heads) }
    {
        match &self.heads {
            Some(heads) => heads.response.fields.contains(name),
            None => false,
        }
    }

    /// Whether it stands between the request and the reply that claims that.
    pub(crate) fn is_in_window(&self, claim: &ReplyClaim<'_>) -> bool
        ensures { result ≡ is_in_window claim.now (end_seen self.now) }
    {
        claim.since < self.named.position && self.is_of(claim.target)
    }

    /// Whether the reply has its status and its body, or no body where it answers HEAD.
    pub fn is_given(&self, claim: &ReplyClaim<'_>) -> bool
        ensures { result ≡ is_given claim.now (end_seen self.now) }
    {
        let Some(status) = self.status else {
            return false;
        };
        let Some(body) = &self.body else {
            return false;
        };
        claim.status() == status && has_body(&claim.request.method, claim.body(), body.as_slice())
    }

    // Whether what is known of the answer is what the reply carries.
    fn is_what_came(&self, claim: &ReplyClaim<'_>) -> bool
        ensures { result ≡ carries_answer claim.now self.now.method self.now.status self.now.body }
    {
        let Some(status) = self.status else {
            return false;
        };
        let Some(body) = &self.body else {
            return false;
        };
        carries(claim, &self.method, status, body.as_slice())
    }

    /// Whether the reply carries it, if it stands in the window: what came for its request, or a part of that where ranges are
    /// allowed.
    pub fn is_carried(&self, claim: &ReplyClaim<'_>) -> bool
        ensures { result ≡ (may_answer claim.now (end_seen self.now)
            && carries_answer claim.now self.now.method self.now.status self.now.body) }
    {
        self.may_answer(claim) && self.is_what_came(claim)
    }

    /// Whether its forward may have been made for the request of the reply that claims that, and asks the same.
    pub fn is_asked_for(&self, claim: &ReplyClaim<'_>) -> bool
        ensures { result ≡ (may_answer claim.now (end_seen self.now) && asks_the_same claim.now self.now.method) }
    {
        self.may_answer(claim) && asks_the_same(claim, &self.method)
    }

    /// Whether it is an error of the origin.
    pub fn is_error(&self) -> bool
        ensures { result ≡ is_error_by_status self.now.status }
    {
        match self.status {
            Some(status) => is_error_status(status),
            None => false,
        }
    }

    /// Whether it is a 200 to HEAD.
    pub fn is_ok_to_head(&self) -> bool
        ensures { result ≡ is_ok_to_head (end_seen self.now) }
    {
        let Some(status) = self.status else {
            return false;
        };
        is_head(&self.method) && status == StatusCode::OK
    }
}

/// The fields of an answer, if there is one of which they are remembered.
pub fn fields_of(end: Option<&End>) -> Option<&Fields>
    ensures { option_copied result ≡ option_map (λ heads. heads.response.fields) (option_and_then (λ end. end.heads) (option_copied end.entry)) }
{
    Some(&end?.heads.as_ref()?.response.fields)
}
