//! What a whole request gets at once: a reply, a forward, or another request's forward to wait for.

ghost use Rattle.std.specs.Prelude.{◌≡◌, ◌<◌, ◌&&◌, false, not, nat_lt, IfOk, None, if◌then◌else◌};
ghost use Rattle.std.specs.Option.{option_copied};
ghost use Rattle.hc_fields.specs.Numbers.{end_of_moments};
ghost use Rattle.hc_head.specs.declared.head.RequestHead.{RequestHead};
ghost use Rattle.hc_head.specs.declared.head.Target.{Target};
ghost use Rattle.hc_service.specs.State.{Awaited, OpenNow, Table};
ghost use Rattle.hc_service.specs.Reactions.{Reacts, ReactsUnlessJoined, bare, chosen_reaction, forward_anew, forward_reaction, hit_reaction, is_validated_behind, most_background, plain_forward, stored_forward};
ghost use Rattle.hc_service.specs.Reactions.Reaction.{Sends};
ghost use Rattle.hc_service.specs.Cases.{case_of, may_wait};
ghost use Rattle.hc_rules.specs.Forwards.{conditional_request};
ghost use Rattle.hc_reactions.specs.Reacting.{IsOpenBehind, IsUnderway, owed_reaction};

use crate::asking::{is_asked_after, wants_no_forward};
use hc_fields::SharedOctets;
use hc_framing::Message;
use hc_head::{RequestHead, ResponseHead, StatusCode, Target};
use hc_rules::{conditional_request, plain_request, unconditional_request};
use hc_service::{
    Case, Cause, ForwardKind, WantedReply, case_before_store, case_by_store, hit_reply, is_fresh,
    is_joinable, made_reply, plain_kind, while_revalidating,
};
use hc_store::Store;
use hc_update::Stored;
use std::alloc::{AllocError, Global};
use std::hash::BuildHasher;

/// The most forwards for the store alone that are open.
const MOST_BACKGROUND: usize = 1024;

/// What a whole request gets at once.
#[derive(Drop)]
pub enum Reaction {
    /// A hit.
    Replies {
        /// The reply.
        reply: Message<ResponseHead>,
        /// A request to the origin for the store alone, which validates what was served stale (RFC
        /// 5861 section 3).
        behind: Option<Message<RequestHead>>,
    },
    /// A 504, since the client wants no forward (RFC 9111 section 5.2.1.7).
    Declines {
        /// The reply.
        reply: Message<ResponseHead>,
    },
    /// A request to the origin.
    Sends {
        /// The request.
        request: Message<RequestHead>,
        /// Why it goes there.
        cause: Cause,
        /// How it goes there.
        kind: ForwardKind,
    },
    /// Nothing yet: it waits for the forward of another request.
    Waits {
        /// The number of the forward.
        forward: u64,
    },
}

/// The forwards for the store alone that are open.
#[derive(Clone, Copy)]
pub struct OpenBehind {
    /// How many there are.
    pub count: usize,
    /// Whether one of them is for the target of the request.
    pub for_target: bool,
}

/// What is open, as far as a request for a target asks.
#[derive(Clone, Copy)]
pub struct Underway {
    /// The forwards for the store alone.
    pub behind: OpenBehind,
    /// The least forward of another request that one for the target may wait for, if there is one.
    pub least_joinable: Option<u64>,
}

/// A request of that head without a body.
pub(crate) fn bare(head: RequestHead) -> Message<RequestHead>
    ensures { result ≡ bare head }
{
    Message {
        head,
        body: SharedOctets::new(),
    }
}

/// Whether one more forward for the store alone may be opened for the target.
fn has_place_behind(open_behind: OpenBehind) -> bool
    ensures { result ≡ (nat_lt open_behind.count most_background && not open_behind.for_target) }
{
    open_behind.count < MOST_BACKGROUND && !open_behind.for_target
}

/// Whether a stored response that is served is validated behind the reply.
fn is_validated_behind(stored: &Stored, moment: u64, open_behind: OpenBehind) -> bool
    ensures { (target : Target) (forwards : Table Awaited) → IsOpenBehind target forwards open_behind
        → result ≡ is_validated_behind stored.now moment target forwards }
{
    !is_fresh(stored, moment) && while_revalidating(stored, moment) && has_place_behind(open_behind)
}

/// A GET that asks whether what is stored still holds.
fn conditional_forward(
    alloc: Global,
    wanted: &WantedReply<'_>,
    target: &Target,
    asked: &RequestHead,
    stored: &Stored,
) -> Result<Message<RequestHead>, AllocError>
    ensures { IfOk result (λ forward. forward ≡ bare (conditional_request wanted.now.name target.now asked.now stored.now.fields)) }
{
    let head = conditional_request(alloc, wanted.name.as_slice(), target, asked, &stored.fields)?;
    Ok(bare(head))
}

/// A hit, and where it is stale, perhaps a validation behind it.
fn hit_reaction(
    alloc: Global,
    wanted: &WantedReply<'_>,
    target: &Target,
    open_behind: OpenBehind,
    stored: &Stored,
) -> Result<Reaction, AllocError>
    ensures { (forwards : Table Awaited) → IsOpenBehind target.now forwards open_behind → IfOk result
        (λ reaction. owed_reaction reaction ≡ hit_reaction wanted.now target.now forwards stored.now) }
{
    let reply = hit_reply(alloc, wanted, stored)?;
    if !is_validated_behind(stored, wanted.moment, open_behind) {
        return Ok(Reaction::Replies {
            reply,
            behind: None,
        });
    }
    let forward = conditional_forward(alloc, wanted, target, wanted.asked, stored)?;
    Ok(Reaction::Replies {
        reply,
        behind: Some(forward),
    })
}

/// The request as it goes to the origin. Its body is shared.
fn plain_forward(
    alloc: Global,
    wanted: &WantedReply<'_>,
    target: &Target,
    request: &Message<RequestHead>,
) -> Result<Message<RequestHead>, AllocError>
    ensures { IfOk result (λ forward. forward ≡ plain_forward wanted.now target.now request.now) }
{
    Ok(Message {
        head: plain_request(alloc, wanted.name.as_slice(), target, &request.head)?,
        body: request.body.share()?,
    })
}

/// The request for a second time, once it was answered by a 304 that validated nothing: without the
/// client's own conditions, so that no further 304 answers it.
pub fn forward_anew(
    alloc: Global,
    name: &[u8],
    target: &Target,
    asked: &RequestHead,
) -> Result<Message<RequestHead>, AllocError>
    ensures { IfOk result (λ forward. forward ≡ forward_anew name.now target.now asked.now) }
{
    Ok(bare(unconditional_request(alloc, name, target, asked)?))
}

/// A forward as the request came.
fn plain_reaction(
    alloc: Global,
    wanted: &WantedReply<'_>,
    target: &Target,
    request: &Message<RequestHead>,
    cause: Cause,
    kind: ForwardKind,
) -> Result<Reaction, AllocError>
    ensures { IfOk result (λ reaction. owed_reaction reaction ≡ Sends (plain_forward wanted.now target.now request.now) cause kind) }
{
    Ok(Reaction::Sends {
        request: plain_forward(alloc, wanted, target, request)?,
        cause,
        kind,
    })
}

/// A forward that asks after the stored response that was chosen, where it has a validator, or a plain
/// one.
fn stored_forward(
    alloc: Global,
    wanted: &WantedReply<'_>,
    target: &Target,
    request: &Message<RequestHead>,
    chosen: Option<&Stored>,
    cause: Cause,
) -> Result<Reaction, AllocError>
    ensures { IfOk result (λ reaction. owed_reaction reaction
        ≡ stored_forward wanted.now target.now request.now cause (option_copied chosen.entry)) }
{
    let Some(stored) = chosen else {
        let kind = plain_kind(cause, &request.head);
        return plain_reaction(alloc, wanted, target, request, cause, kind);
    };
    if !is_asked_after(&request.head, stored) {
        return plain_reaction(alloc, wanted, target, request, cause, ForwardKind::Plain);
    }
    Ok(Reaction::Sends {
        request: conditional_forward(alloc, wanted, target, &request.head, stored)?,
        cause,
        kind: ForwardKind::Conditional,
    })
}

/// A request that no stored response answers: it goes to the origin, unless the client wants no
/// forward.
fn forward_reaction(
    alloc: Global,
    wanted: &WantedReply<'_>,
    target: &Target,
    request: &Message<RequestHead>,
    chosen: Option<&Stored>,
    cause: Cause,
) -> Result<Reaction, AllocError>
    requires { wanted.now.moment < end_of_moments }
    ensures { IfOk result (λ reaction. owed_reaction reaction
        ≡ forward_reaction wanted.now target.now request.now (option_copied chosen.entry) cause) }
{
    if wants_no_forward(cause, &request.head) {
        return Ok(Reaction::Declines {
            reply: made_reply(alloc, wanted, StatusCode::GATEWAY_TIMEOUT)?,
        });
    }
    stored_forward(alloc, wanted, target, request, chosen, cause)
}

/// What the case makes of a request, with what the store chose.
fn chosen_reaction(
    wanted: &WantedReply<'_>,
    target: &Target,
    request: &Message<RequestHead>,
    open_behind: OpenBehind,
    chosen: Option<&Stored>,
    case: Case<'_>,
) -> Result<Reaction, AllocError>
    requires { wanted.now.moment < end_of_moments }
    ensures { (forwards : Table Awaited) → IsOpenBehind target.now forwards open_behind → IfOk result
        (λ reaction. owed_reaction reaction
        ≡ chosen_reaction wanted.now target.now request.now forwards (option_copied chosen.entry) (case_of case.entry)) }
{
    let alloc = request.head.fields.alloc();
    match case {
        Case::Hit(stored) => hit_reaction(alloc, wanted, target, open_behind, stored),
        Case::Forward(cause) => forward_reaction(alloc, wanted, target, request, chosen, cause),
    }
}

/// The forward that a request waits for: of those that it may wait for the least, where nothing is stored of its
/// target, and what answers another request may answer it.
fn joined(request: &Message<RequestHead>, is_known: bool, least: Option<u64>) -> Option<u64>
    ensures { result ≡ (if may_wait request.now.head is_known then least else None) }
{
    if is_joinable(&request.head) && !is_known {
        least
    } else {
        None
    }
}

/// What a request gets where no case holds before the store is asked.
fn react_by_store<S: BuildHasher>(
    alloc: Global,
    store: &mut Store<S>,
    wanted: &WantedReply<'_>,
    target: &Target,
    request: &Message<RequestHead>,
    underway: Underway,
) -> Result<Reaction, AllocError>
    requires { wanted.now.moment < end_of_moments }
    ensures { (open_now : OpenNow) → IsUnderway target.now open_now underway → IfOk result
        (λ reaction. ReactsUnlessJoined (record { request = request.now; target = target.now; wanted = wanted.now }) open_now
        store.old (owed_reaction reaction) store.new) }
{
    let fields = &request.head.fields;
    let choice = store.choose(target, fields)?;
    let chosen = choice.chosen;
    match joined(request, choice.is_known, underway.least_joinable) {
        Some(forward) => Ok(Reaction::Waits { forward }),
        None => {
            let case = case_by_store(fields, choice.is_known, chosen, wanted.moment);
            chosen_reaction(wanted, target, request, underway.behind, chosen, case)
        }
    }
}

/// What a request for that target gets: the first case that holds decides, and the store is asked where no
/// earlier one does. Where nothing is stored of the target, it may wait for the forward of another request, in
/// place of one of its own (RFC 9211 section 2.6). A hit shares the body of the stored response, and behind a
/// stale one what is stored is validated, where what is open leaves a place for that. The moment of the reply
/// that is wanted is in whole seconds since 1970, and lies before the year 10000.
pub fn react<S: BuildHasher>(
    alloc: Global,
    store: &mut Store<S>,
    wanted: &WantedReply<'_>,
    target: &Target,
    request: &Message<RequestHead>,
    underway: Underway,
) -> Result<Reaction, AllocError>
    requires { wanted.now.moment < end_of_moments }
    ensures { (open_now : OpenNow) → IsUnderway target.now open_now underway → IfOk result
        (λ reaction. Reacts (record { request = request.now; target = target.now; wanted = wanted.now }) open_now
        store.old (owed_reaction reaction) store.new) }
{
    match case_before_store(request) {
        Some(cause) => forward_reaction(alloc, wanted, target, request, None, cause),
        None => react_by_store(alloc, store, wanted, target, request, underway),
    }
}
