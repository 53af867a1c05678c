//! What an open exchange gets once its forward ends, and what the store is told.

ghost use Rattle.std.specs.Prelude.{◌≡◌, ◌<◌, false, IfOk, OnOk};
ghost use Rattle.std.specs.Option.{option_copied};
ghost use Rattle.hc_fields.specs.Numbers.{end_of_moments};
ghost use Rattle.hc_service.specs.Choices.{OnTest, Stores, is_put, may_update};
ghost use Rattle.hc_service.specs.Cases.{asks_store};
ghost use Rattle.hc_service.specs.Answers.{Fails, FailsByStore, Passes, Renews, Replaces, Responds, StoresBehind, failed_outcome, has_condition, is_news, is_replaceable, is_unasked, is_validation, replacement, rule_of, validated_outcome};
ghost use Rattle.hc_service.specs.Answers.Outcome.{Replies};
ghost use Rattle.hc_service.specs.Choices.{validated_by};
ghost use Rattle.hc_service.specs.State.{is_conditional};
ghost use Rattle.hc_reactions.specs.Outcomes.{Answered, GivesReplacement, owed_outcome, replacing};

use hc_framing::Message;
use hc_head::{RequestHead, ResponseHead, StatusCode, is_error_status, is_get, is_get_or_head};
use hc_rules::may_store;
use hc_service::{
    Cause, ForwardKind, OpenForward, WantedReply, failure_status, made_reply, may_replace,
    passed_reply, replacing_reply,
};
use hc_store::{NotModified, Put, Store};
use hc_update::{Stored, initial, invalidates};
use std::alloc::{AllocError, Global};
use std::hash::BuildHasher;

/// What an open exchange gets once the origin has answered its forward.
#[derive(Drop)]
pub enum Outcome {
    /// Its reply.
    Replies(Message<ResponseHead>),
    /// Nothing yet: what it was to be answered from is gone, so it goes to the origin anew (RFC 9111
    /// section 4.3.3).
    GoesAnew,
}

/// A forward that was sent for an open exchange, and that the origin has answered.
#[derive(Drop)]
pub struct AnsweredForward {
    /// The request, as it was sent.
    pub sent: OpenForward,
    /// Why it went to the origin.
    pub cause: Cause,
    /// How it went there.
    pub kind: ForwardKind,
}

/// Whether a response is a 304 to a GET.
fn may_update(forward: &OpenForward, response: &ResponseHead) -> bool
    ensures { result ≡ may_update forward.now response.now }
{
    response.status == StatusCode::NOT_MODIFIED && is_get(&forward.request.method)
}

/// Tells the store of a response to the forward, whomever it is for: what is stored of its target goes where
/// the response invalidates it (RFC 9111 section 4.4), and a 304 to a GET freshens what it is about (section
/// 4.3.4). It came at that moment, in whole seconds since 1970 and before the year 10000, and its record
/// stands at that position.
pub fn renew<S: BuildHasher>(
    store: &mut Store<S>,
    forward: &OpenForward,
    moment: u64,
    position: u64,
    response: &ResponseHead,
)
    requires { moment < end_of_moments }
    ensures { Renews forward.now moment position response.now store.old store.new }
{
    if invalidates(&forward.request.method, response.status) {
        store.invalidate(&forward.target);
    }
    if may_update(forward, response) {
        let not_modified = NotModified {
            forward: &forward.request,
            head: response,
            request_time: forward.moment,
            response_time: moment,
            position,
        };
        store.freshen(&forward.target, not_modified);
    }
}

/// Whether a response was put.
fn is_put(put: Put) -> bool
    ensures { result ≡ is_put put }
{
    match put {
        Put::Stored => true,
        Put::SetsCookie => false,
        Put::TooLarge => false,
        Put::NoMemory => false,
    }
}

/// Stores a response where it may be stored, and tells whether it was. Its head is copied, and its body
/// shared.
fn store_response<S: BuildHasher>(
    alloc: Global,
    store: &mut Store<S>,
    forward: OpenForward,
    moment: u64,
    response: &Message<ResponseHead>,
) -> Result<bool, AllocError>
    requires { moment < end_of_moments }
    ensures { IfOk result (λ stored. Stores forward moment response.now store.old stored store.new) }
{
    if !may_store(&forward.request, &response.head) {
        return Ok(false);
    }
    let same = Message {
        head: ResponseHead {
            status: response.head.status,
            version: response.head.version,
            fields: response.head.fields.copy(alloc)?,
        },
        body: response.body.share()?,
    };
    let sent = forward.moment;
    let (request, target) = forward.into_parts();
    let stored = initial(alloc, request, sent, same, moment)?;
    Ok(is_put(store.put(target, stored)))
}

/// Whether a response says neither that what is stored still holds nor that the origin can't answer
/// now.
fn is_news(response: &ResponseHead) -> bool
    ensures { result ≡ is_news response.now }
{
    response.status != StatusCode::NOT_MODIFIED && !is_error_status(response.status)
}

/// Stores the response to a forward for the store alone, which came at that moment, in whole seconds since
/// 1970 and before the year 10000: where it is no 304 and no error that says that the origin can't
/// answer now, and where it may be stored (RFC 9111 section 3). The body is shared.
pub fn store_behind<S: BuildHasher>(
    alloc: Global,
    store: &mut Store<S>,
    forward: OpenForward,
    moment: u64,
    response: &Message<ResponseHead>,
) -> Result<(), AllocError>
    requires { moment < end_of_moments }
    ensures { OnOk result (StoresBehind forward moment response.now store.old store.new) }
{
    if !is_news(&response.head) {
        return Ok(());
    }
    store_response(alloc, store, forward, moment, response)?;
    Ok(())
}

/// Whether a forward asked whether something still holds.
fn has_condition(sent: &RequestHead) -> bool
    ensures { result ≡ has_condition sent.now }
{
    sent.fields.contains(b"if-none-match") || sent.fields.contains(b"if-modified-since")
}

/// Whether a response is a 304 that the forward didn't ask for.
fn is_unasked(forward: &OpenForward, response: &ResponseHead) -> bool
    ensures { result ≡ is_unasked forward.now.request response.now }
{
    if response.status != StatusCode::NOT_MODIFIED {
        return false;
    }
    if !is_get_or_head(&forward.request.method) {
        return false;
    }
    !has_condition(&forward.request)
}

/// Stores a response where the store was asked and it may be stored, and tells whether it was.
fn store_asked<S: BuildHasher>(
    alloc: Global,
    store: &mut Store<S>,
    forward: OpenForward,
    cause: Cause,
    moment: u64,
    response: &Message<ResponseHead>,
) -> Result<bool, AllocError>
    requires { moment < end_of_moments }
    ensures { IfOk result (λ stored. OnTest (asks_store cause)
        (Stores forward moment response.now store.old stored store.new) ((stored ≡ false) × (store.new ≡ store.old))) }
{
    if !cause.asks_store() {
        return Ok(false);
    }
    store_response(alloc, store, forward, moment, response)
}

/// The response as the reply. It is put first where the store was asked and it may be stored.
fn pass<S: BuildHasher>(
    alloc: Global,
    store: &mut Store<S>,
    wanted: &WantedReply<'_>,
    forward: OpenForward,
    cause: Cause,
    response: Message<ResponseHead>,
) -> Result<Message<ResponseHead>, AllocError>
    requires { wanted.now.moment < end_of_moments }
    ensures { IfOk result (λ reply. Passes (record { wanted = wanted.now; forward = forward; cause = cause; response = response })
        store.old (Replies reply) store.new) }
{
    let stored = store_asked(alloc, store, forward, cause, wanted.moment, &response)?;
    passed_reply(alloc, wanted, cause, stored, response)
}

/// Whether a response answers the cache's own condition: that what is stored still holds.
fn is_validation(kind: ForwardKind, response: &ResponseHead) -> bool
    ensures { result ≡ is_validation (is_conditional kind) response.now }
{
    kind.is_conditional() && response.status == StatusCode::NOT_MODIFIED
}

/// What a request gets once what is stored is validated: the stored response that the record at that
/// position validated, if there is one still.
fn validated_outcome<S: BuildHasher>(
    alloc: Global,
    store: &Store<S>,
    wanted: &WantedReply<'_>,
    forward: &OpenForward,
    cause: Cause,
    position: u64,
) -> Result<Outcome, AllocError>
    ensures { IfOk result (λ outcome. owed_outcome outcome ≡ validated_outcome wanted.now cause
        (validated_by forward.now.target wanted.now.asked.fields position store.now)) }
{
    match store.choose_validated(&forward.target, &wanted.asked.fields, position)? {
        None => Ok(Outcome::GoesAnew),
        Some(stored) => Ok(Outcome::Replies(replacing_reply(
            alloc,
            wanted,
            cause,
            Some(StatusCode::NOT_MODIFIED),
            stored,
        )?)),
    }
}

/// The stored response that the store chose as the reply, where it may take the place of an error of that
/// status, or of a failure.
fn replacement(
    alloc: Global,
    wanted: &WantedReply<'_>,
    cause: Cause,
    origin: Option<StatusCode>,
    chosen: Option<&Stored>,
) -> Result<Option<Message<ResponseHead>>, AllocError>
    ensures { IfOk result (λ reply. reply ≡ replacing wanted.now cause origin (replacement wanted.now (option_copied chosen.entry))) }
{
    let Some(stored) = chosen else {
        return Ok(None);
    };
    if !may_replace(&wanted.asked.fields, stored, wanted.moment) {
        return Ok(None);
    }
    Ok(Some(replacing_reply(alloc, wanted, cause, origin, stored)?))
}

/// Whether a response is an error, in whose place what is stored may be the reply.
fn is_replaceable(cause: Cause, response: &ResponseHead) -> bool
    ensures { result ≡ is_replaceable cause response.now }
{
    cause.asks_store() && is_error_status(response.status)
}

/// What the store chooses now as the reply, where it may take the place of that error.
fn replace_by_store<S: BuildHasher>(
    alloc: Global,
    store: &mut Store<S>,
    wanted: &WantedReply<'_>,
    forward: &OpenForward,
    cause: Cause,
    response: &Message<ResponseHead>,
) -> Result<Option<Message<ResponseHead>>, AllocError>
    ensures { IfOk result (λ reply. GivesReplacement (record { wanted = wanted.now; forward = forward.now; cause = cause; response = response.now })
        store.old reply store.new) }
{
    let choice = store.choose(&forward.target, &wanted.asked.fields)?;
    replacement(
        alloc,
        wanted,
        cause,
        Some(response.head.status),
        choice.chosen,
    )
}

/// The reply in place of an error: what the store chooses, where it may be; else the error.
fn replace<S: BuildHasher>(
    alloc: Global,
    store: &mut Store<S>,
    wanted: &WantedReply<'_>,
    forward: OpenForward,
    cause: Cause,
    response: Message<ResponseHead>,
) -> Result<Message<ResponseHead>, AllocError>
    requires { wanted.now.moment < end_of_moments }
    ensures { IfOk result (λ reply. Replaces (record { wanted = wanted.now; forward = forward; cause = cause; response = response })
        store.old (Replies reply) store.new) }
{
    if let Some(reply) = replace_by_store(alloc, store, wanted, &forward, cause, &response)? {
        return Ok(reply);
    }
    pass(alloc, store, wanted, forward, cause, response)
}

/// The reply to a request by a response that is no validation.
fn answered<S: BuildHasher>(
    alloc: Global,
    store: &mut Store<S>,
    wanted: &WantedReply<'_>,
    forward: OpenForward,
    cause: Cause,
    response: Message<ResponseHead>,
) -> Result<Message<ResponseHead>, AllocError>
    requires { wanted.now.moment < end_of_moments }
    ensures { IfOk result (λ reply. Answered (record { wanted = wanted.now; forward = forward; cause = cause; response = response })
        store.old (Replies reply) store.new) }
{
    if is_unasked(&forward, &response.head) {
        return made_reply(alloc, wanted, StatusCode::BAD_GATEWAY);
    }
    if is_replaceable(cause, &response.head) {
        return replace(alloc, store, wanted, forward, cause, response);
    }
    pass(alloc, store, wanted, forward, cause, response)
}

/// What an open exchange gets by the response to its forward, which the store was told of
/// (`renew`), and whose record stands at that position. The first that holds decides:
///
/// - A 304 that answers the cache's own condition: the stored response that it
///   validated, or, where that is gone, nothing yet (RFC 9111 section 4.3.3).
/// - A 304 that the forward didn't ask for: a 502.
/// - An error that says that the origin can't answer now, where the store was asked before the request
///   went out: what is stored, where it may be served stale then (RFC 5861 section 4).
/// - Else the response itself, which is put first where the store was asked and where it may be stored
///   (RFC 9111 section 3).
///
/// The moment of the reply, which is also that of the response, lies before the year 10000.
pub fn respond<S: BuildHasher>(
    store: &mut Store<S>,
    wanted: &WantedReply<'_>,
    forward: AnsweredForward,
    position: u64,
    response: Message<ResponseHead>,
) -> Result<Outcome, AllocError>
    requires { wanted.now.moment < end_of_moments }
    ensures { IfOk result (λ outcome. Responds
        (rule_of forward.cause (is_conditional forward.kind) forward.sent.request response.head)
        (record { wanted = wanted.now; forward = forward.sent; cause = forward.cause; response = response })
        position store.old (owed_outcome outcome) store.new) }
{
    let alloc = response.head.fields.alloc();
    let AnsweredForward { sent, cause, kind } = forward;
    if is_validation(kind, &response.head) {
        return validated_outcome(alloc, store, wanted, &sent, cause, position);
    }
    Ok(Outcome::Replies(answered(alloc, store, wanted, sent, cause, response)?))
}

/// The reply to a request whose forward failed, by what the store chose.
fn failed_reply(
    alloc: Global,
    wanted: &WantedReply<'_>,
    cause: Cause,
    chosen: Option<&Stored>,
) -> Result<Message<ResponseHead>, AllocError>
    requires { wanted.now.moment < end_of_moments }
    ensures { IfOk result (λ reply. Replies reply ≡ failed_outcome wanted.now cause (option_copied chosen.entry)
        (replacement wanted.now (option_copied chosen.entry))) }
{
    let replaced = replacement(alloc, wanted, cause, None, chosen)?;
    match replaced {
        Some(reply) => Ok(reply),
        None => made_reply(alloc, wanted, failure_status(chosen)),
    }
}

/// The reply to a request whose forward failed; the store is asked once more.
fn fail_by_store<S: BuildHasher>(
    alloc: Global,
    store: &mut Store<S>,
    wanted: &WantedReply<'_>,
    forward: &OpenForward,
    cause: Cause,
) -> Result<Message<ResponseHead>, AllocError>
    requires { wanted.now.moment < end_of_moments }
    ensures { IfOk result (λ reply. FailsByStore wanted.now forward.now.target cause store.old (Replies reply) store.new) }
{
    let choice = store.choose(&forward.target, &wanted.asked.fields)?;
    failed_reply(alloc, wanted, cause, choice.chosen)
}

/// The reply to a request whose forward failed. Where the store was asked before the request went out, for
/// that cause, it is asked again, and what it chooses is the reply where it may be served stale then (RFC
/// 5861 section 4), or else forbids it, which gives a 504 (RFC 9111 section 5.2.2.2). Otherwise a 502.
/// The moment of the reply lies before the year 10000.
pub fn fail<S: BuildHasher>(
    alloc: Global,
    store: &mut Store<S>,
    wanted: &WantedReply<'_>,
    forward: &OpenForward,
    cause: Cause,
) -> Result<Message<ResponseHead>, AllocError>
    requires { wanted.now.moment < end_of_moments }
    ensures { IfOk result (λ reply. Fails wanted.now forward.now.target cause store.old (Replies reply) store.new) }
{
    if !cause.asks_store() {
        return made_reply(alloc, wanted, StatusCode::BAD_GATEWAY);
    }
    fail_by_store(alloc, store, wanted, forward, cause)
}
