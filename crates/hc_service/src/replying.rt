//! The replies that a request gets, each for itself, with what Cache-Status says of it.

ghost use Rattle.std.specs.Prelude.{◌≡◌, ◌<◌, IfOk, false, option_copied};
ghost use Rattle.hc_fields.specs.Numbers.{end_of_moments};
ghost use Rattle.hc_service.specs.Cases.{word_of};
ghost use Rattle.hc_service.specs.Replying.{entry_reply, entry_status, failure_status, hit_reply, made_reply, passed_reply, replacing_reply, status_told, collapsed_reply};

use crate::cases::Cause;
use crate::serving::{has_still, ttl_at};
use hc_fields::Octets;
use hc_framing::Message;
use hc_fresh::stale_forbidden;
use hc_head::{RequestHead, ResponseHead, StatusCode, is_head};
use hc_replies::{forwarded_reply, generated_reply, not_modified_reply, stored_reply};
use hc_status::{CacheStatus, Handling};
use hc_update::Stored;
use std::alloc::{AllocError, Global};
use std::marker::Model;

/// A reply that is wanted. Contracts see it as a `Wanted` of the definitions.
#[derive(Drop)]
pub struct WantedReply<'a> {
    /// The name of the cache.
    pub name: &'a Octets,
    /// The moment, in whole seconds since 1970.
    pub moment: u64,
    /// The head of the request, as it was received.
    pub asked: &'a RequestHead,
    /// Whether the connection closes behind the reply.
    pub closes: bool,
}

impl<'a> Model for WantedReply<'a> {
    ghost use Rattle.hc_service.specs.Replying.{Wanted};

    ghost Value = { Wanted };

    ghost view = { λ w. record { name = w.name.now; moment = w.moment; asked = w.asked.now; closes = w.closes } };
}

/// A reply of that status that the cache makes itself, which bears no mark.
pub fn made_reply(
    alloc: Global,
    wanted: &WantedReply<'_>,
    status: StatusCode,
) -> Result<Message<ResponseHead>, AllocError>
    requires { wanted.now.moment < end_of_moments }
    ensures { IfOk result (λ reply. reply ≡ made_reply wanted.now status) }
{
    generated_reply(alloc, status, wanted.moment, wanted.closes)
}

/// What a client gets of a stored response, marked so: that what it has still holds, where its condition
/// does, else the stored response.
fn entry_reply(
    alloc: Global,
    wanted: &WantedReply<'_>,
    handling: Handling,
    stored: &Stored,
) -> Result<Message<ResponseHead>, AllocError>
    ensures { IfOk result (λ reply. reply ≡ entry_reply wanted.now handling stored.now) }
{
    let status = CacheStatus {
        name: wanted.name.copy(alloc)?,
        handling,
    };
    if has_still(&wanted.asked.fields, stored) {
        return not_modified_reply(alloc, &status, wanted.closes, wanted.moment, stored);
    }
    let to_head = is_head(&wanted.asked.method);
    stored_reply(
        alloc,
        &status,
        wanted.closes,
        wanted.moment,
        to_head,
        stored,
    )
}

/// The status of that reply.
fn entry_status(wanted: &WantedReply<'_>, stored: &Stored) -> StatusCode
    ensures { result ≡ entry_status wanted.now stored.now }
{
    if has_still(&wanted.asked.fields, stored) {
        return StatusCode::NOT_MODIFIED;
    }
    stored.status
}

/// The origin's status, where the reply has another one (RFC 9211 section 2.3).
fn status_told(origin: Option<StatusCode>, status: StatusCode) -> Option<u16>
    ensures { result ≡ status_told origin status }
{
    match origin {
        None => None,
        Some(told) => {
            if told == status {
                return None;
            }
            Some(told.as_u16())
        }
    }
}

/// A hit, with the seconds for which it is fresh still. The body is shared.
pub fn hit_reply(
    alloc: Global,
    wanted: &WantedReply<'_>,
    stored: &Stored,
) -> Result<Message<ResponseHead>, AllocError>
    ensures { IfOk result (λ reply. reply ≡ hit_reply wanted.now stored.now) }
{
    let ttl = Some(ttl_at(stored, wanted.moment));
    entry_reply(alloc, wanted, Handling::Hit { ttl }, stored)
}

/// That a request went forward, and what is stored is its reply.
fn forwarded(
    alloc: Global,
    cause: Cause,
    fwd_status: Option<u16>,
    collapsed: bool,
) -> Result<Handling, AllocError>
    ensures { IfOk result (λ handling. handling ≡ Handling.Fwd (word_of cause) fwd_status false collapsed) }
{
    Ok(Handling::Fwd {
        word: Octets::from_slice(alloc, cause.word().as_bytes())?,
        fwd_status,
        stored: false,
        collapsed,
    })
}

/// A stored response, once the origin's answer of that status has validated it, or in place of an error of
/// that status, or of a failure. The body is shared.
pub fn replacing_reply(
    alloc: Global,
    wanted: &WantedReply<'_>,
    cause: Cause,
    origin: Option<StatusCode>,
    stored: &Stored,
) -> Result<Message<ResponseHead>, AllocError>
    ensures { IfOk result (λ reply. reply ≡ replacing_reply wanted.now cause origin stored.now) }
{
    let told = status_told(origin, entry_status(wanted, stored));
    let handling = forwarded(alloc, cause, told, false)?;
    entry_reply(alloc, wanted, handling, stored)
}

/// A stored response, for a request that waited for the forward of another one. The body is shared.
pub fn collapsed_reply(
    alloc: Global,
    wanted: &WantedReply<'_>,
    stored: &Stored,
) -> Result<Message<ResponseHead>, AllocError>
    ensures { IfOk result (λ reply. reply ≡ collapsed_reply wanted.now stored.now) }
{
    let handling = forwarded(alloc, Cause::UriMiss, None, true)?;
    entry_reply(alloc, wanted, handling, stored)
}

/// What the origin answered; `stored` tells whether it was put into the store. The body is moved.
pub fn passed_reply(
    alloc: Global,
    wanted: &WantedReply<'_>,
    cause: Cause,
    stored: bool,
    response: Message<ResponseHead>,
) -> Result<Message<ResponseHead>, AllocError>
    requires { wanted.now.moment < end_of_moments }
    ensures { IfOk result (λ reply. reply ≡ passed_reply wanted.now cause stored response) }
{
    let status = CacheStatus {
        name: wanted.name.copy(alloc)?,
        handling: Handling::Fwd {
            word: Octets::from_slice(alloc, cause.word().as_bytes())?,
            fwd_status: None,
            stored,
            collapsed: false,
        },
    };
    forwarded_reply(alloc, &status, wanted.closes, wanted.moment, response)
}

/// The status of the reply where the origin gave no answer, by the stored response that is chosen then.
pub fn failure_status(chosen: Option<&Stored>) -> StatusCode
    ensures { result ≡ failure_status (option_copied chosen.entry) }
{
    match chosen {
        None => StatusCode::BAD_GATEWAY,
        Some(stored) => {
            if stale_forbidden(&stored.fields) {
                return StatusCode::GATEWAY_TIMEOUT;
            }
            StatusCode::BAD_GATEWAY
        }
    }
}
