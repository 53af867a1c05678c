//! The replies.

ghost use Rattle.std.specs.Prelude.{◌≡◌, ◌<◌, IfOk};
ghost use Rattle.hc_fields.specs.Numbers.{end_of_moments};
ghost use Rattle.hc_replies.specs.Replies.{forwarded_reply, generated_reply, not_modified_reply, reply, stored_reply};

use crate::lines::{
    kept_statuses, passed_back, push_age, push_closing, push_lines_behind, repeated,
};
use hc_fields::{Field, Fields, SharedOctets};
use hc_framing::Message;
use hc_fresh::{current_age, date_text, dated};
use hc_head::{ResponseHead, StatusCode, Version};
use hc_status::CacheStatus;
use hc_update::Stored;
use std::alloc::{AllocError, Global};

fn reply(status: StatusCode, fields: Fields, body: SharedOctets) -> Message<ResponseHead>
    ensures { result ≡ reply status fields body }
{
    Message {
        head: ResponseHead {
            status,
            version: Version::Http11,
            fields,
        },
        body,
    }
}

/// The reply that hands on what the origin answered at that moment, which lies before the year 10000:
/// without what is for the origin's connection (RFC 9110 section 7.6.1), and with one Date (section
/// 6.6.1). `status` is what the cache says of it, and `closes` whether the client's connection closes
/// behind it. The body is moved.
pub fn forwarded_reply(
    alloc: Global,
    status: &CacheStatus,
    closes: bool,
    moment: u64,
    response: Message<ResponseHead>,
) -> Result<Message<ResponseHead>, AllocError>
    requires { moment < end_of_moments }
    ensures { IfOk result
        (λ r. r ≡ forwarded_reply status.now.name status.now.handling closes moment response) }
{
    let Message { head, body } = response;
    let fields = passed_back(alloc, &head.fields)?;
    let fields = kept_statuses(alloc, fields)?;
    let mut fields = dated(fields, moment)?;
    push_lines_behind(&mut fields, status, closes)?;
    Ok(reply(head.status, fields, body))
}

/// The reply that a stored response gives at that moment, with its age; `to_head` tells whether the
/// request is HEAD, which gets no body (RFC 9110 section 9.3.2). The body is shared.
pub fn stored_reply(
    alloc: Global,
    status: &CacheStatus,
    closes: bool,
    moment: u64,
    to_head: bool,
    state: &Stored,
) -> Result<Message<ResponseHead>, AllocError>
    ensures { IfOk result
        (λ r. r ≡ stored_reply status.now.name status.now.handling closes moment to_head state.now) }
{
    let mut fields = kept_statuses(alloc, state.fields.copy(alloc)?)?;
    push_age(&mut fields, current_age(state.times, moment))?;
    push_lines_behind(&mut fields, status, closes)?;
    let body = if to_head {
        SharedOctets::new()
    } else {
        state.body.share()?
    };
    Ok(reply(state.status, fields, body))
}

/// The reply by which a stored response tells at that moment that what the client has of it still
/// holds (RFC 9110 section 15.4.5).
pub fn not_modified_reply(
    alloc: Global,
    status: &CacheStatus,
    closes: bool,
    moment: u64,
    state: &Stored,
) -> Result<Message<ResponseHead>, AllocError>
    ensures { IfOk result
        (λ r. r ≡ not_modified_reply status.now.name status.now.handling closes moment state.now) }
{
    let mut fields = repeated(alloc, &state.fields)?;
    push_age(&mut fields, current_age(state.times, moment))?;
    push_lines_behind(&mut fields, status, closes)?;
    Ok(reply(StatusCode::NOT_MODIFIED, fields, SharedOctets::new()))
}

/// A reply of that status that the cache makes itself at that moment, which lies before the year
/// 10000. It has no body.
pub fn generated_reply(
    alloc: Global,
    status: StatusCode,
    moment: u64,
    closes: bool,
) -> Result<Message<ResponseHead>, AllocError>
    requires { moment < end_of_moments }
    ensures { IfOk result (λ r. r ≡ generated_reply status moment closes) }
{
    let mut fields = Fields::new(alloc);
    fields.push(Field::new(alloc, b"date", date_text(moment).as_slice())?)?;
    push_closing(&mut fields, closes)?;
    Ok(reply(status, fields, SharedOctets::new()))
}
