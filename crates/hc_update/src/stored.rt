//! A stored response and its changes.

ghost use Rattle.std.specs.Prelude.{◌≡◌, ◌<◌, IfOk};
ghost use Rattle.hc_fields.specs.Numbers.{end_of_moments};
ghost use Rattle.hc_update.specs.States.{initial_state, invalidates};

use crate::keeping::kept;
use hc_fields::{Fields, SharedOctets};
use hc_framing::Message;
use hc_fresh::Times;
use hc_head::{Method, RequestHead, ResponseHead, StatusCode, is_unsafe};
use std::alloc::{AllocError, Global};

/// A stored response, as the responses behind it have left it.
pub struct Stored {
    /// The request that it answers, as it was sent to the origin.
    pub request: RequestHead,
    /// Its status.
    pub status: StatusCode,
    /// Its fields, with exactly one Date, and without Age and what is for a connection or a proxy.
    pub fields: Fields,
    /// Its body.
    pub body: SharedOctets,
    /// What its age is counted from.
    pub times: Times,
    /// Whether a response to an unsafe request has invalidated it (RFC 9111 section 4.4).
    pub invalid: bool,
    /// The position of the record that validated it last, if one did.
    pub validated_at: Option<u64>,
}

impl Drop for Stored {
    fn drop(self) {
        let Stored {
            request,
            status: _,
            fields,
            body,
            times: _,
            invalid: _,
            validated_at: _,
        } = self;
        drop(request);
        drop(fields);
        drop(body);
    }
}

/// What a cache stores of a response that came at that moment, to a request that was sent to the
/// origin at that moment, both in seconds since 1970 (RFC 9111 section 3.1). The body is moved.
pub fn initial(
    alloc: Global,
    forward: RequestHead,
    request_time: u64,
    response: Message<ResponseHead>,
    response_time: u64,
) -> Result<Stored, AllocError>
    requires { response_time < end_of_moments }
    ensures { IfOk result (λ state. state ≡ initial_state forward request_time response response_time) }
{
    let Message { head, body } = response;
    let (fields, times) = kept(alloc, &head.fields, request_time, response_time)?;
    Ok(Stored {
        request: forward,
        status: head.status,
        fields,
        body,
        times,
        invalid: false,
        validated_at: None,
    })
}

impl Stored {
    ghost use Rattle.std.specs.Prelude.{OnOk, OnErr};
    ghost use Rattle.hc_update.specs.States.{freshened, invalidated};
    ghost use Rattle.hc_update.specs.Remnants.{remnant};

    /// Freshens the response by a 304 that identifies it (RFC 9111 section 4.3.4), which stands at
    /// that position. Where memory was refused, nothing has changed.
    pub fn freshen(
        &mut self,
        not_modified: &ResponseHead,
        request_time: u64,
        response_time: u64,
        position: u64,
    ) -> Result<(), AllocError>
        requires { response_time < end_of_moments }
        ensures ok { OnOk result
            (self.new ≡ freshened self.old not_modified.now.fields request_time response_time position) }
        ensures err { OnErr result (self.new ≡ self.old) }
    {
        let (fields, times) = kept(
            self.fields.alloc(),
            &not_modified.fields,
            request_time,
            response_time,
        )?;
        self.fields.update(fields)?;
        self.times = times;
        self.invalid = false;
        self.validated_at = Some(position);
        Ok(())
    }

    /// Invalidates the response (RFC 9111 section 4.4).
    pub fn invalidate(&mut self)
        ensures { self.new ≡ invalidated self.old }
    {
        self.invalid = true;
    }

    /// Forgets all of the response but its request, its status, its Vary lines and that it is invalid:
    /// what can still be asked of one that nothing freshens any more. The body is freed with its last owner.
    pub fn forget(&mut self)
        ensures { self.new ≡ remnant self.old }
    {
        self.fields.keep(b"vary");
        self.body = SharedOctets::new();
        self.times = Times {
            date: 0,
            age_value: 0,
            request_time: 0,
            response_time: 0,
        };
        self.invalid = true;
        self.validated_at = None;
    }
}

/// Whether a response of that status to a request by that method invalidates what is stored of its
/// target (RFC 9111 section 4.4): one from 200 to 399 to any method but GET, HEAD, OPTIONS and
/// TRACE.
pub fn invalidates(method: &Method, status: StatusCode) -> bool
    ensures { result ≡ invalidates method.now status }
{
    is_unsafe(method) && (200..=399).contains(&status.as_u16())
}
