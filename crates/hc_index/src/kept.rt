//! What an index keeps.

ghost use Rattle.std.specs.Prelude.{◌≡◌};
ghost use Rattle.hc_history.specs.Seen.{remaining};

use hc_fields::SharedOctets;
use hc_head::{Method, RequestHead, StatusCode, Target};
use hc_transcript::ToldCause;
use hc_update::Stored;
use std::collections::VecDeque;

/// A response that may be stored, as the records behind it have left it.
pub(crate) struct LiveResponse {
    /// The position of its record.
    pub(crate) position: u64,
    /// The target of the request that it answers.
    pub(crate) target: Target,
    /// What is kept of it: an invalid one without a validator has no body, and no fields but Vary.
    pub(crate) state: Stored,
    ghost remains: { remaining state ≡ state },
}

impl Drop for LiveResponse {
    fn drop(self) {
        let LiveResponse {
            position: _,
            target,
            state,
        } = self;
        drop(target);
        drop(state);
    }
}

/// What the origin answered, with what is told of the cause of its forward.
pub(crate) struct WindowAnswer {
    pub(crate) cause: ToldCause,
    /// The method of the forward.
    pub(crate) method: Method,
    pub(crate) status: StatusCode,
    pub(crate) body: SharedOctets,
}

impl Drop for WindowAnswer {
    fn drop(self) {
        let WindowAnswer {
            cause: _,
            method,
            status: _,
            body,
        } = self;
        drop(method);
        drop(body);
    }
}

/// An open exchange.
pub(crate) struct RecordedExchange {
    pub(crate) number: u64,
    /// The position of its request.
    pub(crate) position: u64,
    pub(crate) request: RequestHead,
    pub(crate) target: Target,
}

impl Drop for RecordedExchange {
    fn drop(self) {
        let RecordedExchange {
            number: _,
            position: _,
            request,
            target,
        } = self;
        drop(request);
        drop(target);
    }
}

impl RecordedExchange {
    /// The exchange of a request.
    pub(crate) fn new(number: u64, position: u64, request: RequestHead, target: Target) -> Self
        ensures { result ≡ record { number = number; position = position; request = request; target = target } }
    {
        RecordedExchange {
            number,
            position,
            request,
            target,
        }
    }
}

/// An open exchange with a window of its own.
#[derive(Drop)]
pub(crate) struct WatchedExchange {
    pub(crate) exchange: RecordedExchange,
    /// What the origin has answered for its target since its request, the oldest first.
    pub(crate) window: VecDeque<WindowAnswer>,
}

/// An open exchange whose window is the end of its target's pool.
#[derive(Drop)]
pub(crate) struct PooledExchange {
    pub(crate) exchange: RecordedExchange,
    /// How many answers the pool had been given before its request.
    pub(crate) behind: usize,
}

/// An open forward.
#[derive(Drop)]
pub struct RecordedForward {
    /// When it was sent, in whole seconds since 1970.
    pub moment: u64,
    /// What was sent, but for its body.
    pub request: RequestHead,
    /// What it asks for.
    pub target: Target,
    /// The exchange that it was made for: none where no reply waits for it, and in the first format.
    pub cause: Option<u64>,
}

impl RecordedForward {
    /// The forward of a request that was sent at that moment.
    pub(crate) fn new(moment: u64, request: RequestHead, target: Target, cause: Option<u64>) -> Self
        ensures { result ≡ record { moment = moment; request = request; target = target; cause = cause } }
    {
        RecordedForward {
            moment,
            request,
            target,
            cause,
        }
    }
}
