//! What is open: exchanges with clients, and forwards to the origin.

ghost use Rattle.std.specs.Prelude.{◌≡◌};
ghost use Rattle.hc_service.specs.Joining.{is_joinable_kind};
ghost use Rattle.hc_service.specs.State.{exchange_for, is_conditional};

use crate::cases::Cause;
use hc_head::{RequestHead, Target};

/// A request that awaits its reply.
pub struct OpenExchange {
    /// The number of the connection on which it came.
    pub connection: u64,
    /// Its head, as it was received.
    pub request: RequestHead,
    /// What it asks for.
    pub target: Target,
    /// The number of the forward of another request that it waits for, in place of one of its own (RFC 9211
    /// section 2.6); `None` where a forward was made for it.
    pub waits_for: Option<u64>,
}

/// A request that was sent to the origin and isn't answered yet.
pub struct OpenForward {
    /// Its head, as it was sent.
    pub request: RequestHead,
    /// What it asks for.
    pub target: Target,
    /// When it was sent, in whole seconds since 1970.
    pub moment: u64,
    /// Whom its answer is for.
    pub purpose: Purpose,
}

impl Drop for OpenExchange {
    fn drop(self) {
        let OpenExchange {
            connection: _,
            request,
            target,
            waits_for: _,
        } = self;
        drop(request);
        drop(target);
    }
}

impl Drop for OpenForward {
    fn drop(self) {
        let OpenForward {
            request,
            target,
            moment: _,
            purpose: _,
        } = self;
        drop(request);
        drop(target);
    }
}

impl OpenExchange {
    /// What it asks for, alone.
    pub fn into_target(self) -> Target
        ensures { result ≡ self.target }
    {
        let OpenExchange {
            connection: _,
            request,
            target,
            waits_for: _,
        } = self;
        drop(request);
        target
    }
}

impl OpenForward {
    /// Its head and what it asks for.
    pub fn into_parts(self) -> (RequestHead, Target)
        ensures request { result.0 ≡ self.request }
        ensures target { result.1 ≡ self.target }
    {
        let OpenForward {
            request,
            target,
            moment: _,
            purpose: _,
        } = self;
        (request, target)
    }
}

/// How a request goes to the origin.
#[derive(Clone, Copy, PartialEq, Eq)]
pub enum ForwardKind {
    /// As it came, but for what is for its connection; nobody else may wait for what comes of it.
    Plain,
    /// Likewise, and other requests for its target may wait for what comes of it (RFC 9211 section 2.6).
    Joinable,
    /// With the cache's own condition, which asks whether what is stored still holds.
    Conditional,
}

impl ForwardKind {
    /// Whether it asks, by the cache's own condition, whether what is stored still holds.
    pub fn is_conditional(self) -> bool
        ensures { result ≡ is_conditional self }
    {
        match self {
            ForwardKind::Conditional => true,
            ForwardKind::Plain | ForwardKind::Joinable => false,
        }
    }

    /// Whether other requests may wait for what comes of it.
    pub fn is_joinable(self) -> bool
        ensures { result ≡ is_joinable_kind self }
    {
        match self {
            ForwardKind::Joinable => true,
            ForwardKind::Plain | ForwardKind::Conditional => false,
        }
    }
}

/// Whom the answer to a forward is for.
#[derive(Clone, Copy, PartialEq, Eq)]
pub enum Purpose {
    /// A client's request.
    Reply {
        /// The number of its exchange.
        exchange: u64,
        /// Why the request went to the origin.
        cause: Cause,
        /// How it went there.
        kind: ForwardKind,
    },
    /// The store alone: it validates what was served stale (RFC 5861 section 3).
    Background,
}

impl Purpose {
    /// The number of the exchange that the answer is for, which a recording tells as the cause of the forward;
    /// `None` where it is for the store alone.
    pub fn exchange(self) -> Option<u64>
        ensures { result ≡ exchange_for self }
    {
        match self {
            Purpose::Reply { exchange, .. } => Some(exchange),
            Purpose::Background => None,
        }
    }
}
