//! What a record means.

ghost use Rattle.std.specs.Prelude.{◌≤◌};
ghost use Rattle.hc_transcript.specs.Limits.{greatest_moment};

use hc_framing::Message;
use hc_head::{RequestHead, ResponseHead, Target};

/// A record with its message read.
#[derive(Drop)]
pub struct OwnedItem {
    /// The number of its exchange or its forward.
    pub number: u64,
    /// In whole seconds since 1970.
    pub moment: u64,
    /// What passed.
    pub of: Meaning,
    ghost in_time: { moment ≤ greatest_moment },
}

/// What passed, read.
#[derive(Drop)]
pub enum Meaning {
    /// What a client asked, and for what.
    ClientRequest {
        request: Message<RequestHead>,
        target: Target,
    },
    /// What the origin was asked, and for what. Its cause is the exchange that it was asked for: none
    /// where no reply waits for it, and in the first format.
    OriginRequest {
        request: Message<RequestHead>,
        target: Target,
        cause: Option<u64>,
    },
    /// What the origin answered.
    OriginResponse(Message<ResponseHead>),
    /// The origin gave no answer.
    OriginFailure,
    /// What the client was answered.
    ClientReply(Message<ResponseHead>),
}
