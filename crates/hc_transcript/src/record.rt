//! Records that are written.

ghost use Rattle.std.specs.Prelude.{◌≡◌, IfOk};

use hc_framing::MessageText;
use std::alloc::AllocError;

/// A record of a transcript: what passed, the number of its exchange or forward, and the moment.
#[derive(Drop)]
pub struct Record {
    /// The number of its exchange or its forward.
    pub number: u64,
    /// In whole seconds since 1970.
    pub moment: u64,
    /// What passed.
    pub of: Passed,
}

/// What passed, with the octets of its message as they were.
#[derive(Drop)]
pub enum Passed {
    /// What a client asked.
    ClientRequest(MessageText),
    /// What the origin was asked, and the exchange that it was asked for: none where no reply waits for
    /// it. In the first format no line tells it, so that a record with a cause is read back without it.
    OriginRequest {
        message: MessageText,
        cause: Option<u64>,
    },
    /// What the origin answered.
    OriginResponse(MessageText),
    /// The origin gave no answer.
    OriginFailure,
    /// What the client was answered.
    ClientReply(MessageText),
}

impl Record {
    /// The same record, of whose octets there is one owner more. It takes no memory, and fails only
    /// where the count of owners is full.
    pub fn share(&self) -> Result<Self, AllocError>
        ensures { IfOk result (λ same. same ≡ self.now) }
    {
        Ok(Record {
            number: self.number,
            moment: self.moment,
            of: self.of.share()?,
        })
    }
}

impl Passed {
    /// The same, with one owner more of its octets. It takes no memory, and fails only where the
    /// count of owners is full.
    pub fn share(&self) -> Result<Self, AllocError>
        ensures { IfOk result (λ same. same ≡ self.now) }
    {
        match self {
            Passed::ClientRequest(message) => Ok(Passed::ClientRequest(message.share()?)),
            Passed::OriginRequest { message, cause } => Ok(Passed::OriginRequest {
                message: message.share()?,
                cause: *cause,
            }),
            Passed::OriginResponse(message) => Ok(Passed::OriginResponse(message.share()?)),
            Passed::OriginFailure => Ok(Passed::OriginFailure),
            Passed::ClientReply(message) => Ok(Passed::ClientReply(message.share()?)),
        }
    }
}
