//! Why a message could not be read.

ghost use Rattle.std.specs.Prelude.{◌≡◌};
ghost use Rattle.hc_framing.specs.declared.fault.FrameFault.TheVariants.{Memory};
ghost use Rattle.hc_framing.specs.ChunkFaults.{of_chunk};

use crate::chunk_fault::ChunkFault;
use hc_head::HeadFault;
use std::alloc::AllocError;
use thiserror::Error;

/// What is wrong with a message.
#[derive(Clone, Copy, Debug, PartialEq, Eq, Error)]
pub enum FrameFault {
    /// The head can't be read. It never bears `Memory`.
    #[error(transparent)]
    Head(HeadFault),
    /// Transfer-Encoding and Content-Length are both there (RFC 9112 section 6.3).
    #[error("the message has both Transfer-Encoding and Content-Length")]
    BothLengths,
    /// Content-Length is no list of one length, each member of 1 to 18 digits; or Transfer-Encoding
    /// stands in HTTP/1.0; or octets follow what is to be one whole message.
    #[error("the length of the body is wrong")]
    BadLength,
    /// Transfer-Encoding is anything else than one line with the word `chunked`, in any case.
    #[error("the transfer coding is not known")]
    BadCoding,
    /// A chunked body breaks the syntax of RFC 9112 section 7.1: in the line of a chunk (at most 16
    /// digits and 4,096 octets), in the CR LF behind its data, or in the trailer section (at most
    /// 100 lines and 65,536 octets).
    #[error("a chunk breaks the syntax of messages")]
    BadChunk,
    /// The body has more than 16,777,216 octets, or a length says that it will have.
    #[error("the body is too long")]
    BodyTooLong,
    /// The octets end before the message.
    #[error("the message is cut off")]
    Truncated,
    /// Memory was refused.
    #[error("out of memory")]
    Memory,
    /// The reader returned a fault before, and reads no more.
    #[error("a fault was met before")]
    Failed,
}

impl From<AllocError> for FrameFault {
    ghost from_gives = { λ _ e. e ≡ Memory };

    fn from(_e: AllocError) -> FrameFault {
        FrameFault::Memory
    }
}

impl From<ChunkFault> for FrameFault {
    ghost from_gives = { λ fault e. e ≡ of_chunk fault };

    fn from(fault: ChunkFault) -> FrameFault {
        match fault {
            ChunkFault::Syntax => FrameFault::BadChunk,
            ChunkFault::Memory => FrameFault::Memory,
        }
    }
}
