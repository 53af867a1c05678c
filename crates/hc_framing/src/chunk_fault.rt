//! Why a chunked body could not be read.

ghost use Rattle.std.specs.Prelude.{◌≡◌};
ghost use Rattle.hc_framing.specs.declared.chunk_fault.ChunkFault.TheVariants.{Memory};

use std::alloc::AllocError;
use thiserror::Error;

/// What is wrong with a part of a chunked body.
#[derive(Clone, Copy, Debug, PartialEq, Eq, Error)]
pub(crate) enum ChunkFault {
    /// The octets break the syntax: in the line of a chunk (at most 16 digits and 4,096 octets), or in
    /// the trailer section (at most 100 lines and 65,536 octets).
    #[error("a chunk breaks the syntax of messages")]
    Syntax,
    /// Memory was refused.
    #[error("out of memory")]
    Memory,
}

impl From<AllocError> for ChunkFault {
    ghost from_gives = { λ _ e. e ≡ Memory };

    fn from(_e: AllocError) -> ChunkFault {
        ChunkFault::Memory
    }
}
