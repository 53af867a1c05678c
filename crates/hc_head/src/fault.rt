//! Why a head could not be read.

ghost use Rattle.std.specs.Prelude.{◌≡◌};
ghost use Rattle.hc_head.specs.declared.fault.HeadFault.TheVariants.{Memory};

use std::alloc::{AllocError, AllocFailed};
use thiserror::Error;

/// What is wrong with a head.
#[derive(Clone, Copy, Debug, PartialEq, Eq, Error)]
pub enum HeadFault {
    /// No octets that follow make a head.
    #[error("the head breaks the syntax of messages")]
    Syntax,
    /// The head has more fields than the room.
    #[error("the head has too many fields")]
    TooManyFields,
    /// No head is whole within the octets of the room.
    #[error("the head is too long")]
    TooLong,
    /// There is not exactly one valid Host line (RFC 9112 section 3.2).
    #[error("there is not exactly one valid Host line")]
    Host,
    /// The target has none of the forms that name something of an origin: a path from the root, a URI
    /// of the scheme `http` with a valid authority, or `*` with OPTIONS (RFC 9112 section 3.2). Nor is
    /// there one with CONNECT, with a fragment, or of more than 65,534 octets.
    #[error("the target is none of this origin")]
    Target,
    /// Memory was refused.
    #[error("out of memory")]
    Memory,
}

impl From<AllocError> for HeadFault {
    ghost from_gives = { λ _ e. e ≡ Memory };

    fn from(_e: AllocError) -> HeadFault {
        HeadFault::Memory
    }
}

impl<T: Drop> From<AllocFailed<T>> for HeadFault {
    ghost from_gives = { λ _ e. e ≡ Memory };

    fn from(_e: AllocFailed<T>) -> HeadFault {
        HeadFault::Memory
    }
}
