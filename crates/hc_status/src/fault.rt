//! Why a list could not be read, or a mark not told.

ghost use Rattle.std.specs.Prelude.{◌≡◌};
ghost use Rattle.hc_status.specs.declared.fault.SfFault.TheVariants as list;
ghost use Rattle.hc_status.specs.declared.fault.MarkFault.TheVariants as mark;

use std::alloc::{AllocError, AllocFailed};
use thiserror::Error;

/// What is wrong with a structured field.
#[derive(Clone, Copy, Debug, PartialEq, Eq, Error)]
pub enum SfFault {
    /// The octets are no list (RFC 8941 section 4.2.1).
    #[error("the field is no list of structured items")]
    Syntax,
    /// A member is an inner list (RFC 8941 section 3.1.1), and nothing before it breaks the syntax.
    #[error("a member of the list is an inner list")]
    InnerList,
    /// Memory was refused.
    #[error("out of memory")]
    Memory,
}

impl From<AllocError> for SfFault {
    ghost from_gives = { λ _ e. e ≡ list.Memory };

    fn from(_e: AllocError) -> SfFault {
        SfFault::Memory
    }
}

impl<T: Drop> From<AllocFailed<T>> for SfFault {
    ghost from_gives = { λ _ e. e ≡ list.Memory };

    fn from(_e: AllocFailed<T>) -> SfFault {
        SfFault::Memory
    }
}

/// Why the mark of a reply could not be told.
#[derive(Clone, Copy, Debug, PartialEq, Eq, Error)]
pub enum MarkFault {
    /// Memory was refused.
    #[error("out of memory")]
    Memory,
}

impl From<AllocError> for MarkFault {
    ghost from_gives = { λ _ e. e ≡ mark.Memory };

    fn from(_e: AllocError) -> MarkFault {
        MarkFault::Memory
    }
}
