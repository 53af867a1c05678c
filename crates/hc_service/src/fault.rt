//! Why an event isn't served.

ghost use Rattle.std.specs.Prelude.{◌≡◌};
ghost use Rattle.hc_service.specs.declared.fault.StepFault.TheVariants.{Memory};

use std::alloc::{AllocError, AllocFailed};
use thiserror::Error;

/// Why an event isn't served.
#[derive(Clone, Copy, Debug, PartialEq, Eq, Error)]
pub enum StepFault {
    /// Memory was refused. No event is served any more.
    #[error("out of memory")]
    Memory,
    /// The moment lies behind the year 9999.
    #[error("a moment is too large")]
    MomentTooLarge,
    /// Nothing of that number is open, or the number of a new connection isn't greater than all before.
    #[error("nothing of that number is open")]
    UnknownNumber,
    /// As many connections are open as may be.
    #[error("too many connections are open")]
    TooManyConnections,
    /// Memory was refused before.
    #[error("memory was refused before")]
    Failed,
}

impl From<AllocError> for StepFault {
    ghost from_gives = { λ _ e. e ≡ Memory };

    fn from(_e: AllocError) -> StepFault {
        StepFault::Memory
    }
}

impl<T: Drop> From<AllocFailed<T>> for StepFault {
    ghost from_gives = { λ _ e. e ≡ Memory };

    fn from(_e: AllocFailed<T>) -> StepFault {
        StepFault::Memory
    }
}
