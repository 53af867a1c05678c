//! Why there is no run.

ghost use Rattle.std.specs.Prelude.{◌≡◌};
ghost use Rattle.hc_core.specs.declared.fault.RunFault.TheVariants.{Memory};
ghost use Rattle.hc_core.specs.RunFaults.{run_fault};

use hc_service::CoreFault;
use std::alloc::{AllocError, AllocFailed};
use thiserror::Error;

/// Why there is no run.
#[derive(Clone, Copy, Debug, PartialEq, Eq, Error)]
pub enum RunFault {
    /// Memory was refused to the run itself, and not to a step of it.
    #[error("out of memory")]
    Memory,
    /// No cache can have such settings.
    #[error("no cache has such settings")]
    Settings,
}

impl From<AllocError> for RunFault {
    ghost from_gives = { λ _ e. e ≡ Memory };

    fn from(_e: AllocError) -> RunFault {
        RunFault::Memory
    }
}

impl<T: Drop> From<AllocFailed<T>> for RunFault {
    ghost from_gives = { λ _ e. e ≡ Memory };

    fn from(_e: AllocFailed<T>) -> RunFault {
        RunFault::Memory
    }
}

impl From<CoreFault> for RunFault {
    ghost from_gives = { λ fault e. e ≡ run_fault fault };

    fn from(fault: CoreFault) -> RunFault {
        match fault {
            CoreFault::Memory => RunFault::Memory,
            CoreFault::Name => RunFault::Settings,
            CoreFault::Size => RunFault::Settings,
            CoreFault::Room => RunFault::Settings,
        }
    }
}
