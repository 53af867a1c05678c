//! What went wrong while connections were served.

ghost use Rattle.std.specs.Prelude.{◌≡◌};
ghost use Rattle.hc_service.specs.declared.fault.StepFault.TheVariants.{Memory};
ghost use Rattle.hc_drive.specs.declared.fault.DriveFault.TheVariants.{Core};

use hc_service::StepFault;
use std::alloc::AllocError;
use thiserror::Error;

/// What went wrong while a connection was served.
#[derive(Clone, Copy, Debug, Error)]
pub enum DriveFault {
    /// The client's link failed. All that was open was served to its end, or to the bound on reads.
    #[error("the client's link failed")]
    Client,
    /// The recorder failed. Nothing was read or written behind that.
    #[error("the recorder failed")]
    Recorder,
    /// The cache didn't serve an event, or memory was refused to the driver itself. `Failed` is also that the driver gave
    /// up: nothing more happens, and the cache isn't idle, or 2^64 - 1 events were served. The former can't be of a cache
    /// that was at rest before and mirrored the log.
    #[error(transparent)]
    Core(StepFault),
}

impl From<AllocError> for DriveFault {
    ghost from_gives = { λ _ e. e ≡ Core Memory };

    fn from(_e: AllocError) -> DriveFault {
        DriveFault::Core(StepFault::Memory)
    }
}

impl From<StepFault> for DriveFault {
    ghost from_gives = { λ fault e. e ≡ Core fault };

    fn from(fault: StepFault) -> DriveFault {
        DriveFault::Core(fault)
    }
}

/// Why no further connection is served.
#[derive(Clone, Copy, Debug, Error)]
pub enum ServingFault {
    /// No further client came. All that came were served.
    #[error("no further client came")]
    Clients,
    /// The recorder failed. Nothing was read or written behind that.
    #[error("the recorder failed")]
    Recorder,
    /// The cache didn't serve an event of a connection, or the driver of that gave up, as `DriveFault::Core` says.
    #[error(transparent)]
    Core(StepFault),
}
