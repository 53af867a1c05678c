//! Why serving ended before its time.

ghost use Rattle.std.specs.Prelude.{◌≡◌};
ghost use Rattle.hc_serving.specs.declared.fault.ServeFault.TheVariants.{Memory};

use crate::recordable::Unrecordable;
use std::alloc::AllocError;
use std::io;
use thiserror::Error;

/// Why serving ended before its time.
#[derive(Clone, Copy, Debug, Error)]
pub enum ServeFault {
    /// Memory was refused.
    #[error("out of memory")]
    Memory,
    /// The socket failed to which clients connect.
    #[error("no client could connect: {reason}")]
    Listener {
        /// At which place its address stands among those that were wanted.
        place: usize,
        /// Why it failed.
        reason: io::Error,
    },
    /// The socket failed to which whoever watches connects, for this reason.
    #[error("nobody could watch: {0}")]
    Status(io::Error),
    /// The origin's name can't be resolved, for this reason.
    #[error("the origin can't be found: {0}")]
    Origin(io::Error),
    /// The system doesn't let so many files be open at once.
    #[error("the limit on open files is {limit}, and {wanted} are wanted")]
    OpenFiles {
        /// How many it lets be open.
        limit: u64,
        /// How many may be wanted.
        wanted: u64,
    },
    /// What the file is that is to be recorded to: nothing of that kind is.
    #[error("the file can't be recorded to: {0}")]
    Unrecordable(Unrecordable),
    /// The file that is recorded to failed, for this reason.
    #[error("the file can't be recorded to: {0}")]
    Record(io::Error),
    /// The system doesn't tell which signals are pending, for this reason.
    #[error("a stop can't be seen: {0}")]
    Signals(io::Error),
    /// The system couldn't say what is ready, for this reason, as often in a row as that is borne.
    #[error("the system can't say what is ready: {0}")]
    Poll(io::Error),
    /// The system's clock that is never set couldn't be read, for this reason.
    #[error("the clock can't be read: {0}")]
    Monotonic(io::Error),
    /// The system gave no random numbers, for this reason.
    #[error("the system gave no random numbers: {0}")]
    Random(io::Error),
    /// The clock is past the last moment that a transcript can tell.
    #[error("the clock is past the year 9999")]
    Clock,
}

impl From<AllocError> for ServeFault {
    ghost from_gives = { λ _ fault. fault ≡ Memory };

    fn from(_error: AllocError) -> ServeFault {
        ServeFault::Memory
    }
}
