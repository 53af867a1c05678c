//! Why the program ends without what it was asked for, and what it says of that.
ghost use Rattle.std.specs.Prelude.{◌≡◌};
ghost use Rattle.hc_bench.specs.declared.trouble.Trouble.TheVariants.{Memory};

use crate::print::printed;
use hc_core::CoreFault;
use hc_framing::FrameFault;
use hc_service::StepFault;
use std::alloc::{AllocError, AllocFailed};
use std::io;
use std::io::Write;
use thiserror::Error;

/// Why the program ends without what it was asked for.
#[derive(Clone, Copy, Debug, Error)]
pub enum Trouble {
    /// Memory was refused.
    #[error("memory")]
    Memory,
    /// The clock or a file can't be read, or the answer can't be written.
    #[error("device")]
    Device,
    /// What was fed is no message.
    #[error("{0}")]
    Fault(FrameFault),
    /// What was fed ends within a message.
    #[error("the message doesn't end")]
    Unended,
    /// A store has no response for a target, or doesn't take one.
    #[error("a response isn't stored")]
    NotStored,
    /// A cache didn't serve an event, or not as it has to.
    #[error("an event isn't served")]
    NotServed,
}

impl Trouble {
    /// The exit status of a program that ends so.
    pub const STATUS: u8 = 3;

    /// Says it on `faults`, and returns the exit status. A write that fails is passed over.
    pub fn told<E: Write>(self, faults: &mut E) -> u8
        ensures { result ≡ 3 }
    {
        let _ = printed("error: ", faults);
        let _ = printed(self, faults);
        let _ = printed("\n", faults);
        Trouble::STATUS
    }
}

impl From<AllocError> for Trouble {
    ghost from_gives = { λ _ t. t ≡ Memory };

    fn from(_error: AllocError) -> Trouble {
        Trouble::Memory
    }
}

impl<T: Drop> From<AllocFailed<T>> for Trouble {
    ghost from_gives = { λ _ t. t ≡ Memory };

    fn from(_error: AllocFailed<T>) -> Trouble {
        Trouble::Memory
    }
}

impl From<FrameFault> for Trouble {
    ghost use Rattle.hc_bench.specs.Feeding.{trouble_of};

    ghost from_gives = { λ f t. t ≡ trouble_of f };

    fn from(fault: FrameFault) -> Trouble {
        match fault {
            FrameFault::Memory => Trouble::Memory,
            other => Trouble::Fault(other),
        }
    }
}

impl From<StepFault> for Trouble {
    fn from(fault: StepFault) -> Trouble {
        match fault {
            StepFault::Memory => Trouble::Memory,
            _ => Trouble::NotServed,
        }
    }
}

impl From<CoreFault> for Trouble {
    fn from(fault: CoreFault) -> Trouble {
        match fault {
            CoreFault::Memory => Trouble::Memory,
            _ => Trouble::NotServed,
        }
    }
}

impl From<io::Error> for Trouble {
    fn from(error: io::Error) -> Trouble {
        match error.kind() {
            io::ErrorKind::OutOfMemory => Trouble::Memory,
            _ => Trouble::Device,
        }
    }
}
