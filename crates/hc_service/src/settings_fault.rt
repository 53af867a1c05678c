//! Why there is no cache of some settings.

ghost use Rattle.std.specs.Prelude.{◌≡◌};
ghost use Rattle.hc_service.specs.declared.settings_fault.CoreFault.TheVariants.{Memory};

use std::alloc::AllocError;
use thiserror::Error;

/// Why there is no cache of some settings.
#[derive(Clone, Copy, Debug, PartialEq, Eq, Error)]
pub enum CoreFault {
    /// Memory was refused.
    #[error("out of memory")]
    Memory,
    /// The name isn't a letter followed by up to 31 letters, digits, `-`, `_` and `.`.
    #[error("the name is none that a cache may have")]
    Name,
    /// Responses of no target, or of more than 65,536 targets would be kept.
    #[error("the number of keys is none from 1 to 65536")]
    Size,
    /// There would be room for no connection, or for more than 65,536.
    #[error("the number of connections is none from 1 to 65536")]
    Room,
}

impl From<AllocError> for CoreFault {
    ghost from_gives = { λ _ e. e ≡ Memory };

    fn from(_e: AllocError) -> CoreFault {
        CoreFault::Memory
    }
}
