//! Why a script can't be replayed.

ghost use Rattle.std.specs.Prelude.{◌≡◌};
ghost use Rattle.hc_scripts.specs.declared.fault.ScriptFault.TheVariants.{Memory};
ghost use Rattle.hc_scripts.specs.ScriptNames.{script_fault};

use hc_audit::AuditFault;
use hc_core::RunFault;
use std::alloc::{AllocError, AllocFailed};
use thiserror::Error;

/// What is wrong with a script.
#[derive(Clone, Copy, Debug, Error)]
pub enum ScriptFault {
    /// The octets don't begin with the opening of a script.
    #[error("no script begins so")]
    Opening,
    /// A line is none of the settings or of an event, or no line feed stands behind an event's octets.
    #[error("a line of the script is wrong")]
    Line,
    /// The octets end before the opening, the line of the settings or an event does.
    #[error("the script is cut off")]
    Torn,
    /// Memory was refused.
    #[error("out of memory")]
    Memory,
    /// The script is whole, and no cache can have its settings.
    #[error("no cache has such settings")]
    Settings,
}

impl ScriptFault {
    ghost use Rattle.std.specs.Prelude.{◌≡◌};
    ghost use Rattle.hc_scripts.specs.ScriptNames.{fault_number, fault_name};

    /// The number that stands for the fault in reports.
    pub fn number(&self) -> u32
        ensures { result ≡ fault_number self.now }
    {
        match self {
            ScriptFault::Opening => 1,
            ScriptFault::Line => 2,
            ScriptFault::Torn => 3,
            ScriptFault::Memory => 4,
            ScriptFault::Settings => 5,
        }
    }

    /// The name that stands for the fault in reports.
    pub fn name(&self) -> &'static str
        ensures { result.now ≡ fault_name self.now }
    {
        match self {
            ScriptFault::Opening => "Opening",
            ScriptFault::Line => "Line",
            ScriptFault::Torn => "Torn",
            ScriptFault::Memory => "Memory",
            ScriptFault::Settings => "Settings",
        }
    }
}

impl From<AllocError> for ScriptFault {
    ghost from_gives = { λ _ e. e ≡ Memory };

    fn from(_e: AllocError) -> ScriptFault {
        ScriptFault::Memory
    }
}

impl<T: Drop> From<AllocFailed<T>> for ScriptFault {
    ghost from_gives = { λ _ e. e ≡ Memory };

    fn from(_e: AllocFailed<T>) -> ScriptFault {
        ScriptFault::Memory
    }
}

impl From<AuditFault> for ScriptFault {
    ghost from_gives = { λ _ e. e ≡ Memory };

    // An auditor that has failed was refused memory before.
    fn from(_fault: AuditFault) -> ScriptFault {
        ScriptFault::Memory
    }
}

impl From<RunFault> for ScriptFault {
    ghost from_gives = { λ fault e. e ≡ script_fault fault };

    fn from(fault: RunFault) -> ScriptFault {
        match fault {
            RunFault::Memory => ScriptFault::Memory,
            RunFault::Settings => ScriptFault::Settings,
        }
    }
}
