//! Why a task isn't done, and what the program says of it.
ghost use Rattle.std.specs.Prelude.{◌≡◌};
ghost use Rattle.hc_auditing.specs.Trouble.{trouble_line};
ghost use Rattle.hc_auditing.specs.declared.trouble.Trouble.TheVariants.{Memory};

use crate::print::printed;
use hc_audit::AuditFault;
use std::alloc::AllocError;
use std::io;
use std::io::Write;

/// Why a task isn't done.
#[derive(Clone, Copy)]
pub enum Trouble {
    /// Memory was refused.
    Memory,
    /// What the task needs failed, for this reason.
    Device(io::Error),
    /// The answer can't be written, for this reason.
    Output(io::Error),
}

impl Trouble {
    /// The exit status of a task that isn't done.
    pub const STATUS: u8 = 3;

    /// The line that says it, with its line feed.
    pub fn line(self) -> &'static str
        ensures { result.now ≡ trouble_line self }
    {
        match self {
            Trouble::Memory => "error: memory\n",
            Trouble::Device(_) | Trouble::Output(_) => "error: device\n",
        }
    }

    /// Says it on `faults`, and returns the exit status. Where a device failed, a second line names
    /// it, by that name where it isn't the output, and gives the system's reason. A write that fails
    /// is passed over.
    pub fn told<E: Write>(self, name: &str, faults: &mut E) -> u8
        ensures { result ≡ 3 }
    {
        let _ = printed(self.line(), faults);
        match self {
            Trouble::Device(reason) => explain(name, reason, faults),
            Trouble::Output(reason) => explain("standard output", reason, faults),
            Trouble::Memory => {}
        }
        Trouble::STATUS
    }
}

// Says what failed, and why.
fn explain<E: Write>(name: &str, reason: io::Error, faults: &mut E) {
    let _ = writeln!(faults, "{name}: {reason}");
    let _ = faults.flush();
}

impl From<AllocError> for Trouble {
    ghost from_gives = { λ _ t. t ≡ Memory };

    fn from(_error: AllocError) -> Trouble {
        Trouble::Memory
    }
}

impl From<AuditFault> for Trouble {
    ghost from_gives = { λ _ t. t ≡ Memory };

    // An auditor that has failed was refused memory before.
    fn from(_fault: AuditFault) -> Trouble {
        Trouble::Memory
    }
}
