//! What goes wrong with what comes.

use hc_head::Target;
use hc_incoming::Trouble;

/// Something that came and was wrong.
pub enum Incident {
    /// What came from a client was refused.
    Refused {
        /// The number of its connection.
        connection: u64,
        /// What was wrong.
        trouble: Trouble,
    },
    /// What came from the origin on a forward is no response.
    Failed {
        /// The number of the forward.
        forward: u64,
        /// What was asked for.
        target: Target,
        /// What was wrong.
        trouble: Trouble,
    },
}

impl Drop for Incident {
    fn drop(self) {
        match self {
            Incident::Refused {
                connection: _,
                trouble: _,
            } => {}
            Incident::Failed {
                forward: _,
                target,
                trouble: _,
            } => drop(target),
        }
    }
}
