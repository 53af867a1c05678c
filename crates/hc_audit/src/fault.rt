//! Why there is no verdict.

use thiserror::Error;

/// Why there is no verdict.
#[derive(Clone, Copy, Debug, PartialEq, Eq, Error)]
pub enum AuditFault {
    /// Memory was refused.
    #[error("out of memory")]
    Memory,
    /// A fault was returned before.
    #[error("a fault was met before")]
    Failed,
}
