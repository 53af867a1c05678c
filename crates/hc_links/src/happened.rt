//! What happens next at a connection.

use hc_order::Reason;
use hc_service::Happening;

/// What happens, and why it is told.
#[derive(Drop)]
pub struct Happened {
    /// What happens.
    pub of: Happening,
    /// Why it is told.
    pub reason: Reason,
}
