//! A stored response with its target.

use hc_head::Target;
use hc_update::Stored;

/// A stored response and its target.
pub struct Kept {
    /// The target of the request that it answers.
    pub target: Target,
    /// What is stored of it.
    pub state: Stored,
}

impl Drop for Kept {
    fn drop(self) {
        let Kept { target, state } = self;
        drop(target);
        drop(state);
    }
}
