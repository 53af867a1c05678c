//! How far each response gets that a reply may carry.

/// A response that a reply may carry, and how far it gets.
#[derive(Clone, Copy, PartialEq, Eq)]
pub struct Candidate {
    /// The position of its record, of which the first has 1.
    pub position: u64,
    /// How many filters it passes, one after another, from the first on.
    pub passed: u32,
}
