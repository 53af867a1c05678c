//! What the system tells of a link.

/// What the system tells of a link, once for each change: a link of which nothing new is told is as it was told to be.
#[derive(Clone, Copy, PartialEq, Eq)]
pub struct Readiness {
    /// There is something to be read.
    pub readable: bool,
    /// Octets are taken.
    pub writable: bool,
    /// The other side has closed its writing half.
    pub ended: bool,
    /// The link has failed.
    pub failed: bool,
}
