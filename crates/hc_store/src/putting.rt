//! What comes of putting a response into a store.

/// What came of it.
#[derive(Clone, Copy, PartialEq, Eq)]
pub enum Put {
    /// It is stored.
    Stored,
    /// It sets a cookie, and the store keeps no such responses.
    SetsCookie,
    /// It is larger than a store keeps.
    TooLarge,
    /// Memory was refused.
    NoMemory,
}
