//! Where octets go.

/// Where octets go.
#[derive(Clone, Copy, PartialEq, Eq)]
pub enum Receiver {
    /// To the client of the connection of that number.
    Client(u64),
    /// To the origin, on the forward of that number.
    Origin(u64),
}
