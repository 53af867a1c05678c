//! What happens to a shared cache.

use hc_fields::Octets;

/// Something that happens at one of a cache's links, and when.
#[derive(Drop)]
pub struct Event {
    /// In whole seconds since 1970.
    pub moment: u64,
    /// What happens.
    pub of: Happening,
}

/// What happens at a link. A connection has the number that its caller chose for it, and a forward, which is a
/// connection to the origin for one request, the number that the cache gave it.
#[derive(Drop)]
pub enum Happening {
    /// A client opened the connection of that number.
    ClientOpened(u64),
    /// Octets came from the client of that connection.
    ClientBytes(u64, Octets),
    /// The client of that connection sends no more.
    ClientEnd(u64),
    /// Octets came from the origin on the forward of that number.
    OriginBytes(u64, Octets),
    /// The origin sends no more on that forward.
    OriginEnd(u64),
    /// That forward couldn't be made, or broke.
    OriginFailed(u64),
    /// Whoever serves the cache stops: from now on each reply closes its connection behind it (RFC 9112
    /// section 9.6).
    Stopping,
}
