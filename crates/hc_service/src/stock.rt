//! What a cache holds, in numbers.

/// What a cache's store holds, in numbers.
#[derive(Clone, Copy)]
pub struct Stock {
    /// Of so many targets responses are stored.
    pub targets: usize,
    /// So many octets these responses have, with their fields and those of their requests.
    pub octets: usize,
    /// So many targets were dropped since the cache was made, with all that was stored of them, since room or memory
    /// lacked.
    pub evicted: u64,
}
