//! How a proxy stands.

/// How a proxy stands at a moment.
#[derive(Clone, Copy)]
pub struct Stand {
    /// How many connections of clients there are, and how many there may be.
    pub clients: u64,
    pub most_clients: u64,
    /// How many have connected of whom no octet has come.
    pub guests: u64,
    /// How many clients await a reply.
    pub awaiting: u64,
    /// How many forwards there are.
    pub forwards: u64,
    /// How many links to the origin there may be.
    pub most_origin: u64,
    /// How many of the forwards wait for a place at the origin.
    pub queued: u64,
    /// How many requests wait for the forward of another one.
    pub waiters: u64,
    /// Of how many targets responses are stored, and of how many they may be.
    pub targets: u64,
    pub most_targets: u64,
    /// How many octets are stored, and how many may be.
    pub stored: u64,
    pub most_stored: u64,
    /// How many targets were dropped from the store since room or memory lacked.
    pub evicted: u64,
    /// How many octets are held beside the store, and how many may be.
    pub held: u64,
    pub most_held: u64,
    /// How many lines of the access log were dropped.
    pub lost_lines: u64,
    /// Whether it records, and whether it ended that before its time.
    pub records: bool,
    pub record_ended: bool,
    /// Whether it was asked to stop.
    pub drains: bool,
    /// How often the system couldn't say what is ready.
    pub failed_polls: u64,
    /// How many microseconds the longest turn took, in which nothing is waited for.
    pub longest_turn: u64,
}
