//! How long links may take.

use hc_flow::Patience;

/// So many milliseconds a client may send on behind the end of what was written to it.
pub const CLIENT_LINGERS: u64 = 2_000;

/// The same of the origin.
pub const ORIGIN_LINGERS: u64 = 1_000;

/// So many milliseconds one may send on for whom there was no room.
pub const REFUSED_LINGERS: u64 = 2_000;

/// So many milliseconds later a client whose time is over is looked at again: a request of it may await its reply.
pub const LOOKS_AGAIN: u64 = 1_000;

/// How long links may take.
#[derive(Clone, Copy)]
pub struct Times {
    /// How long clients and the origin may take.
    pub patience: Patience,
    /// So many milliseconds a forward may wait for a place at the origin.
    pub queue_timeout: u64,
    /// So many milliseconds a link to the origin may take to be made.
    pub connect_timeout: u64,
}
