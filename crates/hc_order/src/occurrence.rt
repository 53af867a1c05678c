//! What happened, and why it is told.

use hc_service::Event;

/// Why what happened is told.
#[derive(Clone, Copy, PartialEq, Eq)]
pub enum Reason {
    /// The other side did it.
    Peer,
    /// So many replies were sent that the client is read no more.
    Replies,
    /// So many reads were made that no link is read any more.
    Reads,
    /// Whoever drives the cache was asked to stop.
    Stop,
    /// A deadline has passed.
    Late,
    /// The link failed, and the end of a client, or the failure of a forward, is told for that.
    Reset,
    /// So much was held beside the store that the link was failed.
    Held,
    /// All places were taken and another client wanted one: this one had been silent for longest.
    Displaced,
    /// Nobody waited any more for what the forward was to bring.
    Abandoned,
}

/// What happened, and why whoever drives a cache tells it.
#[derive(Drop)]
pub struct Occurrence {
    /// What happened, and when.
    pub event: Event,
    /// Why it is told.
    pub reason: Reason,
}
