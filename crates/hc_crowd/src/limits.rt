//! What bounds a crowd.

use hc_attended::Times;
use hc_flow::Patience;

/// What bounds a crowd.
#[derive(Clone, Copy)]
pub struct Limits {
    /// The most connections of clients at once. Those that are closed and still have a link count, too, but that the one
    /// that has lingered for longest gives way to a client who connects.
    pub connections: usize,
    /// The most links to the origin at once. Those that are closed and still have a link count, too. Without any no forward
    /// gets one.
    pub origin_connections: usize,
    /// The most octets that may be held of what came and of what waits to be written, beside the store. Where there are
    /// more, the links that hold most of them are cut off.
    pub held: u64,
    /// How long clients and the origin may take.
    pub patience: Patience,
    /// So many milliseconds a forward may wait for a place at the origin.
    pub queue_timeout: u64,
    /// So many milliseconds a link to the origin may take to be made.
    pub connect_timeout: u64,
    /// So many milliseconds a forward may go on for which nobody waits any more.
    pub abandoned: u64,
    /// So many milliseconds behind a stop what is awaited is served still.
    pub drain_timeout: u64,
    /// Behind so many clients no further one is accepted, and the crowd is over once all have gone.
    pub clients: Option<u64>,
}

impl Limits {
    ghost use Rattle.std.specs.Prelude.{◌≡◌};
    ghost use Rattle.hc_crowd.specs.Crowds.{times_of};

    /// How long links may take.
    pub(crate) fn times(self) -> Times
        ensures { result ≡ times_of self }
    {
        Times {
            patience: self.patience,
            queue_timeout: self.queue_timeout,
            connect_timeout: self.connect_timeout,
        }
    }
}
