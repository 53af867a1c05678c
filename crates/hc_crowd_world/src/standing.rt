//! How the other side of a link stands with a crowd.

use hc_crowd::Ready;
use hc_flow::Readiness;
use hc_order::Receiver;

/// How the other side of a link stands with a crowd.
#[derive(Clone, Copy)]
pub enum Standing {
    /// It isn't accepted, or no link to it was begun.
    Waits,
    /// It is the guest of that number.
    Guest(u64),
    /// It was the guest of that number, and something was written to it before it was a client.
    TurnedAway(u64),
    /// It is the client of that number in the cache, or the origin on that forward.
    Linked(Receiver),
}

impl Standing {
    /// What is told of what becomes ready at the link, if anything is.
    pub(crate) fn told(self, readiness: Readiness) -> Option<Ready> {
        match self {
            Standing::Waits => None,
            Standing::Guest(guest) => Some(Ready::Guest(guest, readiness)),
            Standing::TurnedAway(guest) => Some(Ready::Guest(guest, readiness)),
            Standing::Linked(link) => Some(Ready::Link(link, readiness)),
        }
    }

    /// What came of one who connected and stands so now.
    pub(crate) fn name(self) -> &'static str {
        match self {
            Standing::Waits => "waits",
            Standing::Guest(_) => "accepted",
            Standing::TurnedAway(_) => "turned away",
            Standing::Linked(_) => "opened",
        }
    }
}
