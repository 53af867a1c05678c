//! What is done in a world in memory.

use hc_order::Receiver;

/// What the other side of a link does.
pub(crate) enum Act {
    /// It sends those octets.
    Says(Vec<u8>),
    /// It sends no more.
    Ends,
    /// It resets the link.
    Resets,
    /// The link breaks, which only a read or a write finds.
    Breaks,
    /// It takes so many octets more.
    Takes(usize),
    /// The link is made.
    Made,
    /// Nothing is told but that the link may be ready.
    Stirs,
}

impl Drop for Act {
    fn drop(self) {
        match self {
            Act::Says(octets) => drop(octets),
            Act::Ends | Act::Resets | Act::Breaks | Act::Takes(_) | Act::Made | Act::Stirs => {}
        }
    }
}

/// What is done in a world in memory.
pub(crate) enum Deed {
    /// So many further clients connect.
    Connects(u64),
    /// The other side of a link does that.
    Does(Receiver, Act),
    /// The origin answers a forward by chance.
    Answers(u64),
    /// The wall clock is set to that second, or can't be read.
    Wall(Option<u64>),
    /// So many milliseconds pass in which nothing is done.
    Sleeps(u64),
    /// The system has places for so many links at once.
    Places(usize),
    /// The program is asked to stop.
    Stops,
}

impl Drop for Deed {
    fn drop(self) {
        match self {
            Deed::Does(_, act) => drop(act),
            Deed::Connects(_)
            | Deed::Answers(_)
            | Deed::Wall(_)
            | Deed::Sleeps(_)
            | Deed::Places(_)
            | Deed::Stops => {}
        }
    }
}
