//! A link to the origin that lingers.

ghost use Rattle.std.specs.Prelude.{◌≡◌, false};

use hc_flow::{Arrival, Stream};

/// A link to the origin of a forward that was closed: what comes there is dropped, until the origin ends it.
#[derive(Drop)]
pub struct Lingerer<S: Stream> {
    stream: S,
    /// Whether it stands among the turns.
    pub(crate) queued: bool,
}

/// What came of a read of a link that lingers.
#[derive(Clone, Copy, PartialEq, Eq)]
pub enum Remainder {
    /// Octets, which are dropped; more may be there.
    More,
    /// Nothing now.
    Later,
    /// Nothing comes any more: the origin has ended the link, or it has failed, or it doesn't linger.
    Over,
}

impl<S: Stream> Lingerer<S> {
    /// One that doesn't stand among the turns.
    pub(crate) fn new(stream: S) -> Self
        ensures stream { result.stream ≡ stream }
        ensures queued { result.queued ≡ false }
    {
        Lingerer {
            stream,
            queued: false,
        }
    }

    /// Reads what comes there, once, and drops it. It stands among the turns no more.
    pub(crate) fn discard(&mut self, buffer: &mut [u8]) -> Remainder
        ensures { self.new.queued ≡ false }
    {
        self.queued = false;
        match self.stream.read(buffer) {
            Arrival::Octets(_) => Remainder::More,
            Arrival::Later => Remainder::Later,
            Arrival::End => Remainder::Over,
            Arrival::Failed => Remainder::Over,
        }
    }
}
