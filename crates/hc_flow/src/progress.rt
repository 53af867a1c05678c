//! How a forward is getting on.

ghost use Rattle.std.specs.Prelude.{◌≡◌, ◌+◌, ◌-◌, ◌^◌, min, nat_lt};
ghost use Rattle.hc_flow.specs.Paces.{forward_due, moved, progress_written, silent_due};

use crate::outbox::Emptying;
use crate::patience::Patience;

/// How a forward is getting on, in milliseconds.
#[derive(Clone, Copy)]
pub struct ForwardProgress {
    /// When the first link was begun for it.
    begun: u64,
    /// When an octet last passed at its link, or that was begun.
    last: u64,
}

impl ForwardProgress {
    /// Where a link is begun, and the first one was begun then.
    pub fn new(begun: u64, tick: u64) -> Self
        ensures { result ≡ record { begun = begun; last = tick } }
    {
        ForwardProgress { begun, last: tick }
    }

    /// Something passed then, or nothing.
    pub fn moved(self, passed: bool, tick: u64) -> Self
        ensures { result ≡ moved passed tick self }
    {
        if passed {
            ForwardProgress {
                begun: self.begun,
                last: tick,
            }
        } else {
            self
        }
    }

    /// Behind a write, where so many octets were owed before, and so many are still.
    pub fn written(self, emptying: Emptying, before: usize, still: usize, tick: u64) -> Self
        ensures { result ≡ progress_written emptying before still tick self }
    {
        match emptying {
            Emptying::Emptied => self.moved(still < before, tick),
            Emptying::Later => self.moved(still < before, tick),
            Emptying::Failed => self,
        }
    }

    /// Whether nothing has passed for too long.
    pub fn is_silent(self, tick: u64, patience: Patience) -> bool
        ensures { result ≡ nat_lt (silent_due self patience) tick }
    {
        self.last.saturating_add(patience.origin_timeout) < tick
    }

    /// When its time is over: behind that millisecond.
    fn due(self, patience: Patience) -> u64
        ensures { result ≡ min (forward_due self patience) (2 ^ 64 - 1) }
    {
        self.last
            .saturating_add(patience.origin_timeout)
            .min(self.begun.saturating_add(patience.origin_total))
    }

    /// Whether its time is over.
    pub fn is_overdue(self, tick: u64, patience: Patience) -> bool
        ensures { result ≡ nat_lt (forward_due self patience) tick }
    {
        self.due(patience) < tick
    }

    /// When to look at it next: its time isn't over before.
    pub fn next_look(self, patience: Patience) -> u64
        ensures { result ≡ min (forward_due self patience + 1) (2 ^ 64 - 1) }
    {
        self.due(patience).saturating_add(1)
    }
}
