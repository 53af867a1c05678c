//! How a client is getting on.

ghost use Rattle.std.specs.Prelude.{◌≡◌, ◌≤◌, ◌+◌, ◌-◌, ◌^◌, ℕ, if◌then◌else◌, min, nat_lt};
ghost use Rattle.hc_flow.specs.Paces.{GetsOn, asking, due, next_look, owing, written};

use crate::outbox::Emptying;
use crate::patience::Patience;

/// So many octets of a request are worth a second.
const KIB: u64 = 1_024;

/// The milliseconds of a second.
const SECOND: u64 = 1_000;

/// How a client is getting on, and since which millisecond.
#[derive(Clone, Copy)]
pub enum Pace {
    /// Nothing came since it connected, or since all that was owed to it was written.
    Idle(u64),
    /// Octets of a request have come since then, and how many.
    Asking(u64, u64),
    /// Octets are owed to it, and it took none since then.
    Taking(u64),
}

impl Pace {
    /// When its time is over, unless a request of it awaits its reply: behind that millisecond.
    pub fn due(self, patience: Patience) -> u64
        ensures { result ≡ min (due self patience) (2 ^ 64 - 1) }
    {
        match self {
            Pace::Idle(since) => since.saturating_add(patience.idle_timeout),
            Pace::Asking(since, octets) => since
                .saturating_add(patience.request_timeout)
                .saturating_add(octets / KIB * SECOND),
            Pace::Taking(since) => since.saturating_add(patience.send_timeout),
        }
    }

    /// Whether its time is over.
    pub fn is_overdue(self, tick: u64, patience: Patience) -> bool
        ensures { result ≡ nat_lt (due self patience) tick }
    {
        self.due(patience) < tick
    }

    /// When to look at it next. However it gets on until then, its time isn't over before.
    pub fn next_look(self, tick: u64, patience: Patience) -> u64
        ensures { result ≡ min (next_look self tick patience) (2 ^ 64 - 1) }
    {
        self.due(patience)
            .min(tick.saturating_add(patience.shortest()))
            .saturating_add(1)
    }

    /// So many octets came.
    pub fn asking(self, count: u64, tick: u64) -> Self
        ensures { result ≡ asking count tick self }
    {
        match self {
            Pace::Idle(_) => Pace::Asking(tick, count),
            Pace::Asking(since, octets) => Pace::Asking(since, octets.saturating_add(count)),
            Pace::Taking(_) => Pace::Asking(tick, count),
        }
    }

    /// Octets are owed to it, or none are.
    pub fn owing(self, owed: bool, tick: u64) -> Self
        ensures { result ≡ owing owed tick self }
    {
        if !owed {
            return self;
        }
        match self {
            Pace::Idle(_) => Pace::Taking(tick),
            Pace::Asking(_, _) => Pace::Taking(tick),
            Pace::Taking(since) => Pace::Taking(since),
        }
    }

    /// What was owed to it was written, as far as it was taken: so many octets were owed before, and so many are still.
    pub fn written(self, emptying: Emptying, before: usize, still: usize, tick: u64) -> Self
        ensures { result ≡ written emptying before still tick self }
    {
        if before == 0 {
            return self;
        }
        match emptying {
            Emptying::Emptied => Pace::Idle(tick),
            Emptying::Later => self.moved(still < before, tick),
            Emptying::Failed => self,
        }
    }

    /// It took octets, or none.
    fn moved(self, took: bool, tick: u64) -> Self
        ensures { result ≡ (if took then Pace.Taking tick else self) }
    {
        if took { Pace::Taking(tick) } else { self }
    }
}

/// However a client gets on behind a look, its time isn't over before the next one.
pub fn a_look_comes_in_time()
    ensures { (tick : ℕ) (pace later : Pace) (patience : Patience) → GetsOn tick pace later
        → next_look pace tick patience ≤ due later patience + 1 }
{}
