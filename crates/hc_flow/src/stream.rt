//! One side of a connection that is never waited for.

ghost use Rattle.std.specs.Prelude.{ℕ, Bool, true, List, ◌++◌};
ghost use Rattle.hc_flow.specs.Passing.{Stays};
ghost use Rattle.hc_flow.specs.declared.stream.Presence.{Presence};
ghost use Rattle.hc_flow.specs.Reads.{EndsRead, FailsRead, Reads};
ghost use Rattle.hc_flow.specs.Writes.{FailsWrite, Takes};

/// What came of a read that doesn't wait.
#[derive(Clone, Copy, PartialEq, Eq)]
pub enum Arrival {
    /// So many octets, at least one, now stand at the front of the buffer.
    Octets(usize),
    /// The other side sends no more.
    End,
    /// Nothing now; more may come later.
    Later,
    /// The link has failed.
    Failed,
}

/// What came of a write that doesn't wait.
#[derive(Clone, Copy, PartialEq, Eq)]
pub enum Uptake {
    /// So many octets, at least one, were taken.
    Octets(usize),
    /// None now; some may be taken later.
    Later,
    /// The link has failed.
    Failed,
}

/// What is to be read of a stream, which a look tells without reading it.
#[derive(Clone, Copy, PartialEq, Eq)]
pub enum Presence {
    /// One octet at least waits to be read.
    Octets,
    /// None now; some may come later.
    Later,
    /// The other side sends no more, or the link has failed.
    Over,
}

/// One side of a connection, from which octets are read and to which octets are written, and that is never waited for.
/// Once it has failed it may still be asked; it fails again.
pub trait Stream {
    /// These octets were read from it so far. A stream that doesn't tell lets any octets stand.
    ghost has_given: { Self → List ℕ → Type 0 };

    /// These octets were written to it so far, likewise.
    ghost has_got: { Self → List ℕ → Type 0 };

    /// Whether what is written to it was ended, likewise.
    ghost was_ended: { Self → Bool → Type 0 } = { λ _ _. Unit {0} };

    /// It has failed, likewise.
    ghost has_failed: { Self → Type 0 } = { λ _. Unit {0} };

    /// The other side has ended what it sends, likewise.
    ghost has_ended: { Self → Type 0 } = { λ _. Unit {0} };

    /// That may be what a look at it tells, likewise.
    ghost may_show: { Self → Presence → Type 0 } = { λ _ _. Unit {0} };

    /// Reads as many octets as there are now and as the buffer takes.
    fn read(&mut self, buffer: &mut [u8]) -> Arrival
        ensures given { Reads (has_given self.old) (has_given self.new) result buffer.new }
        ensures got { Stays (has_got self.old) (has_got self.new) }
        ensures ended { (ended : Bool) → was_ended self.old ended → was_ended self.new ended }
        ensures over { EndsRead (has_ended self.new) result }
        ensures fails { FailsRead (has_failed self.old) (has_failed self.new) result };

    /// What the next read would find, as far as a look tells. It reads nothing.
    fn peek(&self) -> Presence
        ensures { may_show self.now result };

    /// Writes a beginning of the two, one behind the other, as far as it is taken now.
    fn write(&mut self, front: &[u8], rest: &[u8]) -> Uptake
        ensures given { Stays (has_given self.old) (has_given self.new) }
        ensures got { Takes (has_got self.old) (has_got self.new) result (front.now ++ rest.now) }
        ensures ended { (ended : Bool) → was_ended self.old ended → was_ended self.new ended }
        ensures fails { FailsWrite (has_failed self.old) (has_failed self.new) result };

    /// Ends what is written: behind that the other side finds an end, and may send on. What has no such end, or fails at
    /// it, stays as it is.
    fn end(&mut self)
        ensures given { Stays (has_given self.old) (has_given self.new) }
        ensures got { Stays (has_got self.old) (has_got self.new) }
        ensures ended { (ended : Bool) → was_ended self.old ended → was_ended self.new true }
        ensures fails { has_failed self.old → has_failed self.new };
}
