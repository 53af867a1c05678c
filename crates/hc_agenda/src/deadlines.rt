//! What is due, in the order of time.

ghost use Rattle.std.proofs.Props.{props};
ghost use Rattle.hc_agenda.specs.Due.{AreQueued, TakesOut};

use crate::deadline::{Deadline, Timeout, earlier};
use std::alloc::{AllocError, Global};
use std::collections::{BTreeMap, BTreeSet};

/// All that is due, in one order: by time-out, and then the earliest first. A number is due once for each time-out.
#[derive(Drop)]
pub(crate) struct Deadlines {
    queue: BTreeSet<Deadline>,
    /// When each is due.
    ticks: BTreeMap<(Timeout, u64), u64>,
    ghost queued: { AreQueued queue ticks } by { Prim.hlevel props },
}

impl Deadlines {
    ghost use Rattle.std.specs.Prelude.{◌≡◌, ◌⊎◌, Some, None, OnErr, OnOk};
    ghost use Rattle.hc_agenda.specs.Earliest.{IsEarliest};
    ghost use Rattle.hc_agenda.specs.Deadlines.{IsDue, IsDueBy, IsDueFirst, IsFirstOf, KeepsDeadlines, NoneIsDue, SetsDeadline, deadline_at, deadlines_in, has_come};

    /// Nothing is due.
    pub(crate) fn new(alloc: Global) -> Self
        ensures { NoneIsDue result }
    {
        Deadlines {
            queue: BTreeSet::new(alloc),
            ticks: BTreeMap::new(alloc),
        }
    }

    /// How many there are.
    pub(crate) fn len(&self) -> usize
        ensures { result ≡ deadlines_in self.now }
    {
        self.ticks.len()
    }

    /// The earliest of that time-out.
    pub(crate) fn first_of(&self, timeout: Timeout) -> Option<Deadline>
        ensures { IsFirstOf timeout result self.now }
    {
        let least = Deadline {
            timeout,
            tick: 0,
            number: 0,
        };
        let Some(first) = self.queue.range(least..).next() else {
            return None;
        };
        if first.timeout == timeout {
            return Some(*first);
        }
        None
    }

    /// The millisecond at which the first of that time-out is due.
    fn first_by(&self, timeout: Timeout) -> Option<u64>
        ensures { IsEarliest (IsDueBy timeout self.now) result }
    {
        match self.first_of(timeout) {
            Some(deadline) => Some(deadline.tick),
            None => None,
        }
    }

    /// The millisecond at which the first of these two time-outs is due.
    fn first_by_either(&self, one: Timeout, other: Timeout) -> Option<u64>
        ensures { IsEarliest (λ tick. IsDueBy one self.now tick ⊎ IsDueBy other self.now tick) result }
    {
        earlier(self.first_by(one), self.first_by(other))
    }

    /// The millisecond at which the first of all is due.
    pub(crate) fn first(&self) -> Option<u64>
        ensures { IsEarliest (IsDue self.now) result }
    {
        let of_guest = self.first_by_either(Timeout::Guest, Timeout::TurnedAway);
        let of_client = self.first_by_either(Timeout::Client, Timeout::ClientLingering);
        let of_forward = self.first_by_either(Timeout::Place, Timeout::Connect);
        let of_link = self.first_by_either(Timeout::Origin, Timeout::OriginLingering);
        earlier(earlier(of_guest, of_client), earlier(of_forward, of_link))
    }

    /// A number is due then, and at no other time of that time-out. Where memory is refused, all is due as before.
    pub(crate) fn put(&mut self, deadline: Deadline) -> Result<(), AllocError>
        ensures ok { OnOk result (SetsDeadline deadline.timeout deadline.number (Some deadline.tick) self.old self.new) }
        ensures err { OnErr result (KeepsDeadlines self.old self.new) }
    {
        let Deadline {
            timeout,
            tick,
            number,
        } = deadline;
        // It stands there before an earlier one goes, so that nothing is lost where memory is refused.
        let is_new = self.queue.insert(deadline)?;
        if !is_new {
            return Ok(());
        }
        let Ok(before) = self.ticks.insert((timeout, number), tick) else {
            self.queue.remove(&deadline);
            return Err(AllocError);
        };
        take_out(&mut self.queue, timeout, before, number);
        Ok(())
    }

    /// A number is due no more by that time-out.
    pub(crate) fn remove(&mut self, timeout: Timeout, number: u64)
        ensures { SetsDeadline timeout number None self.old self.new }
    {
        let tick = self.ticks.remove(&(timeout, number));
        take_out(&mut self.queue, timeout, tick, number);
    }

    /// The earliest of that time-out, if it is due by that millisecond.
    pub(crate) fn due(&self, timeout: Timeout, tick: u64) -> Option<Deadline>
        ensures { IsDueFirst timeout tick result self.now }
    {
        let Some(deadline) = self.first_of(timeout) else {
            return None;
        };
        if deadline.tick > tick {
            return None;
        }
        Some(deadline)
    }

    /// Whether a number is due by that time-out, at that millisecond or before.
    pub(crate) fn is_due_by(&self, timeout: Timeout, number: u64, latest: u64) -> bool
        ensures { result ≡ has_come (deadline_at timeout number self.now) latest }
    {
        match self.ticks.get(&(timeout, number)) {
            Some(tick) => *tick <= latest,
            None => false,
        }
    }
}

/// Takes a deadline out of a queue, if there is a tick at which it was due.
fn take_out(queue: &mut BTreeSet<Deadline>, timeout: Timeout, tick: Option<u64>, number: u64)
    ensures { TakesOut timeout tick number queue.old queue.new }
{
    if let Some(tick) = tick {
        queue.remove(&Deadline {
            timeout,
            tick,
            number,
        });
    }
}
