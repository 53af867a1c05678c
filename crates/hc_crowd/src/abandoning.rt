//! Forwards for which nobody waits any more are given up.

ghost use Rattle.std.specs.Prelude.{◌≡◌, ◌-◌, ◌⊎◌};

use crate::traffic::Traffic;
use hc_attended::{Waiters, World};
use hc_flow::Readiness;
use hc_incoming::Trouble;
use hc_links::Awaiting;
use hc_order::Receiver;
use std::alloc::AllocError;

/// So many milliseconds later forwards are looked at again, where the clients of one have all left, but not long enough ago, or
/// one was given up.
const LOOKS_AGAIN: u64 = 250;

impl<W: World> Traffic<W> {
    ghost use Rattle.hc_attended.specs.Abandoning.{IsAbandoned};
    ghost use Rattle.hc_peers.specs.Keeping.{KeepsPeers};

    /// Where a client has ended what it sends, or its link has failed, forwards are looked at so many milliseconds later:
    /// it may have waited for one.
    pub(crate) fn note_leaving(&mut self, readiness: Readiness, abandoned: u64)
        ensures kept { KeepsPeers W.Stream.has_given W.Stream.has_got self.old.links.peers self.new.links.peers }
    {
        if readiness.ended || readiness.failed {
            self.links
                .agenda
                .sweep_by(self.links.time.tick.saturating_add(abandoned));
        }
    }

    /// Where it is time for that, all forwards are looked at, and those are given up for which nobody has waited for so many
    /// milliseconds.
    pub(crate) fn give_up_abandoned<A: Awaiting>(
        &mut self,
        cache: &A,
        abandoned: u64,
    ) -> Result<(), AllocError>
        ensures kept { KeepsPeers W.Stream.has_given W.Stream.has_got self.old.links.peers self.new.links.peers }
    {
        if !self.links.agenda.takes_sweep(self.links.time.tick) {
            return Ok(());
        }
        let mut least = 0;
        'forwards: for _ in 0..self.links.peers().forwards.len() {
            let Some(forward) = self.links.peers().forwards.first_from(least) else {
                return Ok(());
            };
            self.look_who_waits(forward, cache, abandoned)?;
            least = forward.saturating_add(1);
        }
        Ok(())
    }

    /// A forward that isn't needed is given up, where all who waited for it had left so many milliseconds ago. Those who
    /// waited along with it may go to the origin for themselves then, so forwards are looked at again; and so they are where
    /// all have left since.
    fn look_who_waits<A: Awaiting>(
        &mut self,
        forward: u64,
        cache: &A,
        abandoned: u64,
    ) -> Result<(), AllocError>
        ensures kept { KeepsPeers W.Stream.has_given W.Stream.has_got self.old.links.peers self.new.links.peers }
        ensures only { IsAbandoned (A.needed cache.now) (A.clients cache.now) (self.old.links.time.tick - abandoned) forward self.old.links.peers ⊎ (self.new.links.peers ≡ self.old.links.peers) }
    {
        match self.links.give_up(forward, cache, abandoned)? {
            Waiters::Some => {}
            Waiters::Left => self.look_again(),
            Waiters::GivenUp => {
                self.troubles
                    .note(Receiver::Origin(forward), Trouble::Abandoned);
                self.look_again();
            }
        }
        Ok(())
    }

    /// Forwards are looked at again soon.
    fn look_again(&mut self)
        ensures kept { KeepsPeers W.Stream.has_given W.Stream.has_got self.old.links.peers self.new.links.peers }
        ensures peers { self.new.links.peers ≡ self.old.links.peers }
    {
        self.links
            .agenda
            .sweep_by(self.links.time.tick.saturating_add(LOOKS_AGAIN));
    }
}
