//! Links that are lost for the sake of others: since too much is held, or since nobody waits for them.

ghost use Rattle.std.specs.Prelude.{◌≡◌, ◌⊎◌, ◌-◌};
ghost use Rattle.hc_attended.specs.Abandoning.{all_left};

use crate::attended::Attended;
use crate::forwards::{lose, lose_now};
use crate::world::World;
use hc_agenda::Heaviest;
use hc_flow::Stream;
use hc_links::Awaiting;
use hc_order::{Reason, Receiver};
use hc_peers::Peers;
use std::alloc::AllocError;

/// Whether anybody waits for a forward.
#[derive(Clone, Copy, PartialEq, Eq)]
pub enum Waiters {
    /// Somebody waits, or it is needed all the same.
    Some,
    /// All who waited have left, but not long enough ago.
    Left,
    /// All have left, and it was given up.
    GivenUp,
}

impl<W: World> Attended<W> {
    ghost use Rattle.hc_attended.specs.Abandoning.{IsAbandoned, have_left};
    ghost use Rattle.hc_attended.specs.Grounds.{IsCutOff, KeepsAllBut};
    ghost use Rattle.hc_order.specs.declared.receiver.Receiver.TheVariants.{Client};
    ghost use Rattle.hc_peers.specs.Keeping.{KeepsPeers};
    ghost use Rattle.hc_peers.specs.Peers.{ChangesOnly};

    /// So much is held for a link that it is cut off: what is owed there is lost, and that is told before all else.
    pub fn cut_off(&mut self, heaviest: Heaviest)
        ensures kept { KeepsPeers W.Stream.has_given W.Stream.has_got self.old.peers self.new.peers }
        ensures cut { IsCutOff heaviest.load.link self.new.peers }
        ensures only { ChangesOnly heaviest.load.link self.old.peers self.new.peers }
    {
        match heaviest.link() {
            Receiver::Client(number) => self.cut_off_client(number),
            Receiver::Origin(forward) => lose_now(
                &mut self.peers,
                &mut self.agenda,
                forward,
                Reason::Held,
            ),
        }
    }

    /// A client is cut off, and its end is heard before all else.
    fn cut_off_client(&mut self, number: u64)
        ensures kept { KeepsPeers W.Stream.has_given W.Stream.has_got self.old.peers self.new.peers }
        ensures cut { IsCutOff (Client number) self.new.peers }
        ensures only { ChangesOnly (Client number) self.old.peers self.new.peers }
    {
        self.peers.cut_off(number);
        self.peers.queue(Receiver::Client(number));
        self.agenda.give_turn_now(Receiver::Client(number));
    }

    /// A forward that isn't needed is given up, where all who waited for it had left so many milliseconds ago.
    pub fn give_up<A: Awaiting>(
        &mut self,
        forward: u64,
        cache: &A,
        abandoned: u64,
    ) -> Result<Waiters, AllocError>
        ensures kept { KeepsPeers W.Stream.has_given W.Stream.has_got self.old.peers self.new.peers }
        // It fails for that only where it is abandoned, by what the cache may return.
        ensures only { (IsAbandoned (A.needed cache.now) (A.clients cache.now) (self.old.time.tick - abandoned) forward self.old.peers) ⊎ (self.new.peers ≡ self.old.peers) }
        ensures others { KeepsAllBut forward self.old.peers self.new.peers }
    {
        if cache.is_needed(forward) {
            return Ok(Waiters::Some);
        }
        let clients = cache.clients_of(forward)?;
        let since = self.time.tick.saturating_sub(abandoned);
        if self.have_left(clients.as_slice(), since) {
            lose(
                &mut self.peers,
                &mut self.agenda,
                forward,
                Reason::Abandoned,
            );
            return Ok(Waiters::GivenUp);
        }
        if self.have_left(clients.as_slice(), self.time.tick) {
            return Ok(Waiters::Left);
        }
        Ok(Waiters::Some)
    }

    /// Whether there are clients, and all of them had left by that millisecond.
    fn have_left(&self, clients: &[u64], by: u64) -> bool
        ensures { result ≡ have_left by clients.now self.now.peers }
    {
        !clients.is_empty() && all_left(&self.peers, clients, by)
    }
}

/// Whether all of the clients had left by that millisecond.
fn all_left<S: Stream + Drop>(peers: &Peers<S>, clients: &[u64], by: u64) -> bool
    ensures { result ≡ all_left by clients.now peers.now }
{
    clients.iter().all(|number| peers.has_left(*number, by))
}
