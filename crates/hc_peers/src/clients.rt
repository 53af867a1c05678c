//! What happens at the links of clients.

ghost use Rattle.std.specs.Prelude.{◌≡◌, ◌⊎◌, ◌&&◌, ◌+◌, ◌-◌, true, false, ℕ, List, [], ◌∷◌, Some, None, is_some, if◌then◌else◌, option_map, IsErr, OnOk, OnErr};

use crate::client::{Client, Hearing};
use crate::peers::Peers;
use hc_flow::{Heard, Patience, Stream};
use std::alloc::AllocError;

impl<S: Stream + Drop> Peers<S> {
    ghost use Rattle.std.specs.BTreeMap.{get};
    ghost use Rattle.std.specs.Option.{IsSomeAnd};
    ghost use Rattle.std.specs.Ordering.{nat_cmp};
    ghost use Rattle.hc_service.specs.declared.event.Happening.TheVariants.{ClientOpened};
    ghost use Rattle.hc_flow.specs.Hearings.{IsHeardInTurn, IsRealEnd};
    ghost use Rattle.hc_flow.specs.declared.pace.Pace.TheVariants.{Idle};
    ghost use Rattle.hc_order.specs.declared.receiver.Receiver.TheVariants as to;
    ghost use Rattle.hc_order.specs.Log.{Move};
    ghost use Rattle.hc_order.specs.Log.Move.{Closed};
    ghost use Rattle.hc_order.specs.Mirrors.{MayHappen};
    ghost use Rattle.hc_peers.specs.Behind.{Behind, ClientIsClosed, ClientIsDropped, ClientIsHeard, ClientIsLost, IsFreshClient, is_closing_at};
    ghost use Rattle.hc_peers.specs.Clients.{may_go};
    ghost use Rattle.hc_peers.specs.Heard.{IsAnswerOf, told};
    ghost use Rattle.hc_peers.specs.Hearings.{HasEndedAt, HasFailedAt, IsHeardFor, IsToldAtOnce};
    ghost use Rattle.hc_peers.specs.Keeping.{Hears, KeepsPeers};
    ghost use Rattle.hc_peers.specs.Known.{KeepsPace, is_connected_at, is_cut_at, is_failed_at, is_open_at, is_owed_at, held_at, known_at, pace_at};
    ghost use Rattle.hc_peers.specs.Leaving.{has_left};
    ghost use Rattle.hc_peers.specs.Peers.{ArePeers, Bounds, ChangesOnly, FailsOnlyAt, IsNext, MayOpen, is_client_overdue};
    ghost use Rattle.hc_peers.specs.Peers.Bounds.{AtMost};
    ghost use Rattle.hc_peers.specs.Shown.{ShowNoMore};
    ghost use Rattle.hc_peers.specs.Tables.{KeepsOthers, is_there_and};
    ghost use Rattle.hc_peers.specs.Telling.{KeepsOpened};
    ghost use Rattle.hc_peers.specs.Times.{pace_behind};

    /// A client has opened the connection of the next number, where fewer than so many are open, and it was a guest before.
    /// It has a turn. Where memory is refused, its link is closed, and the number isn't used.
    pub fn open(&mut self, number: u64, stream: S, most: usize, tick: u64) -> Result<(), AllocError>
        requires next { IsNext self.old number }
        requires room { MayOpen self.old most }
        ensures tells { S.has_given stream [] → S.has_got stream [] → (origin : ℕ) (log : List Move) → ArePeers S.has_given S.has_got (AtMost most origin) self.old log
            → KeepsOpened (ArePeers S.has_given S.has_got (AtMost most origin) self.new) number result log }
        ensures may { (bounds : Bounds) (log : List Move) → ArePeers S.has_given S.has_got bounds self.old log → MayHappen most (ClientOpened number) log }
        ensures shown { S.has_got stream [] → (log : List Move) → ShowNoMore S.has_got self.old log
            → ShowNoMore S.has_got self.new log }
        ensures ok { OnOk result (self.new ≡ record self.old { clients = self.new.clients; last = number; connected = self.old.connected + 1 }) }
        ensures err { OnErr result (self.new ≡ record self.old { clients = self.new.clients }) }
        ensures unused { OnErr result (get nat_cmp self.new.clients.links number ≡ get nat_cmp self.old.clients.links number) }
        ensures others { KeepsOthers number self.old.clients.links self.new.clients.links }
        ensures behind { OnOk result (IsSomeAnd (get nat_cmp self.new.clients.links number) (IsFreshClient stream tick)) }
        ensures pace { OnOk result (pace_at number self.new.clients.links ≡ Some (Idle tick)) }
        ensures cut { OnOk result (is_cut_at number self.new.clients.links ≡ false) }
    {
        let client = Client::new(self.alloc, stream, tick);
        self.clients.links.insert(number, client)?;
        self.last = number;
        self.connected += 1;
        Ok(())
    }

    /// What is heard of a client now. Of one that isn't there nothing is.
    pub fn hear_client(
        &mut self,
        number: u64,
        buffer: &mut [u8],
        hearing: Hearing,
    ) -> Result<Heard, AllocError>
        ensures heard { Hears S.has_given S.has_got (IsAnswerOf number hearing.awaited) (told (to.Client number) result) self.old self.new }
        ensures owed { IsHeardInTurn (is_owed_at number self.old.clients.links) result }
        ensures reason { IsHeardFor hearing (is_cut_at number self.old.clients.links)
            (HasFailedAt S.has_failed (known_at number self.old.clients.links) (known_at number self.new.clients.links)) result }
        // Its own end is told only where the client has ended what it sends.
        ensures over { IsRealEnd (HasEndedAt S.has_ended (known_at number self.new.clients.links)) result }
        ensures fails { FailsOnlyAt S.has_failed ((hearing.late ≡ true) ⊎ IsErr result) (to.Client number) self.old self.new }
        ensures at_once { is_open_at number self.old.clients.links ≡ true → IsToldAtOnce (is_cut_at number self.old.clients.links) hearing.late result }
        ensures behind { Behind (ClientIsHeard hearing result) (get nat_cmp self.old.clients.links number) (get nat_cmp self.new.clients.links number) }
        ensures pace { pace_at number self.new.clients.links ≡ option_map (pace_behind result hearing.tick) (pace_at number self.old.clients.links) }
        ensures cut { is_cut_at number self.new.clients.links ≡ is_cut_at number self.old.clients.links }
        ensures only { ChangesOnly (to.Client number) self.old self.new }
    {
        match self.clients.links.get_mut(&number) {
            Some(client) => client.hear(self.alloc, buffer, hearing),
            None => Ok(Heard::Nothing),
        }
    }

    /// The cache has closed a client's connection: behind what is owed the client finds an end.
    pub fn close_client(&mut self, number: u64)
        ensures tells { (bounds : Bounds) (log : List Move) → ArePeers S.has_given S.has_got bounds self.old log
            → ArePeers S.has_given S.has_got bounds self.new (Closed (to.Client number) ∷ log) }
        ensures shown { (log : List Move) → ShowNoMore S.has_got self.old log → ShowNoMore S.has_got self.new log }
        ensures behind { Behind ClientIsClosed (get nat_cmp self.old.clients.links number) (get nat_cmp self.new.clients.links number) }
        // Behind what is owed our half is ended.
        ensures ends { is_there_and (get nat_cmp self.new.clients.links number) (λ client. client.closed && client.flow.ends) ≡ is_some (get nat_cmp self.old.clients.links number) }
        ensures waits { held_at number self.new.clients.links ≡ held_at number self.old.clients.links }
        ensures fails { FailsOnlyAt S.has_failed ⊥ (to.Client number) self.old self.new }
        ensures pace { KeepsPace number self.old.clients.links self.new.clients.links }
        ensures others { KeepsOthers number self.old.clients.links self.new.clients.links }
        ensures rest { self.new ≡ record self.old {
          clients = self.new.clients;
          connected = if is_connected_at number self.old.clients.links then self.old.connected - 1 else self.old.connected;
        } }
    {
        let Some(client) = self.clients.links.get_mut(&number) else {
            return;
        };
        if client.close() {
            self.connected = self.connected.saturating_sub(1);
        }
    }

    /// Whether a client is there whose time is over by that millisecond, unless a request of it awaits its reply.
    pub fn is_overdue(&self, number: u64, tick: u64, patience: Patience) -> bool
        ensures { result ≡ is_client_overdue self.now number tick patience }
    {
        match self.clients.links.get(&number) {
            Some(client) => client.pace.is_overdue(tick, patience),
            None => false,
        }
    }

    /// Whether a client had left by that millisecond: the system had told that it has ended, or its link has failed. So has one
    /// that isn't there.
    pub fn has_left(&self, number: u64, by: u64) -> bool
        ensures { result ≡ has_left by (get nat_cmp self.now.clients.links number) }
    {
        match self.clients.links.get(&number) {
            Some(client) => client.has_left(by),
            None => true,
        }
    }

    /// Whether the cache has closed a client's connection, its link works, and all that was owed to it was written.
    pub fn is_closing(&self, number: u64) -> bool
        ensures { result ≡ is_closing_at number self.now }
    {
        match self.clients.links.get(&number) {
            Some(client) => client.is_closing(),
            None => false,
        }
    }

    /// A client's time is over: what is owed to it is lost.
    pub fn lose_client(&mut self, number: u64)
        ensures kept { KeepsPeers S.has_given S.has_got self.old self.new }
        ensures behind { Behind (ClientIsLost false) (get nat_cmp self.old.clients.links number) (get nat_cmp self.new.clients.links number) }
        ensures lost { is_failed_at number self.new.clients.links ≡ is_some (get nat_cmp self.old.clients.links number) }
        ensures pace { KeepsPace number self.old.clients.links self.new.clients.links }
        ensures only { ChangesOnly (to.Client number) self.old self.new }
    {
        match self.clients.links.get_mut(&number) {
            Some(client) => client.lose(),
            None => {}
        }
    }

    /// A client is cut off, since so much is held: what is owed to it is lost, and its end is heard next.
    pub fn cut_off(&mut self, number: u64)
        ensures kept { KeepsPeers S.has_given S.has_got self.old self.new }
        ensures behind { Behind (ClientIsLost true) (get nat_cmp self.old.clients.links number) (get nat_cmp self.new.clients.links number) }
        ensures cut { is_cut_at number self.new.clients.links ≡ is_some (get nat_cmp self.old.clients.links number) }
        ensures lost { is_failed_at number self.new.clients.links ≡ is_some (get nat_cmp self.old.clients.links number) }
        ensures pace { pace_at number self.new.clients.links ≡ pace_at number self.old.clients.links }
        ensures only { ChangesOnly (to.Client number) self.old self.new }
    {
        match self.clients.links.get_mut(&number) {
            Some(client) => client.cut_off(),
            None => {}
        }
    }

    /// Reads what a client whose connection is closed still sends, and drops it. Returns whether nothing more comes.
    pub fn discard(&mut self, number: u64, buffer: &mut [u8]) -> bool
        ensures kept { KeepsPeers S.has_given S.has_got self.old self.new }
        ensures behind { Behind (ClientIsDropped result) (get nat_cmp self.old.clients.links number) (get nat_cmp self.new.clients.links number) }
        ensures open { is_open_at number self.old.clients.links ≡ true → (result ≡ false) × (known_at number self.new.clients.links ≡ known_at number self.old.clients.links) }
        ensures fails { FailsOnlyAt S.has_failed ⊥ (to.Client number) self.old self.new }
        ensures pace { KeepsPace number self.old.clients.links self.new.clients.links }
        ensures only { ChangesOnly (to.Client number) self.old self.new }
    {
        match self.clients.links.get_mut(&number) {
            Some(client) => client.discard(buffer),
            None => true,
        }
    }

    /// Drops a client's link, where the cache has closed the connection, and all that was owed was written, or is lost.
    /// Returns whether it did.
    pub fn let_go(&mut self, number: u64) -> bool
        ensures kept { KeepsPeers S.has_given S.has_got self.old self.new }
        ensures gone { result ≡ is_there_and (get nat_cmp self.old.clients.links number) may_go }
        ensures rest { get nat_cmp self.new.clients.links number ≡ (if result then None else get nat_cmp self.old.clients.links number) }
        ensures only { ChangesOnly (to.Client number) self.old self.new }
    {
        if !self.may_go(number) {
            return false;
        }
        self.clients.links.remove(&number);
        true
    }

    /// Whether the cache has closed a connection, and all that was owed was written, or is lost.
    fn may_go(&self, number: u64) -> bool
        ensures { result ≡ is_there_and (get nat_cmp self.now.clients.links number) may_go }
    {
        match self.clients.links.get(&number) {
            Some(client) => client.may_go(),
            None => false,
        }
    }
}
