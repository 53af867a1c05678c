//! What the cache gives out is noted, and written.

ghost use Rattle.std.specs.Prelude.{◌≡◌, ◌+◌, [], IfSome, List, None, OnOk, OnSome, Some, length};

use crate::attended::Attended;
use crate::forwards::watch_on;
use crate::seeing::{see_to_client, see_to_forward};
use crate::world::World;
use hc_framing::MessageText;
use hc_order::Receiver;
use std::alloc::AllocError;

impl<W: World> Attended<W> {
    ghost use Rattle.hc_agenda.specs.Agendas.{IsFirstOwed, owed_in};
    ghost use Rattle.hc_links.specs.Telling.{TellsSent};
    ghost use Rattle.hc_order.specs.Log.{Move};
    ghost use Rattle.hc_order.specs.declared.receiver.Receiver.TheVariants.{Client, Origin};
    ghost use Rattle.hc_peers.specs.Keeping.{KeepsPeers};
    ghost use Rattle.hc_peers.specs.Peers.{ArePeers, Bounds, FailsOnlyAt};
    ghost use Rattle.hc_peers.specs.Shown.{ShowNoMore};
    ghost use Rattle.hc_attended.specs.Grounds.{FailsNoClient, KeepsOtherThan, KeepsServed};
    ghost use Rattle.hc_attended.specs.Tending.{IsReadyFor};

    /// Octets are owed to a client, or a forward is opened, and its request waits for a link. Where memory is refused,
    /// nothing is sent.
    pub fn send(&mut self, to: Receiver, octets: &MessageText) -> Result<(), AllocError>
        ensures tells { (bounds : Bounds) (log : List Move) → ArePeers W.Stream.has_given W.Stream.has_got bounds self.old.peers log
            → TellsSent (ArePeers W.Stream.has_given W.Stream.has_got bounds self.new.peers) result to octets.now log }
        ensures shown { (log : List Move) → ShowNoMore W.Stream.has_got self.old.peers log → ShowNoMore W.Stream.has_got self.new.peers log }
        ensures fails { FailsNoClient W.Stream.has_failed to self.old.peers self.new.peers }
        ensures others { KeepsOtherThan to self.old.peers self.new.peers }
    {
        // What is to be done has its place before anything is sent.
        self.make_ready(to)?;
        self.peers.send(to, octets, self.time.tick)
    }

    /// It is noted that something may have to be written to a client; and of a forward that is opened no link lingers.
    fn make_ready(&mut self, to: Receiver) -> Result<(), AllocError>
        ensures kept { KeepsPeers W.Stream.has_given W.Stream.has_got self.old.peers self.new.peers }
        ensures ready { OnOk result (IsReadyFor to self.new.peers self.new.agenda) }
        ensures served { KeepsServed self.old.peers self.new.peers }
    {
        match to {
            Receiver::Client(_) => self.agenda.owe(to),
            Receiver::Origin(forward) => {
                self.drop_lingering(forward);
                Ok(())
            }
        }
    }

    /// Writes what is owed at the first link to which something may have to be written, as far as it is taken now. Returns
    /// which link that is, if there is one.
    pub fn write_next(&mut self) -> Option<Receiver>
        ensures tells { (bounds : Bounds) (log : List Move) → ArePeers W.Stream.has_given W.Stream.has_got bounds self.old.peers log
            → ArePeers W.Stream.has_given W.Stream.has_got bounds self.new.peers log }
        ensures none { result ≡ None → owed_in self.new.agenda ≡ [] }
        ensures fewer { OnSome result (length (owed_in self.new.agenda) + 1 ≡ length (owed_in self.old.agenda)) }
        ensures fails { IfSome result (λ link. FailsOnlyAt W.Stream.has_failed ⊥ link self.old.peers self.new.peers) }
        ensures others { IfSome result (λ link. KeepsOtherThan link self.old.peers self.new.peers) }
        ensures places { self.new.peers.places ≡ self.old.peers.places }
    {
        let link = self.agenda.first_owed()?;
        match link {
            Receiver::Client(number) => self.write_to_client(number),
            Receiver::Origin(forward) => self.write_to_forward(forward),
        }
        Some(link)
    }

    /// Writes what is owed to a client, which is the first to which something may have to be written.
    fn write_to_client(&mut self, number: u64)
        requires first { IsFirstOwed (Some (Client number)) (owed_in self.old.agenda) }
        ensures fails { FailsOnlyAt W.Stream.has_failed ⊥ (Client number) self.old.peers self.new.peers }
        ensures others { KeepsOtherThan (Client number) self.old.peers self.new.peers }
        ensures tells { (bounds : Bounds) (log : List Move) → ArePeers W.Stream.has_given W.Stream.has_got bounds self.old.peers log
            → ArePeers W.Stream.has_given W.Stream.has_got bounds self.new.peers log }
        ensures fewer { length (owed_in self.new.agenda) + 1 ≡ length (owed_in self.old.agenda) }
        ensures places { self.new.peers.places ≡ self.old.peers.places }
    {
        self.agenda.next_owed();
        self.peers.write(Receiver::Client(number), self.time.tick);
        see_to_client(&mut self.peers, &mut self.agenda, number, self.time.tick);
    }

    /// Writes what is owed at a forward's link, which is the first to which something may have to be written.
    fn write_to_forward(&mut self, forward: u64)
        requires first { IsFirstOwed (Some (Origin forward)) (owed_in self.old.agenda) }
        ensures fails { FailsOnlyAt W.Stream.has_failed ⊥ (Origin forward) self.old.peers self.new.peers }
        ensures others { KeepsOtherThan (Origin forward) self.old.peers self.new.peers }
        ensures tells { (bounds : Bounds) (log : List Move) → ArePeers W.Stream.has_given W.Stream.has_got bounds self.old.peers log
            → ArePeers W.Stream.has_given W.Stream.has_got bounds self.new.peers log }
        ensures fewer { length (owed_in self.new.agenda) + 1 ≡ length (owed_in self.old.agenda) }
        ensures places { self.new.peers.places ≡ self.old.peers.places }
    {
        self.agenda.next_owed();
        self.peers.write(Receiver::Origin(forward), self.time.tick);
        watch_on(&self.peers, &mut self.agenda, forward, self.times);
        see_to_forward(&mut self.peers, &mut self.agenda, forward);
    }
}
