//! Guests, and those who were turned away, and what is noted of them.

ghost use Rattle.std.specs.Prelude.{[], List, IfSome};
ghost use Rattle.hc_peers.specs.Keeping.{KeepsPeers};
ghost use Rattle.hc_attended.specs.Grounds.{KeepsServed};

use crate::attended::Attended;
use crate::times::REFUSED_LINGERS;
use crate::world::World;
use hc_agenda::Timeout;
use hc_flow::Presence;
use std::alloc::AllocError;

impl<W: World> Attended<W> {
    ghost use Rattle.hc_order.specs.Log.{Move};
    ghost use Rattle.hc_peers.specs.Keeping.{KeepsWithin};
    ghost use Rattle.hc_peers.specs.Peers.{ArePeers, Bounds, HasRoom};
    ghost use Rattle.hc_peers.specs.Shown.{ShowNoMore};

    /// A number for one who connects, as far as there are numbers: none is given twice.
    pub fn next_guest(&mut self) -> Option<u64>
        ensures kept { KeepsPeers W.Stream.has_given W.Stream.has_got self.old.peers self.new.peers }
        ensures served { KeepsServed self.old.peers self.new.peers }
    {
        self.peers.next_guest()
    }

    /// One has connected, and is a guest that knocks, and goes in time, where there are fewer links of clients and guests
    /// than that. Where memory is refused, its link is closed.
    pub fn invite(&mut self, guest: u64, stream: W::Stream, most: usize) -> Result<(), AllocError>
        requires fresh { W.Stream.has_given stream [] × W.Stream.has_got stream [] }
        requires room { HasRoom self.old.peers most }
        ensures kept { KeepsWithin W.Stream.has_given W.Stream.has_got most self.old.peers self.new.peers }
        ensures served { KeepsServed self.old.peers self.new.peers }
    {
        let due = self.due_behind(self.times.patience.idle_timeout);
        self.peers.invite(guest, stream, most)?;
        self.agenda.note(Timeout::Guest, due, guest);
        Ok(())
    }

    /// A guest knocks, if it is there.
    pub fn knock(&mut self, guest: u64)
        ensures kept { KeepsPeers W.Stream.has_given W.Stream.has_got self.old.peers self.new.peers }
        ensures served { KeepsServed self.old.peers self.new.peers }
    {
        if self.peers.knock(guest).is_err() {
            self.agenda.note_refusal();
        }
    }

    /// The guest that has knocked for longest, who knocks no more. It may have gone.
    pub fn next_knocking(&mut self) -> Option<u64>
        ensures kept { KeepsPeers W.Stream.has_given W.Stream.has_got self.old.peers self.new.peers }
        ensures served { KeepsServed self.old.peers self.new.peers }
    {
        self.peers.next_knocking()
    }

    /// The link of a guest, which is one no more: nothing was read there, and nothing written.
    pub fn take_guest(&mut self, guest: u64) -> Option<W::Stream>
        ensures kept { KeepsPeers W.Stream.has_given W.Stream.has_got self.old.peers self.new.peers }
        ensures fresh { (bounds : Bounds) (log : List Move) → ArePeers W.Stream.has_given W.Stream.has_got bounds self.old.peers log
            → IfSome result (λ stream. W.Stream.has_given stream [] × W.Stream.has_got stream []) }
        ensures unwritten { (log : List Move) → ShowNoMore W.Stream.has_got self.old.peers log → IfSome result (λ stream. W.Stream.has_got stream []) }
        ensures served { KeepsServed self.old.peers self.new.peers }
    {
        self.agenda.forget(Timeout::Guest, guest);
        self.freed = true;
        self.peers.take_guest(guest)
    }

    /// The link of a guest is dropped.
    pub fn let_guest_go(&mut self, guest: u64)
        ensures kept { KeepsPeers W.Stream.has_given W.Stream.has_got self.old.peers self.new.peers }
        ensures served { KeepsServed self.old.peers self.new.peers }
    {
        self.agenda.forget(Timeout::Guest, guest);
        self.freed = true;
        self.peers.let_guest_go(guest);
    }

    /// The time of a guest is over: it goes, unless octets of it have come. Then it knocks, and has the same time again.
    pub fn end_guest(&mut self, guest: u64)
        ensures kept { KeepsPeers W.Stream.has_given W.Stream.has_got self.old.peers self.new.peers }
        ensures served { KeepsServed self.old.peers self.new.peers }
    {
        match self.peers.guests.peek(guest) {
            Presence::Octets => self.put_off(guest),
            Presence::Later => self.let_guest_go(guest),
            Presence::Over => self.let_guest_go(guest),
        }
    }

    /// A guest knocks, and has the time again that it had.
    fn put_off(&mut self, guest: u64)
        ensures kept { KeepsPeers W.Stream.has_given W.Stream.has_got self.old.peers self.new.peers }
        ensures served { KeepsServed self.old.peers self.new.peers }
    {
        let due = self.due_behind(self.times.patience.idle_timeout);
        self.agenda.note(Timeout::Guest, due, guest);
        self.knock(guest);
    }

    /// One has connected for whom there is no room: the refusal is written, as far as it is taken now, and our half is
    /// ended. Its link lingers, if there is memory for that, and goes in time.
    pub fn turn_away(&mut self, guest: u64, stream: W::Stream, refusal: &[u8])
        ensures kept { KeepsPeers W.Stream.has_given W.Stream.has_got self.old.peers self.new.peers }
        ensures served { KeepsServed self.old.peers self.new.peers }
    {
        let due = self.due_behind(REFUSED_LINGERS);
        if self.peers.turn_away(guest, stream, refusal) {
            self.agenda.note(Timeout::TurnedAway, due, guest);
        }
    }

    /// Drops what one sends who was turned away, and then the link, once nothing more comes.
    pub fn drop_rest_of_guest(&mut self, guest: u64, buffer: &mut [u8])
        ensures kept { KeepsPeers W.Stream.has_given W.Stream.has_got self.old.peers self.new.peers }
        ensures served { KeepsServed self.old.peers self.new.peers }
    {
        if self.peers.discard_turned_away(guest, buffer) {
            self.drop_turned_away(guest);
        }
    }

    /// Drops the link of one who was turned away, if it is there.
    pub fn drop_turned_away(&mut self, guest: u64)
        ensures kept { KeepsPeers W.Stream.has_given W.Stream.has_got self.old.peers self.new.peers }
        ensures served { KeepsServed self.old.peers self.new.peers }
    {
        self.agenda.forget(Timeout::TurnedAway, guest);
        self.freed = true;
        self.peers.drop_turned_away(guest);
    }
}
