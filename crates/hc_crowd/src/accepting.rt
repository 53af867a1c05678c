//! Clients who connect are accepted, as guests at first.

ghost use Rattle.std.specs.Prelude.{◌≡◌, IfSome, [], false, true};

use crate::displacing::Displacement;
use crate::limits::Limits;
use crate::traffic::Traffic;
use hc_attended::{Accepted, World};
use hc_links::Awaiting;
use std::alloc::AllocError;

impl<W: World> Traffic<W> {
    ghost use Rattle.hc_crowd.specs.Courses.{ServesNoMore};
    ghost use Rattle.hc_peers.specs.Keeping.{KeepsPeers, KeepsWithin};
    ghost use Rattle.hc_peers.specs.Peers.{HasRoom, last_given};

    /// Whether further clients may be served: not all of those have been opened that are served, and no stop was asked, or
    /// some had connected by then.
    pub(crate) fn serves_more(&self, limits: Limits) -> bool
        ensures { result ≡ false → ServesNoMore self.now.told.course W.stop_asked limits.clients (last_given self.now.links.peers) }
    {
        if self.told.course.is_late() {
            return false;
        }
        if self.told.course.stops() && self.listening.is_idle() {
            return false;
        }
        match limits.clients {
            Some(most) => self.links.peers().last() < most,
            None => true,
        }
    }

    /// Whether a further guest may be accepted: no more than may be served.
    fn accepts_more(&self, limits: Limits) -> bool {
        self.serves_more(limits) && self.may_serve_guest(limits.clients)
    }

    /// Whether a guest more could be served.
    fn may_serve_guest(&self, clients: Option<u64>) -> bool {
        match clients {
            Some(most) => {
                (self.links.peers().guests.len() as u64)
                    < most.saturating_sub(self.links.peers().last())
            }
            None => true,
        }
    }

    /// Whether a client may have connected who is accepted now, or turned away.
    pub(crate) fn has_arrivals(&self, limits: Limits) -> bool {
        self.listening.is_ready()
            && self.accepts_more(limits)
            && (self.may_make_room(limits.connections) || self.turns_away())
    }

    /// Whether a client may be turned away now, who has connected: there is room for that, and none waits for somebody to
    /// give way.
    fn turns_away(&self) -> bool {
        self.links.peers().may_turn_away() && self.listening.held_until().is_none()
    }

    /// Whether there is room for a further guest, or a client lingers that can give way.
    fn may_make_room(&self, most: usize) -> bool {
        self.links.peers().has_room(most)
            || (self.links.peers().has_fewer_open(most)
                && self.links.agenda.longest_lingering().is_some())
    }

    /// Makes room for a client who may have connected: where there are as many links as there may be, that of
    /// the client goes that has lingered for longest. Returns whether there is room.
    fn make_room(&mut self, most: usize) -> bool
        ensures kept { KeepsPeers W.Stream.has_given W.Stream.has_got self.old.links.peers self.new.links.peers }
        ensures room { result ≡ true → HasRoom self.new.links.peers most }
        ensures full { result ≡ false → HasRoom self.new.links.peers most → ⊥ }
    {
        if self.links.peers().has_room(most) {
            return true;
        }
        if !self.may_make_room(most) {
            return false;
        }
        self.give_way();
        self.links.peers().has_room(most)
    }

    /// The client's link goes that has lingered for longest, if one does.
    fn give_way(&mut self)
        ensures kept { KeepsPeers W.Stream.has_given W.Stream.has_got self.old.links.peers self.new.links.peers }
    {
        if let Some(number) = self.links.agenda.longest_lingering() {
            self.links.let_go(number);
        }
    }

    /// Accepts all who have connected and for whom there is room, as many as are accepted in a batch. Others are turned away.
    pub(crate) fn accept_all<A: Awaiting>(
        &mut self,
        cache: &A,
        limits: Limits,
    ) -> Result<(), AllocError>
        ensures kept { KeepsWithin W.Stream.has_given W.Stream.has_got limits.connections self.old.links.peers self.new.links.peers }
    {
        'arrivals: for _ in 0..u64::MAX {
            if !self.accept(cache, limits)? {
                return Ok(());
            }
        }
        Ok(())
    }

    /// Accepts a client who has connected, if one is accepted in this batch still. Returns whether a further
    /// one may be accepted.
    fn accept<A: Awaiting>(&mut self, cache: &A, limits: Limits) -> Result<bool, AllocError>
        ensures kept { KeepsWithin W.Stream.has_given W.Stream.has_got limits.connections self.old.links.peers self.new.links.peers }
    {
        if !self.listening.may_accept() {
            return Ok(false);
        }
        if !self.accepts_more(limits) {
            return Ok(false);
        }
        let Some(guest) = self.links.next_guest() else {
            return Ok(false);
        };
        if self.make_room(limits.connections) {
            return self.invite(guest, limits);
        }
        Ok(self.find_room(guest, cache, limits))
    }

    /// There is no room. If a client has connected, who has been silent for longest gives way; where nobody
    /// is silent, and behind a stop, it is turned away. Returns whether a further one may be accepted.
    fn find_room<A: Awaiting>(&mut self, guest: u64, cache: &A, limits: Limits) -> bool
        requires full { HasRoom self.old.links.peers limits.connections → ⊥ }
        ensures kept { KeepsPeers W.Stream.has_given W.Stream.has_got self.old.links.peers self.new.links.peers }
    {
        if self.told.course.stops() {
            return self.turn_away(guest, limits.connections);
        }
        if self.asks_who_waits() {
            return false;
        }
        match self.displace(cache, limits) {
            Displacement::Now => true,
            Displacement::Later => false,
            Displacement::Nobody => self.turn_away(guest, limits.connections),
        }
    }

    /// Whether the system is asked if a client has connected, since that isn't known: nobody gives way to nobody.
    fn asks_who_waits(&mut self) -> bool
        ensures peers { self.new.links.peers ≡ self.old.links.peers }
    {
        if self.listening.is_known() {
            return false;
        }
        if !self.world.ask_for_clients() {
            return false;
        }
        self.listening.rest();
        true
    }

    /// Accepts a client who has connected as a guest of that number: there is room.
    fn invite(&mut self, guest: u64, limits: Limits) -> Result<bool, AllocError>
        requires room { HasRoom self.old.links.peers limits.connections }
        ensures kept { KeepsWithin W.Stream.has_given W.Stream.has_got limits.connections self.old.links.peers self.new.links.peers }
    {
        let Some(stream) = self.arrival(guest) else {
            return Ok(false);
        };
        self.links.invite(guest, stream, limits.connections)?;
        Ok(true)
    }

    /// The link of a client who has connected, if one has. What becomes ready there is told with that number.
    pub(crate) fn arrival(&mut self, guest: u64) -> Option<W::Stream>
        ensures kept { KeepsPeers W.Stream.has_given W.Stream.has_got self.old.links.peers self.new.links.peers }
        ensures peers { self.new.links.peers ≡ self.old.links.peers }
        ensures fresh { IfSome result (λ stream. W.Stream.has_given stream [] × W.Stream.has_got stream []) }
    {
        match self.world.accept(guest) {
            Accepted::Client(stream) => {
                self.listening.accepted();
                Some(stream)
            }
            Accepted::Later => {
                self.listening.rest();
                None
            }
            Accepted::Full => {
                self.listening.fill();
                None
            }
        }
    }
}
