//! Guests: clients who have connected, and of whom no octet has come.

ghost use Rattle.std.specs.Prelude.{List, [], ℕ};

use crate::limits::Limits;
use crate::traffic::Traffic;
use hc_attended::World;
use hc_flow::Presence;
use hc_links::Happened;
use hc_order::Reason;
use hc_service::Happening;
use std::alloc::AllocError;

impl<W: World> Traffic<W> {
    ghost use Rattle.hc_links.specs.Telling.{TellsIfOk};
    ghost use Rattle.hc_peers.specs.Keeping.{HearsWithin, KeepsPeers};
    ghost use Rattle.hc_order.specs.Log.{Move};
    ghost use Rattle.hc_peers.specs.Heard.{HeardInTurn, MayBeHeard, NoAnswer};
    ghost use Rattle.hc_peers.specs.Peers.{ArePeers, Bounds, IsNext, MayOpen};
    ghost use Rattle.hc_peers.specs.Peers.Bounds.{AtMost};
    ghost use Rattle.hc_peers.specs.Shown.{ShowNoMore};

    /// The next guest of whom octets have come is made a client. Those that knock for nothing wait on, or go.
    pub(crate) fn welcome(&mut self, limits: Limits) -> Result<Option<Happened>, AllocError>
        ensures heard { HearsWithin W.Stream.has_given W.Stream.has_got limits.connections NoAnswer result self.old.links.peers self.new.links.peers }
    {
        'knocks: for _ in 0..u64::MAX {
            let Some(guest) = self.links.next_knocking() else {
                return Ok(None);
            };
            if let Some(happened) = self.answer(guest, limits)? {
                return Ok(Some(happened));
            }
        }
        Ok(None)
    }

    /// A guest that knocks is made a client where octets of it have come. Without any it goes where it has left, and behind a
    /// stop.
    fn answer(&mut self, guest: u64, limits: Limits) -> Result<Option<Happened>, AllocError>
        ensures heard { HearsWithin W.Stream.has_given W.Stream.has_got limits.connections NoAnswer result self.old.links.peers self.new.links.peers }
    {
        match self.links.peers().guests.peek(guest) {
            Presence::Octets => self.admit(guest, limits),
            Presence::Later => {
                self.keep_waiting(guest);
                Ok(None)
            }
            Presence::Over => {
                self.links.let_guest_go(guest);
                Ok(None)
            }
        }
    }

    /// A guest of whom no octet has come waits on. Behind a stop it goes, once clients that are idle do.
    fn keep_waiting(&mut self, guest: u64)
        ensures kept { KeepsPeers W.Stream.has_given W.Stream.has_got self.old.links.peers self.new.links.peers }
    {
        if self.told.course.ends_idle() {
            self.links.let_guest_go(guest);
        }
    }

    /// A guest is made a client. Where the system refuses that, it goes.
    fn admit(&mut self, guest: u64, limits: Limits) -> Result<Option<Happened>, AllocError>
        ensures heard { HearsWithin W.Stream.has_given W.Stream.has_got limits.connections NoAnswer result self.old.links.peers self.new.links.peers }
    {
        let Some(stream) = self.links.take_guest(guest) else {
            return Ok(None);
        };
        self.make_client(stream, limits)
    }

    /// A guest's link becomes that of a client, of the next number.
    fn make_client(
        &mut self,
        stream: W::Stream,
        limits: Limits,
    ) -> Result<Option<Happened>, AllocError>
        ensures tells { W.Stream.has_given stream [] → W.Stream.has_got stream [] → (origin : ℕ) (log : List Move)
            → ArePeers W.Stream.has_given W.Stream.has_got (AtMost limits.connections origin) self.old.links.peers log
            → TellsIfOk (ArePeers W.Stream.has_given W.Stream.has_got (AtMost limits.connections origin) self.new.links.peers) result log }
        ensures may { (bounds : Bounds) (log : List Move) → ArePeers W.Stream.has_given W.Stream.has_got bounds self.old.links.peers log
            → MayBeHeard limits.connections result log }
        ensures in_turn { HeardInTurn NoAnswer result }
        ensures shown { W.Stream.has_got stream [] → (log : List Move) → ShowNoMore W.Stream.has_got self.old.links.peers log
            → ShowNoMore W.Stream.has_got self.new.links.peers log }
    {
        let mut stream = stream;
        if !self.links.peers().may_open(limits.connections) {
            return Ok(None);
        }
        let Some(number) = self.links.peers().next_number() else {
            return Ok(None);
        };
        if !self.world.rename(&mut stream, number) {
            return Ok(None);
        }
        self.open(number, stream, limits)
    }

    /// A client is opened, and is heard next: octets of it have come.
    fn open(
        &mut self,
        number: u64,
        stream: W::Stream,
        limits: Limits,
    ) -> Result<Option<Happened>, AllocError>
        requires next { IsNext self.old.links.peers number }
        requires room { MayOpen self.old.links.peers limits.connections }
        ensures tells { W.Stream.has_given stream [] → W.Stream.has_got stream [] → (origin : ℕ) (log : List Move)
            → ArePeers W.Stream.has_given W.Stream.has_got (AtMost limits.connections origin) self.old.links.peers log
            → TellsIfOk (ArePeers W.Stream.has_given W.Stream.has_got (AtMost limits.connections origin) self.new.links.peers) result log }
        ensures may { (bounds : Bounds) (log : List Move) → ArePeers W.Stream.has_given W.Stream.has_got bounds self.old.links.peers log
            → MayBeHeard limits.connections result log }
        ensures in_turn { HeardInTurn NoAnswer result }
        ensures shown { W.Stream.has_got stream [] → (log : List Move) → ShowNoMore W.Stream.has_got self.old.links.peers log
            → ShowNoMore W.Stream.has_got self.new.links.peers log }
    {
        self.links.open(number, stream, limits.connections)?;
        Ok(Some(Happened {
            of: Happening::ClientOpened(number),
            reason: Reason::Peer,
        }))
    }

    /// All guests knock.
    pub(crate) fn let_all_knock(&mut self)
        ensures kept { KeepsPeers W.Stream.has_given W.Stream.has_got self.old.links.peers self.new.links.peers }
    {
        let mut least = 0;
        'guests: for _ in 0..self.links.peers().guests.len() {
            let Some(guest) = self.links.peers().guests.first_from(least) else {
                return;
            };
            self.links.knock(guest);
            least = guest.saturating_add(1);
        }
    }

    /// All guests go.
    pub(crate) fn let_all_guests_go(&mut self)
        ensures kept { KeepsPeers W.Stream.has_given W.Stream.has_got self.old.links.peers self.new.links.peers }
    {
        'guests: for _ in 0..self.links.peers().guests.len() {
            let Some(guest) = self.links.peers().guests.first_from(0) else {
                return;
            };
            self.links.let_guest_go(guest);
        }
    }
}
