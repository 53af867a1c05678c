//! One client's connection.

ghost use Rattle.std.specs.Prelude.{◌≡◌, ℕ, List, [], ◌∷◌, Option, length, false};

use crate::client_side::ClientSide;
use crate::peers::Peers;
use hc_framing::MessageText;
use hc_links::{Awaiting, Clock, Happened, Link, Links, Origins};
use hc_order::{Occurrence, Reason, Receiver};
use hc_service::{Event, Happening};
use std::alloc::{AllocError, Global};

/// One client's connection, and the forwards that are open for it. The forward of the least number is read, or, where
/// none is open, the client.
#[derive(Drop)]
pub struct Connection<'a, C: Link, O: Origins, K: Clock> {
    peers: Peers<'a, C, O>,
    clock: &'a K,
    /// Whether it was told that the client opened it.
    opened: bool,
}

impl<'a, C: Link, O: Origins, K: Clock> Connection<'a, C, O, K> {
    ghost use Rattle.hc_connection.specs.Forwards.{AreKept, NoneOpen};
    ghost use Rattle.hc_order.specs.Log.{Move};
    ghost use Rattle.hc_order.specs.Log.Move.{Before};
    ghost use Rattle.hc_connection.specs.Sides.{Tells};

    /// A connection of that number, which a client has just opened. The number has to be greater than all
    /// that the cache was told before, else that returns `UnknownNumber`.
    pub fn new(alloc: Global, number: u64, client: C, origins: &'a O, clock: &'a K) -> Self
        ensures tells { (last : Option ℕ) (given got : List ℕ) (reads : ℕ) → C.has_given client given → C.has_got client got → C.was_read client reads
            → Tells C.has_given C.has_got C.was_read C.count result.peers.client (Before (record {
              last = last;
              number = number;
              given = given;
              got = got;
              reads = reads;
              failures = C.count client;
            }) ∷ []) }
        ensures number { result.peers.client.number ≡ number }
        ensures opened { result.opened ≡ false }
        ensures kept { (log : List Move) → NoneOpen log → AreKept O.Link.has_given O.Link.has_got result.peers.forwards.links log }
        ensures clock { result.clock.now ≡ clock.now }
    {
        Connection {
            peers: Peers::new(alloc, ClientSide::new(number, client), origins),
            clock,
            opened: false,
        }
    }

    /// The client's link.
    pub fn client(&self) -> &C
        ensures { result.now ≡ self.now.peers.client.link }
    {
        self.peers.client().link()
    }

    /// The client's link, once the connection is served.
    pub fn into_client(self) -> C
        ensures { result ≡ self.entry.peers.client.link }
    {
        self.peers.into_client().into_link()
    }

    /// That happens now.
    fn now(&self, happened: Happened) -> Occurrence
        ensures of { result.event.of ≡ happened.of }
        ensures reason { result.reason ≡ happened.reason }
        ensures moment { K.may_tell self.now.clock.now result.event.moment }
    {
        let Happened { of, reason } = happened;
        let event = Event {
            moment: self.clock.now(),
            of,
        };
        Occurrence { event, reason }
    }

    /// Whether the client's link has failed.
    pub fn has_failed(&self) -> bool
        ensures { result ≡ self.now.peers.client.failed }
    {
        self.peers.client().has_failed()
    }
}

impl<'a, C: Link, O: Origins, K: Clock> Links for Connection<'a, C, O, K> {
    ghost use Rattle.hc_connection.specs.Connections.{HasPassed};
    ghost use Rattle.hc_connection.specs.Sides.{Rests};

    ghost tells = { λ connection log. HasPassed C.has_given C.has_got C.was_read C.count O.Link.has_given O.Link.has_got
        (K.may_tell connection.clock.now) connection.opened connection.peers.client connection.peers.forwards.links log };

    // Octets are written as they are sent.
    ghost shows = { λ _ _. Unit {0} };

    ghost most = { λ _. 1 };

    // The links of one connection have no bounds of their own.
    ghost Bounds = { Unit {0} };

    ghost bounds = { λ _. tt };

    ghost within = { λ _ _. Unit {0} };

    ghost may_tell = { λ connection. K.may_tell connection.clock.now };

    ghost rests = { λ connection. Rests connection.opened (length connection.peers.forwards.links.entries) connection.peers.client };

    // The client is read where no forward is open, whatever is awaited.
    ghost heeds = { λ _ _. Unit {0} };

    fn next<A: Awaiting>(&mut self, _cache: &A) -> Result<Option<Occurrence>, AllocError> {
        if !self.opened {
            self.opened = true;
            let number = self.peers.client().number();
            return Ok(Some(self.now(Happened {
                of: Happening::ClientOpened(number),
                reason: Reason::Peer,
            })));
        }
        match self.peers.happening()? {
            None => Ok(None),
            Some(happened) => Ok(Some(self.now(happened))),
        }
    }

    fn send(&mut self, to: Receiver, octets: &MessageText) -> Result<(), AllocError> {
        self.peers.send(to, octets)
    }

    fn close(&mut self, link: Receiver) {
        self.peers.close(link);
    }
}
