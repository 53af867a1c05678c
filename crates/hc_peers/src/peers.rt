//! The links of a crowd, their places at the origin, and what is counted of connections.

ghost use Rattle.std.specs.Prelude.{◌≡◌, ◌-◌, ◌^◌, true, ℕ, [], IfSome, None};

use crate::client::Client;
use crate::forward::Forward;
use crate::guests::Guests;
use crate::lingerer::Lingerer;
use crate::table::Table;
use hc_agenda::Places;
use hc_flow::Stream;
use std::alloc::Global;

/// The links of clients and of forwards, those that the cache doesn't know of, the places at the origin, and what is counted
/// of connections.
pub struct Peers<S: Stream> {
    pub(crate) alloc: Global,
    pub clients: Table<Client<S>>,
    pub forwards: Table<Forward<S>>,
    /// Those who have connected, and of whom no octet has come.
    pub guests: Guests<S>,
    /// Those for whom there was no room, by the numbers of guests: each was refused, our half was ended, and what comes is
    /// dropped until the other side ends it, too. So it finds what it was told.
    pub turned_away: Table<S>,
    /// The places at the origin. Each link there has one.
    pub places: Places,
    /// The links of forwards that were closed.
    pub lingering: Table<Lingerer<S>>,
    /// The number that was given last: 0 where none was.
    pub(crate) last: u64,
    /// How many connections are open at most.
    pub(crate) connected: usize,
}

impl<S: Stream + Drop> Drop for Peers<S> {
    fn drop(self) {
        let Peers {
            alloc: _,
            clients,
            forwards,
            guests,
            turned_away,
            places,
            lingering,
            last: _,
            connected: _,
        } = self;
        drop(clients);
        drop(forwards);
        drop(guests);
        drop(turned_away);
        drop(places);
        drop(lingering);
    }
}

impl<S: Stream + Drop> Peers<S> {
    ghost use Rattle.hc_peers.specs.Peers.{ArePeers, HasRoom, IsNext, MayOpen, NoLinkIsLeft, has_fewer_open, last_given};
    ghost use Rattle.hc_peers.specs.Peers.Bounds.{AtMost};

    /// Nobody has connected, no forward is open, and there are so many places at the origin.
    pub fn new(alloc: Global, places: usize) -> Self
        ensures told { (clients : ℕ) → ArePeers S.has_given S.has_got (AtMost clients places) result [] }
        ensures none { NoLinkIsLeft result }
    {
        Peers {
            alloc,
            clients: Table::new(alloc),
            forwards: Table::new(alloc),
            guests: Guests::new(alloc),
            turned_away: Table::new(alloc),
            places: Places::new(alloc, places),
            lingering: Table::new(alloc),
            last: 0,
            connected: 0,
        }
    }

    /// The number that was given last: 0 where none was.
    pub fn last(&self) -> u64
        ensures { result ≡ last_given self.now }
    {
        self.last
    }

    /// The number of the next client, as far as there are numbers.
    pub fn next_number(&self) -> Option<u64>
        ensures next { IfSome result (IsNext self.now) }
        ensures spent { result ≡ None → last_given self.now ≡ 2 ^ 64 - 1 }
    {
        self.last.checked_add(1)
    }

    /// Whether there is room for a further guest, where there are so many links of clients and guests at once at most, those
    /// of connections that are closed and still have a link among them.
    pub fn has_room(&self, most: usize) -> bool
        ensures room { result ≡ true → HasRoom self.now most }
        ensures full { HasRoom self.now most → result ≡ true }
    {
        self.clients.len() < most.saturating_sub(self.guests.len())
    }

    /// Whether a further connection may be opened, where so many are open at once at most, and there is room for its link.
    pub fn may_open(&self, most: usize) -> bool
        ensures room { result ≡ true → MayOpen self.now most }
        ensures full { MayOpen self.now most → result ≡ true }
    {
        self.has_room(most) && self.connected < most
    }

    /// Whether there are fewer open connections and guests than that. Links of closed ones aren't counted.
    pub fn has_fewer_open(&self, most: usize) -> bool
        ensures { result ≡ has_fewer_open self.now most }
    {
        self.connected < most.saturating_sub(self.guests.len())
    }

    /// Whether no link is left.
    pub fn are_gone(&self) -> bool
        ensures gone { result ≡ true → NoLinkIsLeft self.now }
        ensures left { NoLinkIsLeft self.now → result ≡ true }
    {
        self.clients.len() == 0
            && self.forwards.len() == 0
            && self.guests.len() == 0
            && self.turned_away.len() == 0
            && self.lingering.len() == 0
    }
}
