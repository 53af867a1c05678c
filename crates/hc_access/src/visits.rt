//! What is known of clients while their replies are awaited and written.

use std::alloc::{AllocError, Global};
use std::collections::BTreeMap;
use std::mem;

/// What an access log asks of the links of clients.
pub trait Visited {
    /// Puts the address of a client at the end; nothing where that isn't known.
    fn push_address(&self, client: u64, out: &mut Vec<u8>) -> Result<(), AllocError>;

    /// How many octets that were sent to a client it hasn't taken yet; none where its link has gone.
    fn owed(&self, client: u64) -> Option<u64>;

    /// The millisecond of this batch, by a clock that is never set.
    fn tick(&self) -> u64;
}

/// What is known of a client.
struct Visit {
    /// Its address.
    address: Vec<u8>,
    /// When the first octet of the request came that is read now, or was replied to last; none where nothing of one came.
    begun: Option<u64>,
    /// When octets came last.
    heard: u64,
    /// How many octets were sent to it.
    sent: u64,
}

impl Drop for Visit {
    fn drop(self) {
        let Visit {
            address,
            begun: _,
            heard: _,
            sent: _,
        } = self;
        drop(address);
    }
}

/// When a reply was asked for, and behind how many octets it has been written.
#[derive(Clone, Copy)]
pub(crate) struct Answered {
    pub(crate) begun: u64,
    pub(crate) end: u64,
}

/// What is known of clients, by the numbers of their connections.
pub(crate) struct Visits {
    alloc: Global,
    visits: BTreeMap<u64, Visit>,
    /// Whose connections were closed, and whose links may not have gone yet.
    leaving: Vec<u64>,
}

impl Drop for Visits {
    fn drop(self) {
        let Visits {
            alloc: _,
            visits,
            leaving,
        } = self;
        drop(visits);
        drop(leaving);
    }
}

impl Visits {
    /// Nobody has come.
    pub(crate) fn new(alloc: Global) -> Self {
        Visits {
            alloc,
            visits: BTreeMap::new(alloc),
            leaving: Vec::new(alloc),
        }
    }

    /// A client has come. Where memory is refused, its address isn't known.
    pub(crate) fn open<V: Visited>(&mut self, client: u64, links: &V) {
        let mut address = Vec::new(self.alloc);
        let _ = links.push_address(client, &mut address);
        let visit = Visit {
            address,
            begun: None,
            heard: links.tick(),
            sent: 0,
        };
        let _ = self.visits.insert(client, visit);
    }

    /// Octets have come from a client.
    pub(crate) fn hear(&mut self, client: u64, tick: u64) {
        if let Some(visit) = self.visits.get_mut(&client) {
            visit.heard = tick;
            if visit.begun.is_none() {
                visit.begun = Some(tick);
            }
        }
    }

    /// The address of a client; empty where that isn't known.
    pub(crate) fn address(&self, client: u64) -> &[u8] {
        match self.visits.get(&client) {
            Some(visit) => visit.address.as_slice(),
            None => b"",
        }
    }

    /// A reply of so many octets was sent to a client. Something of its next request has come already, or hasn't.
    pub(crate) fn answer(&mut self, client: u64, octets: u64, comes: bool, tick: u64) -> Answered {
        let Some(visit) = self.visits.get_mut(&client) else {
            return Answered {
                begun: tick,
                end: octets,
            };
        };
        let begun = visit.begun.unwrap_or(tick);
        visit.begun = if comes { Some(visit.heard) } else { None };
        visit.sent = visit.sent.saturating_add(octets);
        Answered {
            begun,
            end: visit.sent,
        }
    }

    /// Whether a client has taken so many octets of those that were sent to it, or its link has gone.
    pub(crate) fn has_taken<V: Visited>(&self, client: u64, octets: u64, links: &V) -> bool {
        let Some(owed) = links.owed(client) else {
            return true;
        };
        match self.visits.get(&client) {
            Some(visit) => octets <= visit.sent.saturating_sub(owed),
            None => true,
        }
    }

    /// A client's connection was closed. It is known as long as its link is there.
    pub(crate) fn close(&mut self, client: u64) {
        if self.leaving.push(client).is_err() {
            self.visits.remove(&client);
        }
    }

    /// Those whose links have gone aren't known any more.
    pub(crate) fn let_go<V: Visited>(&mut self, links: &V) {
        let leaving = mem::replace(&mut self.leaving, Vec::new(self.alloc));
        'leaving: for client in leaving {
            if links.owed(client).is_some() {
                self.close(client);
            } else {
                self.visits.remove(&client);
            }
        }
    }
}
