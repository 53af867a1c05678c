//! Links of which all that happens is noted.

ghost use Rattle.hc_order.specs.declared.occurrence.Occurrence.{Occurrence};

use crate::notes::Notes;
use hc_framing::MessageText;
use hc_links::{Awaiting, Batches, Links};
use hc_order::{Occurrence, Receiver};
use std::alloc::{AllocError, Global};

/// So often it is waited for something at most.
const MOST_WAITS: u64 = 100_000;

/// Links of which all that happens is noted. They fail where they are waited for 100,000 times.
#[derive(Drop)]
pub struct Noted<L: Batches> {
    alloc: Global,
    /// The links.
    pub links: L,
    /// What has happened.
    pub notes: Notes,
    /// How often something was waited for.
    waits: u64,
}

impl<L: Batches + Drop> Noted<L> {
    /// Nothing has happened yet.
    pub fn new(alloc: Global, links: L) -> Self {
        Noted {
            alloc,
            links,
            notes: Notes::new(alloc),
            waits: 0,
        }
    }
}

impl<L: Batches> Links for Noted<L> {
    ghost tells = { λ noted. L.tells noted.links };

    ghost shows = { λ noted. L.shows noted.links };

    ghost rests = { λ noted. L.rests noted.links };

    ghost most = { λ noted. L.most noted.links };

    ghost Bounds = { L.Bounds };

    ghost bounds = { λ noted. L.bounds noted.links };

    ghost within = { λ bounds noted. L.within bounds noted.links };

    ghost may_tell = { λ noted. L.may_tell noted.links };

    ghost heeds = { L.heeds };

    fn next<A: Awaiting>(&mut self, cache: &A) -> Result<Option<Occurrence>, AllocError> {
        let next = self.links.next(cache);
        if let Ok(Some(occurrence)) = &next {
            if self.notes.put(self.alloc, occurrence).is_err() {
                self.notes.torn = true;
            }
        }
        next
    }

    fn send(&mut self, to: Receiver, octets: &MessageText) -> Result<(), AllocError> {
        self.links.send(to, octets)
    }

    fn close(&mut self, link: Receiver) {
        self.links.close(link);
    }
}

impl<L: Batches> Batches for Noted<L> {
    ghost over = { λ noted. L.over noted.links };

    ghost settled = { λ noted. L.settled noted.links };

    fn deliver<A: Awaiting>(&mut self, cache: &A) -> Result<(), AllocError> {
        self.links.deliver(cache)
    }

    fn wait(&mut self) -> Result<(), AllocError> {
        self.waits = self.waits.saturating_add(1);
        self.links.wait()?;
        if self.waits > MOST_WAITS {
            return Err(AllocError);
        }
        Ok(())
    }

    fn is_over(&self) -> bool {
        self.links.is_over()
    }

    ghost in_time = { λ noted. L.in_time noted.links };

    ghost few = { λ noted. L.few noted.links };

    ghost all_closed = { λ noted. L.all_closed noted.links };
}
