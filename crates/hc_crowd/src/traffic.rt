//! The links of a crowd, and what is to be done with them.

ghost use Rattle.std.specs.Prelude.{◌≡◌, ◌+◌, IfOk, [], true, false, ℕ};

use crate::course::Course;
use crate::limits::Limits;
use crate::told::Told;
use crate::troubles::Troubles;
use hc_agenda::Listening;
use hc_attended::{Attended, World};
use std::alloc::{AllocError, Global};
use std::marker::PhantomData;

/// The most octets that are read at once.
const MOST_OCTETS: usize = 65_536;

/// The links of a crowd, and what is to be done with them.
pub(crate) struct Traffic<W: World> {
    pub(crate) alloc: Global,
    pub(crate) world: W,
    pub(crate) links: Attended<W>,
    /// What is read goes through it.
    pub(crate) buffer: Vec<u8>,
    pub(crate) listening: Listening,
    pub(crate) told: Told<W>,
    /// What was wrong with what came, as the cache told it, and with links.
    pub(crate) troubles: Troubles,
    /// Whether something was handed to the cache, and it wasn't asked yet what was wrong with that.
    pub(crate) handed: bool,
    /// The client that is asked to give way in this batch, if one is.
    pub(crate) giving_way: Option<u64>,
    /// Nobody was silent when all were looked at last, and they aren't looked at again before that millisecond.
    pub(crate) busy_until: u64,
    /// Whether the cache was told of a stop.
    pub(crate) announced: bool,
}

impl<W: World + Drop> Drop for Traffic<W> {
    fn drop(self) {
        let Traffic {
            alloc: _,
            world,
            links,
            buffer,
            listening: _,
            told,
            troubles,
            handed: _,
            giving_way: _,
            busy_until: _,
            announced: _,
        } = self;
        drop(world);
        drop(links);
        drop(buffer);
        drop(told);
        drop(troubles);
    }
}

impl<W: World + Drop> Traffic<W> {
    ghost use Rattle.hc_crowd.specs.Crowds.{times_of};
    ghost use Rattle.hc_peers.specs.Peers.{ArePeers};
    ghost use Rattle.hc_peers.specs.Peers.Bounds.{AtMost};

    /// Nobody has connected.
    pub(crate) fn new(alloc: Global, world: W, limits: Limits) -> Result<Self, AllocError>
        ensures none { (clients : ℕ) → IfOk result (λ traffic. ArePeers W.Stream.has_given W.Stream.has_got (AtMost clients limits.origin_connections) traffic.links.peers []) }
        ensures times { IfOk result (λ traffic. traffic.links.times ≡ times_of limits) }
    {
        let buffer = Vec::from_elem(alloc, 0, MOST_OCTETS)?;
        let links = Attended::new(alloc, &world, limits.times(), limits.origin_connections);
        Ok(Traffic {
            alloc,
            world,
            links,
            buffer,
            listening: Listening::new(),
            told: Told {
                course: Course::Serving,
                by: PhantomData,
            },
            troubles: Troubles::new(alloc),
            handed: false,
            giving_way: None,
            busy_until: 0,
            announced: false,
        })
    }
}

impl<W: World> Traffic<W> {
    ghost use Rattle.hc_crowd.specs.Courses.{ServesNoMore};
    ghost use Rattle.hc_peers.specs.Peers.{NoLinkIsLeft, last_given};

    /// Whether no further client is served, and no link is left.
    pub(crate) fn is_over(&self, limits: Limits) -> bool
        ensures gone { result ≡ true → NoLinkIsLeft self.now.links.peers }
        ensures asked { result ≡ true → ServesNoMore self.now.told.course W.stop_asked limits.clients (last_given self.now.links.peers) }
    {
        !self.serves_more(limits) && self.links.peers().are_gone()
    }

    /// That memory was refused for a note of what is to be done.
    pub(crate) fn refusal(&self) -> Result<(), AllocError>
        ensures { IfOk result (λ _. self.now.links.agenda.refused ≡ false) }
    {
        if self.links.agenda.was_refused() {
            return Err(AllocError);
        }
        Ok(())
    }
}
