//! A world in memory, which plays a script.

ghost use Rattle.hc_flow.specs.Reads.{FitsBuffer};
ghost use Rattle.hc_crowd_world.specs.Taking.{FitsText};
ghost use Rattle.std.specs.Prelude.{◌++◌};

use crate::deeds::{Act, Deed};
use crate::peer::Peer;
use crate::script::Script;
use crate::standing::Standing;
use crate::tally::Tally;
use crate::within::has_within;
use hc_crowd::Ready;
use hc_flow::{Arrival, Uptake};
use hc_order::Receiver;
use std::alloc::{AllocError, Global};
use std::collections::{BTreeMap, VecDeque};
use std::fmt::Write;
use std::time::Duration;

/// The milliseconds of a second.
const SECOND: u64 = 1_000;

/// A world in memory.
pub struct Play {
    pub(crate) alloc: Global,
    /// What it does.
    pub script: Script,
    /// The milliseconds that have passed.
    pub tick: u64,
    /// What the wall clock told at millisecond 0, as it is set now.
    wall: Option<Duration>,
    /// The other sides of all links that there were, by key.
    pub peers: BTreeMap<u64, Peer>,
    pub(crate) ready: VecDeque<Ready>,
    /// For so many links at once the system has places.
    places: usize,
    /// Whether the program was asked to stop.
    pub(crate) stops: bool,
    /// Whether further clients can connect.
    pub(crate) listens: bool,
    /// What was counted.
    pub tally: Tally,
    /// When links to the origin began to be made, as text.
    pub notes: String,
    /// When those who connect were accepted, and what came of them, as text.
    pub visits: String,
}

impl Drop for Play {
    fn drop(self) {
        let Play {
            alloc: _,
            script,
            tick: _,
            wall: _,
            peers,
            ready,
            places: _,
            stops: _,
            listens: _,
            tally: _,
            notes,
            visits,
        } = self;
        drop(script);
        drop(peers);
        drop(ready);
        drop(notes);
        drop(visits);
    }
}

/// The key of the other side of that link. Clients are numbered in the order in which they connect.
pub fn key_of(link: Receiver) -> u64 {
    match link {
        Receiver::Client(number) => number.saturating_mul(2),
        Receiver::Origin(forward) => forward.saturating_mul(2).saturating_add(1),
    }
}

/// Whether that is the key of a client.
pub fn is_client(key: u64) -> bool {
    key % 2 == 0
}

/// What the wall clock tells at the start.
fn wall_at_start(script: &Script) -> Option<Duration> {
    let part = Duration::from_nanos(script.part);
    Some(Duration::from_secs(script.wall?).saturating_add(part))
}

impl Play {
    /// A world in which nothing has happened yet.
    pub fn new(alloc: Global, script: Script) -> Self {
        Play {
            alloc,
            tick: 0,
            wall: wall_at_start(&script),
            script,
            peers: BTreeMap::new(alloc),
            ready: VecDeque::new(alloc),
            places: usize::MAX,
            stops: false,
            listens: true,
            tally: Tally::new(),
            notes: String::new(alloc),
            visits: String::new(alloc),
        }
    }

    /// The other side of that link.
    pub fn peer(&self, link: Receiver) -> Option<&Peer> {
        self.peers.get(&key_of(link))
    }

    /// Time passes, until something is ready or so many milliseconds are over.
    pub(crate) fn wait(&mut self, most: u64) {
        self.tally.check(self.script.limits);
        if self.pass(self.tick.saturating_add(most)).is_err() {
            self.tally.broken = true;
        }
    }

    /// All is done that is to be done by that millisecond, or until something is ready.
    fn pass(&mut self, until: u64) -> Result<(), AllocError> {
        'ticks: for _ in 0..u64::MAX {
            let due = self.script.cues.first().unwrap_or(until).min(until);
            self.tick = self.tick.max(due);
            self.perform()?;
            if self.tick >= until || !self.ready.is_empty() || self.stops {
                return Ok(());
            }
        }
        Ok(())
    }

    /// All is done that is to be done by now.
    fn perform(&mut self) -> Result<(), AllocError> {
        'deeds: for _ in 0..u64::MAX {
            let Some(deed) = self.script.cues.next(self.tick) else {
                return Ok(());
            };
            self.act(&deed)?;
        }
        Ok(())
    }

    fn act(&mut self, deed: &Deed) -> Result<(), AllocError> {
        match deed {
            Deed::Connects(count) => self.connects(*count),
            Deed::Does(link, act) => self.does(*link, act),
            Deed::Answers(forward) => self.answer(*forward),
            Deed::Wall(second) => {
                self.set_wall(*second);
                Ok(())
            }
            Deed::Sleeps(most) => {
                self.tick = self.tick.saturating_add(*most);
                Ok(())
            }
            Deed::Places(places) => {
                self.places = *places;
                Ok(())
            }
            Deed::Stops => {
                self.stops = true;
                Ok(())
            }
        }
    }

    /// The wall clock is set to that second, of which as much has passed as of the one that the other clock counts.
    fn set_wall(&mut self, second: Option<u64>) {
        self.wall = match second {
            Some(second) => Some(Duration::from_secs(second.saturating_sub(self.tick / SECOND))),
            None => None,
        };
    }

    /// So many clients connect, as long as one can.
    fn connects(&mut self, count: u64) -> Result<(), AllocError> {
        'clients: for _ in 0..count {
            if !self.listens {
                return Ok(());
            }
            self.tally.connected = self.tally.connected.saturating_add(1);
            let peer = Peer::new(self.alloc, true, self.script.room, usize::MAX);
            let key = key_of(Receiver::Client(self.tally.connected));
            self.peers.insert(key, peer)?;
            self.ready.push_back(Ready::Clients)?;
        }
        Ok(())
    }

    fn does(&mut self, link: Receiver, act: &Act) -> Result<(), AllocError> {
        let Some(peer) = self.peers.get_mut(&key_of(link)) else {
            self.tally.missed = self.tally.missed.saturating_add(1);
            return Ok(());
        };
        let readiness = peer.acts(act)?;
        if let Some(ready) = peer.standing.told(readiness) {
            self.ready.push_back(ready)?;
        }
        Ok(())
    }

    /// What became ready.
    pub(crate) fn ready(&mut self) -> Option<Ready> {
        self.ready.pop_front()
    }

    /// Whether the system has a place for a further link.
    pub(crate) fn has_place(&self) -> bool {
        self.tally.links() < self.places
    }

    /// A link to the origin begins to be made, if it has so many addresses, and the system has a place.
    pub(crate) fn connect(&mut self, forward: u64, attempt: u32) -> bool {
        if u64::from(attempt) >= self.script.addresses || !self.has_place() {
            return false;
        }
        if self.reach(forward, attempt).is_err() {
            self.tally.broken = true;
            return false;
        }
        let link = Receiver::Origin(forward);
        self.stand(link, Standing::Linked(link));
        self.tally.check(self.script.limits);
        true
    }

    fn reach(&mut self, forward: u64, attempt: u32) -> Result<(), AllocError> {
        let tick = self.tick;
        write!(self.notes, "; forward {forward} at {tick}")?;
        let (room, most) = self.script.room_at_origin();
        let peer = Peer::new(self.alloc, false, room, most);
        self.peers.insert(key_of(Receiver::Origin(forward)), peer)?;
        self.script.plan(tick, forward, attempt)
    }

    /// The origin answers a forward by chance.
    fn answer(&mut self, forward: u64) -> Result<(), AllocError> {
        let conditional = match self.peer(Receiver::Origin(forward)) {
            Some(peer) => has_within(peer.got.as_slice(), b"if-none-match"),
            None => false,
        };
        self.script.answer(self.tick, forward, conditional)
    }

    /// What is written to the other side of a link is ended.
    pub(crate) fn end(&mut self, link: Receiver) {
        self.turn_away(link);
        if let Some(peer) = self.peers.get_mut(&key_of(link)) {
            peer.has_end = true;
        }
    }

    /// A read of a link.
    pub(crate) fn read(&mut self, link: Receiver, buffer: &mut [u8]) -> Arrival
        ensures { FitsBuffer result buffer.new }
    {
        match self.peers.get_mut(&key_of(link)) {
            Some(peer) => peer.read(buffer),
            None => Arrival::Failed,
        }
    }

    /// A write to a link.
    pub(crate) fn write(&mut self, link: Receiver, front: &[u8], rest: &[u8]) -> Uptake
        ensures { FitsText result (front.now ++ rest.now) }
    {
        self.turn_away(link);
        match self.peers.get_mut(&key_of(link)) {
            Some(peer) => peer.write(front, rest),
            None => Uptake::Failed,
        }
    }

    /// What the wall clock tells.
    pub(crate) fn wall(&self) -> Option<Duration> {
        match self.wall {
            Some(wall) => Some(wall.saturating_add(Duration::from_millis(self.tick))),
            None => None,
        }
    }
}
