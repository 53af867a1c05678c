//! What is told to those who watch over a proxy.

use hc_access::reply_head;
use hc_crowd::{Counted, Crowd, Limits, Whose, World};
use hc_flow::Stream;
use hc_links::Awaiting;
use hc_monitor::{Befell, Board, Figures, Kind, Stand, class_of, metrics_of, way_of};
use hc_order::{Occurrence, Receiver};
use hc_peers::Peers;
use hc_service::{Action, Happening};
use std::alloc::{AllocError, Global};

/// What bounds a proxy, and what it is for.
#[derive(Clone, Copy)]
pub struct Bounds {
    /// What bounds its links.
    pub limits: Limits,
    /// Of so many targets responses may be stored.
    pub keys: usize,
    /// So many octets of them may be.
    pub bytes: u64,
    /// Whether it records.
    pub records: bool,
}

/// What else is told.
#[derive(Clone, Copy)]
pub(crate) struct Beside {
    /// How many lines of the access log were dropped.
    pub(crate) lost_lines: u64,
    /// Whether the recording ended before its time.
    pub(crate) record_ended: bool,
    /// How often the system couldn't say what is ready.
    pub(crate) failed_polls: u64,
    /// How many microseconds the longest turn took.
    pub(crate) longest_turn: u64,
}

/// What is counted for those who watch over a proxy, and where it is told.
#[derive(Clone, Copy)]
pub(crate) struct Counting<'a> {
    board: &'a Board,
    /// Whether anybody can watch.
    on: bool,
    bounds: Bounds,
    figures: Figures,
    /// Whether it was asked to stop.
    drains: bool,
}

impl<'a> Counting<'a> {
    /// Nothing has happened.
    pub(crate) fn new(board: &'a Board, on: bool, bounds: Bounds) -> Self {
        Counting {
            board,
            on,
            bounds,
            figures: Figures::none(),
            drains: false,
        }
    }

    /// Whether the numbers are asked for.
    pub(crate) fn is_asked(&self) -> bool {
        self.on && self.board.is_asked()
    }

    /// Counts what happens.
    pub(crate) fn hear(&mut self, occurrence: &Occurrence) {
        if !self.on {
            return;
        }
        match &occurrence.event.of {
            Happening::ClientBytes(_, octets) => {
                self.figures.from_clients = grown(self.figures.from_clients, octets.len());
            }
            Happening::OriginBytes(_, octets) => {
                self.figures.from_origin = grown(self.figures.from_origin, octets.len());
            }
            Happening::Stopping => self.drains = true,
            _ => {}
        }
    }

    /// Counts what the cache did.
    pub(crate) fn see(&mut self, actions: &[Action]) {
        if !self.on {
            return;
        }
        'actions: for action in actions {
            self.note(action);
        }
    }

    /// Counts one action.
    fn note(&mut self, action: &Action) {
        match action {
            Action::ToClient(_, text) => {
                let (front, _) = text.parts();
                let head = reply_head(front.as_slice());
                self.figures
                    .replies
                    .count(way_of(head.mark), class_of(head.status));
                self.figures.to_clients = grown(self.figures.to_clients, text.len());
            }
            Action::Forward(_, text) => {
                self.figures.forwards = grown(self.figures.forwards, 1);
                self.figures.to_origin = grown(self.figures.to_origin, text.len());
            }
            _ => {}
        }
    }

    /// Counts a client who was turned away.
    pub(crate) fn turn_away(&mut self) {
        self.figures.turned_away = grown(self.figures.turned_away, 1);
    }

    /// Tells the numbers; where memory is refused for that, it tells of none.
    pub(crate) fn tell<W: World, A: Awaiting>(
        &self,
        alloc: Global,
        links: &Crowd<W>,
        cache: &A,
        beside: Beside,
    ) {
        let stand = self.stand(links.peers(), cache, beside);
        let told = self.told(alloc, &stand, links.troubles().as_slice());
        self.board.tell(told.ok());
    }

    /// The numbers, as they are told.
    fn told(
        &self,
        alloc: Global,
        stand: &Stand,
        troubles: &[Counted],
    ) -> Result<Vec<u8>, AllocError> {
        let mut kinds = Vec::new(alloc);
        'troubles: for counted in troubles {
            kinds.push(kind_of(counted))?;
        }
        metrics_of(alloc, &self.figures, stand, kinds.as_slice())
    }

    /// How it stands.
    fn stand<S: Stream + Drop, A: Awaiting>(
        &self,
        peers: &Peers<S>,
        cache: &A,
        beside: Beside,
    ) -> Stand {
        let stock = cache.stock();
        let clients = clients_in(peers, cache);
        let forwards = forwards_in(peers, cache);
        let Bounds {
            limits,
            keys,
            bytes,
            records,
        } = self.bounds;
        Stand {
            clients: peers.clients.len() as u64,
            most_clients: limits.connections as u64,
            guests: peers.guests.len() as u64,
            awaiting: clients.awaiting,
            forwards: peers.forwards.len() as u64,
            most_origin: limits.origin_connections as u64,
            queued: forwards.queued,
            waiters: forwards.waiters,
            targets: stock.targets as u64,
            most_targets: keys as u64,
            stored: stock.octets as u64,
            most_stored: bytes,
            evicted: stock.evicted,
            held: clients.held.saturating_add(forwards.held),
            most_held: limits.held,
            lost_lines: beside.lost_lines,
            records: records & !beside.record_ended,
            record_ended: beside.record_ended,
            drains: self.drains,
            failed_polls: beside.failed_polls,
            longest_turn: beside.longest_turn,
        }
    }
}

/// How clients stand.
#[derive(Clone, Copy)]
struct ClientsStand {
    /// How many await a reply.
    awaiting: u64,
    /// How many octets are held of theirs.
    held: u64,
}

/// How clients stand.
fn clients_in<S: Stream + Drop, A: Awaiting>(peers: &Peers<S>, cache: &A) -> ClientsStand {
    let mut stand = ClientsStand {
        awaiting: 0,
        held: 0,
    };
    'clients: for (number, client) in peers.clients.iter() {
        stand.awaiting = stand
            .awaiting
            .saturating_add(u64::from(cache.awaits(*number)));
        stand.held = grown(stand.held, client.weight());
        stand.held = grown(stand.held, cache.held(Receiver::Client(*number)));
    }
    stand
}

/// How forwards stand.
#[derive(Clone, Copy)]
struct ForwardsStand {
    /// How many wait for a place at the origin.
    queued: u64,
    /// How many requests wait for the forward of another one.
    waiters: u64,
    /// How many octets are held of theirs.
    held: u64,
}

/// How forwards stand.
fn forwards_in<S: Stream + Drop, A: Awaiting>(peers: &Peers<S>, cache: &A) -> ForwardsStand {
    let mut stand = ForwardsStand {
        queued: 0,
        waiters: 0,
        held: 0,
    };
    'forwards: for (number, forward) in peers.forwards.iter() {
        stand.queued = stand.queued.saturating_add(u64::from(forward.is_waiting()));
        stand.waiters = grown(stand.waiters, waiters_of(*number, cache));
        stand.held = grown(stand.held, forward.weight());
        stand.held = grown(stand.held, cache.held(Receiver::Origin(*number)));
    }
    stand
}

/// How many requests wait for a forward beside the one that it was made for. Where memory is refused, none are told.
fn waiters_of<A: Awaiting>(forward: u64, cache: &A) -> usize {
    match cache.clients_of(forward) {
        Ok(clients) => clients
            .len()
            .saturating_sub(usize::from(!cache.is_background(forward))),
        Err(AllocError) => 0,
    }
}

/// How often something befell messages or links, as it is told.
fn kind_of(counted: &Counted) -> Kind<'static> {
    let befell = match counted.whose {
        Whose::Request => Befell::Refused,
        Whose::Response => Befell::Failed,
        Whose::Client => Befell::CutOff,
    };
    Kind {
        befell,
        why: counted.trouble.name(),
        count: counted.count,
    }
}

/// A count, where so many more are counted.
fn grown(count: u64, more: usize) -> u64 {
    count.saturating_add(more as u64)
}
