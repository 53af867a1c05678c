//! Those who watch over a proxy: each asks once, on a socket that is none of the cache's, and is answered.

use crate::addresses::addresses_of;
use crate::tokens::Source;
use hc_monitor::{Board, Body, Watching};
use mio::net::{TcpListener, TcpStream};
use mio::{Interest, Poll, Registry};
use std::alloc::{AllocError, Global};
use std::collections::BTreeMap;
use std::fmt::Write as _;
use std::io;
use std::io::ErrorKind;
use std::net::{Net, SocketAddr};

/// So many may ask at once. Then the one who came first gives way to the next.
const MOST: usize = 8;

/// So many in a row are accepted at once.
const MOST_IN_A_ROW: usize = 1_000;

/// Those who watch over a proxy, and the sockets to which they connect, if there are any.
pub(crate) struct Watchers<'a> {
    board: &'a Board,
    doors: Vec<TcpListener>,
    /// The addresses of these, with commas between them.
    names: String,
    links: BTreeMap<u64, Watching>,
    /// The number of the one who came last.
    last: u64,
    /// Whether somebody awaits the numbers.
    awaits: bool,
}

impl<'a> Drop for Watchers<'a> {
    fn drop(self) {
        let Watchers {
            board: _,
            doors,
            names,
            links,
            last: _,
            awaits: _,
        } = self;
        drop(doors);
        drop(names);
        drop(links);
    }
}

impl<'a> Watchers<'a> {
    /// Nobody watches.
    pub(crate) fn none(alloc: Global, board: &'a Board) -> Self {
        Watchers {
            board,
            doors: Vec::new(alloc),
            names: String::new(alloc),
            links: BTreeMap::new(alloc),
            last: 0,
            awaits: false,
        }
    }

    /// Those who watch can connect to each address of that host and port, of which the poll tells.
    pub(crate) fn bind<R: Net + AllocGlobal>(
        &mut self,
        rt: &R,
        poll: &Poll,
        address: &str,
    ) -> io::Result<()> {
        let addresses = addresses_of(rt, address)?;
        'addresses: for address in addresses.as_slice() {
            self.add(rt, poll, *address)?;
        }
        Ok(())
    }

    /// And to that address.
    fn add<R: Net>(&mut self, rt: &R, poll: &Poll, address: SocketAddr) -> io::Result<()> {
        let mut door = TcpListener::bind(rt, address)?;
        self.note_name(door.local_addr()?)?;
        let place = self.doors.len() as u64;
        let Some(token) = Source::Lookout(place).token() else {
            return Err(io::Error::from(ErrorKind::OutOfMemory));
        };
        poll.registry()
            .register(&mut door, token, Interest::READABLE)?;
        self.doors.push(door)?;
        Ok(())
    }

    /// Puts an address at the end.
    fn note_name(&mut self, address: SocketAddr) -> Result<(), AllocError> {
        let between = if self.names.is_empty() { "" } else { ", " };
        write!(self.names, "{between}{address}").map_err(|_| AllocError)
    }

    /// The addresses to which they connect, each with the port that it really has, with commas between them.
    pub(crate) fn addresses(&self) -> &str {
        self.names.as_str()
    }

    /// Whether anybody can watch.
    pub(crate) fn can_be(&self) -> bool {
        !self.doors.is_empty()
    }

    /// Some may have connected to the socket at that place.
    pub(crate) fn welcome(&mut self, registry: &Registry, place: u64) {
        'callers: for _ in 0..MOST_IN_A_ROW {
            let Some(door) = self.doors.get(place as usize) else {
                return;
            };
            match door.accept() {
                Ok((stream, _)) => self.take_in(registry, stream),
                Err(_) => return,
            }
        }
    }

    /// One has connected. Where memory or the system refuses that, the connection is closed.
    fn take_in(&mut self, registry: &Registry, stream: TcpStream) {
        self.make_room();
        self.last = self.last.saturating_add(1);
        let Some(token) = Source::Watcher(self.last).token() else {
            return;
        };
        let mut stream = stream;
        let both_ways = Interest::READABLE | Interest::WRITABLE;
        if registry.register(&mut stream, token, both_ways).is_err() {
            return;
        }
        let alloc = *self.doors.allocator();
        let _ = self.links.insert(self.last, Watching::new(alloc, stream));
    }

    /// The one who came first goes, if there are as many as there may be.
    fn make_room(&mut self) {
        if self.links.len() < MOST {
            return;
        }
        let first = match self.links.iter().next() {
            Some((number, _)) => *number,
            None => return,
        };
        self.links.remove(&first);
    }

    /// Something became ready at the link of that number.
    pub(crate) fn hear(&mut self, number: u64, serves: bool) {
        let Some(link) = self.links.get_mut(&number) else {
            return;
        };
        let goes_on = link.go_on(self.board, serves);
        self.awaits |= link.awaits();
        if !goes_on {
            self.links.remove(&number);
        }
    }

    /// Answers those who await the numbers, once these were told.
    pub(crate) fn answer(&mut self) {
        if !self.awaits || self.board.is_asked() {
            return;
        }
        self.awaits = false;
        let metrics = self.board.take();
        let body = match &metrics {
            Some(metrics) => Body::Metrics(Some(metrics.as_slice())),
            None => Body::Metrics(None),
        };
        'links: for (_, link) in self.links.iter_mut() {
            link.answer_if_awaiting(body);
        }
    }
}
