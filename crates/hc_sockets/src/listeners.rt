//! The sockets to which clients connect.

use crate::addresses::addresses_of;
use crate::channel::Channel;
use crate::stale::remove_stale;
use crate::tokens::Source;
use hc_crowd::Accepted;
use mio::net::{TcpListener, UnixListener};
use mio::{Interest, Poll, Registry};
use std::alloc::{AllocError, Global};
use std::fmt::Write as _;
use std::io;
use std::io::ErrorKind;
use std::net::{Net, SocketAddr};
use std::rt::Files;

/// How many clients in a row may give up before they are accepted.
const TRIES: u32 = 1_000;

/// What an address begins with that is the path of a socket of the system's own.
const UNIX: &str = "unix:";

/// A socket to which clients connect.
enum Door {
    /// Over TCP.
    Tcp(TcpListener),
    /// Within the system.
    Unix(UnixListener),
}

impl Drop for Door {
    fn drop(self) {
        match self {
            Door::Tcp(listener) => drop(listener),
            Door::Unix(listener) => drop(listener),
        }
    }
}

/// A socket to which clients connect, and whether one may wait there.
struct Listener {
    door: Door,
    ready: bool,
}

impl Drop for Listener {
    fn drop(self) {
        let Listener { door, ready: _ } = self;
        drop(door);
    }
}

/// A client who has connected, and the address from which it did, over TCP.
#[derive(Drop)]
pub(crate) struct Caller {
    pub(crate) stream: Channel,
    pub(crate) address: Option<SocketAddr>,
}

/// The sockets to which clients connect, each at an address.
pub(crate) struct Listeners {
    listeners: Vec<Listener>,
    /// Their addresses, with commas between them.
    names: String,
    /// The place of the one whose turn it is.
    turn: usize,
}

impl Drop for Listeners {
    fn drop(self) {
        let Listeners {
            listeners,
            names,
            turn: _,
        } = self;
        drop(listeners);
        drop(names);
    }
}

/// Why nobody can connect to an address, and at which place it stands among those that were wanted.
#[derive(Clone, Copy)]
pub(crate) struct Unbound {
    pub(crate) place: usize,
    pub(crate) reason: io::Error,
}

impl Listeners {
    /// None.
    pub(crate) fn none(alloc: Global) -> Self {
        Listeners {
            listeners: Vec::new(alloc),
            names: String::new(alloc),
            turn: 0,
        }
    }

    /// One more for each address of those hosts and ports, and one for each path, of which the poll tells.
    pub(crate) fn bind<R: Net + Files + AllocGlobal>(
        &mut self,
        rt: &R,
        poll: &Poll,
        wanted: &[&str],
    ) -> Result<(), Unbound> {
        let mut place = 0usize;
        'wanted: for address in wanted {
            if let Err(reason) = self.bind_at(rt, poll, address) {
                return Err(Unbound { place, reason });
            }
            place = place.saturating_add(1);
        }
        Ok(())
    }

    /// Those at one of them.
    fn bind_at<R: Net + Files + AllocGlobal>(
        &mut self,
        rt: &R,
        poll: &Poll,
        wanted: &str,
    ) -> io::Result<()> {
        match wanted.strip_prefix(UNIX) {
            Some(path) => self.bind_path(rt, poll, path),
            None => self.bind_host(rt, poll, wanted),
        }
    }

    /// One for each address of that host and port.
    fn bind_host<R: Net + AllocGlobal>(
        &mut self,
        rt: &R,
        poll: &Poll,
        wanted: &str,
    ) -> io::Result<()> {
        let addresses = addresses_of(rt, wanted)?;
        'addresses: for address in addresses.as_slice() {
            self.bind_address(rt, poll, *address)?;
        }
        Ok(())
    }

    /// One at that address.
    fn bind_address<R: Net>(&mut self, rt: &R, poll: &Poll, address: SocketAddr) -> io::Result<()> {
        let listener = TcpListener::bind(rt, address)?;
        let address = listener.local_addr();
        self.add(poll, Door::Tcp(listener))?;
        self.begin_name()?;
        write!(self.names, "{}", address?).map_err(|_| AllocError)?;
        Ok(())
    }

    /// One at that path. A socket there to which nobody listens any more is removed.
    fn bind_path<R: Net + Files>(&mut self, rt: &R, poll: &Poll, path: &str) -> io::Result<()> {
        remove_stale(rt, path);
        let listener = UnixListener::bind(rt, path)?;
        self.add(poll, Door::Unix(listener))?;
        self.begin_name()?;
        self.names.push_str(UNIX)?;
        self.names.push_str(path)?;
        Ok(())
    }

    /// One more.
    fn add(&mut self, poll: &Poll, door: Door) -> io::Result<()> {
        let mut listener = Listener { door, ready: true };
        listener.register(poll, self.listeners.len() as u64)?;
        self.listeners.push(listener)?;
        Ok(())
    }

    /// Puts what stands between two names at the end, unless none stands there.
    fn begin_name(&mut self) -> Result<(), AllocError> {
        if self.names.is_empty() {
            return Ok(());
        }
        self.names.push_str(", ")
    }

    /// Their addresses, each with the port that it really has, with commas between them.
    pub(crate) fn addresses(&self) -> &str {
        self.names.as_str()
    }

    /// A client may wait at the listener at that place.
    pub(crate) fn wake(&mut self, place: u64) {
        if let Some(listener) = self.listeners.get_mut(place as usize) {
            listener.ready = true;
        }
    }

    /// The next client. The listeners have turns.
    pub(crate) fn accept(&mut self) -> Accepted<Caller> {
        'turns: for _ in 0..self.listeners.len() {
            match self.accept_in_turn() {
                Accepted::Client(caller) => return Accepted::Client(caller),
                Accepted::Later => {}
                Accepted::Full => return Accepted::Full,
            }
        }
        Accepted::Later
    }

    /// The next client of the listener whose turn it is.
    fn accept_in_turn(&mut self) -> Accepted<Caller> {
        let turn = self.turn;
        self.turn = next_turn(turn, self.listeners.len());
        match self.listeners.get_mut(turn) {
            Some(listener) => listener.accept(),
            None => Accepted::Later,
        }
    }

    /// The poll tells anew of each whether a client waits there. Returns whether it does.
    pub(crate) fn ask(&mut self, registry: &Registry) -> bool {
        let mut place = 0;
        'listeners: for listener in self.listeners.iter_mut() {
            if !listener.ask(registry, place) {
                return false;
            }
            place = place.saturating_add(1);
        }
        true
    }

    /// Closes them.
    pub(crate) fn close(&mut self) {
        self.listeners.clear();
    }
}

impl Listener {
    /// The poll tells whether a client waits at the one at that place.
    fn register(&mut self, poll: &Poll, place: u64) -> io::Result<()> {
        let Some(token) = Source::Listener(place).token() else {
            return Err(io::Error::from(ErrorKind::OutOfMemory));
        };
        match &mut self.door {
            Door::Tcp(door) => poll.registry().register(door, token, Interest::READABLE),
            Door::Unix(door) => poll.registry().register(door, token, Interest::READABLE),
        }
    }

    /// The poll tells anew whether a client waits at the one at that place. Returns whether it does.
    fn ask(&mut self, registry: &Registry, place: u64) -> bool {
        let Some(token) = Source::Listener(place).token() else {
            return false;
        };
        let told = match &mut self.door {
            Door::Tcp(door) => registry.reregister(door, token, Interest::READABLE),
            Door::Unix(door) => registry.reregister(door, token, Interest::READABLE),
        };
        told.is_ok()
    }

    /// The next client. Behind an error the socket is asked again.
    fn accept(&mut self) -> Accepted<Caller> {
        if !self.ready {
            return Accepted::Later;
        }
        match accepted(&self.door) {
            Ok(caller) => Accepted::Client(caller),
            Err(error) if error.kind() == ErrorKind::WouldBlock => {
                self.ready = false;
                Accepted::Later
            }
            Err(_) => Accepted::Full,
        }
    }
}

impl Door {
    /// The next client.
    fn accept(&self) -> io::Result<Caller> {
        match self {
            Door::Tcp(listener) => {
                let (stream, address) = listener.accept()?;
                Ok(Caller {
                    stream: Channel::Tcp(stream),
                    address: Some(address),
                })
            }
            Door::Unix(listener) => {
                let (stream, _) = listener.accept()?;
                Ok(Caller {
                    stream: Channel::local(stream),
                    address: None,
                })
            }
        }
    }
}

/// The place behind that one, of so many.
fn next_turn(turn: usize, count: usize) -> usize {
    let next = turn.saturating_add(1);
    if next < count { next } else { 0 }
}

/// The next client. One that gives up before it is accepted is passed over.
fn accepted(door: &Door) -> io::Result<Caller> {
    for _ in 0..TRIES {
        match door.accept() {
            Ok(caller) => return Ok(caller),
            Err(error) if error.kind() == ErrorKind::ConnectionAborted => {}
            Err(error) => return Err(error),
        }
    }
    Err(io::Error::from(ErrorKind::ConnectionAborted))
}
