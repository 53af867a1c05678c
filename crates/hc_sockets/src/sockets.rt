//! The world of a crowd: the system's sockets, none of which is waited for alone.

ghost use Rattle.std.specs.Prelude.{◌≡◌, ◌||◌, ◌&&◌};
ghost use Rattle.mio.specs.Event.{is_error, is_read_closed, is_readable, is_writable};

use crate::addresses::put_addresses;
use crate::attempts::{AttemptStage, Attempts};
use crate::channel::Channel;
use crate::health::Health;
use crate::listeners::{Caller, Listeners, Unbound};
use crate::signals::Signals;
use crate::tokens::Source;
use crate::watchers::Watchers;
use crate::wire::Wire;
use hc_crowd::{Accepted, Ready, World};
use hc_flow::Readiness;
use hc_monitor::Board;
use hc_order::Receiver;
use mio::event::Event;
use mio::net::TcpStream;
use mio::{Events, Poll};
use std::alloc::AllocError;
use std::io;
use std::io::ErrorKind;
use std::net::{Net, SocketAddr};
use std::rt::Files;
use std::time::{Clock, Duration};

/// So many things that became ready are taken in at once.
const MOST_EVENTS: usize = 1_024;

/// So many milliseconds are waited for at most, so that a stop is seen within that time.
const LONGEST_WAIT: u64 = 250;

/// Why there are no sockets.
#[derive(Clone, Copy)]
pub enum SocketsFault {
    /// Memory was refused.
    Memory,
    /// No client could connect to the address at that place, for this reason.
    Listen(usize, io::Error),
    /// Nobody could watch, for this reason.
    Status(io::Error),
    /// The origin has no address, for this reason.
    Origin(io::Error),
    /// The system doesn't tell which signals are pending, for this reason.
    Signals(io::Error),
}

impl From<AllocError> for SocketsFault {
    fn from(_error: AllocError) -> SocketsFault {
        SocketsFault::Memory
    }
}

/// Where clients and those who watch connect, and what is behind that.
#[derive(Clone, Copy)]
pub struct Ends<'a> {
    /// The hosts and ports to which clients connect, and the paths of the system's own sockets behind `unix:`.
    pub listen: &'a [&'a str],
    /// The host and the port of the origin.
    pub origin: &'a str,
    /// The host and the port to which those connect who watch, if any do.
    pub status: Option<&'a str>,
    /// Where they and whoever serves leave word for each other.
    pub board: &'a Board,
}

/// The system's sockets, clocks and signals. What is ready is asked of all sockets at once.
pub struct Sockets<'a, R: Net + Files + Clock> {
    rt: &'a R,
    /// Where failures of the system are noted.
    health: &'a Health,
    poll: Poll,
    /// What became ready.
    events: Events,
    /// How many of them were told.
    told: usize,
    listeners: Listeners,
    watchers: Watchers<'a>,
    /// Whether clients can connect.
    listens: bool,
    /// The addresses of the origin, in the order in which they are tried.
    origin: Vec<SocketAddr>,
    attempts: Attempts,
    signals: Signals<R::File>,
}

impl<'a, R: Net + Files + Clock> Drop for Sockets<'a, R> {
    fn drop(self) {
        let Sockets {
            rt: _,
            health: _,
            poll,
            events,
            told: _,
            listeners,
            watchers,
            listens: _,
            origin,
            attempts,
            signals,
        } = self;
        drop(poll);
        drop(events);
        drop(listeners);
        drop(watchers);
        drop(origin);
        drop(attempts);
        drop(signals);
    }
}

impl<'a, R: Net + Files + Clock + AllocGlobal> Sockets<'a, R> {
    /// Clients can connect to each address of the hosts and ports, and to each path, and those who watch to theirs. The name
    /// of the origin is resolved now, once.
    pub fn new(rt: &'a R, health: &'a Health, ends: Ends<'a>) -> Result<Self, SocketsFault> {
        let poll = Poll::new(rt).map_err(poll_fault)?;
        let signals = Signals::new(rt, rt.alloc()).map_err(signals_fault)?;
        let mut sockets = Sockets::closed(rt, health, ends.board, poll, signals)?;
        sockets.open(ends)?;
        Ok(sockets)
    }

    /// Nobody can connect yet.
    fn closed(
        rt: &'a R,
        health: &'a Health,
        board: &'a Board,
        poll: Poll,
        signals: Signals<R::File>,
    ) -> Result<Self, AllocError> {
        let alloc = rt.alloc();
        Ok(Sockets {
            rt,
            health,
            poll,
            events: Events::with_capacity(alloc, MOST_EVENTS)?,
            told: 0,
            listeners: Listeners::none(alloc),
            watchers: Watchers::none(alloc, board),
            listens: true,
            origin: Vec::new(alloc),
            attempts: Attempts::new(alloc)?,
            signals,
        })
    }

    /// Clients and those who watch can connect, and the origin has addresses.
    fn open(&mut self, ends: Ends<'a>) -> Result<(), SocketsFault> {
        let rt = self.rt;
        put_addresses(rt, ends.origin, &mut self.origin).map_err(origin_fault)?;
        self.listeners
            .bind(rt, &self.poll, ends.listen)
            .map_err(listen_fault)?;
        match ends.status {
            Some(address) => self
                .watchers
                .bind(rt, &self.poll, address)
                .map_err(status_fault),
            None => Ok(()),
        }
    }
}

impl<'a, R: Net + Files + Clock> Sockets<'a, R> {
    /// The addresses to which clients connect, each with the port that it really has, with commas between them.
    pub fn addresses(&self) -> &str {
        self.listeners.addresses()
    }

    /// Those to which whoever watches connects; empty where nobody can.
    pub fn status_addresses(&self) -> &str {
        self.watchers.addresses()
    }

    /// Whether it serves, and nobody has asked it to stop.
    fn serves(&self) -> bool {
        self.listens && !self.health.ends()
    }

    /// Waits for what becomes ready, so many milliseconds at most.
    fn poll_for(&mut self, most: u64) {
        let most = Duration::from_millis(most.min(LONGEST_WAIT));
        // Where the system refuses it, nothing is ready.
        let polled = self.poll.poll(&mut self.events, Some(most));
        self.health.note_poll(polled);
    }

    /// The same, and how long it took from the last wait to this one is noted.
    fn poll_timed(&mut self, most: u64) {
        self.watchers.answer();
        self.health.end_turn(self.monotonic());
        self.poll_for(most);
        self.health.begin_turn(self.monotonic());
    }

    /// Whether signals that ask the program to stop can be seen: they are blocked, and the system tells which are pending.
    pub fn hears_stops(&self) -> bool {
        self.signals.are_heard()
    }

    /// The next thing that became ready and wasn't looked at yet.
    fn next_event(&mut self) -> Option<Event> {
        let event = *self.events.iter().as_slice().get(self.told)?;
        self.told = self.told.saturating_add(1);
        Some(event)
    }

    /// What an event tells: nothing, where it is of a link in whose place there is another one.
    fn told_by(&mut self, event: Event) -> Option<Ready> {
        match Source::of(event.token()) {
            Source::Listener(place) => {
                self.listeners.wake(place);
                Some(Ready::Clients)
            }
            Source::Lookout(place) => {
                self.watchers.welcome(self.poll.registry(), place);
                None
            }
            Source::Watcher(number) => {
                let serves = self.serves();
                self.watchers.hear(number, serves);
                None
            }
            Source::Guest(number) => Some(Ready::Guest(number, readiness_of(event, true))),
            Source::Client(number) => {
                let readiness = readiness_of(event, true);
                Some(Ready::Link(Receiver::Client(number), readiness))
            }
            Source::Origin(forward, attempt) => {
                let fails = match self.attempts.tell(forward, attempt) {
                    AttemptStage::Opening => true,
                    AttemptStage::Made => false,
                    AttemptStage::Gone => return None,
                };
                let readiness = readiness_of(event, fails);
                Some(Ready::Link(Receiver::Origin(forward), readiness))
            }
        }
    }

    /// Begins to connect to the first address of the origin, from that place on, for which that is possible. Returns its
    /// place, too.
    fn begin_connecting(&self, first: usize) -> Option<(TcpStream, usize)> {
        'addresses: for place in first..self.origin.len() {
            let address = *self.origin.get(place)?;
            if let Ok(stream) = TcpStream::connect(self.rt, address) {
                return Some((stream, place));
            }
        }
        None
    }

    /// The link of a client who has connected, which is told of as that guest.
    fn invited(&self, guest: u64, caller: Caller) -> Accepted<Wire> {
        let Caller { stream, address } = caller;
        match self.wired(stream, Source::Guest(guest), address) {
            Some(wire) => Accepted::Client(wire),
            None => Accepted::Full,
        }
    }

    /// What becomes ready at a stream is told from now on. None, where the system refuses that.
    fn wired(&self, mut stream: Channel, source: Source, peer: Option<SocketAddr>) -> Option<Wire> {
        stream.delay_nothing();
        let token = source.token()?;
        stream.register(self.poll.registry(), token).ok()?;
        Some(Wire::new(stream, peer))
    }
}

impl<'a, R: Net + Files + Clock> World for Sockets<'a, R> {
    type Stream = Wire;

    fn wait(&mut self, most: u64) {
        // What wasn't told yet is told first.
        if self.told < self.events.iter().len() {
            return;
        }
        self.told = 0;
        // Where serving ends, nothing is waited for any more.
        if self.health.ends() {
            return;
        }
        if self.watchers.can_be() {
            self.poll_timed(most);
        } else {
            self.poll_for(most);
        }
    }

    fn ready(&mut self) -> Option<Ready> {
        'events: for _ in 0..MOST_EVENTS {
            let event = self.next_event()?;
            if let Some(ready) = self.told_by(event) {
                return Some(ready);
            }
        }
        None
    }

    fn accept(&mut self, guest: u64) -> Accepted<Wire> {
        match self.listeners.accept() {
            Accepted::Client(caller) => self.invited(guest, caller),
            Accepted::Later => Accepted::Later,
            Accepted::Full => Accepted::Full,
        }
    }

    fn ask_for_clients(&mut self) -> bool {
        self.listeners.ask(self.poll.registry())
    }

    fn rename(&mut self, stream: &mut Wire, number: u64) -> bool {
        match Source::Client(number).token() {
            Some(token) => stream.tell_by(self.poll.registry(), token),
            None => false,
        }
    }

    fn connect(&mut self, forward: u64, attempt: u32) -> Option<Wire> {
        let first = self.attempts.first_address(forward, attempt);
        let (stream, address) = self.begin_connecting(first)?;
        let wire = self.wired(Channel::Tcp(stream), Source::Origin(forward, attempt), None)?;
        self.attempts.begin(forward, attempt, address);
        Some(wire)
    }

    fn wall(&self) -> Option<Duration> {
        self.rt.since_1970().ok()
    }

    fn monotonic(&self) -> Duration {
        self.health.note_clock(self.rt.monotonic())
    }

    fn tick(&self) -> u64 {
        // Where serving ends, nothing is waited for any more.
        if self.health.ends() {
            return u64::MAX;
        }
        u64::try_from(self.monotonic().as_millis()).unwrap_or(u64::MAX)
    }

    fn stops(&mut self) -> bool {
        if self.health.ends() {
            return true;
        }
        let tick = self.tick();
        self.signals.have_come(tick)
    }

    fn stop_listening(&mut self) {
        self.listens = false;
        self.listeners.close();
    }
}

/// What an event tells of a link. Where its error doesn't make the link fail, the next read or write does: what came before
/// can still be read.
fn readiness_of(event: Event, fails: bool) -> Readiness
    ensures readable { result.readable ≡ (is_readable event || (is_read_closed event || is_error event)) }
    ensures writable { result.writable ≡ (is_writable event || is_error event) }
    ensures ended { result.ended ≡ (is_read_closed event || is_error event) }
    ensures failed { result.failed ≡ (is_error event && fails) }
{
    let error = event.is_error();
    let ended = event.is_read_closed() | error;
    Readiness {
        readable: event.is_readable() | ended,
        writable: event.is_writable() | error,
        ended,
        failed: error & fails,
    }
}

/// Why nobody could watch.
fn status_fault(error: io::Error) -> SocketsFault {
    if error.kind() == ErrorKind::OutOfMemory {
        return SocketsFault::Memory;
    }
    SocketsFault::Status(error)
}

/// Why nothing can be told of any socket.
fn poll_fault(error: io::Error) -> SocketsFault {
    listen_fault(Unbound {
        place: 0,
        reason: error,
    })
}

/// Why no client could connect.
fn listen_fault(unbound: Unbound) -> SocketsFault {
    let Unbound { place, reason } = unbound;
    if reason.kind() == ErrorKind::OutOfMemory {
        return SocketsFault::Memory;
    }
    SocketsFault::Listen(place, reason)
}

/// Why the origin has no address.
fn origin_fault(error: io::Error) -> SocketsFault {
    if error.kind() == ErrorKind::OutOfMemory {
        return SocketsFault::Memory;
    }
    SocketsFault::Origin(error)
}

/// Why stops can't be seen.
fn signals_fault(error: io::Error) -> SocketsFault {
    if error.kind() == ErrorKind::OutOfMemory {
        return SocketsFault::Memory;
    }
    SocketsFault::Signals(error)
}
