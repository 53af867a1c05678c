//! What `serve` asks of a system, as a case sets it up: clients who connect as soon as it listens, an origin that
//! answers as it is connected to, and a clock that stands. Its sockets and files are the system's own.

use crate::failing::Failing;
use crate::hearing::say_streams;
use crate::scene::answer_at;
use std::alloc::{Alloc, Allocator, Global};
use std::cell::{Cell, RefCell};
use std::fs::{Metadata, OpenOptions, Permissions};
use std::io::{ErrorKind, PipeReader, PipeWriter, Write};
use std::net::{Net, OpenListener, OpenStream, Shutdown, SocketAddr, TcpStream};
use std::path::PathBuf;
use std::random::RandomSource;
use std::rt::Files;
use std::time::{Clock, Duration};
use std::{io, mem};

/// The moment, in seconds since 1970, where a case names none.
const MOMENT: u64 = 1_000;

/// What is particular about a case.
#[derive(Clone, Copy)]
pub(crate) enum Manner {
    /// Nothing: clients end behind what they send.
    Ends,
    /// Clients end behind all else.
    Stays,
    /// The first client is gone before it is served.
    Leaves,
    /// The cache is named small, and has room for nothing.
    Small,
    /// The origin gives its last answer once clients have read what they are replied.
    Waits,
    /// The file is longer before.
    Overwrites,
    /// Another program records to the file, and has written the opening.
    Claimed,
    /// That write to the file fails, the how-manieth.
    Fails(u64),
    /// It is that moment.
    At(u64),
}

/// What a case sets up.
pub(crate) struct Staged<'a, R: Net> {
    system: &'a R,
    pub(crate) alloc: Global,
    /// What clients send, one behind another.
    clients: &'a [Vec<u8>],
    manner: Manner,
    /// The answers of the origin, forward by forward.
    answers: &'a [Vec<u8>],
    origin: R::Listener,
    /// How many forwards were tried.
    tried: Cell<usize>,
    /// The clients' sides of their connections.
    connected: RefCell<Vec<R::Stream>>,
    /// What clients read before the last answer, where the origin waits for that.
    early: RefCell<String>,
    /// The origin's sides of forwards.
    forwards: RefCell<Vec<R::Stream>>,
}

impl<'a, R: Net> Drop for Staged<'a, R> {
    fn drop(self) {
        let Staged {
            system: _,
            alloc: _,
            clients: _,
            manner: _,
            answers: _,
            origin,
            tried: _,
            connected,
            early,
            forwards,
        } = self;
        drop(origin);
        drop(connected);
        drop(early);
        drop(forwards);
    }
}

impl<'a, R: Net> Staged<'a, R> {
    /// What is set up before anything has passed.
    pub(crate) fn new(
        system: &'a R,
        alloc: Global,
        manner: Manner,
        origin: R::Listener,
        clients: &'a [Vec<u8>],
        answers: &'a [Vec<u8>],
    ) -> Self {
        Staged {
            system,
            alloc,
            clients,
            manner,
            answers,
            origin,
            tried: Cell::new(0),
            connected: RefCell::new(Vec::new(alloc)),
            early: RefCell::new(String::new(alloc)),
            forwards: RefCell::new(Vec::new(alloc)),
        }
    }

    /// The address at which the origin listens, as text.
    pub(crate) fn origin_address(&self) -> io::Result<String> {
        let address = self.origin.local_addr()?;
        Ok(format!(in self.alloc; "{address}")?)
    }

    /// Writes what clients read before the last answer.
    pub(crate) fn say_early(&self, out: &mut String) -> io::Result<()> {
        out.push_str(self.early.try_borrow()?.as_str())?;
        Ok(())
    }

    /// The clients' sides of their connections, which it gives out.
    pub(crate) fn connected(&self) -> io::Result<Vec<R::Stream>> {
        taken(self.alloc, &self.connected)
    }

    /// The origin's sides of forwards, which it gives out.
    pub(crate) fn forwards(&self) -> io::Result<Vec<R::Stream>> {
        taken(self.alloc, &self.forwards)
    }

    /// The moment, in seconds since 1970.
    fn moment(&self) -> Duration {
        match self.manner {
            Manner::At(moment) => Duration::from_secs(moment),
            _ => Duration::from_secs(MOMENT),
        }
    }

    /// The write to the file that fails, if one does.
    fn fault(&self) -> Option<u64> {
        match self.manner {
            Manner::Fails(fault) => Some(fault),
            _ => None,
        }
    }

    /// Whether the client at that place is gone before it is served.
    fn leaves(&self, place: usize) -> bool {
        matches!(self.manner, Manner::Leaves) && place == 0
    }

    /// The clients connect, one behind another.
    fn connect_clients(&self, address: SocketAddr) -> io::Result<()> {
        for (place, octets) in self.clients.iter().enumerate() {
            let client = self.client(address, octets.as_slice())?;
            if !self.leaves(place) {
                keep(&self.connected, client)?;
            }
        }
        Ok(())
    }

    /// A client who has connected and sent those octets.
    fn client(&self, address: SocketAddr, octets: &[u8]) -> io::Result<R::Stream> {
        let mut stream = TcpStream::connect(self.system, address)?;
        let ends = !matches!(self.manner, Manner::Stays);
        send(&mut stream, octets, ends)?;
        Ok(stream)
    }

    /// The origin accepts the forward, and gives that answer.
    fn give(&self, answer: &[u8]) -> io::Result<()> {
        let (mut accepted, _) = self.origin.accept()?;
        self.give_on(&mut accepted, answer)?;
        keep(&self.forwards, accepted)
    }

    fn give_on(&self, accepted: &mut R::Stream, answer: &[u8]) -> io::Result<()> {
        if self.waits() {
            self.hear()?;
        }
        send(accepted, answer, true)
    }

    /// Lets clients read what they are replied, and then go.
    fn hear(&self) -> io::Result<()> {
        let mut streams = self.connected()?;
        self.hear_all(streams.as_mut_slice())
    }

    fn hear_all(&self, streams: &mut [R::Stream]) -> io::Result<()> {
        let mut early = self.early.try_borrow_mut()?;
        let what = "reply before the last answer";
        match say_streams(self.alloc, what, streams, &mut early) {
            Ok(()) => Ok(()),
            Err(_) => Err(io::Error::from(ErrorKind::Other)),
        }
    }

    /// Whether clients read what they are replied before the forward that was tried last is answered.
    fn waits(&self) -> bool {
        matches!(self.manner, Manner::Waits) && self.tried.get() == self.answers.len()
    }

    /// The answer to the next forward, if the origin can be connected to for it.
    fn next_answer(&self) -> Option<&'a [u8]> {
        let place = self.tried.get();
        self.tried.set(place.saturating_add(1));
        answer_at(self.answers, place)
    }
}

/// Sends octets on a stream, and maybe ends it.
fn send<S: Write + OpenStream>(stream: &mut S, octets: &[u8], ends: bool) -> io::Result<()> {
    stream.write_all(octets)?;
    if ends {
        stream.shutdown(Shutdown::Write)?;
    }
    Ok(())
}

/// The streams that are kept, of which none is left.
fn taken<S: Drop>(alloc: Global, kept: &RefCell<Vec<S>>) -> io::Result<Vec<S>> {
    Ok(mem::replace(&mut *kept.try_borrow_mut()?, Vec::new(alloc)))
}

/// Keeps a stream behind the others.
fn keep<S: Drop>(kept: &RefCell<Vec<S>>, stream: S) -> io::Result<()> {
    let mut kept = kept.try_borrow_mut()?;
    kept.push(stream)?;
    Ok(())
}

impl<'a, R: Net> Net for Staged<'a, R> {
    type Stream = R::Stream;

    type Listener = R::Listener;

    fn bind(&self, addr: SocketAddr) -> io::Result<R::Listener> {
        let listener = self.system.bind(addr)?;
        let address = listener.local_addr()?;
        self.connect_clients(address)?;
        Ok(listener)
    }

    fn connect(&self, addr: SocketAddr) -> io::Result<R::Stream> {
        let Some(answer) = self.next_answer() else {
            return Err(io::Error::from(ErrorKind::ConnectionRefused));
        };
        let stream = self.system.connect(addr)?;
        self.give(answer)?;
        Ok(stream)
    }
}

impl<'a, R: Net> Clock for Staged<'a, R> {
    fn monotonic(&self) -> io::Result<Duration> {
        Ok(self.moment())
    }

    fn since_1970(&self) -> io::Result<Duration> {
        Ok(self.moment())
    }
}

impl<'a, R: Net> Alloc for Staged<'a, R> {
    type A = Global;

    fn alloc(&self) -> Global {
        self.alloc
    }
}

impl<'a, R: Net + RandomSource> RandomSource for Staged<'a, R> {
    fn fill_bytes(&self, buf: &mut [u8]) -> io::Result<()> {
        self.system.fill_bytes(buf)
    }
}

impl<'a, R: Net + Files> Files for Staged<'a, R> {
    type File = Failing<R::File>;

    type Dir = R::Dir;

    fn open_file(&self, how: &OpenOptions, path: &str) -> io::Result<Failing<R::File>> {
        Ok(Failing {
            file: self.system.open_file(how, path)?,
            fault: self.fault(),
            writes: 0,
        })
    }

    fn open_dir(&self, path: &str) -> io::Result<R::Dir> {
        self.system.open_dir(path)
    }

    fn metadata(&self, path: &str) -> io::Result<Metadata> {
        self.system.metadata(path)
    }

    fn symlink_metadata(&self, path: &str) -> io::Result<Metadata> {
        self.system.symlink_metadata(path)
    }

    fn copy(&self, from: &str, to: &str) -> io::Result<u64> {
        self.system.copy(from, to)
    }

    fn rename(&self, from: &str, to: &str) -> io::Result<()> {
        self.system.rename(from, to)
    }

    fn remove_file(&self, path: &str) -> io::Result<()> {
        self.system.remove_file(path)
    }

    fn create_dir(&self, path: &str) -> io::Result<()> {
        self.system.create_dir(path)
    }

    fn remove_dir(&self, path: &str) -> io::Result<()> {
        self.system.remove_dir(path)
    }

    fn remove_dir_all<B: Allocator>(&self, alloc: B, path: &str) -> io::Result<()> {
        self.system.remove_dir_all(alloc, path)
    }

    fn canonicalize<B: Allocator>(&self, alloc: B, path: &str) -> io::Result<PathBuf<B>> {
        self.system.canonicalize(alloc, path)
    }

    fn read_link<B: Allocator>(&self, alloc: B, path: &str) -> io::Result<PathBuf<B>> {
        self.system.read_link(alloc, path)
    }

    fn hard_link(&self, original: &str, link: &str) -> io::Result<()> {
        self.system.hard_link(original, link)
    }

    fn set_permissions(&self, path: &str, permissions: Permissions) -> io::Result<()> {
        self.system.set_permissions(path, permissions)
    }

    fn symlink(&self, original: &str, link: &str) -> io::Result<()> {
        self.system.symlink(original, link)
    }

    fn pipe(&self) -> io::Result<(PipeReader, PipeWriter)> {
        self.system.pipe()
    }

    fn chown(&self, path: &str, user: Option<u32>, group: Option<u32>) -> io::Result<()> {
        self.system.chown(path, user, group)
    }

    fn lchown(&self, path: &str, user: Option<u32>, group: Option<u32>) -> io::Result<()> {
        self.system.lchown(path, user, group)
    }

    fn create_dir_with_mode(&self, path: &str, mode: u32) -> io::Result<()> {
        self.system.create_dir_with_mode(path, mode)
    }
}
