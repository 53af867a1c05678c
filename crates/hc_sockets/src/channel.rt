//! Streams of either family: TCP's, and those of the system's own sockets.

ghost use Rattle.std.specs.Io.{ReadsAtMost, WritesAtMost};
ghost use Rattle.std.specs.Io.Slices.{io_slices_bytes};

use mio::net::{TcpStream, UnixStream};
use mio::{Interest, Registry, Token};
use std::cell::Cell;
use std::io;
use std::io::{IoSlice, Read};
use std::net::Shutdown;

/// A stream, over TCP or within the system.
pub(crate) enum Channel {
    /// Over TCP.
    Tcp(TcpStream),
    /// Within the system.
    Unix(Local),
}

/// A stream within the system. The system doesn't let what came be looked at without taking it, so the first octet may be kept
/// here.
pub(crate) struct Local {
    stream: UnixStream,
    /// The octet that was taken to see whether one came.
    first: Cell<Option<u8>>,
}

impl Drop for Local {
    fn drop(self) {
        let Local { stream, first } = self;
        drop(stream);
        drop(first);
    }
}

impl Drop for Channel {
    fn drop(self) {
        match self {
            Channel::Tcp(stream) => drop(stream),
            Channel::Unix(local) => drop(local),
        }
    }
}

impl Channel {
    /// One within the system.
    pub(crate) fn local(stream: UnixStream) -> Self {
        let first = Cell::new(None);
        Channel::Unix(Local { stream, first })
    }

    /// Octets leave at once. A socket that refuses that works all the same.
    pub(crate) fn delay_nothing(&self) {
        match self {
            Channel::Tcp(stream) => {
                let _ = stream.set_nodelay(true);
            }
            Channel::Unix(_) => {}
        }
    }

    /// What becomes ready is told by that token from now on.
    pub(crate) fn register(&mut self, registry: &Registry, token: Token) -> io::Result<()> {
        match self {
            Channel::Tcp(stream) => registry.register(stream, token, both_ways()),
            Channel::Unix(local) => registry.register(&mut local.stream, token, both_ways()),
        }
    }

    /// What becomes ready is told by another token from now on.
    pub(crate) fn reregister(&mut self, registry: &Registry, token: Token) -> io::Result<()> {
        match self {
            Channel::Tcp(stream) => registry.reregister(stream, token, both_ways()),
            Channel::Unix(local) => registry.reregister(&mut local.stream, token, both_ways()),
        }
    }

    /// Reads as `std::io::Read` does.
    pub(crate) fn read(&mut self, buffer: &mut [u8]) -> io::Result<usize>
        ensures { ReadsAtMost result buffer.new }
    {
        match self {
            Channel::Tcp(stream) => stream.read(buffer),
            Channel::Unix(local) => local.read(buffer),
        }
    }

    /// Writes as `std::io::Write` does, of several parts.
    pub(crate) fn write_vectored(&self, parts: &[IoSlice<'_>]) -> io::Result<usize>
        ensures { WritesAtMost result (io_slices_bytes parts.now) }
    {
        match self {
            Channel::Tcp(stream) => stream.write_vectored(parts),
            Channel::Unix(local) => local.stream.write_vectored(parts),
        }
    }

    /// Whether an octet came: 1, or 0 where none comes any more. It isn't taken.
    pub(crate) fn peek(&self) -> io::Result<usize> {
        match self {
            Channel::Tcp(stream) => stream.peek(&mut [0]),
            Channel::Unix(local) => local.peek(),
        }
    }

    /// Ends what is written.
    pub(crate) fn end(&self) -> io::Result<()> {
        match self {
            Channel::Tcp(stream) => stream.shutdown(Shutdown::Write),
            Channel::Unix(local) => local.stream.shutdown(Shutdown::Write),
        }
    }
}

impl Local {
    /// Reads, first the octet that was taken.
    fn read(&mut self, buffer: &mut [u8]) -> io::Result<usize>
        ensures { ReadsAtMost result buffer.new }
    {
        let Some(octet) = self.first.get() else {
            return self.stream.read(buffer);
        };
        if buffer.is_empty() {
            return Ok(0);
        }
        buffer[0] = octet;
        self.first.set(None);
        Ok(1)
    }

    /// Takes an octet, if none is kept.
    fn peek(&self) -> io::Result<usize> {
        if self.first.get().is_some() {
            return Ok(1);
        }
        let mut octet = [0];
        let count = (&self.stream).read(&mut octet)?;
        if count > 0 {
            self.first.set(Some(octet[0]));
        }
        Ok(count)
    }
}

/// What becomes ready at a stream is told of reading and of writing.
fn both_ways() -> Interest {
    Interest::READABLE | Interest::WRITABLE
}
