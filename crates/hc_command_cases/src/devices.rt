//! Devices in memory: one gives octets in pieces, another takes none.

use hc_command::Twice;
use std::io;
use std::io::{ErrorKind, Read, Write};

/// Gives each piece by a read of its own, or by several where a read takes less, and fails at one read. Empty pieces are
/// passed over.
#[derive(Clone, Copy)]
pub(crate) struct Pieces<'a> {
    pieces: &'a [&'a [u8]],
    // How many pieces were read to their ends, and how much of the next.
    whole: usize,
    taken: usize,
    // The most octets that a read gives.
    most: usize,
    /// How many reads there were.
    pub(crate) reads: u64,
    fault: Option<Fault>,
}

/// A read that fails.
#[derive(Clone, Copy)]
pub(crate) struct Fault {
    /// The how-manieth it is.
    pub(crate) read: u64,
    pub(crate) kind: ErrorKind,
}

impl<'a> Pieces<'a> {
    ghost use Rattle.std.specs.Prelude.{◌≤◌, length, IfOk};

    /// Nothing of the pieces is read yet, and no read fails.
    pub(crate) fn new(pieces: &'a [&'a [u8]]) -> Self {
        Pieces::failing(pieces, usize::MAX, None)
    }

    /// Nothing of the pieces is read yet. A read gives so many octets at most, and that one fails.
    pub(crate) fn failing(pieces: &'a [&'a [u8]], most: usize, fault: Option<Fault>) -> Self {
        Pieces {
            pieces,
            whole: 0,
            taken: 0,
            most,
            reads: 0,
            fault,
        }
    }

    /// These, and the same pieces once more, of which nothing is read yet.
    pub(crate) fn twice(self) -> Twice<Self, Self> {
        Twice {
            first: self,
            again: Pieces::new(self.pieces),
        }
    }

    // Reads on in the pieces.
    fn read_on(&mut self, buf: &mut [u8]) -> io::Result<usize>
        ensures { IfOk result (λ count. count ≤ length buf.old) }
    {
        let pieces = self.pieces;
        for place in self.whole..pieces.len() {
            let piece = pieces[place];
            self.whole = place;
            if self.taken < piece.len() {
                let mut rest = &piece[self.taken..];
                let count = rest.read(buf)?;
                self.taken = self.taken.saturating_add(count);
                return Ok(count);
            }
            self.taken = 0;
        }
        self.whole = pieces.len();
        Ok(0)
    }
}

impl<'a> Read for Pieces<'a> {
    fn read(&mut self, buf: &mut [u8]) -> io::Result<usize> {
        self.reads = self.reads.saturating_add(1);
        if let Some(fault) = self.fault {
            if fault.read == self.reads {
                return Err(io::Error::from(fault.kind));
            }
        }
        let room = buf.len().min(self.most);
        self.read_on(&mut buf[..room])
    }
}

/// Fails at each flush, and at each write too unless it takes those.
#[derive(Clone, Copy)]
pub(crate) struct Full {
    pub(crate) takes_writes: bool,
}

impl Write for Full {
    fn write(&mut self, buf: &[u8]) -> io::Result<usize> {
        if self.takes_writes {
            Ok(buf.len())
        } else {
            Err(io::Error::from(ErrorKind::StorageFull))
        }
    }

    fn flush(&mut self) -> io::Result<()> {
        Err(io::Error::from(ErrorKind::StorageFull))
    }
}
