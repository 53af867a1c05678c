//! Where an access log goes, and what it asks of the clients of a crowd.

ghost use Rattle.std.specs.Prelude.{None};

use hc_access::{Target, Visited};
use hc_crowd::{Crowd, World};
use hc_sockets::Wire;
use std::alloc::AllocError;
use std::fs::{Metadata, OpenFile, OpenOptions};
use std::io;
use std::io::Write;
use std::os::unix::fs::MetadataExt;
use std::rt::Files;

/// A link whose other side may have an address.
pub trait Addressed {
    /// Puts the address of the other side at the end; nothing where it isn't known.
    fn push_address(&self, out: &mut Vec<u8>) -> Result<(), AllocError>;
}

impl Addressed for Wire {
    fn push_address(&self, out: &mut Vec<u8>) -> Result<(), AllocError> {
        let Some(peer) = self.peer() else {
            return Ok(());
        };
        let address = peer.ip();
        write!(out, "{address}").map_err(|_| AllocError)
    }
}

/// The clients of a crowd, as an access log asks for them.
#[derive(Drop)]
pub(crate) struct Clients<'a, W: World> {
    pub(crate) crowd: &'a Crowd<W>,
}

impl<'a, W: World> Visited for Clients<'a, W>
where
    W::Stream: Addressed,
{
    fn push_address(&self, client: u64, out: &mut Vec<u8>) -> Result<(), AllocError> {
        match self.crowd.peers().clients.get(client) {
            Some(client) => client.stream().push_address(out),
            None => Ok(()),
        }
    }

    fn owed(&self, client: u64) -> Option<u64> {
        let client = self.crowd.peers().clients.get(client)?;
        Some(client.owed() as u64)
    }

    fn tick(&self) -> u64 {
        self.crowd.tick()
    }
}

/// Where an access log goes.
pub enum LogTo<'a, R: Files, O: Write> {
    /// Nowhere: there is none.
    Nowhere,
    /// To the program's standard output.
    Standard(O),
    /// To a file.
    File(LogFile<'a, R>),
}

impl<'a, R: Files, O: Write + Drop> Drop for LogTo<'a, R, O> {
    fn drop(self) {
        match self {
            LogTo::Nowhere => {}
            LogTo::Standard(output) => drop(output),
            LogTo::File(file) => drop(file),
        }
    }
}

/// A file that is appended to, as long as its name leads to it.
pub struct LogFile<'a, R: Files> {
    rt: &'a R,
    name: &'a str,
    file: R::File,
    /// Where it lies.
    place: Place,
}

impl<'a, R: Files> Drop for LogFile<'a, R> {
    fn drop(self) {
        let LogFile {
            rt: _,
            name: _,
            file,
            place: _,
        } = self;
        drop(file);
    }
}

/// Where a file lies: its device, and its number there.
#[derive(Clone, Copy, PartialEq, Eq)]
struct Place {
    device: u64,
    number: u64,
}

impl<'a, R: Files> LogFile<'a, R> {
    /// The file of that name, which is made where there is none.
    pub fn open(rt: &'a R, name: &'a str) -> io::Result<Self> {
        let file = appended(rt, name)?;
        let place = place_of(&file.metadata()?);
        Ok(LogFile {
            rt,
            name,
            file,
            place,
        })
    }

    /// Goes on in the file to which the name leads, if it is another one. Where that can't be opened, it goes on in the old one.
    fn follow(&mut self) -> bool {
        if let Ok(found) = self.rt.metadata(self.name) {
            if place_of(&found) == self.place {
                return false;
            }
        }
        match LogFile::open(self.rt, self.name) {
            Ok(other) => {
                *self = other;
                true
            }
            Err(_) => false,
        }
    }
}

/// The file of that name, opened to append.
fn appended<R: Files>(rt: &R, name: &str) -> io::Result<R::File> {
    OpenOptions::new().append(true).create(true).open(rt, name)
}

fn place_of(found: &Metadata) -> Place {
    Place {
        device: found.dev(),
        number: found.ino(),
    }
}

impl<'a, R: Files, O: Write> Write for LogTo<'a, R, O> {
    // No clause can know what a file got.
    ghost contents = { λ _. None };

    fn write(&mut self, octets: &[u8]) -> io::Result<usize> {
        match self {
            LogTo::Nowhere => Ok(octets.len()),
            LogTo::Standard(output) => output.write(octets),
            LogTo::File(file) => file.file.write(octets),
        }
    }

    fn flush(&mut self) -> io::Result<()> {
        Ok(())
    }
}

impl<'a, R: Files, O: Write> Target for LogTo<'a, R, O> {
    fn follow(&mut self) -> bool {
        match self {
            LogTo::Nowhere => false,
            LogTo::Standard(_) => false,
            LogTo::File(file) => file.follow(),
        }
    }
}
