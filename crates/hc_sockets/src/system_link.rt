//! A socket or a file as a link.

ghost use Rattle.std.specs.Prelude.{◌≡◌, ◌+◌, ◌<◌, IsErr};
ghost use Rattle.std.specs.Io.{ReadsAtMost, WritesAtMost};
ghost use Rattle.hc_links.specs.Links.{greatest_count};

use hc_links::{Link, LinkFailure};
use std::io;
use std::io::{ErrorKind, Read, Write};
use std::net::{OpenStream, Shutdown};

/// How often a call that a signal interrupts is made again.
const TRIES: u32 = 1_000;

/// What the system reads and writes.
pub trait Device {
    /// Reads as `std::io::Read` does.
    fn read(&mut self, buffer: &mut [u8]) -> io::Result<usize>
        ensures { ReadsAtMost result buffer.new };

    /// Writes as `std::io::Write` does.
    fn write(&mut self, octets: &[u8]) -> io::Result<usize>
        ensures { WritesAtMost result octets.now };

    /// Ends what is written, where that has an end.
    fn end(&mut self);
}

/// A connected socket.
#[derive(Drop)]
pub struct Socket<S: Read + Write + OpenStream> {
    /// The stream.
    pub stream: S,
}

impl<S: Read + Write + OpenStream> Device for Socket<S> {
    fn read(&mut self, buffer: &mut [u8]) -> io::Result<usize> {
        self.stream.read(buffer)
    }

    fn write(&mut self, octets: &[u8]) -> io::Result<usize> {
        self.stream.write(octets)
    }

    fn end(&mut self) {
        // Where the other side has gone, nobody waits for the end.
        let _ = self.stream.shutdown(Shutdown::Write);
    }
}

/// The file that is recorded to.
#[derive(Drop)]
pub struct Recording<F: Read + Write> {
    /// The file.
    pub file: F,
}

impl<F: Read + Write> Device for Recording<F> {
    fn read(&mut self, buffer: &mut [u8]) -> io::Result<usize> {
        self.file.read(buffer)
    }

    fn write(&mut self, octets: &[u8]) -> io::Result<usize> {
        self.file.write(octets)
    }

    fn end(&mut self) {}
}

/// A socket or a file as a link.
#[derive(Drop)]
pub struct SystemLink<T: Device> {
    device: T,
    /// How often it failed.
    failures: u64,
    /// Why it failed last, if it did.
    reason: Option<io::Error>,
}

impl<T: Device> SystemLink<T> {
    /// One that hasn't failed.
    pub fn new(device: T) -> Self
        ensures { result.failures ≡ 0 }
    {
        SystemLink {
            device,
            failures: 0,
            reason: None,
        }
    }

    /// The socket or the file.
    pub(crate) fn into_device(self) -> T {
        self.device
    }

    /// Why it failed last, if it did.
    pub fn reason(&self) -> Option<io::Error> {
        self.reason
    }

    /// Counts a failure.
    fn fail(&mut self, reason: io::Error) -> Result<usize, LinkFailure>
        requires { self.old.failures < greatest_count }
        ensures fails { IsErr result }
        ensures counted { self.new.failures ≡ 1 + self.old.failures }
    {
        self.failures += 1;
        self.reason = Some(reason);
        Err(LinkFailure)
    }
}

impl<T: Device> Link for SystemLink<T> {
    // No clause can know what the system gave or took.
    ghost has_given = { λ _ _. Unit {0} };

    ghost has_got = { λ _ _. Unit {0} };

    ghost was_read = { λ _ _. Unit {0} };

    ghost has_kept = { λ _ _. Unit {0} };

    ghost count = { λ link. link.failures };

    fn read(&mut self, buffer: &mut [u8]) -> Result<usize, LinkFailure> {
        'tries: for _ in 0..TRIES {
            match self.device.read(buffer) {
                Ok(count) => return Ok(count),
                Err(error) if error.kind() == ErrorKind::Interrupted => {}
                Err(error) => return self.fail(error),
            }
        }
        self.fail(io::Error::from(ErrorKind::Interrupted))
    }

    fn write(&mut self, octets: &[u8]) -> Result<usize, LinkFailure> {
        'tries: for _ in 0..TRIES {
            match self.device.write(octets) {
                Ok(0) => return self.fail(io::Error::from(ErrorKind::WriteZero)),
                Ok(count) => return Ok(count),
                Err(error) if error.kind() == ErrorKind::Interrupted => {}
                Err(error) => return self.fail(error),
            }
        }
        self.fail(io::Error::from(ErrorKind::Interrupted))
    }

    fn end(&mut self) {
        self.device.end();
    }

    fn failures(&self) -> u64 {
        self.failures
    }
}
