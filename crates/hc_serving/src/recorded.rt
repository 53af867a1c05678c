//! Why a recording has ended while serving goes on.

use hc_links::{Buffered, Lapsing, Off, Silence};
use hc_sockets::{Device, SystemLink};
use std::io;
use std::io::ErrorKind;

/// Why a recording has ended while serving goes on.
#[derive(Clone, Copy)]
pub enum RecordEnd {
    /// It couldn't be written on, for this reason.
    Failed(io::Error),
    /// It has as many octets as it may have.
    Full,
}

/// A recording that may end while serving goes on.
pub trait Recorded {
    /// Why it has ended, if it has.
    fn end(&self) -> Option<RecordEnd>;

    /// Why what it is written to failed last, if it did.
    fn reason(&self) -> Option<io::Error>;
}

impl<D: Device> Recorded for Lapsing<Buffered<SystemLink<D>>> {
    fn end(&self) -> Option<RecordEnd> {
        match self.silence()? {
            Silence::Failed => {
                let unknown = io::Error::from(ErrorKind::Other);
                Some(RecordEnd::Failed(self.reason().unwrap_or(unknown)))
            }
            Silence::Full => Some(RecordEnd::Full),
        }
    }

    fn reason(&self) -> Option<io::Error> {
        self.recorder().link().reason()
    }
}

/// Nothing is recorded, and so nothing ends.
impl Recorded for Off {
    fn end(&self) -> Option<RecordEnd> {
        None
    }

    fn reason(&self) -> Option<io::Error> {
        None
    }
}
