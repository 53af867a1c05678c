//! Files that one program alone records to.

use std::fs::{File, TryLockError};
use std::io;

/// A file that can be claimed, for as long as it stays open.
pub trait Claim {
    /// Claims the file. Where it is claimed by another open of it, also one of another program, that is an error, at once.
    fn claim(&self) -> io::Result<()>;
}

impl Claim for File {
    fn claim(&self) -> io::Result<()> {
        match self.try_lock() {
            Ok(()) => Ok(()),
            Err(TryLockError::WouldBlock) => Err(io::Error::other("another program records to it")),
            Err(TryLockError::Error(error)) => Err(error),
        }
    }
}
