//! A file at which a write fails.

use hc_serving::Claim;
use std::fs::{Metadata, OpenFile, Permissions};
use std::io;
use std::io::{ErrorKind, Read, Seek, SeekFrom, Write};

/// A file of the system, at which a write fails.
#[derive(Drop)]
pub(crate) struct Failing<F: Read + Write + Seek + OpenFile> {
    pub(crate) file: F,
    /// The how-manieth write fails, if one does.
    pub(crate) fault: Option<u64>,
    /// How many writes there were.
    pub(crate) writes: u64,
}

impl<F: Read + Write + Seek + OpenFile> Read for Failing<F> {
    fn read(&mut self, buf: &mut [u8]) -> io::Result<usize> {
        self.file.read(buf)
    }
}

impl<F: Read + Write + Seek + OpenFile> Write for Failing<F> {
    fn write(&mut self, buf: &[u8]) -> io::Result<usize> {
        self.writes = self.writes.saturating_add(1);
        if self.fault == Some(self.writes) {
            return Err(io::Error::from(ErrorKind::StorageFull));
        }
        self.file.write(buf)
    }

    fn flush(&mut self) -> io::Result<()> {
        self.file.flush()
    }
}

impl<F: Read + Write + Seek + OpenFile> Seek for Failing<F> {
    fn seek(&mut self, to: SeekFrom) -> io::Result<u64> {
        self.file.seek(to)
    }
}

impl<F: Read + Write + Seek + OpenFile> OpenFile for Failing<F> {
    fn metadata(&self) -> io::Result<Metadata> {
        self.file.metadata()
    }

    fn set_len(&self, size: u64) -> io::Result<()> {
        self.file.set_len(size)
    }

    fn sync_all(&self) -> io::Result<()> {
        self.file.sync_all()
    }

    fn sync_data(&self) -> io::Result<()> {
        self.file.sync_data()
    }

    fn set_permissions(&self, permissions: Permissions) -> io::Result<()> {
        self.file.set_permissions(permissions)
    }
}

impl<F: Read + Write + Seek + OpenFile + Claim> Claim for Failing<F> {
    fn claim(&self) -> io::Result<()> {
        self.file.claim()
    }
}
