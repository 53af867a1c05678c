//! Which files are recorded to.

use std::fs::Metadata;
use std::io::ErrorKind;
use std::os::unix::fs::{FileTypeExt, MetadataExt};
use std::rt::Files;
use std::{fs, io};
use thiserror::Error;

/// What takes everything, and keeps nothing.
const NULL: &str = "/dev/null";

/// What is never recorded to.
#[derive(Clone, Copy, Debug, Error)]
pub enum Unrecordable {
    /// A directory.
    #[error("it is a directory")]
    Directory,
    /// A pipe, which nobody may read.
    #[error("it is a pipe")]
    Pipe,
    /// A socket.
    #[error("it is a socket")]
    Socket,
    /// A device, but for the one that keeps nothing.
    #[error("it is a device")]
    Device,
}

/// What the file of that name is, if it is one that is never recorded to. It isn't opened for that: to open a pipe may wait
/// for ever. One that isn't there can be made.
pub(crate) fn refused_kind_at<R: Files>(rt: &R, name: &str) -> io::Result<Option<Unrecordable>> {
    match fs::metadata(rt, name) {
        Ok(found) => Ok(refused_kind(rt, &found)),
        Err(error) if error.kind() == ErrorKind::NotFound => Ok(None),
        Err(error) => Err(error),
    }
}

/// What that is of a file, if it is one that is never recorded to.
pub(crate) fn refused_kind<R: Files>(rt: &R, found: &Metadata) -> Option<Unrecordable> {
    let kind = found.file_type();
    if kind.is_file() || is_null(rt, found) {
        return None;
    }
    if kind.is_dir() {
        return Some(Unrecordable::Directory);
    }
    if kind.is_fifo() {
        return Some(Unrecordable::Pipe);
    }
    if kind.is_socket() {
        return Some(Unrecordable::Socket);
    }
    Some(Unrecordable::Device)
}

/// Whether that is of the device that keeps nothing, by whatever name: it has the number that this one has.
fn is_null<R: Files>(rt: &R, found: &Metadata) -> bool {
    if !found.file_type().is_char_device() {
        return false;
    }
    match fs::metadata(rt, NULL) {
        Ok(null) => null.file_type().is_char_device() && null.rdev() == found.rdev(),
        Err(_) => false,
    }
}
