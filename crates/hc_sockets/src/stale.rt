//! Sockets of the system's own that a program has left behind.

use mio::net::UnixStream;
use std::fs::{remove_file, symlink_metadata};
use std::io::ErrorKind;
use std::net::Net;
use std::os::unix::fs::FileTypeExt;
use std::rt::Files;

/// Removes the socket at that path, if there is one to which nobody listens. Anything else there stays.
pub(crate) fn remove_stale<R: Net + Files>(rt: &R, path: &str) {
    let Ok(found) = symlink_metadata(rt, path) else {
        return;
    };
    if !found.file_type().is_socket() {
        return;
    }
    match UnixStream::connect(rt, path) {
        Err(error) if error.kind() == ErrorKind::ConnectionRefused => {
            // What can't be removed stays, and is in the way of who binds to that path.
            let _ = remove_file(rt, path);
        }
        Err(_) => {}
        Ok(_) => {}
    }
}
