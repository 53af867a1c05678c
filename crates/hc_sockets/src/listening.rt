//! Clients who connect to a socket.

use crate::system_link::{Socket, SystemLink};
use hc_links::{Clients, Link, LinkFailure};
use std::alloc::Global;
use std::io;
use std::io::{ErrorKind, Read, Write};
use std::net::{Net, OpenListener, OpenStream};
use std::time::Duration;

/// How many clients in a row may give up before they are accepted.
const TRIES: u32 = 1_000;

/// How many seconds a client whose connection has ended may be silent before its socket is closed.
const SILENCE: u64 = 1;

/// The most octets that are read at once of such a client.
const PIECE: usize = 8_192;

/// How often such a client is read at most.
const PIECES: u32 = 16;

/// Clients who connect to a socket. One whose connection was served without a fault is read on, in part, before its
/// socket is closed.
#[derive(Drop)]
pub struct Listening<N: Net> {
    alloc: Global,
    listener: N::Listener,
    /// Why no client came at last, if none did.
    reason: Option<io::Error>,
}

impl<N: Net> Listening<N> {
    /// Those who connect to that socket.
    pub fn new(alloc: Global, listener: N::Listener) -> Self {
        Listening {
            alloc,
            listener,
            reason: None,
        }
    }

    /// Why no client came at last, if none did.
    pub fn reason(&self) -> Option<io::Error> {
        self.reason
    }
}

impl<N: Net> Clients for Listening<N> {
    type Link = SystemLink<Socket<N::Stream>>;

    // No clause can know who connects.
    ghost came = { λ _ _ _. Unit {0} };

    ghost left = { λ _ _. Unit {0} };

    fn next(&mut self) -> Result<SystemLink<Socket<N::Stream>>, LinkFailure> {
        match accepted(&self.listener) {
            Ok(stream) => {
                // A socket that refuses it works all the same.
                let _ = stream.set_nodelay(true);
                Ok(SystemLink::new(Socket { stream }))
            }
            Err(reason) => {
                self.reason = Some(reason);
                Err(LinkFailure)
            }
        }
    }

    fn done(&mut self, link: SystemLink<Socket<N::Stream>>) {
        // Nobody waits behind a link that has failed.
        if link.failures() == 0 {
            linger(self.alloc, link.into_device());
        }
    }
}

/// The next client. One that gives up before it is accepted is passed over.
fn accepted<L: OpenListener>(listener: &L) -> io::Result<L::Stream> {
    for _ in 0..TRIES {
        match listener.accept() {
            Ok((stream, _)) => return Ok(stream),
            Err(error) if error.kind() == ErrorKind::ConnectionAborted => {}
            Err(error) => return Err(error),
        }
    }
    Err(io::Error::from(ErrorKind::ConnectionAborted))
}

/// Reads on what the client of a connection that has ended still sends, and drops it, until the client ends too, is
/// silent for too long, or has sent too much. Then the socket is closed.
fn linger<S: Read + Write + OpenStream + Drop>(alloc: Global, socket: Socket<S>) {
    let Socket { mut stream } = socket;
    if stream
        .set_read_timeout(Some(Duration::from_secs(SILENCE)))
        .is_err()
    {
        return;
    }
    let Ok(mut piece) = Vec::from_elem(alloc, 0, PIECE) else {
        return;
    };
    for _ in 0..PIECES {
        match stream.read(piece.as_mut_slice()) {
            Ok(0) => return,
            Ok(_) => {}
            Err(error) if error.kind() == ErrorKind::Interrupted => {}
            Err(_) => return,
        }
    }
}
