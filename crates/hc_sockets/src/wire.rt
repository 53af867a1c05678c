//! A socket that is never waited for.

use crate::channel::Channel;
use hc_flow::{Arrival, Presence, Stream, Uptake};
use mio::{Registry, Token};
use std::io::{ErrorKind, IoSlice};
use std::net::SocketAddr;

/// A socket that is never waited for. It is told of no more once it is dropped.
#[derive(Drop)]
pub struct Wire {
    stream: Channel,
    /// The address of the other side, if it connected to us over TCP.
    peer: Option<SocketAddr>,
}

impl Wire {
    /// That of a stream whose readiness is told, to the side of that address, if it connected to us over TCP.
    pub(crate) fn new(stream: Channel, peer: Option<SocketAddr>) -> Self {
        Wire { stream, peer }
    }

    /// The address of the other side, if it connected to us over TCP.
    pub fn peer(&self) -> Option<SocketAddr> {
        self.peer
    }

    /// What becomes ready at it is told by that token from now on. Returns whether the system does that.
    pub(crate) fn tell_by(&mut self, registry: &Registry, token: Token) -> bool {
        self.stream.reregister(registry, token).is_ok()
    }
}

impl Stream for Wire {
    // No clause can know what the system gave or took.
    ghost has_given = { λ _ _. Unit {0} };

    ghost has_got = { λ _ _. Unit {0} };

    fn read(&mut self, buffer: &mut [u8]) -> Arrival {
        match self.stream.read(buffer) {
            Ok(0) => Arrival::End,
            Ok(count) => Arrival::Octets(count),
            Err(error) if error.kind() == ErrorKind::WouldBlock => Arrival::Later,
            Err(error) if error.kind() == ErrorKind::Interrupted => Arrival::Later,
            Err(_) => Arrival::Failed,
        }
    }

    fn write(&mut self, front: &[u8], rest: &[u8]) -> Uptake {
        let parts = [IoSlice::new(front), IoSlice::new(rest)];
        match self.stream.write_vectored(&parts) {
            Ok(0) => Uptake::Failed,
            Ok(count) => Uptake::Octets(count),
            Err(error) if error.kind() == ErrorKind::WouldBlock => Uptake::Later,
            Err(error) if error.kind() == ErrorKind::Interrupted => Uptake::Later,
            Err(_) => Uptake::Failed,
        }
    }

    fn peek(&self) -> Presence {
        match self.stream.peek() {
            Ok(0) => Presence::Over,
            Ok(_) => Presence::Octets,
            Err(error) if error.kind() == ErrorKind::WouldBlock => Presence::Later,
            Err(error) if error.kind() == ErrorKind::Interrupted => Presence::Later,
            Err(_) => Presence::Over,
        }
    }

    fn end(&mut self) {
        // Where the other side has gone, nobody waits for the end.
        let _ = self.stream.end();
    }
}
