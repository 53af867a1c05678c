//! The addresses behind a host and a port.

use std::io;
use std::io::ErrorKind;
use std::net::{Net, SocketAddr, ToSocketAddrs};

/// The addresses of that host and port, each once. Where there is none, that is an error.
pub(crate) fn addresses_of<R: Net + AllocGlobal>(
    rt: &R,
    address: &str,
) -> io::Result<Vec<SocketAddr>> {
    let mut addresses = Vec::new(rt.alloc());
    put_addresses(rt, address, &mut addresses)?;
    Ok(addresses)
}

/// Puts the addresses there, each once.
pub(crate) fn put_addresses<R: Net + AllocGlobal>(
    rt: &R,
    address: &str,
    addresses: &mut Vec<SocketAddr>,
) -> io::Result<()> {
    'addresses: for found in address.to_socket_addrs(rt)? {
        if !addresses.contains(&found) {
            addresses.push(found)?;
        }
    }
    if addresses.is_empty() {
        return Err(io::Error::from(ErrorKind::AddrNotAvailable));
    }
    Ok(())
}
