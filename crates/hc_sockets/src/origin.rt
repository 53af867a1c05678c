//! The origin behind its address.

use crate::system_link::{Socket, SystemLink};
use hc_links::{LinkFailure, Origins};
use std::net::{Net, OpenStream, TcpStream};

/// An origin that is connected to for each forward.
#[derive(Drop)]
pub struct Origin<'a, R: Net> {
    /// The system's sockets.
    pub net: &'a R,
    /// Its host and port.
    pub address: &'a str,
}

impl<'a, R: Net> Origins for Origin<'a, R> {
    type Link = SystemLink<Socket<R::Stream>>;

    fn connect(&self, _forward: u64) -> Result<SystemLink<Socket<R::Stream>>, LinkFailure> {
        match TcpStream::connect(self.net, self.address) {
            Ok(stream) => {
                // A socket that refuses it works all the same.
                let _ = stream.set_nodelay(true);
                Ok(SystemLink::new(Socket { stream }))
            }
            Err(_) => Err(LinkFailure),
        }
    }
}
