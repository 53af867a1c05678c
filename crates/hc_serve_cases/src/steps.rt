//! What happens at a cache, by words.

use hc_cases::Unanswered;
use hc_fields::Octets;
use hc_service::Happening;
use std::alloc::{AllocError, Global};

/// What a client asks.
const REQUEST: &[u8] = b"GET /a HTTP/1.1\r\nhost: h\r\n\r\n";

/// The same by a method that isn't safe.
const POST: &[u8] = b"POST /a HTTP/1.1\r\nhost: h\r\ncontent-length: 0\r\n\r\n";

/// A request without Host.
const WITHOUT_HOST: &[u8] = b"GET /a HTTP/1.1\r\n\r\n";

/// A response whose length is wrong.
const GARBLED: &[u8] = b"HTTP/1.1 200 \r\ncontent-length: 5, 6\r\n\r\n";

/// What happens by that word at the connection, or the forward, of that number.
pub(crate) fn happening(alloc: Global, word: &str, number: u64) -> Result<Happening, Unanswered> {
    match word {
        "open" => Ok(Happening::ClientOpened(number)),
        "end" => Ok(Happening::ClientEnd(number)),
        "cut" => Ok(Happening::OriginEnd(number)),
        "lose" => Ok(Happening::OriginFailed(number)),
        _ => sending(alloc, word, number),
    }
}

/// What is sent by that word.
fn sending(alloc: Global, word: &str, number: u64) -> Result<Happening, Unanswered> {
    match word {
        "get" => Ok(asking(alloc, number, REQUEST)?),
        "post" => Ok(asking(alloc, number, POST)?),
        "hostless" => Ok(asking(alloc, number, WITHOUT_HOST)?),
        "garble" => {
            let octets = Octets::from_slice(alloc, GARBLED)?;
            Ok(Happening::OriginBytes(number, octets))
        }
        _ => Err(Unanswered::Unknown),
    }
}

/// A client sends the octets.
fn asking(alloc: Global, connection: u64, octets: &[u8]) -> Result<Happening, AllocError> {
    let octets = Octets::from_slice(alloc, octets)?;
    Ok(Happening::ClientBytes(connection, octets))
}

/// The connection at which it happens, if it does at one.
pub(crate) fn connection_of(of: &Happening) -> Option<u64> {
    match of {
        Happening::ClientOpened(connection) => Some(*connection),
        Happening::ClientBytes(connection, _) => Some(*connection),
        Happening::ClientEnd(connection) => Some(*connection),
        _ => None,
    }
}
