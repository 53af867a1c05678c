//! What a cache is asked, what the origin answers, and what clients have to get.

use crate::trouble::Trouble;
use hc_fields::Octets;
use hc_service::Happening;
use std::alloc::{AllocError, Global};

/// Which replies are measured.
#[derive(Clone, Copy)]
pub enum Way {
    /// Hits.
    Hits,
    /// Those by stored responses that are stale, each once a 304 has validated it.
    Validations,
    /// Those that wait for the forward of another request: each target is asked for on all connections at once.
    Collapsed,
}

/// What is measured, and how large the cache is.
#[derive(Clone, Copy)]
pub struct Load {
    pub way: Way,
    /// How many octets each body has.
    pub body: usize,
    /// How many targets are stored.
    pub keys: u64,
    /// How many connections are open.
    pub connections: u64,
    /// How many exchanges are timed together, or how many targets that aren't stored.
    pub exchanges: u64,
}

impl Way {
    /// How the output calls such replies.
    pub fn word(self) -> &'static str {
        match self {
            Way::Hits => "hits",
            Way::Validations => "validations",
            Way::Collapsed => "collapsed",
        }
    }

    // The fields of what the origin answers: it is fresh for ten minutes, or stale at once with a tag.
    fn answered(self) -> &'static str {
        match self {
            Way::Validations => {
                "date: Thu, 01 Jan 1970 00:16:40 GMT\r\ncache-control: max-age=0\r\netag: \"a\"\r\n"
            }
            _ => "date: Thu, 01 Jan 1970 00:16:40 GMT\r\ncache-control: max-age=600\r\n",
        }
    }

    // The fields of such a reply before its Content-Length.
    fn replied(self) -> &'static str {
        match self {
            Way::Hits => {
                "date: Thu, 01 Jan 1970 00:16:40 GMT\r\ncache-control: max-age=600\r\ncontent-type: text/plain\r\nage: 0\r\ncache-status: hcache;hit;ttl=600\r\n"
            }
            Way::Validations => {
                "content-type: text/plain\r\ndate: Thu, 01 Jan 1970 00:16:40 GMT\r\ncache-control: max-age=0\r\netag: \"a\"\r\nage: 0\r\ncache-status: hcache;fwd=stale;fwd-status=304\r\n"
            }
            Way::Collapsed => {
                "date: Thu, 01 Jan 1970 00:16:40 GMT\r\ncache-control: max-age=600\r\ncontent-type: text/plain\r\nage: 0\r\ncache-status: hcache;fwd=uri-miss;collapsed\r\n"
            }
        }
    }
}

impl Load {
    /// How many replies have to be of that way.
    pub fn replies(self) -> usize {
        match self.way {
            Way::Collapsed => {
                let waiting = self.connections.saturating_sub(1);
                self.exchanges.saturating_mul(waiting) as usize
            }
            _ => self.exchanges as usize,
        }
    }

    /// The octets before the body of each such reply.
    pub fn reply_head(self, alloc: Global) -> Result<Octets, AllocError> {
        let (fields, size) = (self.way.replied(), self.body);
        let head = format!(in alloc; "HTTP/1.1 200 \r\n{fields}content-length: {size}\r\n\r\n")?;
        Ok(Octets::from_vec(head.into_bytes()))
    }

    // The octets of a response that the cache stores.
    fn response(self, alloc: Global) -> Result<Octets, AllocError> {
        let (fields, size) = (self.way.answered(), self.body);
        let body = "x".repeat(alloc, size)?;
        let text = format!(in alloc;
            "HTTP/1.1 200 OK\r\n{fields}content-type: text/plain\r\ncontent-length: {size}\r\n\r\n{body}"
        )?;
        Ok(Octets::from_vec(text.into_bytes()))
    }

    // The octets of a 304, by which such a response still holds.
    fn not_modified(self, alloc: Global) -> Result<Octets, AllocError> {
        let fields = self.way.answered();
        let head = format!(in alloc; "HTTP/1.1 304 Not Modified\r\n{fields}\r\n")?;
        Ok(Octets::from_vec(head.into_bytes()))
    }
}

/// Asks for the target of that number.
pub fn ask(alloc: Global, connection: u64, target: u64) -> Result<Happening, AllocError> {
    let text = format!(in alloc; "GET /{target} HTTP/1.1\r\nhost: example.org\r\n\r\n")?;
    let request = Octets::from_vec(text.into_bytes());
    Ok(Happening::ClientBytes(connection, request))
}

/// What fills a cache: the connections open, and each target is asked for and answered.
pub fn filling(alloc: Global, load: Load) -> Result<Vec<Happening>, Trouble> {
    let mut happenings = Vec::new(alloc);
    for connection in 0..load.connections {
        happenings.push(Happening::ClientOpened(connection))?;
    }
    for number in 0..load.keys {
        happenings.push(ask(alloc, 0, number)?)?;
        happenings.push(answer(number, load.response(alloc)?))?;
    }
    Ok(happenings)
}

/// The exchanges from that number on. Before it each number was that of a forward.
pub fn exchanges(alloc: Global, load: Load, first: u64) -> Result<Vec<Happening>, Trouble> {
    let mut happenings = Vec::new(alloc);
    for number in first..first.saturating_add(load.exchanges) {
        push_exchange(alloc, &mut happenings, load, number)?;
    }
    Ok(happenings)
}

// Puts an exchange behind the others.
fn push_exchange(
    alloc: Global,
    happenings: &mut Vec<Happening>,
    load: Load,
    number: u64,
) -> Result<(), Trouble> {
    match load.way {
        Way::Hits => happenings.push(ask_in_turn(alloc, load, number)?)?,
        Way::Validations => {
            happenings.push(ask_in_turn(alloc, load, number)?)?;
            happenings.push(answer(number, load.not_modified(alloc)?))?;
        }
        Way::Collapsed => {
            for connection in 0..load.connections {
                happenings.push(ask(alloc, connection, number)?)?;
            }
            happenings.push(answer(number, load.response(alloc)?))?;
        }
    }
    Ok(())
}

// Asks for one of the targets that are stored, in turn, on the connections in turn.
fn ask_in_turn(alloc: Global, load: Load, number: u64) -> Result<Happening, AllocError> {
    ask(
        alloc,
        number % load.connections.max(1),
        number % load.keys.max(1),
    )
}

// The origin answers the forward behind so many.
fn answer(before: u64, octets: Octets) -> Happening {
    Happening::OriginBytes(before.saturating_add(1), octets)
}
