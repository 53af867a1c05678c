//! A cache that is handed what happens, also behind a refusal.

use crate::caches::{empty, step};
use crate::refusals_seen::{Next, Seen};
use crate::trouble::Trouble;
use hc_core::Core;
use hc_fields::Octets;
use hc_service::{Happening, StepFault};
use std::alloc::{AllocError, Global};

/// A client's request.
const REQUEST: &[u8] = b"GET /a HTTP/1.1\r\nhost: h\r\n\r\n";

/// What the origin answers first.
const RESPONSE: &[u8] =
    b"HTTP/1.1 200 \r\ncache-control: max-age=10\r\netag: \"v1\"\r\ncontent-length: 5\r\n\r\nhello";

/// What it answers where that still holds.
const NOT_MODIFIED: &[u8] = b"HTTP/1.1 304 \r\ncache-control: max-age=100\r\netag: \"v1\"\r\n\r\n";

/// What happens at a moment, on the one connection of a client.
#[derive(Clone, Copy)]
enum Deed {
    /// The client connects.
    Opens,
    /// It asks.
    Asks,
    /// The origin answers the forward of that number.
    Answers(u64, &'static [u8]),
    /// The client says no more.
    Ends,
}

/// A response that is stored, validated by a 304, and then served.
const DEEDS: [(u64, Deed); 7] = [
    (1_000, Deed::Opens),
    (1_000, Deed::Asks),
    (1_000, Deed::Answers(1, RESPONSE)),
    (1_020, Deed::Asks),
    (1_020, Deed::Answers(2, NOT_MODIFIED)),
    (1_050, Deed::Asks),
    (1_050, Deed::Ends),
];

/// Hands a new cache all that happens.
pub fn seen(alloc: Global) -> Result<Seen, Trouble> {
    let mut core = empty(alloc, 2, 100_000)?;
    Ok(seen_of(alloc, &mut core)?)
}

fn seen_of(alloc: Global, core: &mut Core) -> Result<Seen, AllocError> {
    let mut seen = Seen::Answered;
    for (moment, deed) in DEEDS {
        let of = happening(alloc, deed)?;
        seen = seen.then(next_of(core, moment, of));
    }
    Ok(seen)
}

// What happens by a deed.
fn happening(alloc: Global, deed: Deed) -> Result<Happening, AllocError> {
    match deed {
        Deed::Opens => Ok(Happening::ClientOpened(1)),
        Deed::Asks => Ok(Happening::ClientBytes(1, Octets::from_slice(alloc, REQUEST)?)),
        Deed::Answers(forward, text) => {
            Ok(Happening::OriginBytes(forward, Octets::from_slice(alloc, text)?))
        }
        Deed::Ends => Ok(Happening::ClientEnd(1)),
    }
}

fn next_of(core: &mut Core, moment: u64, of: Happening) -> Next {
    match step(core, moment, of) {
        Ok(_) => Next::Answered,
        Err(StepFault::Memory) => Next::Memory,
        Err(StepFault::Failed) => Next::Failed,
        Err(_) => Next::Other,
    }
}
