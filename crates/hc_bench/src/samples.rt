//! Small samples of what is measured, by a clock that always goes alike.

use crate::counts::count;
use crate::hits::count_hits;
use crate::measures::{Pair, compare, repeated};
use crate::messages::long_request;
use crate::refusals::refusals;
use crate::stores::store_sized;
use crate::trouble::Trouble;
use hc_framing::Kind;
use hc_head::RequestHead;
use std::alloc::Global;
use std::cell::Cell;
use std::io;
use std::io::Write;
use std::rt::Clock;
use std::time::Duration;

/// A clock that goes on by a microsecond whenever it is read.
#[derive(Drop)]
struct Ticks {
    microseconds: Cell<u64>,
}

impl Clock for Ticks {
    fn monotonic(&self) -> io::Result<Duration> {
        let now = self.microseconds.get();
        self.microseconds.set(now.saturating_add(1));
        Ok(Duration::from_micros(now))
    }

    fn since_1970(&self) -> io::Result<Duration> {
        self.monotonic()
    }
}

/// Counts calls, then measures short messages and a small store, each in a microsecond, so that what is said
/// is always the same, counts replies, and says what is returned where no memory is refused.
pub fn sample<W: Write>(alloc: Global, output: &mut W) -> Result<(), Trouble> {
    let clock = Ticks {
        microseconds: Cell::new(0),
    };
    count(alloc, output)?;
    heads(alloc, &clock, output)?;
    store_sized(alloc, &clock, 3, 2, 20, output)?;
    count_hits(alloc, output)?;
    refusals(alloc, output)
}

// Two requests of 73 octets, and one of 146.
fn heads<W: Write>(alloc: Global, clock: &Ticks, output: &mut W) -> Result<(), Trouble> {
    let short = repeated(alloc, long_request(alloc, 1, 1)?, 2)?;
    let long = long_request(alloc, 1, 74)?;
    let pair = Pair {
        name: "head",
        kind: Kind::Request,
        short: short.as_bytes(),
        long: long.as_bytes(),
    };
    compare::<RequestHead, _, _>(alloc, clock, &pair, 7, output)
}
