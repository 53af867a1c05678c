//! How many replies a second a cache gives: hits, such as were validated, and such as waited for the forward of another
//! request.

use crate::caches::{empty, replies_to_all};
use crate::loads::{Load, Way, exchanges, filling};
use crate::rate::Rate;
use crate::trouble::Trouble;
use hc_core::Core;
use std::alloc::Global;
use std::io::Write;
use std::rt::Clock;
use std::time::Instant;

/// How often replies are timed. The fastest time counts.
const ROUNDS: u64 = 9;

/// How many targets the cache stores at most.
const KEYS: usize = 1_024;

/// How many octets it stores at most.
const BYTES: u64 = 1 << 30;

/// The sizes that are measured: octets of a body, and keys.
const SIZES: [(usize, u64); 4] = [(1_024, 10), (1_024, 1_000), (65_536, 10), (65_536, 1_000)];

/// How many connections are open, and how many exchanges are timed together.
const IN_TURN: [(u64, u64); 2] = [(1, 20_000), (10_000, 20_000)];

/// The same where requests wait: how many ask at once, and for how many targets.
const AT_ONCE: [(u64, u64); 1] = [(65, 300)];

/// Says how many of a few replies are of each way.
pub fn count_hits<W: Write>(alloc: Global, output: &mut W) -> Result<(), Trouble> {
    count(alloc, Way::Hits, 2, 6, output)?;
    count(alloc, Way::Validations, 2, 6, output)?;
    count(alloc, Way::Collapsed, 65, 2, output)
}

fn count<W: Write>(
    alloc: Global,
    way: Way,
    connections: u64,
    exchanges: u64,
    output: &mut W,
) -> Result<(), Trouble> {
    let load = Load {
        way,
        body: 1_024,
        keys: 3,
        connections,
        exchanges,
    };
    let (word, count, all) = (way.word(), count_of(alloc, load)?, load.replies());
    writeln!(output, "{word}={count} of={all}")?;
    Ok(output.flush()?)
}

fn count_of(alloc: Global, load: Load) -> Result<usize, Trouble> {
    let mut core = empty(alloc, KEYS, BYTES)?;
    count_replies(alloc, &mut core, load)
}

// Fills the cache, and returns how many replies are of that way then.
fn count_replies(alloc: Global, core: &mut Core, load: Load) -> Result<usize, Trouble> {
    let head = load.reply_head(alloc)?;
    replies_to_all(core, filling(alloc, load)?, head.as_slice(), load.body)?;
    let happenings = exchanges(alloc, load, load.keys)?;
    replies_to_all(core, happenings, head.as_slice(), load.body)
}

/// Says how many hits a second are given, for each size, then how many validated replies, and how many to requests that
/// wait for the forward of another one.
pub fn hits<C: Clock, W: Write>(alloc: Global, clock: &C, output: &mut W) -> Result<(), Trouble> {
    measure(alloc, clock, Way::Hits, &IN_TURN, output)?;
    measure(alloc, clock, Way::Validations, &IN_TURN, output)?;
    measure(alloc, clock, Way::Collapsed, &AT_ONCE, output)
}

// The same of one way.
fn measure<C: Clock, W: Write>(
    alloc: Global,
    clock: &C,
    way: Way,
    counts: &[(u64, u64)],
    output: &mut W,
) -> Result<(), Trouble> {
    for (body, keys) in &SIZES {
        let load = Load {
            way,
            body: *body,
            keys: *keys,
            connections: 0,
            exchanges: 0,
        };
        measure_each(alloc, clock, load, counts, output)?;
    }
    Ok(())
}

// The same of one size.
fn measure_each<C: Clock, W: Write>(
    alloc: Global,
    clock: &C,
    mut load: Load,
    counts: &[(u64, u64)],
    output: &mut W,
) -> Result<(), Trouble> {
    for (connections, exchanges) in counts {
        load.connections = *connections;
        load.exchanges = *exchanges;
        let rate = rate_of(alloc, clock, load)?.count_per_second();
        said(load, rate, output)?;
    }
    Ok(())
}

fn said<W: Write>(load: Load, rate: u128, output: &mut W) -> Result<(), Trouble> {
    let (word, body, keys) = (load.way.word(), load.body, load.keys);
    let connections = load.connections;
    writeln!(
        output,
        "body={body} keys={keys} connections={connections} {word}/s={rate}"
    )?;
    Ok(output.flush()?)
}

fn rate_of<C: Clock>(alloc: Global, clock: &C, load: Load) -> Result<Rate, Trouble> {
    let mut core = empty(alloc, KEYS, BYTES)?;
    fastest(alloc, clock, &mut core, load)
}

// Fills the cache, and returns how fast replies of that way are then at best.
fn fastest<C: Clock>(
    alloc: Global,
    clock: &C,
    core: &mut Core,
    load: Load,
) -> Result<Rate, Trouble> {
    let head = load.reply_head(alloc)?;
    replies_to_all(core, filling(alloc, load)?, head.as_slice(), load.body)?;
    fastest_round(alloc, clock, core, load, head.as_slice())
}

fn fastest_round<C: Clock>(
    alloc: Global,
    clock: &C,
    core: &mut Core,
    load: Load,
    head: &[u8],
) -> Result<Rate, Trouble> {
    let mut rate = timed(alloc, clock, core, load, head, 0)?;
    for round in 1..ROUNDS {
        rate = rate.faster(timed(alloc, clock, core, load, head, round)?);
    }
    Ok(rate)
}

// How fast the exchanges of a round are, each reply of which has to be of that way.
fn timed<C: Clock>(
    alloc: Global,
    clock: &C,
    core: &mut Core,
    load: Load,
    head: &[u8],
    round: u64,
) -> Result<Rate, Trouble> {
    let first = load
        .keys
        .saturating_add(round.saturating_mul(load.exchanges));
    let happenings = exchanges(alloc, load, first)?;
    let start = Instant::now(clock)?;
    let replies = replies_to_all(core, happenings, head, load.body)?;
    let time = start.elapsed(clock)?;
    if replies != load.replies() {
        return Err(Trouble::NotServed);
    }
    Ok(Rate::new(replies, 0, time))
}
