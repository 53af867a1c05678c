//! Long messages and short ones, and how fast they are read.
ghost use Rattle.std.specs.Prelude.{◌<◌, IfOk};
ghost use Rattle.hc_bench.specs.Feeding.{IsRateOf};

use crate::feeding::feed_all;
use crate::lines::{cost_line, rate_line};
use crate::messages::{chunked_response, long_request};
use crate::print::printed;
use crate::rate::Rate;
use crate::trouble::Trouble;
use hc_framing::{Kind, MessageHead};
use hc_head::{RequestHead, ResponseHead, Room};
use std::alloc::{AllocError, Global};
use std::io::Write;
use std::rt::Clock;
use std::time::Instant;

/// How often messages are read. The fastest time counts.
const ROUNDS: u32 = 9;

/// Two texts of about as many octets, which are short messages and long ones of a kind.
#[derive(Clone, Copy)]
pub struct Pair<'a> {
    pub name: &'a str,
    pub kind: Kind,
    pub short: &'a [u8],
    pub long: &'a [u8],
}

/// Reads heads and bodies in pieces, and says how fast that was.
pub fn measure<C: Clock, W: Write>(
    alloc: Global,
    clock: &C,
    output: &mut W,
) -> Result<(), Trouble> {
    heads(alloc, clock, output)?;
    bodies(alloc, clock, output)
}

// 16 MiB of heads of 8 KiB and of heads of 64 KiB, octet by octet and whole.
fn heads<C: Clock, W: Write>(alloc: Global, clock: &C, output: &mut W) -> Result<(), Trouble> {
    let short = repeated(alloc, long_request(alloc, 8, 1_008)?, 2_048)?;
    let long = repeated(alloc, long_request(alloc, 64, 1_015)?, 256)?;
    let pair = Pair {
        name: "head",
        kind: Kind::Request,
        short: short.as_bytes(),
        long: long.as_bytes(),
    };
    compare_heads(alloc, clock, &pair, output)
}

fn compare_heads<C: Clock, W: Write>(
    alloc: Global,
    clock: &C,
    pair: &Pair<'_>,
    output: &mut W,
) -> Result<(), Trouble> {
    compare::<RequestHead, _, _>(alloc, clock, pair, 1, output)?;
    compare::<RequestHead, _, _>(alloc, clock, pair, 65_536, output)
}

// Sixteen chunked bodies of 1 MiB and one of 16 MiB.
fn bodies<C: Clock, W: Write>(alloc: Global, clock: &C, output: &mut W) -> Result<(), Trouble> {
    let short = repeated(alloc, chunked_response(alloc, 256, 4_096)?, 16)?;
    let long = chunked_response(alloc, 4_096, 4_096)?;
    let pair = Pair {
        name: "chunked",
        kind: Kind::Response { to_head: false },
        short: short.as_bytes(),
        long: long.as_bytes(),
    };
    compare_bodies(alloc, clock, &pair, output)
}

fn compare_bodies<C: Clock, W: Write>(
    alloc: Global,
    clock: &C,
    pair: &Pair<'_>,
    output: &mut W,
) -> Result<(), Trouble> {
    compare::<ResponseHead, _, _>(alloc, clock, pair, 1, output)?;
    compare::<ResponseHead, _, _>(alloc, clock, pair, 7, output)?;
    compare::<ResponseHead, _, _>(alloc, clock, pair, 8_192, output)
}

/// The text so many times, one behind another.
pub fn repeated(alloc: Global, text: String, times: usize) -> Result<String, AllocError> {
    text.as_str().repeat(alloc, times)
}

/// Reads both texts in pieces of that size, and says how fast that was, and what an octet of the
/// long messages cost beside an octet of the short ones.
pub fn compare<H: MessageHead, C: Clock, W: Write>(
    alloc: Global,
    clock: &C,
    pair: &Pair<'_>,
    size: usize,
    output: &mut W,
) -> Result<(), Trouble>
    requires { 0 < size }
{
    let (mut short, mut long) = timed_both::<H, _>(alloc, clock, pair, size)?;
    for _ in 1..ROUNDS {
        let next = timed_both::<H, _>(alloc, clock, pair, size)?;
        short = short.faster(next.0);
        long = long.faster(next.1);
    }
    printed(rate_line(alloc, pair.name, size, &short)?, output)?;
    printed(rate_line(alloc, pair.name, size, &long)?, output)?;
    Ok(printed(cost_line(alloc, pair.name, size, &short, &long)?, output)?)
}

// How fast both texts are read.
fn timed_both<H: MessageHead, C: Clock>(
    alloc: Global,
    clock: &C,
    pair: &Pair<'_>,
    size: usize,
) -> Result<(Rate, Rate), Trouble>
    requires { 0 < size }
{
    let short = timed::<H, _>(alloc, clock, pair.kind, pair.short, size)?;
    let long = timed::<H, _>(alloc, clock, pair.kind, pair.long, size)?;
    Ok((short, long))
}

// How fast the messages of a text are read. Each is kept until all are, so that short ones and long
// ones take as much memory.
fn timed<H: MessageHead, C: Clock>(
    alloc: Global,
    clock: &C,
    kind: Kind,
    octets: &[u8],
    size: usize,
) -> Result<Rate, Trouble>
    requires { 0 < size }
    ensures { IfOk result (IsRateOf H.form
        kind Room.RECORDED octets.now) }
{
    let start = Instant::now(clock)?;
    let messages = feed_all::<H>(alloc, kind, Room::RECORDED, octets, size)?;
    let time = start.elapsed(clock)?;
    Ok(Rate::new(messages.len(), octets.len(), time))
}
