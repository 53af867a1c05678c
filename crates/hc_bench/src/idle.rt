//! How much memory a cache takes for connections that are open, and on which nothing happens.

use crate::caches::{empty, replies_to, replies_to_all};
use crate::loads::{Load, Way, ask, filling};
use crate::trouble::Trouble;
use hc_core::Core;
use hc_fields::decimal;
use hc_service::Happening;
use std::alloc::Global;
use std::fs;
use std::io::Write;
use std::rt::Files;

/// How many connections are open when memory is looked at, first and then.
const FEW: u64 = 10_000;

const MANY: u64 = 60_000;

/// What the cache has before: the first connection brings what is asked for.
const BEFORE: Load = Load {
    way: Way::Hits,
    body: 100,
    keys: 1,
    connections: 1,
    exchanges: 0,
};

/// How many octets a page of memory has.
const PAGE: u64 = 4_096;

/// Says how many octets of memory a connection takes that has had one hit and stays open, where so many are.
pub fn idle<R, W: Write>(rt: &R, output: &mut W) -> Result<(), Trouble>
where
    R: Files + AllocGlobal,
{
    let mut core = empty(rt.alloc(), 1, 100_000)?;
    let head = BEFORE.reply_head(rt.alloc())?;
    measured(rt, &mut core, head.as_slice(), output)
}

fn measured<R, W: Write>(
    rt: &R,
    core: &mut Core,
    head: &[u8],
    output: &mut W,
) -> Result<(), Trouble>
where
    R: Files + AllocGlobal,
{
    replies_to_all(core, filling(rt.alloc(), BEFORE)?, head, BEFORE.body)?;
    let before = resident(rt)?;
    serve_new(rt.alloc(), core, head, BEFORE.connections, FEW)?;
    said(FEW, resident(rt)?.saturating_sub(before), output)?;
    serve_new(rt.alloc(), core, head, FEW, MANY)?;
    said(MANY, resident(rt)?.saturating_sub(before), output)
}

// Says how many octets that is for each connection.
fn said<W: Write>(connections: u64, octets: u64, output: &mut W) -> Result<(), Trouble> {
    let octets = octets / connections.max(1);
    writeln!(
        output,
        "idle connections={connections} octets_per_connection={octets}"
    )?;
    Ok(output.flush()?)
}

// Opens the connections from that number on, and serves each a hit.
fn serve_new(
    alloc: Global,
    core: &mut Core,
    head: &[u8],
    open: u64,
    connections: u64,
) -> Result<(), Trouble> {
    for connection in open..connections {
        replies_to(core, Happening::ClientOpened(connection), head, BEFORE.body)?;
        let asked = ask(alloc, connection, 0)?;
        if replies_to(core, asked, head, BEFORE.body)? != 1 {
            return Err(Trouble::NotServed);
        }
    }
    Ok(())
}

// How many octets of memory the program has, as Linux tells.
fn resident<R>(rt: &R) -> Result<u64, Trouble>
where
    R: Files + AllocGlobal,
{
    let text = fs::read_to_string(rt, "/proc/self/statm")?;
    let pages = second_number(text.as_bytes()).ok_or(Trouble::Device)?;
    Ok(pages.saturating_mul(PAGE))
}

// The second of the numbers, between which a space stands each.
fn second_number(text: &[u8]) -> Option<u64> {
    let mut words = text.split(|octet| *octet == b' ');
    words.next()?;
    decimal(words.next()?)
}
