//! Stores of few keys and of many, and how fast they give and take responses.
ghost use Rattle.std.specs.Prelude.{◌≡◌, ◌<◌, ◌≤◌, IfOk, length};

use crate::lines::store_line;
use crate::print::printed;
use crate::rate::Rate;
use crate::responses::request_fields;
use crate::storing::{ask_all, filled, put_all, responses};
use crate::trouble::Trouble;
use hc_head::Target;
use hc_store::Store;
use hc_update::Stored;
use std::alloc::Global;
use std::hash::BuildHasher;
use std::io::Write;
use std::rt::Clock;
use std::time::Instant;

/// How often calls are timed. The fastest time counts.
const ROUNDS: u32 = 9;

/// How many keys the stores have.
const SIZES: [usize; 3] = [10, 1_000, 65_536];

/// How many calls for all keys in turn are timed together.
const CALLS: usize = 65_536;

/// How many keys are in use where not all are.
const IN_USE: usize = 10;

/// How many calls for the keys in use are timed together: few, so that also the responses that are put lie
/// in the processor's caches.
const FEW_CALLS: usize = 256;

/// Asks stores for responses and puts others in their place, for few of their keys in turn and for all, and
/// says how fast that was.
pub fn store<C: Clock, W: Write>(alloc: Global, clock: &C, output: &mut W) -> Result<(), Trouble> {
    for keys in SIZES {
        store_sized(alloc, clock, keys, IN_USE, FEW_CALLS, output)?;
        store_sized(alloc, clock, keys, keys, CALLS, output)?;
    }
    Ok(())
}

/// How fast calls of each kind were.
#[derive(Clone, Copy)]
struct Rates {
    choose: Rate,
    put: Rate,
}

/// Fills a store of so many keys, and says how fast so many calls of each kind were, for the first so many
/// of its keys in turn.
pub fn store_sized<C: Clock, W: Write>(
    alloc: Global,
    clock: &C,
    keys: usize,
    used: usize,
    calls: usize,
    output: &mut W,
) -> Result<(), Trouble>
    requires some { 0 < keys }
    requires few { keys ≤ 65536 }
    requires some_used { 0 < used }
    requires few_calls { calls ≤ 65536 }
{
    let rates = rates_of(alloc, clock, keys, used, calls)?;
    let line = store_line(alloc, keys, used, &rates.choose, &rates.put)?;
    Ok(printed(line, output)?)
}

// The same, but tells it.
fn rates_of<C: Clock>(
    alloc: Global,
    clock: &C,
    keys: usize,
    used: usize,
    calls: usize,
) -> Result<Rates, Trouble>
    requires some { 0 < keys }
    requires few { keys ≤ 65536 }
    requires some_used { 0 < used }
    requires few_calls { calls ≤ 65536 }
    ensures choose { IfOk result (λ rates. rates.choose.count ≡ calls) }
    ensures put { IfOk result (λ rates. rates.put.count ≡ calls) }
{
    let mut store = filled(alloc, keys)?;
    fastest(alloc, clock, &mut store, used, calls)
}

// How fast so many calls of each kind are at best.
fn fastest<C: Clock, S: BuildHasher>(
    alloc: Global,
    clock: &C,
    store: &mut Store<S>,
    keys: usize,
    calls: usize,
) -> Result<Rates, Trouble>
    requires some { 0 < keys }
    requires few_calls { calls ≤ 65536 }
    ensures choose { IfOk result (λ rates. rates.choose.count ≡ calls) }
    ensures put { IfOk result (λ rates. rates.put.count ≡ calls) }
{
    let mut best = timed(alloc, clock, store, keys, calls)?;
    'rounds: for _ in 1..ROUNDS {
        let next = timed(alloc, clock, store, keys, calls)?;
        best.choose = best.choose.faster(next.choose);
        best.put = best.put.faster(next.put);
    }
    Ok(best)
}

// How fast so many calls of each kind for the targets in turn are. The responses are made before.
fn timed<C: Clock, S: BuildHasher>(
    alloc: Global,
    clock: &C,
    store: &mut Store<S>,
    keys: usize,
    calls: usize,
) -> Result<Rates, Trouble>
    requires some { 0 < keys }
    requires few_calls { calls ≤ 65536 }
    ensures choose { IfOk result (λ rates. rates.choose.count ≡ calls) }
    ensures put { IfOk result (λ rates. rates.put.count ≡ calls) }
{
    let responses = responses(alloc, keys, calls)?;
    let choose = timed_choose(alloc, clock, store, responses.as_slice())?;
    let put = timed_put(clock, store, responses)?;
    Ok(Rates { choose, put })
}

// How fast calls of `choose` for the targets of the responses in turn are.
fn timed_choose<C: Clock, S: BuildHasher>(
    alloc: Global,
    clock: &C,
    store: &mut Store<S>,
    responses: &[(Target, Stored)],
) -> Result<Rate, Trouble>
    ensures { IfOk result (λ rate. rate.count ≡ length responses.now) }
{
    let presented = request_fields(alloc)?;
    let start = Instant::now(clock)?;
    ask_all(store, responses, &presented)?;
    let time = start.elapsed(clock)?;
    Ok(Rate::new(responses.len(), 0, time))
}

// How fast calls of `put` for the responses in turn are.
fn timed_put<C: Clock, S: BuildHasher>(
    clock: &C,
    store: &mut Store<S>,
    responses: Vec<(Target, Stored)>,
) -> Result<Rate, Trouble>
    ensures { IfOk result (λ rate. rate.count ≡ length responses.items) }
{
    let calls = responses.len();
    let start = Instant::now(clock)?;
    put_all(store, responses)?;
    let time = start.elapsed(clock)?;
    Ok(Rate::new(calls, 0, time))
}
