//! Stores that are filled, asked and given responses.
ghost use Rattle.std.specs.Prelude.{◌≡◌, ◌<◌, ◌≤◌, Some, length, IfOk, OnOk};
ghost use Rattle.hc_bench.specs.Responses.{stored_of, target_of};
ghost use Rattle.hc_bench.specs.Storing.{behind_all, behind_question, filled, given, given_all, number_at, responses};

use crate::responses::{stored_of, target_of};
use crate::trouble::Trouble;
use hc_fields::Fields;
use hc_head::Target;
use hc_store::{Put, Store};
use hc_update::Stored;
use std::alloc::{AllocError, Global};
use std::hash::BuildHasher;

/// The most that all of a store's responses weigh, which are far lighter.
const BYTES: usize = 64 * 1_024 * 1_024;

/// How far the number of each target is from that of the one before it, round and round. It is a prime, so
/// all targets come in turn, unless their count is a multiple of it.
const STRIDE: usize = 7_919;

/// The number of the target that comes behind so many, of so many targets.
fn number_at(keys: usize, before: usize) -> usize
    requires some { 0 < keys }
    requires few { before < 65536 }
    ensures { result ≡ number_at keys before }
{
    before * STRIDE % keys
}

/// A response for the target of that number, with its target.
pub fn response_of(alloc: Global, number: usize) -> Result<(Target, Stored), AllocError>
    ensures { IfOk result (λ made. made ≡ (target_of number, stored_of number)) }
{
    let target = target_of(alloc, number)?;
    let stored = stored_of(alloc, number)?;
    Ok((target, stored))
}

/// Responses for so many targets, of so many different ones in turn, each with its target.
pub fn responses(
    alloc: Global,
    keys: usize,
    calls: usize,
) -> Result<Vec<(Target, Stored)>, AllocError>
    requires some { 0 < keys }
    requires few { calls ≤ 65536 }
    ensures made { IfOk result (λ made. made.items ≡ responses keys calls) }
    ensures count { IfOk result (λ made. length made.items ≡ calls) }
{
    let mut made = Vec::with_capacity(alloc, calls)?;
    'responses: for before in 0..calls {
        made.push(response_of(alloc, number_at(keys, before))?)?;
    }
    Ok(made)
}

/// Puts a response into the store.
fn put_one<S: BuildHasher>(
    store: &mut Store<S>,
    target: Target,
    stored: Stored,
) -> Result<(), Trouble>
    ensures { OnOk result (store.new ≡ given target stored store.old) }
{
    match store.put(target, stored) {
        Put::Stored => Ok(()),
        Put::SetsCookie => Err(Trouble::NotStored),
        Put::TooLarge => Err(Trouble::NotStored),
        Put::NoMemory => Err(Trouble::Memory),
    }
}

/// Puts the response for the target of that number into the store.
fn put_number<S: BuildHasher>(
    alloc: Global,
    store: &mut Store<S>,
    number: usize,
) -> Result<(), Trouble>
    ensures { OnOk result (store.new ≡ given (target_of number) (stored_of number) store.old) }
{
    let (target, stored) = response_of(alloc, number)?;
    put_one(store, target, stored)
}

/// A store of so many keys that has a response for each, the least recent first in the order of their numbers.
pub fn filled(alloc: Global, keys: usize) -> Result<Store, Trouble>
    requires some { 0 < keys }
    requires few { keys ≤ 65536 }
    ensures { IfOk result (λ store. store ≡ filled keys keys) }
{
    let mut store = Store::new(alloc, keys, BYTES, true)?;
    'keys: for number in 0..keys {
        put_number(alloc, &mut store, number)?;
    }
    Ok(store)
}

/// Asks the store for a target, where it has to have a response for it.
fn ask_one<S: BuildHasher>(
    store: &mut Store<S>,
    target: &Target,
    presented: &Fields,
) -> Result<(), Trouble>
    ensures { OnOk result (behind_question presented.now (Some store.old) target.now ≡ Some store.new) }
{
    match store.choose(target, presented)?.chosen {
        Some(_) => Ok(()),
        None => Err(Trouble::NotStored),
    }
}

/// Asks the store for the target of each response in turn, where it has to have a response for each.
pub fn ask_all<S: BuildHasher>(
    store: &mut Store<S>,
    responses: &[(Target, Stored)],
    presented: &Fields,
) -> Result<(), Trouble>
    ensures { OnOk result (behind_all presented.now responses.now store.old ≡ Some store.new) }
{
    'responses: for response in responses {
        ask_one(store, &response.0, presented)?;
    }
    Ok(())
}

/// Puts each response into the store in turn.
pub fn put_all<S: BuildHasher>(
    store: &mut Store<S>,
    responses: Vec<(Target, Stored)>,
) -> Result<(), Trouble>
    ensures { OnOk result (store.new ≡ given_all responses.items store.old) }
{
    'responses: for (target, stored) in responses {
        put_one(store, target, stored)?;
    }
    Ok(())
}
