//! What each call makes of the keys.

ghost use Rattle.std.specs.Prelude.{◌≡◌, ◌<◌, ◌≤◌, ◌-◌, true, false, length, option_and_then, option_copied, slice_get, IfOk, IsOk, OnOk, OnErr};
ghost use Rattle.lru.specs.LruCache.{lru_cache};
ghost use Rattle.hc_store.specs.Entries.{HasFewVariants, entries_weight, knows, most_variants, recent_variants, variants_of, weight};
ghost use Rattle.hc_store.specs.Changes.{after_put, without};
ghost use Rattle.hc_store.specs.Calls.{Freshens, grows, has_vary};
ghost use Rattle.hc_store.specs.Trims.{dropped_weight, without_empty};
ghost use Rattle.hc_store.specs.Views.{held, validation_seen};
ghost use Rattle.hc_fields.specs.Numbers.{end_of_moments};
ghost use Rattle.std.specs.List.{AllByRecursion};

use crate::freshening::NotModified;
use crate::trimming::drop_others;
use crate::variants::Variants;
use crate::weights::{weight_within, weight_without};
use hc_head::Target;
use hc_update::Stored;
use lru::LruCache;
use std::alloc::AllocError;
use std::hash::BuildHasher;

/// Puts a response under a key that is there, where all that is held weighs so much. Returns what it weighs
/// then.
fn put_into<S: BuildHasher>(
    keys: &mut LruCache<Target, Variants, S>,
    total: usize,
    bytes: usize,
    target: &Target,
    stored: Stored,
) -> Result<usize, AllocError>
    requires weighs { total ≡ entries_weight keys.old.entries }
    requires few_keys { length keys.old.entries ≤ keys.old.cap }
    requires few { length (variants_of target.now keys.old.entries) ≤ most_variants }
    requires some { 0 < length (variants_of target.now keys.old.entries) }
    requires known { knows target.now keys.old.entries ≡ true }
    requires light { weight stored ≤ bytes }
    ensures ok { OnOk result (keys.new ≡ lru_cache (after_put keys.old.cap bytes target.now stored keys.old.entries) keys.old.cap) }
    ensures total { IfOk result (λ total. total ≡ entries_weight keys.new.entries) }
    ensures err { OnErr result (keys.new ≡ keys.old) }
    ensures no_vary { has_vary (variants_of target.now keys.old.entries) ≡ false → IsOk result }
{
    let alloc = *keys.allocator();
    let Some(variants) = keys.peek_mut(target) else {
        return Ok(total);
    };
    let others = weight_without(total, variants.as_slice());
    variants.add(alloc, stored)?;
    let settled = variants.settle(bytes);
    keys.promote(target);
    let others = drop_others(keys, others, settled.room);
    Ok(settled.weight + others)
}

/// What is left of a weight without a key that was dropped.
fn weight_behind(total: usize, dropped: Option<(Target, Variants)>) -> usize
    requires { dropped_weight dropped ≤ total }
    ensures { result ≡ total - dropped_weight dropped }
{
    match dropped {
        Some((_, variants)) => weight_without(total, variants.as_slice()),
        None => total,
    }
}

/// Puts a response under a new key. The least recent one goes where there are as many as may be. Returns
/// what all weighs then.
fn put_new<S: BuildHasher>(
    keys: &mut LruCache<Target, Variants, S>,
    total: usize,
    bytes: usize,
    target: Target,
    stored: Stored,
) -> Result<usize, AllocError>
    requires weighs { total ≡ entries_weight keys.old.entries }
    requires few_keys { length keys.old.entries ≤ keys.old.cap }
    requires some_keys { 0 < keys.old.cap }
    requires new { knows target keys.old.entries ≡ false }
    requires light { weight stored ≤ bytes }
    ensures ok { OnOk result (keys.new ≡ lru_cache (after_put keys.old.cap bytes target stored keys.old.entries) keys.old.cap) }
    ensures total { IfOk result (λ total. total ≡ entries_weight keys.new.entries) }
    ensures err { OnErr result (keys.new ≡ keys.old) }
{
    let mut variants = Variants::of(*keys.allocator(), stored)?;
    let settled = variants.settle(bytes);
    let dropped = keys.push(target, variants)?;
    let others = drop_others(keys, weight_behind(total, dropped), settled.room);
    Ok(settled.weight + others)
}

/// Puts a response that is small enough, where all that is held weighs so much. Returns what it weighs then.
pub(crate) fn put_in<S: BuildHasher>(
    keys: &mut LruCache<Target, Variants, S>,
    total: usize,
    bytes: usize,
    target: Target,
    stored: Stored,
) -> Result<usize, AllocError>
    requires weighs { total ≡ entries_weight keys.old.entries }
    requires few_keys { length keys.old.entries ≤ keys.old.cap }
    requires some_keys { 0 < keys.old.cap }
    requires few { AllByRecursion HasFewVariants keys.old.entries }
    requires light { weight stored ≤ bytes }
    ensures ok { OnOk result (keys.new ≡ lru_cache (after_put keys.old.cap bytes target stored keys.old.entries) keys.old.cap) }
    ensures total { IfOk result (λ total. total ≡ entries_weight keys.new.entries) }
    ensures err { OnErr result (keys.new ≡ keys.old) }
    ensures grows { OnErr result (grows target keys.old.entries ≡ true) }
{
    if keys.contains(&target) {
        put_into(keys, total, bytes, &target, stored)
    } else {
        put_new(keys, total, bytes, target, stored)
    }
}

/// Removes the key, if nothing is left of its variants.
fn remove_if_empty<S: BuildHasher>(keys: &mut LruCache<Target, Variants, S>, target: &Target)
    ensures { keys.new ≡ lru_cache (without_empty target.now keys.old.entries) keys.old.cap }
{
    let is_empty = match keys.peek(target) {
        Some(variants) => variants.is_empty(),
        None => false,
    };
    if is_empty {
        drop(keys.pop(target));
    }
}

/// Freshens the variants of a key that a 304 is about, where all that is held weighs so much. Returns what
/// it weighs then.
pub(crate) fn freshen_key<S: BuildHasher>(
    keys: &mut LruCache<Target, Variants, S>,
    total: usize,
    bytes: usize,
    target: &Target,
    validation: NotModified<'_>,
    keeps_cookies: bool,
) -> usize
    requires weighs { total ≡ entries_weight keys.old.entries }
    requires light { total ≤ bytes }
    requires in_time { validation.response_time < end_of_moments }
    ensures freshens { Freshens (validation_seen validation.entry) target.now (held bytes keeps_cookies keys.old) (held bytes keeps_cookies keys.new) }
    ensures total { result ≡ entries_weight keys.new.entries }
{
    let Some(variants) = keys.peek_mut(target) else {
        return total;
    };
    let others = weight_without(total, variants.as_slice());
    if !variants.freshen(validation, keeps_cookies) {
        let left = weight_within(bytes, variants.as_slice());
        remove_if_empty(keys, target);
        return left + others;
    }
    let settled = variants.settle(bytes);
    keys.promote(target);
    let others = drop_others(keys, others, settled.room);
    remove_if_empty(keys, target);
    settled.weight + others
}

/// Removes a key, where all that is held weighs so much. Returns what it weighs then.
pub(crate) fn remove_key<S: BuildHasher>(
    keys: &mut LruCache<Target, Variants, S>,
    total: usize,
    target: &Target,
) -> usize
    requires { total ≡ entries_weight keys.old.entries }
    ensures keys { keys.new ≡ lru_cache (without target.now keys.old.entries) keys.old.cap }
    ensures total { result ≡ entries_weight keys.new.entries }
{
    match keys.pop(target) {
        Some(variants) => weight_without(total, variants.as_slice()),
        None => total,
    }
}

/// The variant of a key at a place.
pub(crate) fn lend<'a, S: BuildHasher>(
    keys: &'a LruCache<Target, Variants, S>,
    target: &Target,
    place: Option<usize>,
) -> Option<&'a Stored>
    ensures { option_copied result ≡ option_and_then (slice_get (variants_of target.now keys.now.entries)) place }
{
    let place = place?;
    let variants = keys.peek(target)?;
    variants.as_slice().get(place)
}

/// The variant of the most recent key at a place.
pub(crate) fn lend_of_recent<S: BuildHasher>(
    keys: &LruCache<Target, Variants, S>,
    place: Option<usize>,
) -> Option<&Stored>
    ensures { option_copied result ≡ option_and_then (slice_get (recent_variants keys.now.entries)) place }
{
    let place = place?;
    let (_, variants) = keys.peek_mru()?;
    variants.as_slice().get(place)
}
