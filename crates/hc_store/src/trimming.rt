//! Dropping what is too heavy.

ghost use Rattle.std.specs.Prelude.{◌≡◌, ◌++◌, ◌&&◌, nat_lt, length, take, drop};
ghost use Rattle.hc_store.specs.Entries.{entries_weight};
ghost use Rattle.hc_store.specs.Changes.{last_variants};
ghost use Rattle.hc_store.specs.Trims.{is_too_heavy, kept_beside};

use crate::variants::Variants;
use crate::weights::{room_behind_all, weight_without};
use hc_head::Target;
use hc_update::Stored;
use lru::LruCache;
use std::hash::BuildHasher;

/// Drops the first variants while they weigh more than that together.
pub(crate) fn drop_first(variants: &mut Vec<Stored>, bytes: usize)
    ensures { variants.new.items ≡ last_variants bytes variants.old.items }
{
    while room_behind_all(bytes, variants.as_slice()).is_none() {
        drop(variants.remove(0));
    }
}

/// Whether keys of that weight are too heavy where there is that room for them, or none.
fn is_too_heavy(others: usize, room: Option<usize>) -> bool
    ensures { result ≡ is_too_heavy others room }
{
    match room {
        Some(room) => room < others,
        None => true,
    }
}

/// Whether there are keys beside the most recent one that have to go.
fn has_to_drop<S: BuildHasher>(
    keys: &LruCache<Target, Variants, S>,
    others: usize,
    room: Option<usize>,
) -> bool
    ensures { result ≡ (nat_lt 1 (length keys.now.entries) && is_too_heavy others room) }
{
    keys.len() > 1 && is_too_heavy(others, room)
}

/// Drops the least recent keys, which weigh so much together without the most recent one, while they are
/// too heavy beside it. Returns what those weigh that stay beside it.
pub(crate) fn drop_others<S: BuildHasher>(
    keys: &mut LruCache<Target, Variants, S>,
    mut others: usize,
    room: Option<usize>,
) -> usize
    requires { others ≡ entries_weight (drop 1 keys.old.entries) }
    ensures entries { keys.new.entries ≡ take 1 keys.old.entries ++ kept_beside room (drop 1 keys.old.entries) }
    ensures cap { keys.new.cap ≡ keys.old.cap }
    ensures weight { result ≡ entries_weight (kept_beside room (drop 1 keys.old.entries)) }
{
    while has_to_drop(keys, others, room) {
        if let Some((_, variants)) = keys.pop_lru() {
            others = weight_without(others, variants.as_slice());
        }
    }
    others
}
