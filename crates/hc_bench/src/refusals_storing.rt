//! A store that finds no memory for what it is given.

use crate::refusals_seen::Seen;
use crate::responses::{MOMENT, forward, response_fields, target_of};
use crate::storing::{filled, response_of};
use crate::trouble::Trouble;
use hc_head::{ResponseHead, StatusCode, Version};
use hc_store::{NotModified, Put, Store};
use std::alloc::{AllocError, Global};

/// How many targets the store keeps.
const KEYS: usize = 2;

/// The position of the 304 in its recording.
const POSITION: u64 = 7;

/// Puts a response for one target more than the store keeps. Where memory is refused, both that it had are there still.
pub fn seen_of_put(alloc: Global) -> Result<Seen, Trouble> {
    let mut store = filled(alloc, KEYS)?;
    let (third, stored) = response_of(alloc, 2)?;
    match store.put(third, stored) {
        Put::Stored if holds(&store, &[b"/2", b"/1"]) => Ok(Seen::Answered),
        Put::NoMemory if holds(&store, &[b"/1", b"/0"]) => Ok(Seen::Refused),
        _ => Ok(Seen::Other),
    }
}

/// Freshens what is stored of one target. It is there afterwards as the 304 has left it, or it is gone, where memory is
/// refused; and the other target keeps what it had.
pub fn seen_of_freshen(alloc: Global) -> Result<Seen, Trouble> {
    let mut store = filled(alloc, KEYS)?;
    if is_freshened(alloc, &mut store)? && holds(&store, &[b"/0", b"/1"]) {
        Ok(Seen::Answered)
    } else if holds(&store, &[b"/1"]) {
        Ok(Seen::Refused)
    } else {
        Ok(Seen::Other)
    }
}

// Freshens what is stored of the first target, and returns whether it is there as the 304 has left it.
fn is_freshened(alloc: Global, store: &mut Store) -> Result<bool, AllocError> {
    let target = target_of(alloc, 0)?;
    let forward = forward(alloc, 0)?;
    let head = not_modified(alloc)?;
    let validation = NotModified {
        forward: &forward,
        head: &head,
        request_time: MOMENT,
        response_time: MOMENT,
        position: POSITION,
    };
    store.freshen(&target, validation);
    Ok(
        store
            .choose_validated(&target, &forward.fields, POSITION)?
            .is_some(),
    )
}

// What the origin answers where its responses still hold.
fn not_modified(alloc: Global) -> Result<ResponseHead, AllocError> {
    Ok(ResponseHead {
        status: StatusCode::NOT_MODIFIED,
        version: Version::Http11,
        fields: response_fields(alloc)?,
    })
}

// Whether the store has something for each of these targets and for no other, the most recent first.
fn holds(store: &Store, paths: &[&[u8]]) -> bool {
    let mut entries = store.entries();
    for path in paths {
        match entries.next() {
            Some((target, _)) if target.path.as_slice() == *path => {}
            _ => return false,
        }
    }
    entries.next().is_none()
}
