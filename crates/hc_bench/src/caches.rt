//! Caches, and what they do when something happens.

use crate::trouble::Trouble;
use hc_core::Core;
use hc_fields::Octets;
use hc_service::{Action, CoreOptions, CoreSettings, Event, Happening, StepFault};
use std::alloc::Global;
use std::hash::BuildHasherDefault;

/// The moment of every event that is measured, in seconds since 1970, which the dates tell too.
const MOMENT: u64 = 1_000;

/// For how many connections there is room.
const ROOM: usize = 65_536;

/// A cache to which nothing has happened.
pub fn empty(alloc: Global, keys: usize, bytes: u64) -> Result<Core, Trouble> {
    let name = Octets::from_slice(alloc, b"hcache")?;
    let settings = CoreSettings { name, keys, bytes };
    let options = CoreOptions {
        connections: ROOM,
        keeps_cookies: true,
    };
    Ok(Core::with_options(alloc, settings, BuildHasherDefault::new(), options)?)
}

/// Hands the cache what happens at that moment, and returns what it does.
pub fn step(core: &mut Core, moment: u64, of: Happening) -> Result<Vec<Action>, StepFault> {
    core.step(Event { moment, of })
}

/// Hands the cache all that happens, and returns how many replies begin with that head, with a body of so
/// many octets behind it.
pub fn replies_to_all(
    core: &mut Core,
    happen: Vec<Happening>,
    head: &[u8],
    body: usize,
) -> Result<usize, Trouble> {
    let mut replies: usize = 0;
    for of in happen {
        replies = replies.saturating_add(replies_to(core, of, head, body)?);
    }
    Ok(replies)
}

/// The same of one that happens.
pub fn replies_to(
    core: &mut Core,
    of: Happening,
    head: &[u8],
    body: usize,
) -> Result<usize, Trouble> {
    let actions = step(core, MOMENT, of)?;
    let mut replies: usize = 0;
    for action in actions.as_slice() {
        if is_reply(action, head, body) {
            replies = replies.saturating_add(1);
        }
    }
    Ok(replies)
}

fn is_reply(action: &Action, head: &[u8], body: usize) -> bool {
    let Action::ToClient(_, text) = action else {
        return false;
    };
    let (front, _) = text.parts();
    front.as_slice().starts_with(head) && text.len() == head.len().saturating_add(body)
}
