//! The links that were begun for forwards last.

ghost use Rattle.std.specs.Prelude.{◌≡◌, ◌<◌, ◌%◌, Some, false, true, vec_len};
ghost use Rattle.hc_sockets.specs.Attempts.{address_behind, link_of, remembered, stage_of, told_of};
ghost use Rattle.hc_sockets.specs.declared.attempts.AttemptStage.TheVariants.{Opening};

use std::alloc::{AllocError, Global};

/// So many are remembered, more than there can be at once: of forwards whose numbers are a multiple of it apart, the link
/// that was begun last.
const REMEMBERED: usize = 65_536;

/// A link that was begun for a forward.
#[derive(Clone, Copy)]
struct Begun {
    forward: u64,
    attempt: u32,
    /// The place of the address that it goes to.
    address: usize,
    /// Whether something was told of it.
    told: bool,
}

/// How far a link to the origin was, before something is told of it.
#[derive(Clone, Copy, PartialEq, Eq)]
pub(crate) enum AttemptStage {
    /// It began to be made.
    Opening,
    /// It was made, or isn't remembered any more.
    Made,
    /// Another one was begun for its forward.
    Gone,
}

/// The links that were begun for forwards last.
#[derive(Drop)]
pub(crate) struct Attempts {
    begun: Vec<Option<Begun>>,
    ghost sized: { vec_len begun ≡ 65536 },
}

impl Attempts {
    /// None was begun. All memory that is ever needed is taken now.
    pub(crate) fn new(alloc: Global) -> Result<Self, AllocError> {
        Ok(Attempts {
            begun: Vec::from_elem(alloc, None, REMEMBERED)?,
        })
    }

    /// The place of the address from which on an attempt for a forward tries: behind the one to which the attempt before it
    /// went, so that none is tried twice.
    pub(crate) fn first_address(&self, forward: u64, attempt: u32) -> usize
        ensures { result ≡ address_behind (remembered self.now.begun.items forward) forward attempt }
    {
        address_behind(self.begun[place_of(forward)], forward, attempt)
    }

    /// A link was begun for a forward, by that attempt, to the address at that place.
    pub(crate) fn begin(&mut self, forward: u64, attempt: u32, address: usize)
        ensures { remembered self.new.begun.items forward ≡ Some (link_of forward attempt address false) }
    {
        self.begun[place_of(forward)] = Some(Begun {
            forward,
            attempt,
            address,
            told: false,
        });
    }

    /// Something is told of the link that was begun for a forward by that attempt. Returns how far it was.
    pub(crate) fn tell(&mut self, forward: u64, attempt: u32) -> AttemptStage
        ensures stage { result ≡ stage_of (remembered self.old.begun.items forward) forward attempt }
        ensures told { result ≡ Opening → remembered self.new.begun.items forward ≡ told_of (remembered self.old.begun.items forward) }
    {
        let place = place_of(forward);
        let begun = self.begun[place];
        let stage = stage_of(begun, forward, attempt);
        if stage == AttemptStage::Opening {
            self.begun[place] = told_of(begun);
        }
        stage
    }
}

/// The same link, of which something was told.
fn told_of(begun: Option<Begun>) -> Option<Begun>
    ensures { result ≡ told_of begun }
{
    let begun = begun?;
    Some(Begun {
        told: true,
        ..begun
    })
}

/// The place behind that of the link that is remembered, where it is of an earlier attempt for that forward.
fn address_behind(begun: Option<Begun>, forward: u64, attempt: u32) -> usize
    ensures { result ≡ address_behind begun forward attempt }
{
    if attempt == 0 {
        return 0;
    }
    match begun {
        Some(begun) if begun.forward == forward => begun.address.saturating_add(1),
        Some(_) => attempt as usize,
        None => attempt as usize,
    }
}

/// How far a link is, by what is remembered where it would be.
fn stage_of(begun: Option<Begun>, forward: u64, attempt: u32) -> AttemptStage
    ensures { result ≡ stage_of begun forward attempt }
{
    let Some(begun) = begun else {
        return AttemptStage::Made;
    };
    if begun.forward != forward {
        return AttemptStage::Made;
    }
    if begun.attempt != attempt {
        return AttemptStage::Gone;
    }
    if begun.told {
        AttemptStage::Made
    } else {
        AttemptStage::Opening
    }
}

/// Where the link of a forward is remembered.
fn place_of(forward: u64) -> usize
    ensures place { result ≡ forward % 65536 }
    ensures bound { result < 65536 }
{
    (forward % REMEMBERED as u64) as usize
}
