//! The forwards that are open for a connection.

ghost use Rattle.std.specs.Prelude.{◌≡◌, ℕ, List, [], ◌∷◌, length, Bool, false, true, IfOk, None, Some};
ghost use Rattle.hc_connection.specs.Forwards.{HasFew, IsKept, KeepsSlot};

use hc_framing::MessageText;
use hc_links::{Came, Link, LinkFailure, Origins, read_some, send_text};
use std::alloc::{AllocError, Global};
use std::collections::BTreeMap;

/// The forwards that are open for a connection, by number.
#[derive(Drop)]
pub(crate) struct Forwards<'a, O: Origins> {
    alloc: Global,
    origins: &'a O,
    /// One that couldn't be made, or failed as octets were sent, has no link, until that is told.
    links: BTreeMap<u64, Option<O::Link>>,
}

impl<'a, O: Origins> Forwards<'a, O> {
    ghost use Rattle.hc_connection.specs.Forwards.{AreKept, KeepsCame, NoneOpen, TellsLeast, is_open_in};
    ghost use Rattle.hc_order.specs.Log.{Move};
    ghost use Rattle.hc_order.specs.Log.Move.{Closed, Heard};
    ghost use Rattle.hc_links.specs.Telling.{occurs};
    ghost use Rattle.hc_links.specs.Telling.{TellsSent};
    ghost use Rattle.hc_order.specs.declared.occurrence.Reason.{Reason};
    ghost use Rattle.hc_order.specs.declared.receiver.Receiver.TheVariants.{Origin};
    ghost use Rattle.hc_service.specs.declared.event.Happening.TheVariants.{OriginEnd, OriginFailed};

    /// None is open.
    pub(crate) fn new(alloc: Global, origins: &'a O) -> Self
        ensures { (log : List Move) → NoneOpen log → AreKept O.Link.has_given O.Link.has_got result.links log }
    {
        Forwards {
            alloc,
            origins,
            links: BTreeMap::new(alloc),
        }
    }

    /// The least number of one that is open.
    pub(crate) fn least(&self) -> Option<u64>
        ensures least { (log : List Move) → AreKept O.Link.has_given O.Link.has_got self.now.links log → TellsLeast result log }
        ensures none { result ≡ None → length self.now.links.entries ≡ 0 }
    {
        match self.links.first_key_value() {
            Some((forward, _)) => Some(*forward),
            None => None,
        }
    }

    /// Makes a link for a forward, and sends octets there.
    fn connected(&self, forward: u64, text: &MessageText) -> Result<O::Link, LinkFailure>
        ensures { IfOk result (λ link. O.Link.has_given link [] × O.Link.has_got link text.now) }
    {
        let mut link = self.origins.connect(forward)?;
        send_text(&mut link, text)?;
        Ok(link)
    }

    /// Opens a forward, and returns whether octets could be sent there. Where memory is refused, nothing is
    /// sent.
    pub(crate) fn open(&mut self, forward: u64, text: &MessageText) -> Result<bool, AllocError>
        ensures { (log : List Move) → AreKept O.Link.has_given O.Link.has_got self.old.links log
            → TellsSent (AreKept O.Link.has_given O.Link.has_got self.new.links) result (Origin forward) text.now log }
    {
        self.links.insert(forward, None)?;
        match self.connected(forward, text) {
            Ok(link) => {
                // It has its place, so that no memory is wanted.
                let _ = self.links.insert(forward, Some(link));
                Ok(true)
            }
            Err(LinkFailure) => Ok(false),
        }
    }

    /// Forgets a forward, and returns whether it was open.
    pub(crate) fn forget(&mut self, forward: u64) -> bool
        ensures failed { (log : List Move) (moment : ℕ) (reason : Reason) → AreKept O.Link.has_given O.Link.has_got self.old.links log
            → AreKept O.Link.has_given O.Link.has_got self.new.links (Heard (occurs moment (OriginFailed forward) reason) ∷ log) }
        ensures ended { (log : List Move) (moment : ℕ) (reason : Reason) → AreKept O.Link.has_given O.Link.has_got self.old.links log
            → AreKept O.Link.has_given O.Link.has_got self.new.links (Heard (occurs moment (OriginEnd forward) reason) ∷ log) }
        ensures closed { (log : List Move) → AreKept O.Link.has_given O.Link.has_got self.old.links log
            → AreKept O.Link.has_given O.Link.has_got self.new.links (Closed (Origin forward) ∷ log) }
        ensures was { result ≡ true → (log : List Move) → AreKept O.Link.has_given O.Link.has_got self.old.links log → is_open_in forward log ≡ true }
        ensures same { result ≡ false → (log : List Move) → AreKept O.Link.has_given O.Link.has_got self.old.links log
            → AreKept O.Link.has_given O.Link.has_got self.new.links log }
    {
        self.links.remove(&forward).is_some()
    }

    /// What comes of a forward. One that has no link has failed.
    pub(crate) fn hear(&mut self, forward: u64) -> Result<Came, AllocError>
        ensures kept { (log : List Move) → AreKept O.Link.has_given O.Link.has_got self.old.links log
            → KeepsCame (AreKept O.Link.has_given O.Link.has_got self.new.links) forward result log }
        ensures few { HasFew result }
    {
        match self.links.get_mut(&forward) {
            Some(slot) => read_slot(self.alloc, slot),
            None => Ok(Came::Failure),
        }
    }
}

/// What comes of a link, if there is one.
fn read_slot<L: Link>(alloc: Global, slot: &mut Option<L>) -> Result<Came, AllocError>
    ensures kept { (read sent : List ℕ) (is_open : Bool) → IsKept L.has_given L.has_got is_open read sent (Some slot.old)
        → KeepsSlot L.has_given L.has_got is_open read sent result slot.new }
    ensures few { HasFew result }
{
    match slot {
        Some(link) => read_some(alloc, link),
        None => Ok(Came::Failure),
    }
}
