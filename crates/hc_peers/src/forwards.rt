//! What happens at the links of forwards.

ghost use Rattle.std.specs.Prelude.{◌≡◌, ◌&&◌, not, true, false, List, [], ◌∷◌, None, is_some, option_map, unwrap_or};

use crate::forward::Forward;
use crate::peers::Peers;
use hc_flow::{Heard, Stream};
use hc_framing::MessageText;
use hc_order::Reason;
use std::alloc::AllocError;

impl<S: Stream + Drop> Peers<S> {
    ghost use Rattle.std.specs.BTreeMap.{get};
    ghost use Rattle.std.specs.Option.{IsSomeAnd};
    ghost use Rattle.std.specs.Ordering.{nat_cmp};
    ghost use Rattle.hc_agenda.specs.Places.{has_place};
    ghost use Rattle.hc_links.specs.Telling.{TellsSent};
    ghost use Rattle.hc_order.specs.declared.receiver.Receiver.TheVariants.{Origin};
    ghost use Rattle.hc_order.specs.Log.{Move};
    ghost use Rattle.hc_order.specs.Log.Move.{Closed};
    ghost use Rattle.hc_flow.specs.Hearings.{IsEndOf};
    ghost use Rattle.hc_peers.specs.Behind.{Behind, ForwardGoesBy, ForwardIsLinked, ForwardIsLost, ForwardRetries, IsOpened, OpensForward, can_retry};
    ghost use Rattle.hc_peers.specs.Forwards.{HasUnusedLink, begun_at, is_linked, is_waiting_at, lingers, lost_at};
    ghost use Rattle.hc_peers.specs.Heard.{NoAnswer, told};
    ghost use Rattle.hc_peers.specs.Keeping.{Hears, KeepsPeers};
    ghost use Rattle.hc_peers.specs.Lingering.{is_lingering};
    ghost use Rattle.hc_peers.specs.Losses.{HasEndedAt, HearsAt, IsLossOf};
    ghost use Rattle.hc_peers.specs.Peers.{ArePeers, Bounds, ChangesOnly, ChangesSent};
    ghost use Rattle.hc_peers.specs.Shown.{ShowNoMore};
    ghost use Rattle.hc_peers.specs.Tables.{is_there_and};

    /// A forward is opened, in place of whatever there was, and is to be sorted among those that wait for places: its request
    /// waits for a link. Where memory is refused, it isn't opened.
    pub(crate) fn open_forward(
        &mut self,
        forward: u64,
        request: &MessageText,
    ) -> Result<(), AllocError>
        ensures sent { (bounds : Bounds) (log : List Move) → ArePeers S.has_given S.has_got bounds self.old log
            → TellsSent (ArePeers S.has_given S.has_got bounds self.new) result (Origin forward) request.now log }
        ensures shown { (log : List Move) → ShowNoMore S.has_got self.old log → ShowNoMore S.has_got self.new log }
        ensures behind { IsOpened result (get nat_cmp self.old.forwards.links forward) (get nat_cmp self.new.forwards.links forward) }
        ensures only { ChangesSent (Origin forward) self.old self.new }
        ensures opened { OpensForward forward result self.old self.new }
    {
        self.places.open(forward)?;
        let opened = Forward::new(request.share()?);
        self.forwards.links.insert(forward, opened)?;
        Ok(())
    }

    /// What is heard of a forward now. One that has failed is there no more.
    pub fn hear_origin(
        &mut self,
        forward: u64,
        buffer: &mut [u8],
        tick: u64,
    ) -> Result<Heard, AllocError>
        ensures heard { Hears S.has_given S.has_got NoAnswer (told (Origin forward) result) self.old self.new }
        ensures reason { IsLossOf (get nat_cmp self.old.forwards.links forward) result }
        // An end is told only where the origin has ended what it sends, so that no response counts as whole by a failure.
        ensures over { IsEndOf (HasEndedAt S.has_ended (get nat_cmp self.new.forwards.links forward)) result }
        ensures behind { ForwardGoesBy result tick (get nat_cmp self.old.forwards.links forward) (get nat_cmp self.new.forwards.links forward) }
        ensures stays { HearsAt S.has_failed (get nat_cmp self.old.forwards.links forward) (get nat_cmp self.new.forwards.links forward) result }
        ensures only { ChangesOnly (Origin forward) self.old self.new }
    {
        let Some(found) = self.forwards.links.get_mut(&forward) else {
            return Ok(Heard::Nothing);
        };
        let heard = found.hear(self.alloc, buffer, tick)?;
        if !heard.is_lost() {
            return Ok(heard);
        }
        self.forwards.links.remove(&forward);
        Ok(heard)
    }

    /// The cache has closed a forward. What waits to be written is dropped. Where its link works, and the origin hasn't
    /// ended it, our half is ended, and its stream is returned, which is to linger until the origin ends it, too.
    pub fn close_origin(&mut self, forward: u64) -> Option<S>
        ensures tells { (bounds : Bounds) (log : List Move) → ArePeers S.has_given S.has_got bounds self.old log
            → ArePeers S.has_given S.has_got bounds self.new (Closed (Origin forward) ∷ log) }
        ensures shown { (log : List Move) → ShowNoMore S.has_got self.old log → ShowNoMore S.has_got self.new log }
        ensures behind { get nat_cmp self.new.forwards.links forward ≡ None }
        ensures lingers { is_some result ≡ is_there_and (get nat_cmp self.old.forwards.links forward) lingers }
        ensures only { ChangesOnly (Origin forward) self.old self.new }
    {
        match self.forwards.links.remove(&forward) {
            Some(closed) => closed.into_lingering(),
            None => None,
        }
    }

    /// There is no link for a forward any more, or none could be made: that is heard next.
    pub fn lose_origin(&mut self, forward: u64, reason: Reason)
        ensures kept { KeepsPeers S.has_given S.has_got self.old self.new }
        ensures behind { Behind (ForwardIsLost reason) (get nat_cmp self.old.forwards.links forward) (get nat_cmp self.new.forwards.links forward) }
        ensures lost { lost_at forward self.new.forwards.links ≡ option_map (λ _. reason) (get nat_cmp self.old.forwards.links forward) }
        ensures only { ChangesOnly (Origin forward) self.old self.new }
    {
        match self.forwards.links.get_mut(&forward) {
            Some(lost) => lost.lose(reason),
            None => {}
        }
    }

    /// A link begins to be made for a forward that has a place, if its request waits for one. Returns whether it has a
    /// place, and there is memory for a link; else the stream is dropped, and the request waits still.
    pub fn link(&mut self, forward: u64, stream: S, tick: u64) -> bool
        ensures kept { S.has_given stream [] → S.has_got stream [] → KeepsPeers S.has_given S.has_got self.old self.new }
        ensures linked { result ≡ true → is_waiting_at forward self.old.forwards.links ≡ true → is_linked forward self.new.forwards ≡ true }
        ensures waits { result ≡ false → is_waiting_at forward self.new.forwards.links ≡ is_waiting_at forward self.old.forwards.links }
        ensures behind { Behind (ForwardIsLinked result tick) (get nat_cmp self.old.forwards.links forward) (get nat_cmp self.new.forwards.links forward) }
        // The time that a forward may take in all is counted from the first link.
        ensures begun { result ≡ true → begun_at forward self.new.forwards.links
            ≡ option_map (λ kept. unwrap_or kept.begun tick) (get nat_cmp self.old.forwards.links forward) }
        ensures only { ChangesOnly (Origin forward) self.old self.new }
    {
        if !self.may_link(forward) {
            return false;
        }
        match self.forwards.links.get_mut(&forward) {
            Some(waiting) => waiting.link(self.alloc, stream, tick).is_ok(),
            None => true,
        }
    }

    /// Whether a forward has a place in which no link lingers.
    fn may_link(&self, forward: u64) -> bool
        ensures { result ≡ (has_place forward self.now.places && not (is_lingering forward self.now.lingering)) }
    {
        self.places.has(forward) & !self.lingering.has(forward)
    }

    /// Where a forward's link has failed before it was known to work, the request waits for another one. Returns whether
    /// it does. No request waits again of which octets were written, or behind which octets were read.
    pub fn retry(&mut self, forward: u64) -> bool
        ensures kept { KeepsPeers S.has_given S.has_got self.old self.new }
        ensures unused { result ≡ true → (bounds : Bounds) (log : List Move) → ArePeers S.has_given S.has_got bounds self.old log
            → IsSomeAnd (get nat_cmp self.old.forwards.links forward) (λ kept. HasUnusedLink S.has_given S.has_got kept.reaching) }
        ensures can { result ≡ can_retry forward self.old }
        ensures behind { Behind (ForwardRetries result) (get nat_cmp self.old.forwards.links forward) (get nat_cmp self.new.forwards.links forward) }
        ensures waits { result ≡ true → is_waiting_at forward self.new.forwards.links ≡ true }
        ensures none { result ≡ false → get nat_cmp self.new.forwards.links forward ≡ get nat_cmp self.old.forwards.links forward }
        ensures begun { begun_at forward self.new.forwards.links ≡ begun_at forward self.old.forwards.links }
        ensures only { ChangesOnly (Origin forward) self.old self.new }
    {
        match self.forwards.links.get_mut(&forward) {
            Some(failed) => failed.retry(),
            None => false,
        }
    }

    /// Whether a forward's request may wait for another link now: its link has failed before it was known to work.
    pub fn can_retry(&self, forward: u64) -> bool
        ensures { result ≡ can_retry forward self.now }
    {
        match self.forwards.links.get(&forward) {
            Some(failed) => failed.may_retry(),
            None => false,
        }
    }
}
