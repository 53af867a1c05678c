//! Forwards get places at the origin, and links that linger keep theirs.

ghost use Rattle.std.specs.Prelude.{◌≡◌, ◌++◌, ◌∷◌, [], ◌&&◌, ◌||◌, not, true, false, ℕ, None, option_map, IfSome, OnErr, OnOk};

use crate::lingerer::{Lingerer, Remainder};
use crate::peers::Peers;
use hc_agenda::PlaceCandidate;
use hc_flow::Stream;
use std::alloc::AllocError;
use std::mem;

impl<S: Stream + Drop> Peers<S> {
    ghost use Rattle.std.specs.BTreeMap.{get, is_at};
    ghost use Rattle.std.specs.Ordering.{nat_cmp};
    ghost use Rattle.hc_agenda.specs.Places.{ChangesLine, ChangesOpened, HasPlaceLeft, IsNext, KeepsLines, TakesForward, TakesNext, awaited_in, has_place, line_of, opened_in, unawaited_in, without_first};
    ghost use Rattle.hc_peers.specs.Behind.{Behind, LingersBy, StandsNoMore, in_turn};
    ghost use Rattle.hc_peers.specs.Lingering.{GainsNoLingerer, is_lingering};
    ghost use Rattle.hc_peers.specs.Tables.{KeepsOthers, is_there_and};
    ghost use Rattle.hc_peers.specs.Forwards.{is_linked};
    ghost use Rattle.hc_peers.specs.Keeping.{KeepsPeers};

    /// The link of a forward that was closed lingers in its place. Returns whether it does: it has a place, and there is
    /// memory for that; else the link is dropped.
    pub fn linger(&mut self, forward: u64, stream: S) -> bool
        ensures kept { KeepsPeers S.has_given S.has_got self.old self.new }
        ensures others { (f : ℕ) → is_at (nat_cmp forward) f ≡ false → is_lingering f self.new.lingering ≡ is_lingering f self.old.lingering }
        ensures behind { LingersBy result (get nat_cmp self.old.lingering.links forward) (get nat_cmp self.new.lingering.links forward) }
        ensures same { KeepsOthers forward self.old.lingering.links self.new.lingering.links }
        ensures rest { self.new ≡ record self.old { lingering = self.new.lingering } }
    {
        if !self.may_linger(forward) {
            return false;
        }
        self.lingering.put(forward, Lingerer::new(stream)).is_ok()
    }

    /// Whether a forward has a place, and no link.
    fn may_linger(&self, forward: u64) -> bool
        ensures { result ≡ (has_place forward self.now.places && not (is_linked forward self.now.forwards)) }
    {
        self.places.has(forward) & !self.is_linked(forward)
    }

    /// Whether a forward has a link, or one begins to be made.
    pub fn is_linked(&self, forward: u64) -> bool
        ensures { result ≡ is_linked forward self.now.forwards }
    {
        match self.forwards.links.get(&forward) {
            Some(kept) => kept.has_link(),
            None => false,
        }
    }

    /// A link that lingers stands among the turns. Returns whether it lingers and didn't stand there before.
    pub fn queue_lingering(&mut self, forward: u64) -> bool
        ensures kept { KeepsPeers S.has_given S.has_got self.old self.new }
        ensures first { result ≡ is_there_and (get nat_cmp self.old.lingering.links forward) (λ lingerer. not lingerer.queued) }
        ensures behind { get nat_cmp self.new.lingering.links forward ≡ option_map in_turn (get nat_cmp self.old.lingering.links forward) }
        ensures same { KeepsOthers forward self.old.lingering.links self.new.lingering.links }
        ensures gains { GainsNoLingerer self.old.lingering self.new.lingering }
        ensures rest { self.new ≡ record self.old { lingering = self.new.lingering } }
    {
        match self.lingering.links.get_mut(&forward) {
            Some(lingerer) => !mem::replace(&mut lingerer.queued, true),
            None => false,
        }
    }

    /// Reads what comes on a link that lingers, once, and drops it. It stands among the turns no more.
    pub fn discard_lingering(&mut self, forward: u64, buffer: &mut [u8]) -> Remainder
        ensures kept { KeepsPeers S.has_given S.has_got self.old self.new }
        ensures behind { Behind StandsNoMore (get nat_cmp self.old.lingering.links forward) (get nat_cmp self.new.lingering.links forward) }
        ensures same { KeepsOthers forward self.old.lingering.links self.new.lingering.links }
        ensures gains { GainsNoLingerer self.old.lingering self.new.lingering }
        ensures rest { self.new ≡ record self.old { lingering = self.new.lingering } }
    {
        match self.lingering.links.get_mut(&forward) {
            Some(lingerer) => lingerer.discard(buffer),
            None => Remainder::Over,
        }
    }

    /// Drops a link that lingers. Returns whether it lingered.
    pub fn drop_lingering(&mut self, forward: u64) -> bool
        ensures kept { KeepsPeers S.has_given S.has_got self.old self.new }
        ensures was { result ≡ is_lingering forward self.old.lingering }
        ensures behind { get nat_cmp self.new.lingering.links forward ≡ None }
        ensures same { KeepsOthers forward self.old.lingering.links self.new.lingering.links }
        ensures gains { GainsNoLingerer self.old.lingering self.new.lingering }
        ensures rest { self.new ≡ record self.old { lingering = self.new.lingering } }
    {
        self.lingering.links.remove(&forward).is_some()
    }

    /// The first of the forwards that were opened and aren't sorted yet, which is taken out.
    pub fn next_opened(&mut self) -> Option<u64>
        ensures kept { KeepsPeers S.has_given S.has_got self.old self.new }
        ensures rest { self.new ≡ record self.old { places = self.new.places } }
        ensures first { TakesForward result (opened_in self.old.places) (opened_in self.new.places) }
        ensures line { ChangesOpened self.old.places self.new.places }
    {
        self.places.next_opened()
    }

    /// A forward waits for a place.
    pub fn wait_for_place(&mut self, forward: u64, background: bool) -> Result<(), AllocError>
        ensures kept { KeepsPeers S.has_given S.has_got self.old self.new }
        ensures rest { self.new ≡ record self.old { places = self.new.places } }
        ensures ok { OnOk result (line_of background self.new.places ≡ line_of background self.old.places ++ forward ∷ []) }
        ensures err { OnErr result (line_of background self.new.places ≡ line_of background self.old.places) }
        ensures line { ChangesLine background self.old.places self.new.places }
    {
        self.places.wait(forward, background)
    }

    /// A forward waits for a place no more. The one that has waited for longest is taken out at once, any other once its
    /// turn comes.
    pub fn leave_places(&mut self, forward: u64)
        ensures kept { KeepsPeers S.has_given S.has_got self.old self.new }
        ensures rest { self.new ≡ record self.old { places = self.new.places } }
        ensures opened { opened_in self.new.places ≡ opened_in self.old.places }
        ensures awaited { awaited_in self.new.places ≡ without_first forward (awaited_in self.old.places) }
        ensures unawaited { unawaited_in self.new.places ≡ without_first forward (unawaited_in self.old.places) }
    {
        self.places.leave(forward);
    }

    /// The next forward that may have a place now, which is taken out.
    pub fn next_candidate(&mut self) -> Option<PlaceCandidate>
        ensures kept { KeepsPeers S.has_given S.has_got self.old self.new }
        ensures rest { self.new ≡ record self.old { places = self.new.places } }
        ensures first { IsNext self.old.places result }
        ensures taken { TakesNext result self.old.places self.new.places }
        ensures left { IfSome result (λ _. HasPlaceLeft self.new.places) }
    {
        self.places.next()
    }

    /// A forward has a place. Where memory is refused, all is as it was.
    pub fn give_place(&mut self, candidate: PlaceCandidate) -> Result<(), AllocError>
        requires left { HasPlaceLeft self.old.places }
        ensures kept { KeepsPeers S.has_given S.has_got self.old self.new }
        ensures given { OnOk result (has_place candidate.forward self.new.places ≡ true) }
        ensures rest { self.new ≡ record self.old { places = self.new.places } }
        ensures lines { KeepsLines self.old.places self.new.places }
    {
        self.places.give(candidate)
    }

    /// A forward needs its place no more, if it has neither a link nor one that lingers.
    pub fn free_place(&mut self, forward: u64)
        ensures kept { KeepsPeers S.has_given S.has_got self.old self.new }
        ensures freed { is_linked forward self.old.forwards ≡ false → is_lingering forward self.old.lingering ≡ false → has_place forward self.new.places ≡ false }
        ensures others { (f : ℕ) → is_at (nat_cmp forward) f ≡ false → has_place f self.new.places ≡ has_place f self.old.places }
        ensures rest { self.new ≡ record self.old { places = self.new.places } }
        ensures lines { KeepsLines self.old.places self.new.places }
    {
        if self.needs_place(forward) {
            return;
        }
        self.places.free(forward);
    }

    /// Whether a forward has a link, or one lingers.
    fn needs_place(&self, forward: u64) -> bool
        ensures { result ≡ (is_linked forward self.now.forwards || is_lingering forward self.now.lingering) }
    {
        self.is_linked(forward) | self.lingering.has(forward)
    }
}
