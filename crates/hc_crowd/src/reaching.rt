//! Forwards get links to the origin.

ghost use Rattle.std.specs.Prelude.{◌≡◌, ◌⊎◌, ◌+◌, ◌∷◌, [], ℕ, IfSome, None, Some, true};

use crate::traffic::Traffic;
use hc_agenda::PlaceCandidate;
use hc_attended::World;
use hc_incoming::Trouble;
use hc_links::Awaiting;
use hc_order::Receiver;

impl<W: World> Traffic<W> {
    ghost use Rattle.hc_agenda.specs.Places.{IsNext, count_waiting, first_in, opened_in};
    ghost use Rattle.hc_crowd.specs.Courses.{is_late};
    ghost use Rattle.hc_order.specs.declared.occurrence.Reason.TheVariants.{Late};
    ghost use Rattle.hc_peers.specs.Forwards.{lost_at};
    ghost use Rattle.hc_peers.specs.Keeping.{KeepsPeers};

    /// Forwards that were opened stand in line for places: behind all others those that nobody awaits.
    pub(crate) fn sort_opened<A: Awaiting>(&mut self, cache: &A)
        ensures kept { KeepsPeers W.Stream.has_given W.Stream.has_got self.old.links.peers self.new.links.peers }
        ensures sorted { opened_in self.new.links.peers.places ≡ [] }
    {
        'opened: while let Some(forward) = self.links.peers().places.first_opened() {
            self.sort(forward, cache.is_background(forward));
        }
    }

    /// A forward that was opened, the first of them, stands in line for a place. Where there is no time for that, or no memory,
    /// it fails.
    fn sort(&mut self, forward: u64, background: bool)
        requires first { first_in (opened_in self.old.links.peers.places) ≡ Some forward }
        ensures kept { KeepsPeers W.Stream.has_given W.Stream.has_got self.old.links.peers self.new.links.peers }
        ensures late { (f : ℕ) → lost_at f self.new.links.peers.forwards.links ≡ Some Late
            → (is_late self.old.told.course ≡ true) ⊎ (lost_at f self.old.links.peers.forwards.links ≡ Some Late) }
        ensures fewer { opened_in self.old.links.peers.places ≡ forward ∷ opened_in self.new.links.peers.places }
    {
        if self.told.course.is_late() {
            self.links.lose_opened();
            return;
        }
        if !self.links.stand_in_line(background) {
            self.note_unreached(forward);
        }
    }

    /// Begins to connect for forwards that wait, as far as there are places.
    pub(crate) fn give_places(&mut self)
        ensures kept { KeepsPeers W.Stream.has_given W.Stream.has_got self.old.links.peers self.new.links.peers }
        ensures placed { IsNext self.new.links.peers.places None }
        ensures opened { opened_in self.new.links.peers.places ≡ opened_in self.old.links.peers.places }
    {
        'places: while let Some(candidate) = self.links.peers().places.candidate() {
            self.give_place(candidate);
        }
    }

    /// The next forward that may have a place gets it, and begins to connect. One that was closed meanwhile, or has failed,
    /// gets none.
    fn give_place(&mut self, candidate: PlaceCandidate)
        requires next { IsNext self.old.links.peers.places (Some candidate) }
        ensures kept { KeepsPeers W.Stream.has_given W.Stream.has_got self.old.links.peers self.new.links.peers }
        ensures fewer { count_waiting self.new.links.peers.places + 1 ≡ count_waiting self.old.links.peers.places }
        ensures opened { opened_in self.new.links.peers.places ≡ opened_in self.old.links.peers.places }
    {
        let forward = candidate.forward;
        if !self.links.is_waiting(forward) {
            self.links.skip_candidate(candidate);
            return;
        }
        let stream = self.begin_to_connect(forward);
        if !self.links.reach(candidate, stream) {
            self.note_unreached(forward);
        }
    }

    /// A link for a forward that begins to be made.
    fn begin_to_connect(&mut self, forward: u64) -> Option<W::Stream>
        ensures links { self.new.links ≡ self.old.links }
        ensures fresh { IfSome result (λ stream. W.Stream.has_given stream [] × W.Stream.has_got stream []) }
    {
        let attempt = self.attempts(forward);
        self.world.connect(forward, attempt)
    }

    /// How many links were begun for a forward; none for one that isn't there.
    pub(crate) fn attempts(&self, forward: u64) -> u32 {
        match self.links.peers().forwards.get(forward) {
            Some(kept) => kept.attempts(),
            None => 0,
        }
    }

    /// A forward fails for which no link could be made.
    pub(crate) fn note_unreached(&mut self, forward: u64)
        ensures links { self.new.links ≡ self.old.links }
    {
        self.troubles
            .note(Receiver::Origin(forward), Trouble::Unreached);
    }
}
