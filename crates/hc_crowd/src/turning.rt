//! Links have their turns.

ghost use Rattle.std.specs.Prelude.{◌≡◌, ◌⊎◌, ◌&&◌, ◌||◌, not, true, false, Some, IsErr};

use crate::limits::Limits;
use crate::traffic::Traffic;
use hc_agenda::Holding;
use hc_attended::World;
use hc_flow::{Heard, Pace};
use hc_links::{Awaiting, Happened};
use hc_order::{Reason, Receiver};
use hc_peers::{Hearing, happened};
use hc_service::Happening;
use std::alloc::AllocError;

impl<W: World> Traffic<W> {
    ghost use Rattle.hc_crowd.specs.Courses.{EndsUnawaited, EndsUnbegun, FailsAt, HasGrounds, ends_idle, is_late, is_over_for, is_over_in_any_case, stops};
    ghost use Rattle.hc_attended.specs.Grounds.{is_idle};
    ghost use Rattle.hc_agenda.specs.Turns.{IsFirstTurn};
    ghost use Rattle.hc_crowd.specs.Held.{HoldsAsWeighed};
    ghost use Rattle.hc_attended.specs.Tails.{KeepsTail};
    ghost use Rattle.hc_peers.specs.Behind.{can_retry};
    ghost use Rattle.hc_peers.specs.Lingering.{is_lingering};
    ghost use Rattle.hc_peers.specs.declared.client.Hearing.{Hearing};
    ghost use Rattle.hc_order.specs.declared.receiver.Receiver.TheVariants.{Client, Origin};
    ghost use Rattle.hc_peers.specs.Heard.{IsAnswerOf, NoAnswer, told};
    ghost use Rattle.hc_peers.specs.Hearings.{IsHeardFor, IsToldAtOnce};
    ghost use Rattle.hc_peers.specs.Keeping.{Hears, HearsWithin, KeepsPeers};
    ghost use Rattle.hc_peers.specs.Losses.{IsLossOf};
    ghost use Rattle.hc_peers.specs.Tables.{is_there_and};
    ghost use Rattle.hc_peers.specs.Known.{is_cut_at, is_open_at, known_at};
    ghost use Rattle.std.specs.BTreeMap.{get};
    ghost use Rattle.std.specs.Ordering.{nat_cmp};

    /// What happens next: a stop was asked, which is told before all else, once; something is heard of a link that has its turn
    /// in this batch; or octets of a guest have come. Before that who has connected is accepted, what holds too much is cut
    /// off, and forwards are given up for which nobody waits.
    pub(crate) fn happening<A: Awaiting>(
        &mut self,
        cache: &A,
        limits: Limits,
        holding: &mut Holding,
    ) -> Result<Option<Happened>, AllocError>
        ensures heard { HearsWithin W.Stream.has_given W.Stream.has_got limits.connections (A.awaited cache.now) result self.old.links.peers self.new.links.peers }
        ensures held { HoldsAsWeighed W.Stream.has_given W.Stream.has_got limits.connections (A.holds cache.now) limits.held self.old.links.peers holding.old holding.new }
    {
        self.note_incidents(cache);
        if self.announces_stop() {
            return Ok(Some(Happened {
                of: Happening::Stopping,
                reason: Reason::Stop,
            }));
        }
        self.accept_all(cache, limits)?;
        self.bound_held(cache, limits.held, holding)?;
        self.give_up_abandoned(cache, limits.abandoned)?;
        self.troubles.count_noted(cache);
        if let Some(happened) = self.take_turns(cache)? {
            return Ok(Some(happened));
        }
        self.welcome(limits)
    }

    /// Counts what was wrong with what was handed to the cache last. Something is handed to it now, or else in a later batch.
    fn note_incidents<A: Awaiting>(&mut self, cache: &A)
        ensures kept { KeepsPeers W.Stream.has_given W.Stream.has_got self.old.links.peers self.new.links.peers }
        ensures peers { self.new.links.peers ≡ self.old.links.peers }
        ensures course { (self.new.told.course ≡ self.old.told.course) × (self.new.announced ≡ self.old.announced) }
    {
        if self.handed {
            self.troubles.count_all(cache.incidents());
        }
        self.handed = false;
    }

    /// Whether the cache is to be told of a stop now: one was asked, and it wasn't told yet.
    fn announces_stop(&mut self) -> bool
        ensures kept { KeepsPeers W.Stream.has_given W.Stream.has_got self.old.links.peers self.new.links.peers }
        ensures peers { self.new.links.peers ≡ self.old.links.peers }
        ensures once { result ≡ (stops self.old.told.course && not self.old.announced) }
        ensures told { self.new.announced ≡ (self.old.announced || stops self.old.told.course) }
    {
        if self.announced || !self.told.course.stops() {
            return false;
        }
        self.announced = true;
        true
    }

    /// What is heard of the next link that has its turn in this batch, and of which something is heard.
    fn take_turns<A: Awaiting>(&mut self, cache: &A) -> Result<Option<Happened>, AllocError>
        ensures heard { Hears W.Stream.has_given W.Stream.has_got (A.awaited cache.now) result self.old.links.peers self.new.links.peers }
        ensures unbegun { EndsUnbegun (A.holds cache.now) result }
    {
        'turns: for _ in 0..u64::MAX {
            let Some(link) = self.links.agenda.turns.first() else {
                return Ok(None);
            };
            if let Some(happened) = self.turn(link, cache)? {
                return Ok(Some(happened));
            }
        }
        Ok(None)
    }

    /// What is heard in a link's turn.
    fn turn<A: Awaiting>(
        &mut self,
        link: Receiver,
        cache: &A,
    ) -> Result<Option<Happened>, AllocError>
        requires turn { IsFirstTurn (Some link) self.old.links.agenda.turns }
        ensures heard { Hears W.Stream.has_given W.Stream.has_got (A.awaited cache.now) result self.old.links.peers self.new.links.peers }
        ensures unbegun { EndsUnbegun (A.holds cache.now) result }
        ensures unawaited { EndsUnawaited (A.awaited cache.now) (is_late self.old.told.course) result }
    {
        match link {
            Receiver::Client(number) => {
                let awaited = cache.awaits(number);
                let begun = cache.held(Receiver::Client(number)) > 0;
                let heard = self.client_turn(number, awaited, begun)?;
                Ok(happened(Receiver::Client(number), heard))
            }
            Receiver::Origin(forward) => {
                let heard = self.origin_turn(forward)?;
                self.troubles.count_noted(cache);
                Ok(happened(Receiver::Origin(forward), heard))
            }
        }
    }

    /// What is heard in the turn of a client, of whose requests one awaits its reply or none does, and of whose next request
    /// something has come or nothing.
    fn client_turn(&mut self, number: u64, awaited: bool, begun: bool) -> Result<Heard, AllocError>
        requires turn { IsFirstTurn (Some (Client number)) self.old.links.agenda.turns }
        ensures heard { Hears W.Stream.has_given W.Stream.has_got (IsAnswerOf number awaited) (told (Client number) result) self.old.links.peers self.new.links.peers }
        ensures reason { (hearing : Hearing) × HasGrounds self.old.told.course self.old.giving_way self.old.links.times.patience self.old.links.peers number begun hearing
            × (hearing.awaited ≡ awaited) × (hearing.tick ≡ self.old.links.time.tick)
            × IsHeardFor hearing (is_cut_at number self.old.links.peers.clients.links) (FailsAt W.Stream.has_failed number self.old.links.peers self.new.links.peers) result }
        ensures at_once { is_open_at number self.old.links.peers.clients.links ≡ true → IsToldAtOnce (is_cut_at number self.old.links.peers.clients.links)
            (is_over_in_any_case self.old.told.course self.old.links.peers number awaited self.old.links.time.tick self.old.links.times.patience) result }
        // Where its time isn't over, nothing that is owed to it is lost, unless memory is refused.
        ensures tail { is_over_for self.old.told.course self.old.links.peers number awaited self.old.links.time.tick self.old.links.times.patience ≡ false
            → IsErr result ⊎ KeepsTail W.Stream.has_failed (known_at number self.old.links.peers.clients.links) (known_at number self.new.links.peers.clients.links) }
    {
        let hearing = self.hearing_of(number, awaited, begun);
        if self.is_closed(number) {
            self.links
                .drop_rest_of_client(number, self.buffer.as_mut_slice(), hearing);
            return Ok(Heard::Nothing);
        }
        self.links
            .hear_client(number, self.buffer.as_mut_slice(), hearing)
    }

    /// What decides how a client is heard in its turn.
    fn hearing_of(&self, number: u64, awaited: bool, begun: bool) -> Hearing
        ensures grounds { HasGrounds self.now.told.course self.now.giving_way self.now.links.times.patience self.now.links.peers number begun result }
        ensures awaited { result.awaited ≡ awaited }
        ensures tick { result.tick ≡ self.now.links.time.tick }
        ensures sure { is_over_in_any_case self.now.told.course self.now.links.peers number awaited self.now.links.time.tick self.now.links.times.patience ≡ true → result.late ≡ true }
    {
        let late = self.is_over_for(number, awaited);
        let stops = self.is_stopped(number, begun);
        let gives_way = self.gives_way(number, begun);
        Hearing {
            awaited,
            stops,
            gives_way,
            late,
            tick: self.links.time.tick,
        }
    }

    /// Whether a stop ends a client: one that is idle, and of whose next request nothing has come.
    fn is_stopped(&self, number: u64, begun: bool) -> bool
        ensures idle { result ≡ true → (ends_idle self.now.told.course && is_idle self.now.links.peers number) ≡ true }
        ensures begun { begun ≡ true → result ≡ false }
    {
        self.told.course.ends_idle() && !begun && self.is_silent(number)
    }

    /// Whether a client was asked to give way, is idle still, and nothing of its next request has come.
    fn gives_way(&self, number: u64, begun: bool) -> bool
        ensures asked { result ≡ true → (self.now.giving_way ≡ Some number) × (is_idle self.now.links.peers number ≡ true) }
        ensures begun { begun ≡ true → result ≡ false }
    {
        let Some(asked) = self.giving_way else {
            return false;
        };
        if asked != number {
            return false;
        }
        !begun && self.is_silent(number)
    }

    /// Whether a client is idle, and no octets of it have come.
    fn is_silent(&self, number: u64) -> bool
        ensures { result ≡ true → is_idle self.now.links.peers number ≡ true }
    {
        let Some(client) = self.links.peers().clients.get(number) else {
            return false;
        };
        match client.pace() {
            Pace::Idle(_) => !client.has_octets(),
            Pace::Asking(_, _) => false,
            Pace::Taking(_) => false,
        }
    }

    /// Whether there is no more time for a client: behind a stop, or, where no request of it awaits its reply, by how it is
    /// getting on. Of one that was idle for too long octets may have come already: these are read.
    fn is_over_for(&self, number: u64, awaited: bool) -> bool
        ensures only { result ≡ true → is_over_for self.now.told.course self.now.links.peers number awaited self.now.links.time.tick self.now.links.times.patience ≡ true }
        ensures always { is_over_in_any_case self.now.told.course self.now.links.peers number awaited self.now.links.time.tick self.now.links.times.patience ≡ true → result ≡ true }
    {
        if self.told.course.is_late() {
            return true;
        }
        !awaited
            && self
                .links
                .peers()
                .is_overdue(number, self.links.time.tick, self.links.patience())
            && !self.is_back(number)
    }

    /// Whether a client was idle, and octets of it have come.
    fn is_back(&self, number: u64) -> bool
        ensures { result ≡ true → is_idle self.now.links.peers number ≡ true }
    {
        let Some(client) = self.links.peers().clients.get(number) else {
            return false;
        };
        match client.pace() {
            Pace::Idle(_) => client.has_octets(),
            Pace::Asking(_, _) => false,
            Pace::Taking(_) => false,
        }
    }

    /// Whether a client is there whose connection the cache has closed.
    pub(crate) fn is_closed(&self, number: u64) -> bool
        ensures { result ≡ is_there_and (get nat_cmp self.now.links.peers.clients.links number) (λ client. client.closed) }
    {
        match self.links.peers().clients.get(number) {
            Some(client) => client.is_closed(),
            None => false,
        }
    }

    /// What is heard in the turn of a forward, or of its link that lingers. Behind a link that has failed before it was known to
    /// work, another one is tried.
    fn origin_turn(&mut self, forward: u64) -> Result<Heard, AllocError>
        requires turn { IsFirstTurn (Some (Origin forward)) self.old.links.agenda.turns }
        ensures heard { Hears W.Stream.has_given W.Stream.has_got NoAnswer (told (Origin forward) result) self.old.links.peers self.new.links.peers }
    {
        if self.links.peers().lingering.has(forward) {
            self.links
                .drop_rest_of_origin(forward, self.buffer.as_mut_slice());
            return Ok(Heard::Nothing);
        }
        if self.links.peers().can_retry(forward) {
            self.retry(forward);
            return Ok(Heard::Nothing);
        }
        self.hear_origin(forward)
    }

    /// Another link is tried for a forward.
    fn retry(&mut self, forward: u64)
        requires turn { IsFirstTurn (Some (Origin forward)) self.old.links.agenda.turns }
        requires may { can_retry forward self.old.links.peers ≡ true }
        requires apart { is_lingering forward self.old.links.peers.lingering ≡ false }
        ensures kept { KeepsPeers W.Stream.has_given W.Stream.has_got self.old.links.peers self.new.links.peers }
    {
        let attempt = self.attempts(forward);
        if !self.links.retry(forward, &mut self.world, attempt) {
            self.note_unreached(forward);
        }
    }

    /// What is heard of a forward.
    fn hear_origin(&mut self, forward: u64) -> Result<Heard, AllocError>
        requires turn { IsFirstTurn (Some (Origin forward)) self.old.links.agenda.turns }
        requires apart { is_lingering forward self.old.links.peers.lingering ≡ false }
        ensures heard { Hears W.Stream.has_given W.Stream.has_got NoAnswer (told (Origin forward) result) self.old.links.peers self.new.links.peers }
        ensures reason { IsLossOf (get nat_cmp self.old.links.peers.forwards.links forward) result }
    {
        let was_linked = self.links.peers().is_linked(forward);
        let heard = self.links.hear_origin(forward, self.buffer.as_mut_slice());
        self.troubles
            .note_break(forward, was_linked & is_loss(&heard));
        heard
    }
}

/// Whether a link is lost by that.
fn is_loss(heard: &Result<Heard, AllocError>) -> bool {
    match heard {
        Ok(heard) => heard.is_lost(),
        Err(AllocError) => false,
    }
}
