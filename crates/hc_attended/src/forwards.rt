//! Forwards, and what is noted of them.

ghost use Rattle.std.specs.Prelude.{◌≡◌, ◌⊎◌, ◌+◌, [], ℕ, Some, None, true, false, option_map, IfSome};
ghost use Rattle.std.specs.BTreeMap.{get};
ghost use Rattle.std.specs.Ordering.{nat_cmp};
ghost use Rattle.hc_agenda.specs.Agendas.{owed_in};
ghost use Rattle.hc_agenda.specs.Deadlines.{is_of_forward};
ghost use Rattle.hc_agenda.specs.Due.{same_timeout};
ghost use Rattle.hc_agenda.specs.declared.deadline.Timeout.TheVariants as timeouts;
ghost use Rattle.hc_attended.specs.Grounds.{KeepsAllBut, KeepsServed};
ghost use Rattle.hc_attended.specs.Notes.{KeepsNotes, due_of, is_due_up_to, no_deadline, no_link};
ghost use Rattle.hc_attended.specs.Overdue.{progress_of};
ghost use Rattle.hc_attended.specs.Tending.{IsForwardInTime, IsForwardMarked, IsForwardSeenTo, IsForwardWatched};
ghost use Rattle.hc_attended.specs.declared.times.Times.{Times};
ghost use Rattle.hc_order.specs.declared.receiver.Receiver.TheVariants.{Origin};
ghost use Rattle.hc_peers.specs.Forwards.{is_opening_at, is_waiting_at, lost_at, turned};
ghost use Rattle.hc_peers.specs.declared.forward.Reaching.TheVariants.{Lost};
ghost use Rattle.hc_peers.specs.Keeping.{KeepsPeers};
ghost use Rattle.hc_peers.specs.Peers.{ChangesOnly, FailsOnlyAt, is_failed_by};

use crate::attended::Attended;
use crate::lingering::free_place;
use crate::seeing::{begin_turn, see_to_forward};
use crate::times::Times;
use crate::world::World;
use hc_agenda::{Agenda, PlaceCandidate, Timeout};
use hc_flow::{ForwardProgress, Heard, Readiness, Stream};
use hc_incoming::Trouble;
use hc_order::{Reason, Receiver};
use hc_peers::Peers;
use std::alloc::AllocError;

impl<W: World> Attended<W> {
    ghost use Rattle.hc_agenda.specs.Places.{IsNext, TakesForward, count_waiting, first_in, opened_in};
    ghost use Rattle.hc_agenda.specs.Turns.{IsFirstTurn};
    ghost use Rattle.hc_agenda.specs.declared.places.PlaceCandidate.{PlaceCandidate};
    ghost use Rattle.hc_order.specs.declared.occurrence.Reason.TheVariants.{Late};
    ghost use Rattle.hc_peers.specs.Behind.{can_retry};
    ghost use Rattle.hc_peers.specs.Heard.{NoAnswer, told};
    ghost use Rattle.hc_peers.specs.Keeping.{Hears};
    ghost use Rattle.hc_peers.specs.Lingering.{is_lingering};
    ghost use Rattle.hc_peers.specs.Losses.{HearsAt, IsLossOf};
    ghost use Rattle.hc_attended.specs.Overdue.{is_forward_overdue};

    /// Takes in what the system tells of a forward's link.
    pub fn learn_of_forward(&mut self, forward: u64, readiness: Readiness)
        requires told { W.tells_of (Origin forward) readiness ≡ true }
        ensures kept { KeepsPeers W.Stream.has_given W.Stream.has_got self.old.peers self.new.peers }
        ensures fails { FailsOnlyAt W.Stream.has_failed (is_failed_by readiness (Origin forward) self.old.peers ≡ true) (Origin forward) self.old.peers self.new.peers }
        ensures only { ChangesOnly (Origin forward) self.old.peers self.new.peers }
    {
        learn(
            &mut self.peers,
            &mut self.agenda,
            forward,
            readiness,
            self.time.tick,
        );
        see_to_forward(&mut self.peers, &mut self.agenda, forward);
    }

    /// Whether a forward is there whose request waits for a link.
    pub fn is_waiting(&self, forward: u64) -> bool
        ensures { result ≡ is_waiting_at forward self.now.peers.forwards.links }
    {
        is_waiting(&self.peers, forward)
    }

    /// The first of the forwards that were opened stands in line for a place from now on, so long at most: behind all others
    /// where nobody awaits it. Where there is no memory for that, it fails. Returns whether it stands there.
    pub fn stand_in_line(&mut self, background: bool) -> bool
        ensures first { TakesForward (first_in (opened_in self.old.peers.places)) (opened_in self.old.peers.places) (opened_in self.new.peers.places) }
        ensures kept { KeepsPeers W.Stream.has_given W.Stream.has_got self.old.peers self.new.peers }
        ensures late { (forward : ℕ) → lost_at forward self.new.peers.forwards.links ≡ Some Late → lost_at forward self.old.peers.forwards.links ≡ Some Late }
        ensures others { IfSome (first_in (opened_in self.old.peers.places)) (λ forward. KeepsAllBut forward self.old.peers self.new.peers) }
    {
        let Some(forward) = self.peers.next_opened() else {
            return true;
        };
        if self.peers.wait_for_place(forward, background).is_err() {
            lose(&mut self.peers, &mut self.agenda, forward, Reason::Reset);
            return false;
        }
        let due = self.time.tick.saturating_add(self.times.queue_timeout);
        self.agenda.note(Timeout::Place, due, forward);
        true
    }

    /// The first of the forwards that were opened fails, since there is no time for it any more behind a stop.
    pub fn lose_opened(&mut self)
        requires grounds { W.stop_asked ≡ true }
        ensures first { TakesForward (first_in (opened_in self.old.peers.places)) (opened_in self.old.peers.places) (opened_in self.new.peers.places) }
        ensures kept { KeepsPeers W.Stream.has_given W.Stream.has_got self.old.peers self.new.peers }
        ensures others { IfSome (first_in (opened_in self.old.peers.places)) (λ forward. KeepsAllBut forward self.old.peers self.new.peers) }
    {
        if let Some(forward) = self.peers.next_opened() {
            lose(&mut self.peers, &mut self.agenda, forward, Reason::Late);
        }
    }

    /// The next forward that may have a place stands in line no more: it isn't there, or waits for no link.
    pub fn skip_candidate(&mut self, candidate: PlaceCandidate)
        requires next { IsNext self.old.peers.places (Some candidate) }
        requires gone { is_waiting_at candidate.forward self.old.peers.forwards.links ≡ false }
        ensures kept { KeepsPeers W.Stream.has_given W.Stream.has_got self.old.peers self.new.peers }
        ensures fewer { count_waiting self.new.peers.places + 1 ≡ count_waiting self.old.peers.places }
        ensures opened { opened_in self.new.peers.places ≡ opened_in self.old.peers.places }
        ensures served { KeepsServed self.old.peers self.new.peers }
    {
        self.peers.next_candidate();
    }

    /// The next forward that may have a place gets it, and the link that began to be made for it. It fails where none could
    /// be made, or there is no memory for it. Returns whether it has a link.
    pub fn reach(&mut self, candidate: PlaceCandidate, stream: Option<W::Stream>) -> bool
        requires next { IsNext self.old.peers.places (Some candidate) }
        requires waits { is_waiting_at candidate.forward self.old.peers.forwards.links ≡ true }
        ensures kept { IfSome stream (λ fresh. W.Stream.has_given fresh [] × W.Stream.has_got fresh []) → KeepsPeers W.Stream.has_given W.Stream.has_got self.old.peers self.new.peers }
        ensures fewer { count_waiting self.new.peers.places + 1 ≡ count_waiting self.old.peers.places }
        ensures opened { opened_in self.new.peers.places ≡ opened_in self.old.peers.places }
        ensures others { KeepsAllBut candidate.forward self.old.peers self.new.peers }
    {
        let forward = candidate.forward;
        self.peers.next_candidate();
        if self.peers.give_place(candidate).is_err() {
            lose(&mut self.peers, &mut self.agenda, forward, Reason::Reset);
            return false;
        }
        link_or_lose(
            &mut self.peers,
            &mut self.agenda,
            Attempt {
                forward,
                tick: self.time.tick,
                times: self.times,
            },
            stream,
        )
    }

    /// Behind a link that has failed before it was known to work, a forward whose turn it is gets another one, once that is
    /// closed: so many were begun by then. It fails where none could be made, or there is no memory for it. Returns whether
    /// it has a link.
    pub fn retry(&mut self, forward: u64, world: &mut W, attempt: u32) -> bool
        requires turn { IsFirstTurn (Some (Origin forward)) self.old.agenda.turns }
        requires may { can_retry forward self.old.peers ≡ true }
        requires apart { is_lingering forward self.old.peers.lingering ≡ false }
        ensures kept { KeepsPeers W.Stream.has_given W.Stream.has_got self.old.peers self.new.peers }
        ensures others { KeepsAllBut forward self.old.peers self.new.peers }
    {
        begin_turn(&mut self.peers, &mut self.agenda, Receiver::Origin(forward));
        self.peers.retry(forward);
        let stream = world.connect(forward, attempt);
        link_or_lose(
            &mut self.peers,
            &mut self.agenda,
            Attempt {
                forward,
                tick: self.time.tick,
                times: self.times,
            },
            stream,
        )
    }

    /// What is heard of a forward, whose turn it is. It has a further one where more may be heard. One that has failed is
    /// there no more, and needs its place no more.
    pub fn hear_origin(&mut self, forward: u64, buffer: &mut [u8]) -> Result<Heard, AllocError>
        requires turn { IsFirstTurn (Some (Origin forward)) self.old.agenda.turns }
        requires apart { is_lingering forward self.old.peers.lingering ≡ false }
        ensures heard { Hears W.Stream.has_given W.Stream.has_got NoAnswer (told (Origin forward) result) self.old.peers self.new.peers }
        ensures reason { IsLossOf (get nat_cmp self.old.peers.forwards.links forward) result }
        // One that is not lost is reached as far as before.
        ensures stays { HearsAt W.Stream.has_failed (get nat_cmp self.old.peers.forwards.links forward) (get nat_cmp self.new.peers.forwards.links forward) result }
        ensures others { KeepsAllBut forward self.old.peers self.new.peers }
    {
        begin_turn(&mut self.peers, &mut self.agenda, Receiver::Origin(forward));
        let heard = self.peers.hear_origin(forward, buffer, self.time.tick);
        watch_on(&self.peers, &mut self.agenda, forward, self.times);
        self.freed |= free_place(&mut self.peers, &mut self.agenda, forward);
        see_to_forward(&mut self.peers, &mut self.agenda, forward);
        heard
    }

    /// A forward fails, since there is no time for it any more behind a stop. That is told in its turn.
    pub fn lose_late(&mut self, forward: u64)
        requires grounds { W.stop_asked ≡ true }
        ensures kept { KeepsPeers W.Stream.has_given W.Stream.has_got self.old.peers self.new.peers }
        ensures lost { lost_at forward self.new.peers.forwards.links ≡ option_map (λ _. Late) (get nat_cmp self.old.peers.forwards.links forward) }
        ensures only { ChangesOnly (Origin forward) self.old.peers self.new.peers }
    {
        lose(&mut self.peers, &mut self.agenda, forward, Reason::Late);
    }

    /// The time that a forward may wait for a place is over: one fails that waits still. Returns whether it does.
    pub fn end_waiting(&mut self, forward: u64) -> bool
        requires due { is_due_up_to timeouts.Place forward self.old.time.tick self.old.agenda ≡ true }
        ensures kept { KeepsPeers W.Stream.has_given W.Stream.has_got self.old.peers self.new.peers }
        ensures only { (is_waiting_at forward self.old.peers.forwards.links ≡ true) ⊎ (self.new.peers ≡ self.old.peers) }
        ensures others { KeepsAllBut forward self.old.peers self.new.peers }
    {
        self.agenda.forget(Timeout::Place, forward);
        if !is_waiting(&self.peers, forward) {
            return false;
        }
        self.peers.leave_places(forward);
        lose(&mut self.peers, &mut self.agenda, forward, Reason::Late);
        true
    }

    /// The time that a link may take to be made is over: a forward fails whose link isn't known to work. Returns whether it
    /// does.
    pub fn end_connect(&mut self, forward: u64) -> bool
        requires due { is_due_up_to timeouts.Connect forward self.old.time.tick self.old.agenda ≡ true }
        ensures kept { KeepsPeers W.Stream.has_given W.Stream.has_got self.old.peers self.new.peers }
        ensures only { (is_opening_at forward self.old.peers.forwards.links ≡ true) ⊎ (self.new.peers ≡ self.old.peers) }
        ensures others { KeepsAllBut forward self.old.peers self.new.peers }
    {
        self.agenda.forget(Timeout::Connect, forward);
        if !is_opening(&self.peers, forward) {
            return false;
        }
        lose(&mut self.peers, &mut self.agenda, forward, Reason::Late);
        true
    }

    /// A forward fails whose time is over. Any other is looked at again. Returns for what it fails, if it does.
    pub fn look_at_forward(&mut self, forward: u64) -> Option<Trouble>
        ensures kept { KeepsPeers W.Stream.has_given W.Stream.has_got self.old.peers self.new.peers }
        ensures only { (is_forward_overdue forward self.old.peers self.old.time.tick self.old.times.patience ≡ true) ⊎ (self.new.peers ≡ self.old.peers) }
        ensures others { KeepsAllBut forward self.old.peers self.new.peers }
    {
        match self.trouble_by_time(forward) {
            Some(trouble) => {
                self.agenda.forget(Timeout::Origin, forward);
                lose(&mut self.peers, &mut self.agenda, forward, Reason::Late);
                Some(trouble)
            }
            None => {
                watch_forward(&self.peers, &mut self.agenda, forward, self.times);
                None
            }
        }
    }

    /// For what a forward fails whose time is over, if it is.
    fn trouble_by_time(&self, forward: u64) -> Option<Trouble>
        ensures { IfSome result (λ _. is_forward_overdue forward self.now.peers self.now.time.tick self.now.times.patience ≡ true) }
    {
        let progress = progress_of(&self.peers, forward)?;
        if progress.is_silent(self.time.tick, self.times.patience) {
            return Some(Trouble::Silent);
        }
        if progress.is_overdue(self.time.tick, self.times.patience) {
            return Some(Trouble::Unfinished);
        }
        None
    }
}

/// A link that begins to be made.
#[derive(Clone, Copy)]
struct Attempt {
    forward: u64,
    tick: u64,
    times: Times,
}

/// A forward that waits for a link gets that one, if it began to be made. Else it fails. Returns whether it has a link.
fn link_or_lose<S: Stream + Drop>(
    peers: &mut Peers<S>,
    agenda: &mut Agenda,
    attempt: Attempt,
    stream: Option<S>,
) -> bool
    ensures kept { IfSome stream (λ fresh. S.has_given fresh [] × S.has_got fresh []) → KeepsPeers S.has_given S.has_got peers.old peers.new }
    ensures only { ChangesOnly (Origin attempt.forward) peers.old peers.new }
    ensures absent { get nat_cmp peers.old.forwards.links attempt.forward ≡ None → get nat_cmp peers.new.forwards.links attempt.forward ≡ None }
    ensures notes { KeepsNotes no_link no_link (due_of is_of_forward attempt.forward) agenda.old agenda.new }
    ensures seen { agenda.new.refused ≡ false → IsForwardMarked attempt.forward peers.old agenda.old → IsForwardSeenTo attempt.forward peers.new agenda.new }
    ensures timed { agenda.new.refused ≡ false → is_waiting_at attempt.forward peers.old.forwards.links ≡ true → IsForwardInTime attempt.forward attempt.times attempt.tick peers.new agenda.new }
{
    let Some(stream) = stream else {
        lose(peers, agenda, attempt.forward, Reason::Reset);
        return false;
    };
    if !peers.link(attempt.forward, stream, attempt.tick) {
        lose(peers, agenda, attempt.forward, Reason::Reset);
        return false;
    }
    watch_link(peers, agenda, attempt);
    see_to_forward(peers, agenda, attempt.forward);
    true
}

/// There is no link for a forward any more, or none could be made, which is told in its turn.
pub(crate) fn lose<S: Stream + Drop>(
    peers: &mut Peers<S>,
    agenda: &mut Agenda,
    forward: u64,
    reason: Reason,
)
    ensures kept { KeepsPeers S.has_given S.has_got peers.old peers.new }
    ensures only { ChangesOnly (Origin forward) peers.old peers.new }
    ensures absent { get nat_cmp peers.old.forwards.links forward ≡ None → get nat_cmp peers.new.forwards.links forward ≡ None }
    ensures lost { lost_at forward peers.new.forwards.links ≡ option_map (λ _. reason) (get nat_cmp peers.old.forwards.links forward) }
    ensures notes { KeepsNotes no_link no_link no_deadline agenda.old agenda.new }
    ensures seen { agenda.new.refused ≡ false → IsForwardMarked forward peers.old agenda.old → IsForwardSeenTo forward peers.new agenda.new }
    ensures timed { (times : Times) (tick : ℕ) → IsForwardInTime forward times tick peers.new agenda.new }
{
    peers.lose_origin(forward, reason);
    see_to_forward(peers, agenda, forward);
}

/// The same, before all others in this batch.
pub(crate) fn lose_now<S: Stream + Drop>(
    peers: &mut Peers<S>,
    agenda: &mut Agenda,
    forward: u64,
    reason: Reason,
)
    ensures kept { KeepsPeers S.has_given S.has_got peers.old peers.new }
    ensures only { ChangesOnly (Origin forward) peers.old peers.new }
    ensures absent { get nat_cmp peers.old.forwards.links forward ≡ None → get nat_cmp peers.new.forwards.links forward ≡ None }
    ensures lost { IfSome (option_map (turned false) (get nat_cmp peers.new.forwards.links forward)) (λ lost. lost.reaching ≡ Lost reason) }
    ensures notes { KeepsNotes no_link no_link no_deadline agenda.old agenda.new }
    ensures seen { agenda.new.refused ≡ false → IsForwardSeenTo forward peers.new agenda.new }
    ensures timed { (times : Times) (tick : ℕ) → IsForwardInTime forward times tick peers.new agenda.new }
{
    peers.lose_origin(forward, reason);
    peers.queue(Receiver::Origin(forward));
    agenda.give_turn_now(Receiver::Origin(forward));
}

/// Takes in what the system tells of a forward's link, which has a turn where it asks for one.
fn learn<S: Stream + Drop>(
    peers: &mut Peers<S>,
    agenda: &mut Agenda,
    forward: u64,
    readiness: Readiness,
    tick: u64,
)
    ensures kept { KeepsPeers S.has_given S.has_got peers.old peers.new }
    ensures only { ChangesOnly (Origin forward) peers.old peers.new }
    ensures absent { get nat_cmp peers.old.forwards.links forward ≡ None → get nat_cmp peers.new.forwards.links forward ≡ None }
    ensures notes { KeepsNotes no_link no_link no_deadline agenda.old agenda.new }
    ensures fails { FailsOnlyAt S.has_failed (is_failed_by readiness (Origin forward) peers.old ≡ true) (Origin forward) peers.old peers.new }
    ensures marked { agenda.new.refused ≡ false → IsForwardMarked forward peers.old agenda.old → IsForwardMarked forward peers.new agenda.new }
    ensures timed { (times : Times) (now : ℕ) → IsForwardInTime forward times now peers.old agenda.old → IsForwardInTime forward times now peers.new agenda.new }
{
    let link = Receiver::Origin(forward);
    if peers.learn(link, readiness, tick) {
        agenda.give_turn(link);
    }
}

/// A link for a forward begins to be made: it is looked at once the time for that is over, and once its own is.
fn watch_link<S: Stream + Drop>(peers: &Peers<S>, agenda: &mut Agenda, attempt: Attempt)
    ensures notes { KeepsNotes no_link no_link (due_of is_of_forward attempt.forward) agenda.old agenda.new }
    ensures connects { agenda.new.refused ≡ false → is_due_up_to timeouts.Connect attempt.forward (attempt.tick + attempt.times.connect_timeout) agenda.new ≡ true }
    ensures watched { agenda.new.refused ≡ false → IsForwardWatched attempt.forward attempt.times peers.now agenda.new }
{
    let due = attempt.tick.saturating_add(attempt.times.connect_timeout);
    agenda.note(Timeout::Connect, due, attempt.forward);
    watch_forward(peers, agenda, attempt.forward, attempt.times);
}

/// A forward that has a link is looked at once its time may be over: so it is with that of a client.
fn watch_forward<S: Stream + Drop>(
    peers: &Peers<S>,
    agenda: &mut Agenda,
    forward: u64,
    times: Times,
)
    ensures notes { KeepsNotes no_link no_link (due_of (same_timeout timeouts.Origin) forward) agenda.old agenda.new }
    ensures watched { agenda.new.refused ≡ false → IsForwardWatched forward times peers.now agenda.new }
{
    match progress_of(peers, forward) {
        Some(progress) => agenda.note(Timeout::Origin, progress.next_look(times.patience), forward),
        None => agenda.forget(Timeout::Origin, forward),
    }
}

/// The same behind what passed at its link, which mostly puts its time off: then its deadline stays.
pub(crate) fn watch_on<S: Stream + Drop>(
    peers: &Peers<S>,
    agenda: &mut Agenda,
    forward: u64,
    times: Times,
)
    ensures notes { KeepsNotes no_link no_link (due_of (same_timeout timeouts.Origin) forward) agenda.old agenda.new }
    ensures watched { agenda.new.refused ≡ false → IsForwardWatched forward times peers.now agenda.new }
    ensures owed { owed_in agenda.new ≡ owed_in agenda.old }
{
    let Some(progress) = progress_of(peers, forward) else {
        return;
    };
    let look = progress.next_look(times.patience);
    if agenda.is_due_by(Timeout::Origin, forward, look) {
        return;
    }
    agenda.note(Timeout::Origin, look, forward);
}

/// How a forward is getting on at its link, if it has one.
fn progress_of<S: Stream + Drop>(peers: &Peers<S>, forward: u64) -> Option<ForwardProgress>
    ensures { result ≡ progress_of forward peers.now }
{
    match peers.forwards.get(forward) {
        Some(kept) => kept.progress(),
        None => None,
    }
}

/// Whether a forward is there whose request waits for a link.
fn is_waiting<S: Stream + Drop>(peers: &Peers<S>, forward: u64) -> bool
    ensures { result ≡ is_waiting_at forward peers.now.forwards.links }
{
    match peers.forwards.get(forward) {
        Some(kept) => kept.is_waiting(),
        None => false,
    }
}

/// Whether a forward is there whose link isn't known to work yet.
fn is_opening<S: Stream + Drop>(peers: &Peers<S>, forward: u64) -> bool
    ensures { result ≡ is_opening_at forward peers.now.forwards.links }
{
    match peers.forwards.get(forward) {
        Some(kept) => kept.is_opening(),
        None => false,
    }
}
