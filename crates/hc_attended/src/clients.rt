//! Clients, and what is noted of them.

ghost use Rattle.std.specs.Prelude.{◌≡◌, ◌⊎◌, ◌∷◌, [], ℕ, List, None, Some, true, false, IsErr};
ghost use Rattle.std.specs.BTreeMap.{get};
ghost use Rattle.std.specs.Ordering.{nat_cmp};
ghost use Rattle.hc_agenda.specs.Due.{same_timeout};
ghost use Rattle.hc_agenda.specs.declared.agenda.Agenda.{Agenda};
ghost use Rattle.hc_agenda.specs.declared.deadline.Timeout.TheVariants as timeouts;
ghost use Rattle.hc_attended.specs.Notes.{KeepsNotes, due_of, no_link};
ghost use Rattle.hc_attended.specs.Tending.{IsClientTimed, TendsClient, TurnsOnly};
ghost use Rattle.hc_attended.specs.declared.times.Times.{Times};
ghost use Rattle.hc_peers.specs.Clients.{may_go};
ghost use Rattle.hc_peers.specs.Keeping.{KeepsPeers};
ghost use Rattle.hc_peers.specs.Known.{KeepsKnown, known_at};
ghost use Rattle.hc_peers.specs.Tables.{is_there_and};
ghost use Rattle.hc_attended.specs.Tails.{KeepsTail, LetsGo};

use crate::attended::Attended;
use crate::seeing::{begin_turn, give_turn, learn, see_to_client};
use crate::times::{LOOKS_AGAIN, Times};
use crate::world::World;
use hc_agenda::{Agenda, Timeout};
use hc_flow::{Heard, Readiness, Stream};
use hc_order::Receiver;
use hc_peers::{Hearing, Peers};
use std::alloc::AllocError;

impl<W: World> Attended<W> {
    ghost use Rattle.hc_agenda.specs.Turns.{IsFirstTurn};
    ghost use Rattle.hc_service.specs.declared.event.Happening.TheVariants.{ClientOpened};
    ghost use Rattle.hc_order.specs.Log.{Move};
    ghost use Rattle.hc_order.specs.Log.Move.{Closed};
    ghost use Rattle.hc_order.specs.Mirrors.{MayHappen};
    ghost use Rattle.hc_order.specs.declared.receiver.Receiver.TheVariants.{Client};
    ghost use Rattle.hc_peers.specs.Heard.{IsAnswerOf, told};
    ghost use Rattle.hc_peers.specs.Hearings.{ClientFailsOnly, HasFailedAt, IsHeardFor, IsToldAtOnce};
    ghost use Rattle.hc_peers.specs.Keeping.{Hears};
    ghost use Rattle.hc_peers.specs.Known.{is_cut_at, is_open_at};
    ghost use Rattle.hc_peers.specs.Peers.{ArePeers, Bounds, IsNext, MayOpen};
    ghost use Rattle.hc_peers.specs.Peers.Bounds.{AtMost};
    ghost use Rattle.hc_peers.specs.Shown.{ShowNoMore};
    ghost use Rattle.hc_peers.specs.Telling.{KeepsOpened};
    ghost use Rattle.hc_attended.specs.Grounds.{MayEnd};
    ghost use Rattle.hc_attended.specs.Tending.{ChangesClient};

    /// A client has opened the connection of the next number, where fewer than so many are open, and it was a guest before.
    /// It has a turn before all others, in this batch. Where memory is refused, its link is closed, and the number isn't
    /// used.
    pub fn open(&mut self, number: u64, stream: W::Stream, most: usize) -> Result<(), AllocError>
        requires next { IsNext self.old.peers number }
        requires room { MayOpen self.old.peers most }
        ensures tells { W.Stream.has_given stream [] → W.Stream.has_got stream [] → (origin : ℕ) (log : List Move)
            → ArePeers W.Stream.has_given W.Stream.has_got (AtMost most origin) self.old.peers log
            → KeepsOpened (ArePeers W.Stream.has_given W.Stream.has_got (AtMost most origin) self.new.peers) number result log }
        ensures may { (bounds : Bounds) (log : List Move) → ArePeers W.Stream.has_given W.Stream.has_got bounds self.old.peers log
            → MayHappen most (ClientOpened number) log }
        ensures shown { W.Stream.has_got stream [] → (log : List Move) → ShowNoMore W.Stream.has_got self.old.peers log
            → ShowNoMore W.Stream.has_got self.new.peers log }
        ensures only { ChangesClient number self.old.peers self.new.peers }
    {
        self.peers.open(number, stream, most, self.time.tick)?;
        self.agenda.give_turn_now(Receiver::Client(number));
        watch_client(
            &self.peers,
            &mut self.agenda,
            number,
            self.time.tick,
            self.times,
        );
        Ok(())
    }

    /// Takes in what the system tells of a client's link.
    pub fn learn_of_client(&mut self, number: u64, readiness: Readiness)
        requires told { W.tells_of (Client number) readiness ≡ true }
        ensures kept { KeepsPeers W.Stream.has_given W.Stream.has_got self.old.peers self.new.peers }
        ensures fails { ClientFailsOnly W.Stream.has_failed (readiness.failed ≡ true) (known_at number self.old.peers.clients.links) (known_at number self.new.peers.clients.links) }
        ensures only { ChangesClient number self.old.peers self.new.peers }
    {
        learn(
            &mut self.peers,
            &mut self.agenda,
            Receiver::Client(number),
            readiness,
            self.time.tick,
        );
        see_to_client(&mut self.peers, &mut self.agenda, number, self.time.tick);
    }

    /// The cache has closed a client's connection: behind what is owed the client finds an end.
    pub fn close_client(&mut self, number: u64)
        ensures tells { (bounds : Bounds) (log : List Move) → ArePeers W.Stream.has_given W.Stream.has_got bounds self.old.peers log
            → ArePeers W.Stream.has_given W.Stream.has_got bounds self.new.peers (Closed (Client number) ∷ log) }
        ensures shown { (log : List Move) → ShowNoMore W.Stream.has_got self.old.peers log → ShowNoMore W.Stream.has_got self.new.peers log }
        // What is owed stays owed.
        ensures fails { ClientFailsOnly W.Stream.has_failed ⊥ (known_at number self.old.peers.clients.links) (known_at number self.new.peers.clients.links) }
        ensures only { ChangesClient number self.old.peers self.new.peers }
    {
        self.peers.close_client(number);
        see_to_client(&mut self.peers, &mut self.agenda, number, self.time.tick);
    }

    /// What is heard of a client, whose turn it is. It has a further one where more may be heard.
    pub fn hear_client(
        &mut self,
        number: u64,
        buffer: &mut [u8],
        hearing: Hearing,
    ) -> Result<Heard, AllocError>
        requires turn { IsFirstTurn (Some (Client number)) self.old.agenda.turns }
        requires now { hearing.tick ≡ self.old.time.tick }
        requires grounds { MayEnd W.stop_asked self.old.times.patience self.old.time.tick self.old.peers number hearing }
        ensures heard { Hears W.Stream.has_given W.Stream.has_got (IsAnswerOf number hearing.awaited) (told (Client number) result) self.old.peers self.new.peers }
        ensures reason { IsHeardFor hearing (is_cut_at number self.old.peers.clients.links)
            (HasFailedAt W.Stream.has_failed (known_at number self.old.peers.clients.links) (known_at number self.new.peers.clients.links)) result }
        ensures at_once { is_open_at number self.old.peers.clients.links ≡ true → IsToldAtOnce (is_cut_at number self.old.peers.clients.links) hearing.late result }
        ensures fails { ClientFailsOnly W.Stream.has_failed ((hearing.late ≡ true) ⊎ IsErr result) (known_at number self.old.peers.clients.links) (known_at number self.new.peers.clients.links) }
        ensures only { ChangesClient number self.old.peers self.new.peers }
    {
        begin_turn(&mut self.peers, &mut self.agenda, Receiver::Client(number));
        let heard = self.peers.hear_client(number, buffer, hearing);
        see_to_client(&mut self.peers, &mut self.agenda, number, self.time.tick);
        heard
    }

    /// Drops what a client whose connection is closed still sends, and whose turn it is; and then its link, once nothing more
    /// comes and all that was owed to it was written or is lost. Where its time is over, that is lost.
    pub fn drop_rest_of_client(&mut self, number: u64, buffer: &mut [u8], hearing: Hearing)
        requires turn { IsFirstTurn (Some (Client number)) self.old.agenda.turns }
        requires grounds { MayEnd W.stop_asked self.old.times.patience self.old.time.tick self.old.peers number hearing }
        ensures kept { KeepsPeers W.Stream.has_given W.Stream.has_got self.old.peers self.new.peers }
        ensures tail { hearing.late ≡ false → KeepsTail W.Stream.has_failed (known_at number self.old.peers.clients.links) (known_at number self.new.peers.clients.links) }
        ensures only { ChangesClient number self.old.peers self.new.peers }
    {
        begin_turn(&mut self.peers, &mut self.agenda, Receiver::Client(number));
        lose_late(&mut self.peers, number, hearing.late);
        if drop_rest(&mut self.peers, &mut self.agenda, number, buffer) {
            self.freed = true;
        }
        see_to_client(&mut self.peers, &mut self.agenda, number, self.time.tick);
    }

    /// Drops a client's link, where the cache has closed the connection, and all that was owed was written, or is lost. Else
    /// it isn't tried again for its time.
    pub fn let_go(&mut self, number: u64)
        ensures kept { KeepsPeers W.Stream.has_given W.Stream.has_got self.old.peers self.new.peers }
        ensures goes { LetsGo (known_at number self.old.peers.clients.links) (known_at number self.new.peers.clients.links) }
        ensures only { ChangesClient number self.old.peers self.new.peers }
    {
        if let_go(&mut self.peers, &mut self.agenda, number) {
            self.freed = true;
        } else {
            self.agenda.forget(Timeout::ClientLingering, number);
        }
    }

    /// A client whose time is over is to be heard: in its turn the cache is asked whether a request of it awaits its reply.
    /// Any other is looked at again.
    pub fn look_at_client(&mut self, number: u64)
        ensures kept { KeepsPeers W.Stream.has_given W.Stream.has_got self.old.peers self.new.peers }
        ensures known { KeepsKnown self.old.peers.clients.links self.new.peers.clients.links }
        ensures turns { TurnsOnly (Client number) self.old.peers self.new.peers }
    {
        let patience = self.times.patience;
        if self.peers.is_overdue(number, self.time.tick, patience) {
            give_turn(&mut self.peers, &mut self.agenda, Receiver::Client(number));
            let look = self.time.tick.saturating_add(LOOKS_AGAIN);
            self.agenda.note(Timeout::Client, look, number);
        } else {
            watch_client(
                &self.peers,
                &mut self.agenda,
                number,
                self.time.tick,
                self.times,
            );
        }
    }
}

/// A client is looked at once its time may be over. What passes at its link moves no deadline: that is moved, where the time
/// isn't over, once it has come. One that isn't there is looked at no more.
fn watch_client<S: Stream + Drop>(
    peers: &Peers<S>,
    agenda: &mut Agenda,
    number: u64,
    tick: u64,
    times: Times,
)
    ensures notes { KeepsNotes no_link no_link (due_of (same_timeout timeouts.Client) number) agenda.old agenda.new }
    ensures timed { agenda.new.refused ≡ false → IsClientTimed number times tick peers.now agenda.new }
{
    match peers.clients.get(number) {
        Some(client) => {
            let look = client.pace().next_look(tick, times.patience);
            agenda.note(Timeout::Client, look, number);
        }
        None => agenda.forget(Timeout::Client, number),
    }
}

/// Where a client's time is over, what is owed to it is lost.
fn lose_late<S: Stream + Drop>(peers: &mut Peers<S>, number: u64, late: bool)
    ensures kept { KeepsPeers S.has_given S.has_got peers.old peers.new }
    ensures only { late ≡ false → peers.new ≡ peers.old }
    ensures tends { (times : Times) (tick : ℕ) (agenda : Agenda) → TendsClient number times tick peers.old peers.new agenda agenda }
{
    if late {
        peers.lose_client(number);
    }
}

/// Drops what a client whose connection is closed still sends, and then its link, once nothing more comes and all that was
/// owed to it was written or is lost. Returns whether the link has gone.
fn drop_rest<S: Stream + Drop>(
    peers: &mut Peers<S>,
    agenda: &mut Agenda,
    number: u64,
    buffer: &mut [u8],
) -> bool
    ensures kept { KeepsPeers S.has_given S.has_got peers.old peers.new }
    ensures tail { KeepsTail S.has_failed (known_at number peers.old.clients.links) (known_at number peers.new.clients.links) }
    ensures tends { (times : Times) (tick : ℕ) → TendsClient number times tick peers.old peers.new agenda.old agenda.new }
{
    if !peers.discard(number, buffer) {
        return false;
    }
    let_go(peers, agenda, number)
}

/// Drops a client's link, where the cache has closed the connection, and all that was owed was written, or is lost. Returns
/// whether it did.
fn let_go<S: Stream + Drop>(peers: &mut Peers<S>, agenda: &mut Agenda, number: u64) -> bool
    ensures kept { KeepsPeers S.has_given S.has_got peers.old peers.new }
    ensures goes { LetsGo (known_at number peers.old.clients.links) (known_at number peers.new.clients.links) }
    ensures gone { result ≡ true → get nat_cmp peers.new.clients.links number ≡ None }
    ensures stays { result ≡ false → (get nat_cmp peers.new.clients.links number ≡ get nat_cmp peers.old.clients.links number) × (agenda.new ≡ agenda.old) × (is_there_and (get nat_cmp peers.old.clients.links number) may_go ≡ false) }
    ensures tends { (times : Times) (tick : ℕ) → TendsClient number times tick peers.old peers.new agenda.old agenda.new }
{
    if !peers.let_go(number) {
        return false;
    }
    agenda.forget_client(number);
    true
}
