//! Links to the origin that linger, and what is noted of them.

ghost use Rattle.std.specs.Prelude.{◌≡◌, ◌∷◌, List, true, false};
ghost use Rattle.hc_agenda.specs.Due.{same_timeout};
ghost use Rattle.hc_agenda.specs.declared.deadline.Timeout.TheVariants as timeouts;
ghost use Rattle.hc_order.specs.declared.receiver.Receiver.TheVariants.{Origin};
ghost use Rattle.hc_peers.specs.Keeping.{KeepsPeers};
ghost use Rattle.hc_peers.specs.Lingering.{GainsNoLingerer};
ghost use Rattle.hc_attended.specs.Notes.{KeepsNotes, due_of, no_deadline, no_link};
ghost use Rattle.hc_attended.specs.Tending.{ChangesLingering, IsFreed, IsLingeringAttended, IsLingeringMarked};

use crate::attended::Attended;
use crate::times::ORIGIN_LINGERS;
use crate::world::World;
use hc_agenda::{Agenda, Timeout};
use hc_flow::Stream;
use hc_order::Receiver;
use hc_peers::{Peers, Remainder};

impl<W: World> Attended<W> {
    ghost use Rattle.hc_agenda.specs.Turns.{IsFirstTurn};
    ghost use Rattle.std.specs.Prelude.{Some};
    ghost use Rattle.hc_order.specs.Log.{Move};
    ghost use Rattle.hc_order.specs.Log.Move.{Closed};
    ghost use Rattle.hc_peers.specs.Lingering.{is_lingering};
    ghost use Rattle.hc_attended.specs.Grounds.{KeepsAllBut, KeepsServed};
    ghost use Rattle.hc_peers.specs.Peers.{ArePeers, Bounds};
    ghost use Rattle.hc_peers.specs.Shown.{ShowNoMore};

    /// The cache has closed a forward. Its link lingers in its place, where it works, there is memory for that, and links may
    /// linger; else it is dropped, and the place is free.
    pub fn close_origin(&mut self, forward: u64, may_linger: bool)
        ensures tells { (bounds : Bounds) (log : List Move) → ArePeers W.Stream.has_given W.Stream.has_got bounds self.old.peers log
            → ArePeers W.Stream.has_given W.Stream.has_got bounds self.new.peers (Closed (Origin forward) ∷ log) }
        ensures shown { (log : List Move) → ShowNoMore W.Stream.has_got self.old.peers log → ShowNoMore W.Stream.has_got self.new.peers log }
        ensures others { KeepsAllBut forward self.old.peers self.new.peers }
    {
        let closed = self.peers.close_origin(forward);
        linger(
            &mut self.peers,
            &mut self.agenda,
            forward,
            closed,
            may_linger,
            self.time.tick,
        );
        self.freed |= free_place(&mut self.peers, &mut self.agenda, forward);
    }

    /// What is told of a link that lingers asks for a turn, whatever it is.
    pub fn give_lingering_turn(&mut self, forward: u64)
        ensures kept { KeepsPeers W.Stream.has_given W.Stream.has_got self.old.peers self.new.peers }
        ensures served { KeepsServed self.old.peers self.new.peers }
    {
        give_lingering_turn(&mut self.peers, &mut self.agenda, forward);
    }

    /// Drops what comes on a link to the origin that lingers, and whose turn it is; and then the link, once nothing more does.
    pub fn drop_rest_of_origin(&mut self, forward: u64, buffer: &mut [u8])
        requires turn { IsFirstTurn (Some (Origin forward)) self.old.agenda.turns }
        requires lingers { is_lingering forward self.old.peers.lingering ≡ true }
        ensures kept { KeepsPeers W.Stream.has_given W.Stream.has_got self.old.peers self.new.peers }
        ensures served { KeepsServed self.old.peers self.new.peers }
    {
        self.agenda.turns.next();
        drop_rest(&mut self.peers, &mut self.agenda, forward, buffer);
        self.freed |= free_place(&mut self.peers, &mut self.agenda, forward);
    }

    /// Drops a link to the origin, if it lingers.
    pub fn drop_lingering(&mut self, forward: u64)
        ensures kept { KeepsPeers W.Stream.has_given W.Stream.has_got self.old.peers self.new.peers }
        ensures gone { is_lingering forward self.new.peers.lingering ≡ false }
        ensures served { KeepsServed self.old.peers self.new.peers }
    {
        self.agenda.forget(Timeout::OriginLingering, forward);
        self.peers.drop_lingering(forward);
        self.freed |= free_place(&mut self.peers, &mut self.agenda, forward);
    }
}

/// A forward that has gone, and whose link has, needs its place no more. Returns whether it has gone.
pub(crate) fn free_place<S: Stream + Drop>(
    peers: &mut Peers<S>,
    agenda: &mut Agenda,
    forward: u64,
) -> bool
    ensures kept { KeepsPeers S.has_given S.has_got peers.old peers.new }
    ensures frees { IsFreed forward peers.old peers.new agenda.old agenda.new }
{
    if peers.forwards.has(forward) || peers.lingering.has(forward) {
        return false;
    }
    peers.free_place(forward);
    agenda.forget_forward(forward);
    agenda.forget(Timeout::OriginLingering, forward);
    true
}

/// The link of a forward that was closed lingers in its place, if there is one, links may linger, and there is memory for
/// that, and goes in time.
fn linger<S: Stream + Drop>(
    peers: &mut Peers<S>,
    agenda: &mut Agenda,
    forward: u64,
    closed: Option<S>,
    may_linger: bool,
    tick: u64,
)
    ensures kept { KeepsPeers S.has_given S.has_got peers.old peers.new }
    ensures only { ChangesLingering forward peers.old peers.new }
    ensures notes { KeepsNotes no_link no_link (due_of (same_timeout timeouts.OriginLingering) forward) agenda.old agenda.new }
    ensures attended { agenda.new.refused ≡ false → IsLingeringAttended forward tick peers.old agenda.old → IsLingeringAttended forward tick peers.new agenda.new }
{
    let Some(stream) = closed else {
        return;
    };
    if !may_linger {
        return;
    }
    if !peers.linger(forward, stream) {
        return;
    }
    let due = tick.saturating_add(ORIGIN_LINGERS);
    agenda.note(Timeout::OriginLingering, due, forward);
    give_lingering_turn(peers, agenda, forward);
}

/// A link that lingers is to be heard, if it is there and isn't to be heard already.
fn give_lingering_turn<S: Stream + Drop>(peers: &mut Peers<S>, agenda: &mut Agenda, forward: u64)
    ensures kept { KeepsPeers S.has_given S.has_got peers.old peers.new }
    ensures only { ChangesLingering forward peers.old peers.new }
    ensures gains { GainsNoLingerer peers.old.lingering peers.new.lingering }
    ensures notes { KeepsNotes no_link no_link no_deadline agenda.old agenda.new }
    ensures stands { agenda.new.refused ≡ false → IsLingeringMarked forward peers.old agenda.old → IsLingeringMarked forward peers.new agenda.new }
{
    if peers.queue_lingering(forward) {
        agenda.give_turn(Receiver::Origin(forward));
    }
}

/// Drops what comes on a link to the origin that lingers, and then the link, once nothing more does.
fn drop_rest<S: Stream + Drop>(
    peers: &mut Peers<S>,
    agenda: &mut Agenda,
    forward: u64,
    buffer: &mut [u8],
)
    ensures kept { KeepsPeers S.has_given S.has_got peers.old peers.new }
    ensures only { ChangesLingering forward peers.old peers.new }
    ensures gains { GainsNoLingerer peers.old.lingering peers.new.lingering }
    ensures notes { KeepsNotes no_link no_link no_deadline agenda.old agenda.new }
    ensures stands { agenda.new.refused ≡ false → IsLingeringMarked forward peers.new agenda.new }
{
    match peers.discard_lingering(forward, buffer) {
        Remainder::More => give_lingering_turn(peers, agenda, forward),
        Remainder::Later => {}
        Remainder::Over => {
            peers.drop_lingering(forward);
        }
    }
}
