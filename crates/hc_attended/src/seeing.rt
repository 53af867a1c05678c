//! What may go on at a link is noted.

ghost use Rattle.std.specs.Prelude.{◌≡◌, Some, false, true};
ghost use Rattle.hc_agenda.specs.Agendas.{owed_in};
ghost use Rattle.hc_agenda.specs.Due.{same_timeout};
ghost use Rattle.hc_agenda.specs.Turns.{IsFirstTurn};
ghost use Rattle.hc_agenda.specs.declared.deadline.Timeout.TheVariants as timeouts;
ghost use Rattle.hc_peers.specs.Behind.{LearnsAt, is_closing_at, is_heard_at, may_be_written_to};
ghost use Rattle.hc_peers.specs.Keeping.{KeepsPeers};
ghost use Rattle.hc_peers.specs.Known.{KeepsKnown};
ghost use Rattle.hc_order.specs.Passages.{is_at};
ghost use Rattle.hc_order.specs.declared.receiver.Receiver.TheVariants.{Client, Origin};
ghost use Rattle.hc_peers.specs.Peers.{ChangesOnly, FailsOnlyAt, QueuesOf, is_failed_by};
ghost use Rattle.hc_attended.specs.declared.times.Times.{Times};
ghost use Rattle.hc_attended.specs.Notes.{KeepsNotes, due_of, is_noted_owed, no_deadline, no_link, stands_in_turn};
ghost use Rattle.hc_attended.specs.Tending.{IsClientMarked, IsClientSeenTo, IsForwardMarked, IsForwardSeenTo, IsMarked, LingersInTime, Stands, TendsClient, TurnsOnly};

use crate::times::CLIENT_LINGERS;
use hc_agenda::{Agenda, Timeout};
use hc_flow::{Readiness, Stream};
use hc_order::Receiver;
use hc_peers::Peers;

/// A link is to be heard, if it is there and isn't to be heard already.
pub(crate) fn give_turn<S: Stream + Drop>(peers: &mut Peers<S>, agenda: &mut Agenda, link: Receiver)
    ensures kept { KeepsPeers S.has_given S.has_got peers.old peers.new }
    ensures known { KeepsKnown peers.old.clients.links peers.new.clients.links }
    ensures turns { TurnsOnly link peers.old peers.new }
    ensures notes { KeepsNotes no_link no_link no_deadline agenda.old agenda.new }
    ensures stands { agenda.new.refused ≡ false → IsMarked link peers.old agenda.old → Stands link peers.new agenda.new }
    ensures owed { owed_in agenda.new ≡ owed_in agenda.old }
{
    if peers.queue(link) {
        agenda.give_turn(link);
    }
}

/// Where something is to be heard at a link, it has a turn.
fn hear_next<S: Stream + Drop>(peers: &mut Peers<S>, agenda: &mut Agenda, link: Receiver)
    ensures kept { KeepsPeers S.has_given S.has_got peers.old peers.new }
    ensures known { KeepsKnown peers.old.clients.links peers.new.clients.links }
    ensures turns { TurnsOnly link peers.old peers.new }
    ensures notes { KeepsNotes no_link no_link no_deadline agenda.old agenda.new }
    ensures marked { agenda.new.refused ≡ false → IsMarked link peers.old agenda.old → IsMarked link peers.new agenda.new }
    ensures heard { agenda.new.refused ≡ false → IsMarked link peers.old agenda.old → is_heard_at link peers.new ≡ true → stands_in_turn link agenda.new ≡ true }
    ensures owed { owed_in agenda.new ≡ owed_in agenda.old }
{
    if peers.is_to_be_heard(link) {
        give_turn(peers, agenda, link);
    }
}

/// Where octets may be written at a link, that is noted.
fn write_next<S: Stream + Drop>(peers: &Peers<S>, agenda: &mut Agenda, link: Receiver)
    ensures notes { KeepsNotes no_link no_link no_deadline agenda.old agenda.new }
    ensures written { agenda.new.refused ≡ false → may_be_written_to link peers.now ≡ true → is_noted_owed link agenda.new ≡ true }
    ensures none { may_be_written_to link peers.now ≡ false → agenda.new ≡ agenda.old }
{
    if peers.may_be_written(link) {
        agenda.note_owed(link);
    }
}

/// A client goes in time whose connection is closed, and to whom all was written.
fn let_linger<S: Stream + Drop>(peers: &Peers<S>, agenda: &mut Agenda, number: u64, tick: u64)
    ensures notes { KeepsNotes no_link no_link (due_of (same_timeout timeouts.ClientLingering) number) agenda.old agenda.new }
    ensures lingers { agenda.new.refused ≡ false → is_closing_at number peers.now ≡ true → LingersInTime number tick agenda.new }
    ensures owed { owed_in agenda.new ≡ owed_in agenda.old }
{
    let due = tick.saturating_add(CLIENT_LINGERS);
    if !peers.is_closing(number) {
        return;
    }
    if agenda.is_due_by(Timeout::ClientLingering, number, due) {
        return;
    }
    agenda.note(Timeout::ClientLingering, due, number);
}

/// What may go on at a client's link now is noted: where something is to be heard, it has a turn; where octets may be
/// written, that is noted; and where its connection is closed, and all was written, it goes in time.
pub(crate) fn see_to_client<S: Stream + Drop>(
    peers: &mut Peers<S>,
    agenda: &mut Agenda,
    number: u64,
    tick: u64,
)
    ensures kept { KeepsPeers S.has_given S.has_got peers.old peers.new }
    ensures known { KeepsKnown peers.old.clients.links peers.new.clients.links }
    ensures tends { (times : Times) → TendsClient number times tick peers.old peers.new agenda.old agenda.new }
    ensures seen { agenda.new.refused ≡ false → IsClientMarked number peers.old agenda.old → IsClientSeenTo number tick peers.new agenda.new }
    ensures owed { may_be_written_to (Client number) peers.old ≡ false → owed_in agenda.new ≡ owed_in agenda.old }
{
    hear_next(peers, agenda, Receiver::Client(number));
    write_next(peers, agenda, Receiver::Client(number));
    let_linger(peers, agenda, number, tick);
}

/// What may go on at a forward's link now is noted: where something is to be heard, it has a turn; where octets may be
/// written, that is noted.
pub(crate) fn see_to_forward<S: Stream + Drop>(
    peers: &mut Peers<S>,
    agenda: &mut Agenda,
    forward: u64,
)
    ensures kept { KeepsPeers S.has_given S.has_got peers.old peers.new }
    ensures turns { TurnsOnly (Origin forward) peers.old peers.new }
    ensures notes { KeepsNotes no_link no_link no_deadline agenda.old agenda.new }
    ensures seen { agenda.new.refused ≡ false → IsForwardMarked forward peers.old agenda.old → IsForwardSeenTo forward peers.new agenda.new }
    ensures owed { may_be_written_to (Origin forward) peers.old ≡ false → owed_in agenda.new ≡ owed_in agenda.old }
{
    hear_next(peers, agenda, Receiver::Origin(forward));
    write_next(peers, agenda, Receiver::Origin(forward));
}

/// The link whose turn it is has it: it stands among the turns no more.
pub(crate) fn begin_turn<S: Stream + Drop>(
    peers: &mut Peers<S>,
    agenda: &mut Agenda,
    link: Receiver,
)
    requires turn { IsFirstTurn (Some link) agenda.old.turns }
    ensures kept { KeepsPeers S.has_given S.has_got peers.old peers.new }
    ensures known { KeepsKnown peers.old.clients.links peers.new.clients.links }
    ensures turns { QueuesOf false link peers.old peers.new }
    ensures only { ChangesOnly link peers.old peers.new }
    ensures notes { KeepsNotes (is_at link) no_link no_deadline agenda.old agenda.new }
{
    agenda.turns.next();
    peers.unqueue(link);
}

/// Takes in what the system tells of a link: it has a turn, where that asks for one.
pub(crate) fn learn<S: Stream + Drop>(
    peers: &mut Peers<S>,
    agenda: &mut Agenda,
    link: Receiver,
    readiness: Readiness,
    tick: u64,
)
    ensures kept { KeepsPeers S.has_given S.has_got peers.old peers.new }
    ensures only { ChangesOnly link peers.old peers.new }
    ensures fails { FailsOnlyAt S.has_failed (is_failed_by readiness link peers.old ≡ true) link peers.old peers.new }
    ensures behind { LearnsAt link readiness tick peers.old peers.new }
    ensures notes { KeepsNotes no_link no_link no_deadline agenda.old agenda.new }
    ensures marked { agenda.new.refused ≡ false → IsMarked link peers.old agenda.old → IsMarked link peers.new agenda.new }
{
    if peers.learn(link, readiness, tick) {
        agenda.give_turn(link);
    }
}
