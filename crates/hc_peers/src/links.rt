//! What happens at a link, whether it is a client's or a forward's.

ghost use Rattle.std.specs.Prelude.{◌≡◌, ◌&&◌, true, false, List, ◌<◌};

use crate::peers::Peers;
use hc_flow::{Emptying, Readiness, Stream};
use hc_framing::MessageText;
use hc_order::Receiver;
use std::alloc::AllocError;
use std::mem;

impl<S: Stream + Drop> Peers<S> {
    ghost use Rattle.hc_flow.specs.Flows.{TellsOwed};
    ghost use Rattle.hc_flow.specs.Hearings.{wants_turn};
    ghost use Rattle.hc_links.specs.Telling.{TellsSent};
    ghost use Rattle.hc_order.specs.Log.{Move};
    ghost use Rattle.hc_peers.specs.Behind.{IsSentTo, LearnsAt, OpensAt, WritesTo, is_heard_at, may_be_written_to};
    ghost use Rattle.hc_peers.specs.Keeping.{KeepsPeers};
    ghost use Rattle.hc_peers.specs.Known.{KeepsKnown};
    ghost use Rattle.hc_peers.specs.Peers.{ArePeers, Bounds, ChangesOnly, ChangesSent, FailsOnlyAt, KeepsPaceOf, PacesWritten, QueuesOf, SendsTo, is_failed_by, is_owed_to, is_readable_at, is_unqueued};
    ghost use Rattle.hc_peers.specs.Shown.{ShowNoMore};

    /// Octets are owed to a client, or a forward is opened, and its request waits for a link. A client that isn't there
    /// loses them. Where memory is refused, nothing is sent.
    pub fn send(&mut self, to: Receiver, octets: &MessageText, tick: u64) -> Result<(), AllocError>
        ensures sent { (bounds : Bounds) (log : List Move) → ArePeers S.has_given S.has_got bounds self.old log
            → TellsSent (ArePeers S.has_given S.has_got bounds self.new) result to octets.now log }
        ensures shown { (log : List Move) → ShowNoMore S.has_got self.old log → ShowNoMore S.has_got self.new log }
        ensures client { SendsTo S.has_failed to tick self.old self.new }
        ensures behind { IsSentTo to result tick self.old self.new }
        ensures opened { OpensAt to result self.old self.new }
        ensures only { ChangesSent to self.old self.new }
    {
        match to {
            Receiver::Client(number) => match self.clients.links.get_mut(&number) {
                Some(client) => client.send(octets, tick),
                None => Ok(()),
            },
            Receiver::Origin(forward) => self.open_forward(forward, octets),
        }
    }

    /// Writes what is owed at a link, as far as it is taken now. Where there is no link nothing is returned.
    pub fn write(&mut self, link: Receiver, tick: u64) -> Option<Emptying>
        ensures tells { (bounds : Bounds) (log : List Move) → ArePeers S.has_given S.has_got bounds self.old log → ArePeers S.has_given S.has_got bounds self.new log }
        ensures owed { TellsOwed result (is_owed_to link self.new) }
        ensures behind { WritesTo link result tick self.old self.new }
        ensures fails { FailsOnlyAt S.has_failed ⊥ link self.old self.new }
        ensures pace { PacesWritten result link tick self.old self.new }
        ensures only { ChangesOnly link self.old self.new }
    {
        match link {
            Receiver::Client(number) => match self.clients.links.get_mut(&number) {
                Some(client) => Some(client.write(tick)),
                None => None,
            },
            Receiver::Origin(number) => match self.forwards.links.get_mut(&number) {
                Some(forward) => forward.write(tick),
                None => None,
            },
        }
    }

    /// What the system tells of a link. Returns whether it has to get a turn for that now.
    pub fn learn(&mut self, link: Receiver, readiness: Readiness, tick: u64) -> bool
        ensures kept { KeepsPeers S.has_given S.has_got self.old self.new }
        ensures first { result ≡ (wants_turn readiness && is_unqueued link self.old) }
        ensures behind { LearnsAt link readiness tick self.old self.new }
        ensures fails { FailsOnlyAt S.has_failed (is_failed_by readiness link self.old ≡ true) link self.old self.new }
        ensures pace { KeepsPaceOf link self.old self.new }
        ensures only { ChangesOnly link self.old self.new }
    {
        match link {
            Receiver::Client(number) => match self.clients.links.get_mut(&number) {
                Some(client) => client.learn(readiness, tick),
                None => false,
            },
            Receiver::Origin(number) => match self.forwards.links.get_mut(&number) {
                Some(forward) => forward.learn(readiness),
                None => false,
            },
        }
    }

    /// A link stands among the turns. Returns whether it is there and didn't stand there before.
    pub fn queue(&mut self, link: Receiver) -> bool
        ensures kept { KeepsPeers S.has_given S.has_got self.old self.new }
        ensures known { KeepsKnown self.old.clients.links self.new.clients.links }
        ensures first { result ≡ is_unqueued link self.old }
        ensures queued { QueuesOf true link self.old self.new }
        ensures only { ChangesOnly link self.old self.new }
    {
        match link {
            Receiver::Client(number) => match self.clients.links.get_mut(&number) {
                Some(client) => !mem::replace(&mut client.queued, true),
                None => false,
            },
            Receiver::Origin(number) => match self.forwards.links.get_mut(&number) {
                Some(forward) => !mem::replace(&mut forward.queued, true),
                None => false,
            },
        }
    }

    /// A link stands among the turns no more.
    pub fn unqueue(&mut self, link: Receiver)
        ensures kept { KeepsPeers S.has_given S.has_got self.old self.new }
        ensures known { KeepsKnown self.old.clients.links self.new.clients.links }
        ensures queued { QueuesOf false link self.old self.new }
        ensures only { ChangesOnly link self.old self.new }
    {
        match link {
            Receiver::Client(number) => match self.clients.links.get_mut(&number) {
                Some(client) => client.queued = false,
                None => {}
            },
            Receiver::Origin(number) => match self.forwards.links.get_mut(&number) {
                Some(forward) => forward.queued = false,
                None => {}
            },
        }
    }

    /// Whether a read of a link may bring something now.
    pub fn is_readable(&self, link: Receiver) -> bool
        ensures { result ≡ is_readable_at link self.now }
    {
        match link {
            Receiver::Client(number) => match self.clients.links.get(&number) {
                Some(client) => client.is_readable(),
                None => false,
            },
            Receiver::Origin(number) => match self.forwards.links.get(&number) {
                Some(forward) => forward.is_readable(),
                None => false,
            },
        }
    }

    /// Whether something is to be heard at a link.
    pub fn is_to_be_heard(&self, link: Receiver) -> bool
        ensures { result ≡ is_heard_at link self.now }
    {
        match link {
            Receiver::Client(number) => match self.clients.links.get(&number) {
                Some(client) => client.is_to_be_heard(),
                None => false,
            },
            Receiver::Origin(number) => match self.forwards.links.get(&number) {
                Some(forward) => forward.is_to_be_heard(),
                None => false,
            },
        }
    }

    /// Whether octets wait to be written to a link, and may be taken now.
    pub fn may_be_written(&self, link: Receiver) -> bool
        ensures { result ≡ may_be_written_to link self.now }
    {
        match link {
            Receiver::Client(number) => match self.clients.links.get(&number) {
                Some(client) => client.may_be_written(),
                None => false,
            },
            Receiver::Origin(number) => match self.forwards.links.get(&number) {
                Some(forward) => forward.may_be_written(),
                None => false,
            },
        }
    }

    /// How many octets of memory are held for what waits to be written to a link, and for a request that waits for one or
    /// may wait again.
    pub fn weight(&self, link: Receiver) -> usize
        ensures { is_owed_to link self.now ≡ true → 0 < result }
    {
        match link {
            Receiver::Client(number) => match self.clients.links.get(&number) {
                Some(client) => client.weight(),
                None => 0,
            },
            Receiver::Origin(number) => match self.forwards.links.get(&number) {
                Some(forward) => forward.weight(),
                None => 0,
            },
        }
    }
}
