//! The links of a crowd, and what is noted of them.

ghost use Rattle.std.proofs.Props.{props};
ghost use Rattle.std.specs.Prelude.{◌≡◌, false};
ghost use Rattle.hc_attended.specs.Attended.{IsAttended};

use crate::seeing::give_turn;
use crate::shown::Shown;
use crate::times::Times;
use crate::world::World;
use hc_agenda::Agenda;
use hc_flow::Patience;
use hc_order::Receiver;
use hc_peers::Peers;
use std::alloc::Global;
use std::marker::PhantomData;
use std::mem;

/// The links of a crowd, and what is noted of them. Unless memory was refused for a note, whatever may go on at a link is
/// noted: what is to be heard has a turn, what may be written is noted as owed, and each link is looked at in time.
pub struct Attended<W: World> {
    /// Within this crate alone they change: so a link that works is lost only by a call that names its grounds.
    pub(crate) peers: Peers<W::Stream>,
    pub agenda: Agenda,
    /// The millisecond of this batch: links are heard, sent to and written to then.
    pub time: Shown<W>,
    /// How long links may take.
    pub(crate) times: Times,
    /// Whether a link has gone since that was asked last.
    pub(crate) freed: bool,
    ghost noted: { agenda.refused ≡ false → IsAttended times time.tick peers agenda } by { Prim.hlevel props },
}

impl<W: World + Drop> Drop for Attended<W> {
    fn drop(self) {
        let Attended {
            peers,
            agenda,
            time,
            times: _,
            freed: _,
        } = self;
        drop(peers);
        drop(agenda);
        drop(time);
    }
}

impl<W: World> Attended<W> {
    ghost use Rattle.std.specs.Prelude.{◌≤◌, ◌+◌, [], ℕ};
    ghost use Rattle.hc_agenda.specs.Agendas.{owed_in};
    ghost use Rattle.hc_attended.specs.Tending.{TurnsOnly};
    ghost use Rattle.hc_peers.specs.Keeping.{KeepsPeers};
    ghost use Rattle.hc_peers.specs.Peers.{ArePeers};
    ghost use Rattle.hc_peers.specs.Peers.Bounds.{AtMost};

    /// Nobody has connected, and there are so many places at the origin.
    pub fn new(alloc: Global, world: &W, times: Times, places: usize) -> Self
        ensures none { (clients : ℕ) → ArePeers W.Stream.has_given W.Stream.has_got (AtMost clients places) result.peers [] }
        ensures times { result.times ≡ times }
    {
        Attended {
            peers: Peers::new(alloc, places),
            agenda: Agenda::new(alloc),
            time: Shown {
                tick: world.tick(),
                by: PhantomData,
            },
            times,
            freed: false,
        }
    }

    /// The links.
    pub fn peers(&self) -> &Peers<W::Stream>
        ensures { result.now ≡ self.now.peers }
    {
        &self.peers
    }

    /// How long clients and the origin may take.
    pub fn patience(&self) -> Patience
        ensures { result ≡ self.now.times.patience }
    {
        self.times.patience
    }

    /// It is so late now, by the clock that is never set. Where that went back, it is as late as before.
    pub fn look_at_clock(&mut self, world: &W)
        ensures peers { self.new.peers ≡ self.old.peers }
        ensures later { self.old.time.tick ≤ self.new.time.tick }
    {
        self.time.look(world);
    }

    /// A link is to be heard, if it is there and isn't to be heard already.
    pub fn give_turn(&mut self, link: Receiver)
        ensures kept { KeepsPeers W.Stream.has_given W.Stream.has_got self.old.peers self.new.peers }
        ensures owed { owed_in self.new.agenda ≡ owed_in self.old.agenda }
        ensures places { self.new.peers.places ≡ self.old.peers.places }
        ensures turns { TurnsOnly link self.old.peers self.new.peers }
    {
        give_turn(&mut self.peers, &mut self.agenda, link);
    }

    /// A link is to be heard before all others, in this batch.
    pub fn give_turn_now(&mut self, link: Receiver)
        ensures kept { KeepsPeers W.Stream.has_given W.Stream.has_got self.old.peers self.new.peers }
        ensures turns { TurnsOnly link self.old.peers self.new.peers }
    {
        self.peers.queue(link);
        self.agenda.give_turn_now(link);
    }

    /// Each link that stands among the turns has its turn in the batch that begins now.
    pub fn begin_batch(&mut self)
        ensures peers { self.new.peers ≡ self.old.peers }
    {
        self.agenda.turns.begin_batch();
    }

    /// Whether a link has gone since that was asked last: the system may have a place for one more.
    pub fn takes_freed(&mut self) -> bool
        ensures peers { self.new.peers ≡ self.old.peers }
    {
        mem::replace(&mut self.freed, false)
    }

    /// The millisecond that is so many behind that of this batch.
    pub fn due_behind(&self, timeout: u64) -> u64
        ensures { result ≤ self.now.time.tick + timeout }
    {
        self.time.tick.saturating_add(timeout)
    }
}
