//! Many clients at once, and the origin, in one thread.

ghost use Rattle.std.specs.Prelude.{◌≡◌, [], IfOk};
ghost use Rattle.hc_crowd.specs.Held.{GrowsBy, octets_of};

use crate::limits::Limits;
use crate::traffic::Traffic;
use crate::troubles::Troubles;
use hc_agenda::{Holding, Moments};
use hc_attended::World;
use hc_framing::MessageText;
use hc_links::{Awaiting, Batches, Happened, Links};
use hc_order::{Occurrence, Receiver};
use hc_peers::Peers;
use hc_service::{Event, Happening};
use std::alloc::{AllocError, Global};

/// The links of many clients and of the origin, in one thread. None is waited for: what is ready comes in batches.
///
/// As long as it isn't over (`is_over`), a driver hands what happens next to its cache, and carries out what the cache
/// does, until nothing more happens in this batch (`next`); writes what the cache owes (`deliver`), once its records can't
/// be lost any more; and waits for the next batch (`wait`). Nothing is written to a link but by `deliver`.
///
/// Each link has one turn in a batch, in which it is read once, so that no client holds up the others. A client is read
/// only where none of its requests awaits its reply, and all that was owed to it was written.
pub struct Crowd<W: World> {
    limits: Limits,
    clock: Moments,
    traffic: Traffic<W>,
    /// How much is held of what came, and of what was sent.
    holding: Holding,
}

impl<W: World + Drop> Drop for Crowd<W> {
    fn drop(self) {
        let Crowd {
            limits: _,
            clock: _,
            traffic,
            holding: _,
        } = self;
        drop(traffic);
    }
}

impl<W: World + Drop> Crowd<W> {
    ghost use Rattle.hc_crowd.specs.Crowds.{CrowdTells, times_of};
    ghost use Rattle.hc_peers.specs.Shown.{ShowNoMore};

    /// Nobody has connected yet.
    pub fn new(alloc: Global, world: W, limits: Limits) -> Result<Self, AllocError>
        ensures tells { IfOk result (λ crowd. CrowdTells W.Stream.has_given W.Stream.has_got crowd.limits crowd.traffic.links.peers crowd.clock []) }
        ensures shows { IfOk result (λ crowd. ShowNoMore W.Stream.has_got crowd.traffic.links.peers []) }
        ensures limits { IfOk result (λ crowd. crowd.limits ≡ limits) }
        ensures times { IfOk result (λ crowd. crowd.traffic.links.times ≡ times_of limits) }
    {
        let clock = Moments::new(world.wall(), world.monotonic());
        let traffic = Traffic::new(alloc, world, limits)?;
        Ok(Crowd {
            limits,
            clock,
            traffic,
            holding: Holding::new(),
        })
    }
}

impl<W: World> Crowd<W> {
    ghost use Rattle.hc_crowd.specs.Crowds.{CrowdTells, MayTell};
    ghost use Rattle.std.specs.Prelude.{◌⊎◌, IsErr, List, length};
    ghost use Rattle.hc_agenda.specs.Moments.{History, is_behind_in};
    ghost use Rattle.hc_agenda.specs.MomentsKept.{Tells, told_by};
    ghost use Rattle.hc_crowd.specs.Held.{HoldsWhatCame, grown_by};
    ghost use Rattle.hc_links.specs.Telling.{TellsSent};
    ghost use Rattle.hc_order.specs.Log.{Move};
    ghost use Rattle.hc_peers.specs.Keeping.{HearsWithin};
    ghost use Rattle.hc_peers.specs.Peers.{ArePeers, Bounds, last_given};
    ghost use Rattle.hc_peers.specs.Shown.{ShowNoMore};

    /// That happens now.
    fn now(&self, happened: Happened) -> Occurrence
        ensures of { result.event.of ≡ happened.of }
        ensures reason { result.reason ≡ happened.reason }
        ensures moment { result.event.moment ≡ told_by self.now.clock }
    {
        let Happened { of, reason } = happened;
        let event = Event {
            moment: self.clock.now(),
            of,
        };
        Occurrence { event, reason }
    }

    /// What happens next. The octets that came by it are held from then on.
    fn hear_next<A: Awaiting>(&mut self, cache: &A) -> Result<Option<Happened>, AllocError>
        ensures heard { HearsWithin W.Stream.has_given W.Stream.has_got self.old.limits.connections (A.awaited cache.now) result self.old.traffic.links.peers self.new.traffic.links.peers }
        ensures rest { (self.new.limits ≡ self.old.limits) × (self.new.clock ≡ self.old.clock) }
        ensures held { HoldsWhatCame W.Stream.has_given W.Stream.has_got self.old.limits.connections (A.holds cache.now) self.old.limits.held self.old.traffic.links.peers result self.old.holding self.new.holding }
    {
        let happened = self
            .traffic
            .happening(cache, self.limits, &mut self.holding)?;
        grow(&mut self.holding, &happened);
        Ok(happened)
    }

    /// Octets are owed to a client, or a forward is opened. They are held from then on.
    fn owe(&mut self, to: Receiver, octets: &MessageText) -> Result<(), AllocError>
        ensures tells { (bounds : Bounds) (log : List Move) → ArePeers W.Stream.has_given W.Stream.has_got bounds self.old.traffic.links.peers log
            → TellsSent (ArePeers W.Stream.has_given W.Stream.has_got bounds self.new.traffic.links.peers) result to octets.now log }
        ensures shown { (log : List Move) → ShowNoMore W.Stream.has_got self.old.traffic.links.peers log → ShowNoMore W.Stream.has_got self.new.traffic.links.peers log }
        ensures rest { (self.new.limits ≡ self.old.limits) × (self.new.clock ≡ self.old.clock) }
        ensures held { (self.new.holding ≡ grown_by (length octets.now) self.old.holding) ⊎ (IsErr result × (self.new.holding ≡ self.old.holding)) }
    {
        self.traffic.links.send(to, octets)?;
        self.holding.grow(octets.len());
        Ok(())
    }

    /// Whether the wall clock was behind the moment that is told by more than ten seconds when it was last read.
    pub fn is_behind(&self) -> bool
        ensures { (history : History) → Tells self.now.clock history → result ≡ is_behind_in history }
    {
        self.clock.is_behind()
    }

    /// What was wrong with what came, and with links, by kind.
    pub fn troubles(&self) -> &Troubles {
        &self.traffic.troubles
    }

    /// The milliseconds that the world's clock has counted which is never set, as it was last looked at.
    pub fn tick(&self) -> u64 {
        self.traffic.links.time.tick
    }

    /// The links.
    pub fn peers(&self) -> &Peers<W::Stream>
        ensures { result.now ≡ self.now.traffic.links.peers }
    {
        self.traffic.links.peers()
    }

    /// How many clients have connected.
    pub fn accepted(&self) -> u64
        ensures { result ≡ last_given self.now.traffic.links.peers }
    {
        self.traffic.links.peers().last()
    }
}

impl<W: World> Links for Crowd<W> {
    ghost use Rattle.hc_links.specs.Telling.{IsInTurn};
    ghost use Rattle.hc_crowd.specs.Crowds.{CrowdTells, MayTell, bounds_of};
    ghost use Rattle.hc_crowd.specs.declared.limits.Limits.{Limits};
    ghost use Rattle.hc_peers.specs.Peers.{HasFewLinks};
    ghost use Rattle.hc_peers.specs.Shown.{ShowNoMore};

    ghost tells = { λ crowd. CrowdTells W.Stream.has_given W.Stream.has_got crowd.limits crowd.traffic.links.peers crowd.clock };

    ghost shows = { λ crowd. ShowNoMore W.Stream.has_got crowd.traffic.links.peers };

    // A further batch may bring more.
    ghost rests = { λ _. Unit {0} };

    ghost most = { λ crowd. crowd.limits.connections };

    ghost Bounds = { Limits };

    ghost bounds = { λ crowd. crowd.limits };

    // As many as its limits say, those that linger among them.
    ghost within = { λ limits crowd. HasFewLinks (bounds_of limits) crowd.traffic.links.peers };

    ghost may_tell = { λ crowd. MayTell crowd.clock };

    ghost heeds = { IsInTurn };

    fn next<A: Awaiting>(&mut self, cache: &A) -> Result<Option<Occurrence>, AllocError> {
        match self.hear_next(cache)? {
            Some(happened) => {
                self.traffic.handed = true;
                Ok(Some(self.now(happened)))
            }
            None => Ok(None),
        }
    }

    fn send(&mut self, to: Receiver, octets: &MessageText) -> Result<(), AllocError> {
        self.owe(to, octets)
    }

    fn close(&mut self, link: Receiver) {
        self.traffic.close(link);
    }
}

impl<W: World> Batches for Crowd<W> {
    ghost use Rattle.hc_attended.specs.Settled.{IsSettled};
    ghost use Rattle.hc_crowd.specs.Courses.{ServesNoMore};
    ghost use Rattle.hc_crowd.specs.CrowdLaws.{links_are_few, none_is_open, told_in_time};
    ghost use Rattle.hc_peers.specs.Peers.{NoLinkIsLeft, last_given};

    ghost over = { λ crowd. NoLinkIsLeft crowd.traffic.links.peers × ServesNoMore crowd.traffic.told.course W.stop_asked crowd.limits.clients (last_given crowd.traffic.links.peers) };

    ghost settled = { λ crowd. IsSettled crowd.traffic.links.times crowd.traffic.links.time.tick crowd.traffic.links.peers crowd.traffic.links.agenda };

    /// It begins to connect for forwards that wait, as far as there are places. Where memory is refused for a note of what
    /// is to be done, links may wait for ever, so whoever drives the crowd should end then.
    fn deliver<A: Awaiting>(&mut self, cache: &A) -> Result<(), AllocError> {
        self.traffic.links.look_at_clock(&self.traffic.world);
        self.traffic.sort_opened(cache);
        self.traffic.give_places();
        self.traffic.write_owed();
        self.traffic.refusal()
    }

    /// It waits a second at most, and fails as `deliver` does.
    fn wait(&mut self) -> Result<(), AllocError> {
        self.traffic.wait(self.limits);
        let wall = self.traffic.world.wall();
        let monotonic = self.traffic.world.monotonic();
        self.clock.look(wall, monotonic);
        self.traffic.refusal()
    }

    /// A stop was asked then, or all clients have come that are served.
    fn is_over(&self) -> bool {
        self.traffic.is_over(self.limits)
    }

    ghost in_time = { λ crowd. told_in_time W.Stream.has_given W.Stream.has_got crowd.limits crowd.traffic.links.peers crowd.clock };

    ghost few = { λ crowd. links_are_few W.Stream.has_given W.Stream.has_got crowd.limits crowd.traffic.links.peers crowd.clock };

    ghost all_closed = { λ crowd log over. none_is_open W.Stream.has_given W.Stream.has_got crowd.limits crowd.traffic.links.peers crowd.clock log over.0 };
}

/// The octets that came by what happens are held from then on.
fn grow(holding: &mut Holding, happened: &Option<Happened>)
    ensures { GrowsBy happened.now holding.old holding.new }
{
    if let Some(happened) = happened {
        holding.grow(octets_of(&happened.of));
    }
}

/// How many octets came by that.
fn octets_of(happening: &Happening) -> usize
    ensures { result ≡ octets_of happening.now }
{
    match happening {
        Happening::ClientOpened(_) => 0,
        Happening::ClientBytes(_, octets) => octets.len(),
        Happening::ClientEnd(_) => 0,
        Happening::OriginBytes(_, octets) => octets.len(),
        Happening::OriginEnd(_) => 0,
        Happening::OriginFailed(_) => 0,
        Happening::Stopping => 0,
    }
}
