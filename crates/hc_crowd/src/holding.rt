//! Which links are cut off where too much is held beside the store.

ghost use Rattle.std.specs.Prelude.{◌+◌, ◌-◌, ◌^◌, ◌≡◌, ◌≤◌, ◌⊎◌, ◌||◌, ◌++◌, ◌∷◌, [], IfOk, OnErr, OnOk, min};
ghost use Rattle.hc_peers.specs.Forwards.{has_link, is_waiting};

use crate::traffic::Traffic;
use hc_agenda::{Heaviest, Holding, Load, Ranking, Reckoning};
use hc_attended::World;
use hc_flow::Stream;
use hc_incoming::Trouble;
use hc_links::Awaiting;
use hc_order::Receiver;
use hc_peers::Forward;
use std::alloc::AllocError;

impl<W: World> Traffic<W> {
    ghost use Rattle.hc_agenda.specs.Loads.{cuts_to, looks_above, most_held};
    ghost use Rattle.hc_peers.specs.Keeping.{KeepsPeers};
    ghost use Rattle.hc_agenda.specs.declared.reckoning.Load.{Load};
    ghost use Rattle.hc_attended.specs.Grounds.{IsCutOff};
    ghost use Rattle.hc_crowd.specs.Lightening.{AddsLoads, IsBounded, IsLightened, IsLoadOf, OthersStay, weighed_clients, weighed_forwards};

    /// Where so much may be held that it comes near the limit, each link is looked at, and those that hold most are cut off,
    /// if that has to be.
    pub(crate) fn bound_held<A: Awaiting>(
        &mut self,
        cache: &A,
        limit: u64,
        holding: &mut Holding,
    ) -> Result<(), AllocError>
        ensures kept { KeepsPeers W.Stream.has_given W.Stream.has_got self.old.links.peers self.new.links.peers }
        ensures light { IfOk result (λ _. most_held holding.new ≤ looks_above limit) }
        // Nothing is counted off but by that: what was held before is held still, or each link was weighed.
        ensures cuts { IfOk result (λ _. ((self.new.links.peers ≡ self.old.links.peers) × (holding.new ≡ holding.old))
            ⊎ IsBounded (A.holds cache.now) limit (most_held holding.new) self.old.links.peers self.new.links.peers) }
        ensures refused { OnErr result (holding.new ≡ holding.old) }
    {
        if !holding.looks(limit) {
            return Ok(());
        }
        let mut reckoning = Reckoning::new(self.alloc);
        self.weigh_clients(cache, &mut reckoning)?;
        self.weigh_forwards(cache, &mut reckoning)?;
        let left = self.lighten(reckoning.into_ranking(), limit);
        *holding = Holding::reckoned(left);
        Ok(())
    }

    /// What is held for each client who wasn't cut off yet.
    fn weigh_clients<A: Awaiting>(
        &self,
        cache: &A,
        reckoning: &mut Reckoning,
    ) -> Result<(), AllocError>
        ensures { OnOk result (AddsLoads (A.holds cache.now) self.now.links.peers (weighed_clients self.now.links.peers.clients.links.entries) reckoning.old.loads.items reckoning.new.loads.items) }
    {
        'clients: for (number, client) in self.links.peers().clients.iter() {
            if client.is_cut() {
                continue;
            }
            self.weigh(Receiver::Client(*number), cache, reckoning)?;
        }
        Ok(())
    }

    /// What is held for each forward that has a link, or waits for one.
    fn weigh_forwards<A: Awaiting>(
        &self,
        cache: &A,
        reckoning: &mut Reckoning,
    ) -> Result<(), AllocError>
        ensures { OnOk result (AddsLoads (A.holds cache.now) self.now.links.peers (weighed_forwards self.now.links.peers.forwards.links.entries) reckoning.old.loads.items reckoning.new.loads.items) }
    {
        'forwards: for (number, forward) in self.links.peers().forwards.iter() {
            if !is_underway(forward) {
                continue;
            }
            self.weigh(Receiver::Origin(*number), cache, reckoning)?;
        }
        Ok(())
    }

    /// What is held for a link: what waits there, and what the cache holds of what came.
    fn weigh<A: Awaiting>(
        &self,
        link: Receiver,
        cache: &A,
        reckoning: &mut Reckoning,
    ) -> Result<(), AllocError>
        ensures { OnOk result ((added : Load) × IsLoadOf (A.holds cache.now) self.now.links.peers link added
            × (reckoning.new.loads.items ≡ reckoning.old.loads.items ++ added ∷ [])) }
    {
        reckoning.add(load(link, self.links.peers().weight(link), cache.held(link)))
    }

    /// Cuts off the links that hold most, the heaviest first, until no more is held than an eighth less than the limit. Returns
    /// how much is held still.
    fn lighten(&mut self, ranking: Ranking, limit: u64) -> u64
        ensures kept { KeepsPeers W.Stream.has_given W.Stream.has_got self.old.links.peers self.new.links.peers }
        ensures light { result ≤ cuts_to limit }
        ensures cuts { IsLightened (cuts_to limit) ranking.loads.items result self.old.links.peers self.new.links.peers }
    {
        let most = Holding::cuts_to(limit);
        let mut ranking = ranking;
        'loads: while let Some(heaviest) = ranking.take_heaviest(most) {
            self.cut_off(heaviest);
        }
        ranking.sum()
    }

    /// So much is held for a link that it is cut off: what is owed there is lost, and that is told in its turn, at once.
    fn cut_off(&mut self, heaviest: Heaviest)
        ensures kept { KeepsPeers W.Stream.has_given W.Stream.has_got self.old.links.peers self.new.links.peers }
        ensures cut { IsCutOff heaviest.load.link self.new.links.peers }
        ensures others { OthersStay heaviest.load.link self.old.links.peers self.new.links.peers }
    {
        self.troubles.note(heaviest.link(), Trouble::Heavy);
        self.links.cut_off(heaviest);
    }
}

/// Whether a forward has a link, or waits for one.
fn is_underway<S: Stream + Drop>(forward: &Forward<S>) -> bool
    ensures { result ≡ (is_waiting forward.now.reaching || has_link forward.now.reaching) }
{
    forward.is_waiting() || forward.has_link()
}

/// What is held for a link: so many octets wait there, and the cache holds so many of what came.
fn load(link: Receiver, waiting: usize, held: usize) -> Load
    ensures link { result.link ≡ link }
    ensures octets { result.octets ≡ min (waiting + held) (2 ^ 64 - 1) }
{
    Load {
        octets: (waiting as u64).saturating_add(held as u64),
        link,
    }
}
