//! What is held in all, and for which links most of it is.

ghost use Rattle.std.specs.Prelude.{◌≡◌, ◌+◌, ◌++◌, ◌∷◌, [], OnErr, OnOk, OnSome};
ghost use Rattle.std.specs.List.Sorted.{IsNonDecreasingBy, IsPermutation};
ghost use Rattle.std.specs.Vec.{vec_len};
ghost use Rattle.std.proofs.Props.{props};
ghost use Rattle.hc_agenda.specs.Loads.{TakesHeaviest, weight, total};

use hc_order::Receiver;
use std::alloc::{AllocError, Global};

/// So many octets are held for a link.
#[derive(Clone, Copy)]
pub struct Load {
    pub octets: u64,
    pub link: Receiver,
}

/// A load than which none was heavier, where more was held than may be. A ranking alone gives one: so no other link is cut off
/// since too much is held.
#[derive(Drop)]
pub struct Heaviest {
    load: Load,
}

impl Heaviest {
    /// The link for which so much is held.
    pub fn link(&self) -> Receiver
        ensures { result ≡ self.now.load.link }
    {
        self.load.link
    }
}

/// What is held for each of some links, and in all.
#[derive(Drop)]
pub struct Reckoning {
    loads: Vec<Load>,
    /// How many octets are held in all.
    sum: u64,
    ghost sum_is: { sum ≡ total loads.items } by { Prim.hlevel props },
}

impl Reckoning {
    /// Nothing is held.
    pub fn new(alloc: Global) -> Self
        ensures { result.loads.items ≡ [] }
    {
        Reckoning {
            loads: Vec::new(alloc),
            sum: 0,
        }
    }

    /// That much more is held. It fails where memory is refused, or more would be held than can be counted.
    pub fn add(&mut self, load: Load) -> Result<(), AllocError>
        ensures ok { OnOk result (self.new.loads.items ≡ self.old.loads.items ++ load ∷ []) }
        ensures err { OnErr result (self.new.loads.items ≡ self.old.loads.items) }
    {
        let Some(sum) = self.sum.checked_add(load.octets) else {
            return Err(AllocError);
        };
        self.loads.push(load)?;
        self.sum = sum;
        Ok(())
    }

    /// The same loads, the heaviest last.
    pub fn into_ranking(self) -> Ranking
        ensures { IsPermutation self.loads.items result.loads.items }
    {
        let Reckoning { mut loads, sum } = self;
        loads.sort_unstable_by_key(|load| load.octets);
        Ranking { loads, sum }
    }
}

/// What is held for each of some links, the heaviest last, and in all.
#[derive(Drop)]
pub struct Ranking {
    loads: Vec<Load>,
    /// How many octets are held in all.
    sum: u64,
    ghost sum_is: { sum ≡ total loads.items } by { Prim.hlevel props },
    ghost ordered: { IsNonDecreasingBy weight loads.items } by { Prim.hlevel props },
}

impl Ranking {
    /// How many octets are held in all.
    pub fn sum(&self) -> u64
        ensures { result ≡ total self.now.loads.items }
    {
        self.sum
    }

    /// Where more than so many octets are held in all, takes out a load than which none is heavier.
    pub fn take_heaviest(&mut self, most: u64) -> Option<Heaviest>
        ensures takes { TakesHeaviest most result self.old.loads.items self.new.loads.items }
        ensures fewer { OnSome result (vec_len self.new.loads + 1 ≡ vec_len self.old.loads) }
    {
        if self.sum <= most {
            return None;
        }
        let load = self.loads.pop()?;
        self.sum -= load.octets;
        Some(Heaviest { load })
    }
}
