//! Numbers by a key.

ghost use Rattle.std.specs.Prelude.{◌≡◌};

use std::alloc::{AllocError, Global};
use std::collections::{BTreeMap, BTreeSet};

/// Numbers by a key, any number of them for each; for none of its keys there are none.
#[derive(Drop)]
pub struct Groups<K: Ord> {
    sets: BTreeMap<K, BTreeSet<u64>>,
}

impl<K: Ord + Drop> Groups<K> {
    ghost use Rattle.std.specs.Prelude.{◌≡◌, OnOk, [], true};
    ghost use Rattle.std.specs.BTreeMap.{is_at};
    ghost use Rattle.std.specs.Option.{option_copied};
    ghost use Rattle.hc_open.specs.Groups.{AddsNumber, RemovesNumber, numbers_at, numbers_of};

    /// There are no numbers.
    pub fn new(alloc: Global) -> Self
        ensures { (key : K) → numbers_at K.cmp result.sets key ≡ [] }
    {
        Groups {
            sets: BTreeMap::new(alloc),
        }
    }

    /// The numbers for that key, if there are some.
    pub fn at(&self, key: &K) -> Option<&BTreeSet<u64>>
        ensures { numbers_of (option_copied result) ≡ numbers_at K.cmp self.now.sets key.now }
    {
        self.sets.get(key)
    }

    /// Adds a number to those for that key.
    pub fn add(&mut self, alloc: Global, key: K, number: u64) -> Result<(), AllocError>
        ensures { OnOk result (AddsNumber K.cmp self.old.sets key number self.new.sets) }
    {
        let mut numbers = match self.sets.remove(&key) {
            Some(numbers) => numbers,
            None => BTreeSet::new(alloc),
        };
        numbers.insert(number)?;
        self.sets.insert(key, numbers)?;
        Ok(())
    }

    /// Takes a number out of those for that key.
    pub fn remove(&mut self, key: &K, number: u64)
        ensures { RemovesNumber K.cmp self.old.sets key.now number self.new.sets }
    {
        if self.take_out(key, number) {
            self.sets.remove(key);
        }
    }

    /// Takes a number out of those for that key, and tells whether none is left of them.
    fn take_out(&mut self, key: &K, number: u64) -> bool
        ensures removes { RemovesNumber K.cmp self.old.sets key.now number self.new.sets }
        ensures none { (q : K) → result ≡ true → is_at (K.cmp key.now) q ≡ true → numbers_at K.cmp self.new.sets q ≡ [] }
    {
        let Some(numbers) = self.sets.get_mut(key) else {
            return false;
        };
        numbers.remove(&number);
        numbers.is_empty()
    }
}
