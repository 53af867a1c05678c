//! Links by number.

ghost use Rattle.std.specs.Prelude.{◌≡◌, ◌≤◌, ◌+◌, ℕ, length, is_some, Some, None, OnOk, OnErr};

use std::alloc::{AllocError, Global};
use std::collections::BTreeMap;
use std::collections::btree_map::Iter;

/// Links of a kind, by number. Within this crate it lends one of them at a time, and all others stay as they are.
#[derive(Drop)]
pub struct Table<L> {
    pub(crate) links: BTreeMap<u64, L>,
}

impl<L> Table<L> {
    ghost use Rattle.std.specs.BTreeMap.{get};
    ghost use Rattle.std.specs.Option.{option_copied};
    ghost use Rattle.std.specs.Ordering.{nat_cmp};
    ghost use Rattle.hc_peers.specs.Tables.{KeepsOthers};

    /// There is no link.
    pub(crate) fn new(alloc: Global) -> Self
        ensures none { length result.links.entries ≡ 0 }
        ensures empty { (n : ℕ) → get nat_cmp result.links n ≡ None }
    {
        Table {
            links: BTreeMap::new(alloc),
        }
    }

    /// How many there are.
    pub fn len(&self) -> usize
        ensures { result ≡ length self.now.links.entries }
    {
        self.links.len()
    }

    /// Whether there is one of that number.
    pub fn has(&self, number: u64) -> bool
        ensures { result ≡ is_some (get nat_cmp self.now.links number) }
    {
        self.links.contains_key(&number)
    }

    /// The one of that number, if it is there.
    pub fn get(&self, number: u64) -> Option<&L>
        ensures { option_copied result ≡ get nat_cmp self.now.links number }
    {
        self.links.get(&number)
    }

    /// One is put there, in place of whatever there was. Where memory is refused, it is dropped.
    pub(crate) fn put(&mut self, number: u64, link: L) -> Result<(), AllocError>
    where
        L: Drop,
        ensures ok { OnOk result (get nat_cmp self.new.links number ≡ Some link) }
        ensures err { OnErr result (get nat_cmp self.new.links number ≡ get nat_cmp self.old.links number) }
        ensures others { KeepsOthers number self.old.links self.new.links }
        ensures many { length self.new.links.entries ≤ length self.old.links.entries + 1 }
    {
        self.links.insert(number, link)?;
        Ok(())
    }

    /// All of them, in the order of their numbers.
    pub fn iter(&self) -> Iter<'_, u64, L>
        ensures { result ≡ self.now.links.entries }
    {
        self.links.iter()
    }

    /// The least number of one, from that number on.
    pub fn first_from(&self, least: u64) -> Option<u64> {
        match self.links.range(least..).next() {
            Some((number, _)) => Some(*number),
            None => None,
        }
    }
}
