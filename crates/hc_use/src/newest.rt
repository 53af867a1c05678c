//! The first or the newest things of a kind.

ghost use Rattle.std.specs.Prelude.{◌≡◌, ◌+◌, ◌-◌, ◌^◌, ◌<◌, ◌≤◌, ◌==◌, ◌++◌, [], ◌∷◌, drop, min, nat_le, vec_len, OnOk, if◌then◌else◌};
ghost use Rattle.hc_use.specs.declared.newest.TheConstants.{NAMED};

use std::alloc::{AllocError, Global};

/// How many things of one kind are named at most.
pub const NAMED: usize = 8;

/// The newest things of a kind, and how many older ones there are.
pub struct Newest<T> {
    /// At most so many as are named, the oldest first.
    pub named: Vec<T>,
    /// How many older ones there are, or the greatest number.
    pub older: u64,
    ghost few: { vec_len named ≤ NAMED },
}

impl<T: Drop> Drop for Newest<T> {
    fn drop(self) {
        let Newest { named, older: _ } = self;
        drop(named);
    }
}

impl<T: Drop> Newest<T> {
    /// Nothing.
    pub fn new(alloc: Global) -> Self
        ensures named { result.named.items ≡ [] }
        ensures older { result.older ≡ 0 }
    {
        Newest {
            named: Vec::new(alloc),
            older: 0,
        }
    }

    /// Adds what is newer than all others.
    pub fn push(&mut self, newer: T) -> Result<(), AllocError>
        // The newest are named, and the one before them, if there is one, is counted.
        ensures named { OnOk result (self.new.named.items
            ≡ drop (vec_len self.old.named + 1 - NAMED) (self.old.named.items ++ newer ∷ [])) }
        ensures older { OnOk result (self.new.older
            ≡ (if nat_le NAMED (vec_len self.old.named) then min (self.old.older + 1) (2 ^ 64 - 1) else self.old.older)) }
    {
        if NAMED <= self.named.len() {
            drop(self.named.remove(0));
            self.older = self.older.saturating_add(1);
        }
        self.named.push(newer)?;
        Ok(())
    }

    /// Whether there is nothing.
    pub fn is_empty(&self) -> bool
        ensures { result ≡ (vec_len self.now.named == 0) }
    {
        self.named.is_empty()
    }

    /// Whether there is exactly one.
    pub fn is_one(&self) -> bool
        ensures { result ≡ (vec_len self.now.named == 1) }
    {
        self.named.len() == 1
    }

    /// The newest.
    pub fn last(&self) -> Option<&T> {
        self.named.last()
    }
}
