//! Which part a target goes into.

ghost use Rattle.std.specs.Prelude.{◌≡◌, ◌<◌, ◌%◌, ℕ, get_or};
ghost use Rattle.hc_head.specs.declared.head.Target.{Target as ATarget};

use hc_head::Target;
use std::collections::BTreeMap;

/// The part of each target, from 0 on.
pub struct Parts {
    // The number of each target that was met.
    numbers: BTreeMap<Target, usize>,
    // The part of each number.
    parts: Vec<usize>,
    // How many parts there are.
    count: usize,
    ghost some: { 0 < count },
}

impl Drop for Parts {
    fn drop(self) {
        let Parts {
            numbers,
            parts,
            count: _,
        } = self;
        drop(numbers);
        drop(parts);
    }
}

impl Parts {
    ghost use Rattle.std.specs.Prelude.{◌<◌, ◌≡◌};
    ghost use Rattle.hc_split.specs.Parting.{part_by};

    /// The parts of targets by the parts of their numbers.
    pub(crate) fn new(numbers: BTreeMap<Target, usize>, parts: Vec<usize>, count: usize) -> Self
        requires { 0 < count }
        ensures { result.count ≡ count }
    {
        Parts {
            numbers,
            parts,
            count,
        }
    }

    /// How many parts there are.
    pub fn count(&self) -> usize
        ensures is { result ≡ self.now.count }
        ensures all { (target : ATarget) → part_by self.now target < result }
    {
        self.count
    }

    /// The part of a target: of one that wasn't met the first.
    pub fn part_of(&self, target: &Target) -> usize
        ensures is { result ≡ part_by self.now target.now }
        ensures few { result < self.now.count }
    {
        match self.numbers.get(target) {
            Some(number) => self.part_at(*number),
            None => 0,
        }
    }

    fn part_at(&self, number: usize) -> usize
        ensures { result ≡ get_or self.now.parts.items number 0 % self.now.count }
    {
        self.parts.get(number).copied().unwrap_or(0) % self.count
    }
}
