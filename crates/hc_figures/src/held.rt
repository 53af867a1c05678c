//! Wrong replies that are held against a baseline.

ghost use Rattle.std.specs.Prelude.{◌≡◌, ◌<◌, ◌-◌, ◌^◌, ℕ, List, length, min, true, false};
ghost use Rattle.serde_json.specs.View.{members_view, view};
ghost use Rattle.hc_figures.specs.Kinds.{AreKnown};
ghost use Rattle.hc_figures.specs.Reports.{count_under, covers, gone_in, gone_of, known_of};
ghost use Rattle.hc_figures.specs.Tallies.{HasCounted, base_of, gone_from};

use crate::baseline::{Baseline, counts_in};
use crate::tally::{Tally, count_under};
use serde_json::{Map, Value};
use std::alloc::{AllocError, Global};

/// How many kinds are named at most.
const MOST_KINDS: usize = 100;

/// A kind of which some are counted.
pub struct NamedKind {
    /// What kind.
    pub kind: String,
    /// How many.
    pub count: u64,
}

impl Drop for NamedKind {
    fn drop(self) {
        let NamedKind { kind, count: _ } = self;
        drop(kind);
    }
}

/// The first kinds of which some are counted, in the order of their texts.
pub struct NamedKinds {
    /// These.
    pub named: Vec<NamedKind>,
    /// How many kinds more there are.
    pub more: u64,
}

impl Drop for NamedKinds {
    fn drop(self) {
        let NamedKinds { named, more: _ } = self;
        drop(named);
    }
}

impl NamedKinds {
    // Adds a kind of which so many are counted, by its name where there is room.
    fn add(&mut self, alloc: Global, kind: &str, count: u64) -> Result<(), AllocError> {
        if self.named.len() >= MOST_KINDS {
            self.more = self.more.saturating_add(1);
            return Ok(());
        }
        let kind = String::from_str(alloc, kind)?;
        self.named.push(NamedKind { kind, count })?;
        Ok(())
    }
}

impl Baseline {
    /// Whether it has all wrong replies of a tally: as many of each kind, or more.
    pub fn covers(&self, tally: &Tally) -> bool
        ensures yes { (kinds : List (List ℕ)) → HasCounted tally.now kinds → length kinds < 2 ^ 64 → result ≡ true → AreKnown (base_of self.now) kinds }
        ensures no { (kinds : List (List ℕ)) → HasCounted tally.now kinds → length kinds < 2 ^ 64 → result ≡ false → ¬ AreKnown (base_of self.now) kinds }
    {
        self.covers_all(&tally.counts)
    }

    // Whether it has as many of each kind as those counts have, or more.
    fn covers_all(&self, counts: &Map<String, Value>) -> bool
        ensures { result ≡ covers (base_of self.now) (members_view counts.now.entries) (members_view counts.now.entries) }
    {
        for (kind, _count) in counts.iter() {
            if count_under(counts, kind.as_str()) > self.count(kind.as_str()) {
                return false;
            }
        }
        true
    }

    /// How many wrong replies of a tally it has: of each kind as many as both have.
    pub fn known(&self, tally: &Tally) -> u64
        ensures { result ≡ min (known_of (base_of self.now) (members_view tally.now.counts.entries) (members_view tally.now.counts.entries)) (2 ^ 64 - 1) }
    {
        let mut known: u64 = 0;
        for (kind, _count) in tally.counts.iter() {
            let both = tally.count(kind.as_str()).min(self.count(kind.as_str()));
            known = known.saturating_add(both);
        }
        known
    }

    /// The kinds of a tally that have more wrong replies than it has.
    pub fn new_kinds(&self, alloc: Global, tally: &Tally) -> Result<NamedKinds, AllocError> {
        kinds_of_more(alloc, Some(&tally.counts), counts_in(&self.report))
    }

    /// How many wrong replies it has that a tally hasn't: of each kind as many as it has more.
    pub fn gone(&self, tally: &Tally) -> u64
        ensures counts { result ≡ min (gone_in (view self.now.report) (λ kind. count_under kind (members_view tally.now.counts.entries))) (2 ^ 64 - 1) }
        ensures kinds { (kinds : List (List ℕ)) → HasCounted tally.now kinds → length kinds < 2 ^ 64 → result ≡ gone_from self.now kinds }
    {
        self.gone_by(&tally.counts)
    }

    // The same by the counts of a tally.
    fn gone_by(&self, counted: &Map<String, Value>) -> u64
        ensures { result ≡ min (gone_in (view self.now.report) (λ kind. count_under kind (members_view counted.now.entries))) (2 ^ 64 - 1) }
    {
        match counts_in(&self.report) {
            Some(had) => gone_between(had, counted),
            None => 0,
        }
    }

    /// The kinds of which it has more wrong replies than a tally.
    pub fn gone_kinds(&self, alloc: Global, tally: &Tally) -> Result<NamedKinds, AllocError> {
        kinds_of_more(alloc, counts_in(&self.report), Some(&tally.counts))
    }
}

// The kinds of which the one counts have more than the others. Where there are none, they have nothing.
fn kinds_of_more(
    alloc: Global,
    counts: Option<&Map<String, Value>>,
    others: Option<&Map<String, Value>>,
) -> Result<NamedKinds, AllocError> {
    let mut kinds = NamedKinds {
        named: Vec::new(alloc),
        more: 0,
    };
    if let Some(counts) = counts {
        add_kinds(alloc, counts, others, &mut kinds)?;
    }
    Ok(kinds)
}

// Adds these kinds.
fn add_kinds(
    alloc: Global,
    counts: &Map<String, Value>,
    others: Option<&Map<String, Value>>,
    kinds: &mut NamedKinds,
) -> Result<(), AllocError> {
    for (kind, _count) in counts.iter() {
        let count = more_of(kind.as_str(), counts, others);
        if count != 0 {
            kinds.add(alloc, kind.as_str(), count)?;
        }
    }
    Ok(())
}

// How many more there are of a kind by the one counts than by the others.
fn more_of(kind: &str, counts: &Map<String, Value>, others: Option<&Map<String, Value>>) -> u64 {
    match others {
        Some(others) => fewer_of(kind, counts, others),
        None => count_under(counts, kind),
    }
}

// How many those counts have more, of all kinds together, than there are now.
fn gone_between(had: &Map<String, Value>, counted: &Map<String, Value>) -> u64
    ensures { result ≡ min (gone_of (members_view had.now.entries) (λ kind. count_under kind (members_view counted.now.entries)) (members_view had.now.entries)) (2 ^ 64 - 1) }
{
    let mut gone: u64 = 0;
    for (kind, _count) in had.iter() {
        gone = gone.saturating_add(fewer_of(kind.as_str(), had, counted));
    }
    gone
}

// How many fewer there are of a kind than those counts have.
fn fewer_of(kind: &str, had: &Map<String, Value>, counted: &Map<String, Value>) -> u64
    ensures { result ≡ count_under kind.now (members_view had.now.entries) - count_under kind.now (members_view counted.now.entries) }
{
    count_under(had, kind).saturating_sub(count_under(counted, kind))
}
