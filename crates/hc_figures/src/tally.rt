//! Wrong replies by their kind, as they come.

ghost use Rattle.std.specs.Prelude.{◌≡◌, ◌≤◌, ◌^◌, ◌++◌, ◌∷◌, [], ℕ, List, MatchOption, OnOk, Some, option_map};
ghost use Rattle.serde_json.specs.Find.{get_member};
ghost use Rattle.serde_json.specs.View.{members_view, view};
ghost use Rattle.hc_figures.specs.Reports.{count_under, sum_of};

use serde_json::{Map, Value, put};
use std::alloc::{AllocError, Global};

/// How many wrong replies there are of each kind. It takes memory for each kind.
pub struct Tally {
    alloc: Global,
    pub(crate) counts: Map<String, Value>,
}

impl Drop for Tally {
    fn drop(self) {
        let Tally { alloc: _, counts } = self;
        drop(counts);
    }
}

impl Tally {
    ghost use Rattle.hc_figures.specs.Tallies.{CountsKinds, HasCounted};

    /// No wrong reply has come.
    pub fn new(alloc: Global) -> Self
        ensures { HasCounted result [] }
    {
        Tally {
            alloc,
            counts: Map::new(alloc),
        }
    }

    /// Takes in the next one, of that kind.
    pub fn take(&mut self, kind: &str) -> Result<(), AllocError>
        ensures { (kinds : List (List ℕ)) → HasCounted self.old kinds → OnOk result (HasCounted self.new (kinds ++ kind.now ∷ [])) }
    {
        let count = self.count(kind).saturating_add(1);
        put(&mut self.counts, self.alloc, kind, Value::from(count))
    }

    /// How many there are of a kind.
    pub fn count(&self, kind: &str) -> u64
        ensures { result ≡ count_under kind.now (members_view self.now.counts.entries) }
    {
        count_under(&self.counts, kind)
    }

    /// The JSON object that has the count of each kind, as a report has it that is to be a baseline.
    pub fn into_counts(self) -> Value
        ensures { (kinds : List (List ℕ)) → HasCounted self kinds → CountsKinds (view result) kinds }
    {
        let Tally { alloc: _, counts } = self;
        Value::Object(counts)
    }
}

/// How many there are of a kind, by the members of that object.
pub(crate) fn count_under(counts: &Map<String, Value>, kind: &str) -> u64
    ensures { result ≡ count_under kind.now (members_view counts.now.entries) }
{
    match member(counts, kind) {
        Some(count) => count.as_u64().unwrap_or(0),
        None => 0,
    }
}

/// The member of that name, if there is one.
pub(crate) fn member<'a>(members: &'a Map<String, Value>, name: &str) -> Option<&'a Value>
    ensures { option_map (λ v. view v.now) result ≡ get_member name.now (members_view members.now.entries) }
{
    members.get(name)
}

/// The sum of the members, if all of them count something and it isn't too great.
pub(crate) fn sum_of(counts: &Map<String, Value>) -> Option<u64>
    ensures { MatchOption result ((s : ℕ) → sum_of (members_view counts.now.entries) ≡ Some s → 2 ^ 64 ≤ s)
        (λ sum. sum_of (members_view counts.now.entries) ≡ Some sum) }
{
    let mut sum: u64 = 0;
    for (_kind, count) in counts.iter() {
        sum = sum.checked_add(count.as_u64()?)?;
    }
    Some(sum)
}
