//! What is said first of a reply: where it stands, what is found of it, and the sections that ask what it doesn't keep.

ghost use Rattle.std.specs.Prelude.{◌≡◌, ◌++◌, List, ℕ, OnOk, string_bytes};
ghost use Rattle.serde_json.specs.Data.{Members};
ghost use Rattle.hc_figures.specs.Entries.{with_all};
ghost use Rattle.hc_figures.specs.Objects.{Has};
ghost use Rattle.hc_explain.specs.Facts.{AreAskedOf, IsBrokenLine, fact_entries, finding_entries, place_entries};

use hc_figures::Object;
use hc_history::Finding;
use hc_use::Demand;
use hc_why::Explanation;
use std::alloc::AllocError;
use std::fmt::Write;

/// Nothing is asked.
const NOTHING: Demand = Demand {
    sections: "",
    words: "",
};

/// What is asked that a wrong reply doesn't keep.
pub(crate) fn asked_of(known: &Explanation<'_>) -> Demand
    ensures { AreAskedOf known.now known.now.finding result.sections.now }
{
    match known.finding {
        Finding::Right => NOTHING,
        Finding::Wrong(reason) => known.demand(reason),
    }
}

/// Puts that into an object.
pub(crate) fn put_facts(known: &Explanation<'_>, object: &mut Object)
    ensures { (all : Members) → Has object.old all → (sections : List ℕ) × (words : List ℕ) × AreAskedOf known.now known.now.finding sections
        × Has object.new (with_all (fact_entries known.now sections words) all) }
{
    let asked = asked_of(known);
    put_place(known, object);
    put_finding(known.finding, asked.sections, asked.words, object);
}

// Puts in where the reply stands.
fn put_place(known: &Explanation<'_>, object: &mut Object)
    ensures { (all : Members) → Has object.old all → Has object.new (with_all (place_entries known.now) all) }
{
    object.number("position", known.position);
    object.number("request", known.claim.since);
    object.number("exchange", known.claim.exchange);
    object.text("way", known.way.name());
}

// Puts in what is found of it.
fn put_finding(finding: Finding, sections: &str, words: &str, object: &mut Object)
    ensures { (all : Members) → Has object.old all → Has object.new (with_all (finding_entries finding sections.now words.now) all) }
{
    match finding {
        Finding::Right => object.text("finding", "right"),
        Finding::Wrong(reason) => {
            object.text("finding", "wrong");
            object.number("reason", u64::from(reason.number()));
            object.text("name", reason.name());
            object.text("sections", sections);
            object.text("broken", words);
        }
    }
}

/// Writes the line of what a wrong reply doesn't keep, after the sections that ask it.
pub(crate) fn say_broken(known: &Explanation<'_>, out: &mut String) -> Result<(), AllocError>
    ensures { OnOk result ((line : List ℕ) × IsBrokenLine known.now known.now.finding line × (string_bytes out.new ≡ string_bytes out.old ++ line)) }
{
    let Finding::Wrong(_) = known.finding else {
        return Ok(());
    };
    let asked = asked_of(known);
    let (sections, words) = (asked.sections, asked.words);
    write!(out, "broken          {sections}: {words}\n")
}
