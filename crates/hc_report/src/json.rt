//! A report as JSON.

ghost use Rattle.std.specs.Prelude.{◌≡◌, ℕ, Some, IfOk, codes};
ghost use Rattle.serde_json.specs.Data.{Members, no_members};
ghost use Rattle.serde_json.specs.Find.{get};
ghost use Rattle.serde_json.specs.View.{view};
ghost use Rattle.hc_figures.specs.Entries.{number_data};
ghost use Rattle.hc_figures.specs.Nesting.{NestsTo};
ghost use Rattle.hc_figures.specs.Objects.{Has, HasDepth};
ghost use Rattle.hc_figures.specs.Figures.{HaveFigures};

use crate::found::{Group, Named, Spread, Suspect, unrecorded};
use crate::made::shown;
use crate::report::Report;
use crate::tries::Helpful;
use hc_figures::{Array, NamedKind, NamedKinds, Object, put_figures};
use hc_gaps::{Change, Differences};
use hc_history::{Counts, Ending};
use hc_shown::Page;
use serde_json::Value;
use std::alloc::{AllocError, Global};

/// Adds all members of the report.
pub(crate) fn put_all(report: &Report, ending: Ending, counts: Option<Counts>, object: &mut Object)
    ensures { Has object.old no_members → (all : Members) × Has object.new all × HaveFigures report.now.replies report.now.wrongs ending counts all }
{
    let alloc = report.alloc;
    let (replies, wrongs, found) = (&report.replies, &report.wrongs, &report.found);
    let groups = found.groups.kept.as_slice();
    let suspects = found.suspects.kept.as_slice();
    let helpful = found.tries.helpful(wrongs.count);
    put_figures(alloc, replies, wrongs, ending, counts, object);
    object.put("groups", groups_json(alloc, groups));
    object.number("unrecorded", unrecorded(groups));
    object.number("ungrouped", found.groups.more);
    object.put("suspected", suspects_json(alloc, suspects));
    object.put("tries", tries_json(alloc, helpful));
}

fn groups_json(alloc: Global, groups: &[Group]) -> Result<Value, AllocError>
    ensures { IfOk result (NestsTo 3) }
{
    let mut array = Array::new(alloc);
    for group in groups {
        array.push(group_json(alloc, group));
    }
    array.into_value()
}

fn group_json(alloc: Global, group: &Group) -> Result<Value, AllocError>
    ensures { IfOk result (NestsTo 2) }
{
    let mut object = Object::new(alloc);
    object.number("reason", u64::from(group.reason.number()));
    object.text("name", group.reason.name());
    object.text("detail", group.kind);
    object.put("what", what_json(alloc, group));
    put_differences(alloc, group.differences(), &mut object);
    put_spread(group.spread, &mut object);
    object.number("count", group.count);
    object.number("first", group.first);
    object.put(
        "targets",
        targets_json(alloc, group.targets.kept.as_slice()),
    );
    object.number("unnamed_targets", group.targets.more);
    object.into_value()
}

fn what_json(alloc: Global, group: &Group) -> Result<Value, AllocError>
    ensures { (n : ℕ) → IfOk result (NestsTo n) }
{
    let mut page = Page::new(alloc);
    group.say_what(&mut page);
    Ok(Value::String(page.into_text()?))
}

fn put_differences(alloc: Global, differences: Option<&Differences>, object: &mut Object)
    ensures { HasDepth 1 object.old → HasDepth 1 object.new }
{
    let Some(found) = differences else {
        return;
    };
    object.put("added", names_json(alloc, found, Change::Added));
    object.put("dropped", names_json(alloc, found, Change::Dropped));
    object.put("changed", names_json(alloc, found, Change::Changed));
    object.number("more_names", found.more);
}

fn put_spread(spread: Option<Spread>, object: &mut Object)
    ensures { HasDepth 1 object.old → HasDepth 1 object.new }
{
    let Some(Spread { least, greatest }) = spread else {
        return;
    };
    object.number("least", least);
    object.number("greatest", greatest);
}

fn targets_json(alloc: Global, targets: &[Named]) -> Result<Value, AllocError>
    ensures { IfOk result (NestsTo 1) }
{
    let mut array = Array::new(alloc);
    for target in targets {
        array.push(Value::try_from_str(alloc, target.shown.as_str()));
    }
    array.into_value()
}

// The names of the fields that became so.
fn names_json(alloc: Global, found: &Differences, change: Change) -> Result<Value, AllocError>
    ensures { IfOk result (NestsTo 1) }
{
    let mut array = Array::new(alloc);
    for gap in found.listed.iter() {
        if gap.change != change {
            continue;
        }
        array.push(shown_json(alloc, gap.name.as_slice()));
    }
    array.into_value()
}

fn shown_json(alloc: Global, name: &[u8]) -> Result<Value, AllocError>
    ensures { (n : ℕ) → IfOk result (NestsTo n) }
{
    Ok(Value::String(shown(alloc, name)?))
}

fn suspects_json(alloc: Global, suspects: &[Suspect]) -> Result<Value, AllocError>
    ensures { IfOk result (NestsTo 3) }
{
    let mut array = Array::new(alloc);
    for suspect in suspects {
        array.push(suspect_json(alloc, suspect));
    }
    array.into_value()
}

fn suspect_json(alloc: Global, suspect: &Suspect) -> Result<Value, AllocError>
    ensures { IfOk result (NestsTo 2) }
{
    let mut object = Object::new(alloc);
    object.put("name", shown_json(alloc, suspect.name.as_slice()));
    object.text("change", suspect.change.word());
    object.number("count", suspect.count);
    object.into_value()
}

fn tries_json(alloc: Global, helpful: Result<Vec<Helpful>, AllocError>) -> Result<Value, AllocError>
    ensures { IfOk result (NestsTo 3) }
{
    let helpful = helpful?;
    let mut array = Array::new(alloc);
    for one in helpful.iter() {
        array.push(try_json(alloc, one));
    }
    array.into_value()
}

fn try_json(alloc: Global, helpful: &Helpful) -> Result<Value, AllocError>
    ensures { IfOk result (NestsTo 2) }
{
    let mut object = Object::new(alloc);
    object.text("options", helpful.options.as_str());
    object.number("wrong", helpful.wrong);
    object.flag("exact", helpful.is_exact);
    object.into_value()
}

/// So many wrong replies that a baseline hasn't, or that aren't there any more, and the kinds that they are of.
pub(crate) fn new_json(
    alloc: Global,
    count: u64,
    kinds: Result<NamedKinds, AllocError>,
) -> Result<Value, AllocError>
    ensures nests { IfOk result (NestsTo 3) }
    ensures count { IfOk result (λ v. get (codes "count") (view v) ≡ Some (number_data count)) }
{
    let kinds = kinds?;
    let mut object = Object::new(alloc);
    object.number("count", count);
    object.put("kinds", kinds_json(alloc, kinds.named.as_slice()));
    object.number("unnamed_kinds", kinds.more);
    object.into_value()
}

fn kinds_json(alloc: Global, kinds: &[NamedKind]) -> Result<Value, AllocError>
    ensures { IfOk result (NestsTo 2) }
{
    let mut object = Object::new(alloc);
    for new in kinds {
        object.number(new.kind.as_str(), new.count);
    }
    object.into_value()
}
