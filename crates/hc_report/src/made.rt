//! By which settings a report is made.

ghost use Rattle.std.specs.Prelude.{◌≡◌, [], IfOk, OnOk, is_some, not, string_bytes};
ghost use Rattle.serde_json.specs.Data.{string};
ghost use Rattle.serde_json.specs.View.{members_view, view};
ghost use Rattle.hc_figures.specs.Objects.{Has};
ghost use Rattle.hc_shown.specs.Octets.{octets_text};
ghost use Rattle.hc_report.specs.Made.{in_order, is_errors_only, joined, made_by, names_text, settings_members, with_name};

use hc_fields::Octets;
use hc_figures::{Baseline, Difference, Object};
use hc_history::{FieldNames, Settings, UnmarkedReplies};
use hc_shown::{SHOWN, push_octets};
use serde_json::{Map, Value};
use std::alloc::{AllocError, Global};

/// The line that names the first setting by which a baseline was made and which is another one here, with its line feed. A
/// baseline that doesn't say by which settings it was made has none.
pub fn other_setting(
    alloc: Global,
    baseline: &Baseline,
    settings: &Settings,
) -> Result<Option<String>, AllocError>
    ensures { IfOk result (λ line. is_some line ≡ not (made_by baseline.now settings.now)) }
{
    let asked = settings_object(alloc, settings).into_members()?;
    match baseline.difference(&asked) {
        Some(difference) => Ok(Some(difference_line(alloc, difference)?)),
        None => Ok(None),
    }
}

fn difference_line(alloc: Global, difference: Difference<'_>) -> Result<String, AllocError> {
    let name = difference.name;
    let asked = difference.asked.to_string(alloc)?;
    let asked = asked.as_str();
    let Some(had) = difference.had else {
        return format!(in alloc; "error: baseline: it says no {name}, and {asked} is asked\n");
    };
    let had = had.to_string(alloc)?;
    let had = plain(had.as_str());
    format!(in alloc; "error: baseline: its {name} is {had}, and {asked} is asked\n")
}

// A value of a file, which may have any, if it is short and printable ASCII.
fn plain(value: &str) -> &str {
    let octets = value.as_bytes();
    let is_plain = octets.iter().all(|octet| 32 <= *octet && *octet <= 126);
    if is_plain && octets.len() <= SHOWN {
        value
    } else {
        "another value"
    }
}

/// The settings, each by its name.
pub(crate) fn settings_object(alloc: Global, settings: &Settings) -> Object
    ensures { Has result (settings_members settings.now) }
{
    let allowed = &settings.allowed;
    let mut object = Object::new(alloc);
    object.number("slack", u64::from(settings.slack));
    object.put("ignored", names_json(alloc, &settings.ignored));
    object.flag("errors_only", is_errors_only(settings.unmarked));
    object.flag("added_fields", allowed.added_fields);
    object.flag("joined_lines", allowed.joined_lines);
    object.flag("ranges", allowed.ranges);
    object.some("default_ttl", seconds(allowed.default_lifetime));
    object.some("grace", seconds(allowed.grace));
    object.put("normalized", names_json(alloc, &allowed.normalized));
    object.flag("infer_marks", allowed.inferred_marks);
    object.number("age_slack", u64::from(allowed.age_slack));
    object
}

fn is_errors_only(unmarked: UnmarkedReplies) -> bool
    ensures { result ≡ is_errors_only unmarked }
{
    match unmarked {
        UnmarkedReplies::Allow => false,
        UnmarkedReplies::ErrorsOnly => true,
    }
}

fn seconds(given: Option<u32>) -> Option<u64>
    ensures { result ≡ given }
{
    match given {
        Some(seconds) => Some(u64::from(seconds)),
        None => None,
    }
}

// The names in order, each once, with commas between them.
fn names_json(alloc: Global, names: &FieldNames) -> Result<Value, AllocError>
    ensures { IfOk result (λ v. view v ≡ string (names_text names.now)) }
{
    let ordered = in_order(alloc, names.names())?;
    Ok(Value::String(joined(alloc, &ordered)?))
}

// The names in order, as those of members.
fn in_order(alloc: Global, names: &[Octets]) -> Result<Map<String, Value>, AllocError>
    ensures { IfOk result (λ ordered. members_view ordered.entries ≡ in_order names.now) }
{
    let mut ordered = Object::new(alloc);
    for name in names {
        let shown = shown(alloc, name.as_slice())?;
        ordered.put(shown.as_str(), Ok(Value::Null));
    }
    ordered.into_members()
}

/// Octets as they are shown.
pub(crate) fn shown(alloc: Global, octets: &[u8]) -> Result<String, AllocError>
    ensures { IfOk result (λ text. string_bytes text ≡ octets_text octets.now) }
{
    let mut text = String::new(alloc);
    push_octets(octets, &mut text)?;
    Ok(text)
}

// The names of the members, with commas between them.
fn joined(alloc: Global, members: &Map<String, Value>) -> Result<String, AllocError>
    ensures { IfOk result (λ text. string_bytes text ≡ joined [] (members_view members.now.entries)) }
{
    let mut text = String::new(alloc);
    for (name, _value) in members.iter() {
        push_name(name.as_str(), &mut text)?;
    }
    Ok(text)
}

// Adds a name, after a comma where it isn't the first.
fn push_name(name: &str, text: &mut String) -> Result<(), AllocError>
    ensures { OnOk result (string_bytes text.new ≡ with_name (string_bytes text.old) name.now) }
{
    if text.is_empty() {
        return text.push_str(name);
    }
    text.push_str(",")?;
    text.push_str(name)
}
