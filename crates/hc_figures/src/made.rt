//! By which settings a baseline was made.

ghost use Rattle.std.specs.Prelude.{◌≡◌, is_some, not, option_map};
ghost use Rattle.serde_json.specs.View.{members_view, view};
ghost use Rattle.hc_figures.specs.Made.{digest_in, has_setting, has_settings, is_made_by, read_alike, same_flags, same_numbers, same_texts, settings_in};

use crate::baseline::Baseline;
use crate::tally::member;
use serde_json::{Map, Value};

/// A setting by which a baseline was made, and what is asked in its place.
#[derive(Clone, Copy)]
pub struct Difference<'a> {
    /// Its name.
    pub name: &'a str,
    /// What the baseline has, if it has such a setting.
    pub had: Option<&'a Value>,
    /// What is asked.
    pub asked: &'a Value,
}

impl Baseline {
    /// The first of these settings that it wasn't made by, in the order of their names. There is none where it was made by
    /// all of them, or doesn't say by which.
    pub fn difference<'a>(&'a self, asked: &'a Map<String, Value>) -> Option<Difference<'a>>
        ensures { is_some result ≡ not (is_made_by (view self.now.report) (members_view asked.now.entries)) }
    {
        match settings_in(&self.report) {
            Some(had) => first_other(had, asked),
            None => None,
        }
    }

    /// The digest of the targets of its recording, if it says one.
    pub fn digest(&self) -> Option<&str>
        ensures { option_map (λ t. t.now) result ≡ digest_in (view self.now.report) }
    {
        self.report.get("targets")?.get("digest")?.as_str()
    }
}

// The settings by which a report was made.
fn settings_in(report: &Value) -> Option<&Map<String, Value>>
    ensures { option_map (λ m. members_view m.now.entries) result ≡ settings_in (view report.now) }
{
    report.get("settings")?.as_object()
}

// The first of the settings that are asked which isn't among those.
fn first_other<'a>(
    had: &'a Map<String, Value>,
    asked: &'a Map<String, Value>,
) -> Option<Difference<'a>>
    ensures { is_some result ≡ not (has_settings (members_view had.now.entries) (members_view asked.now.entries)) }
{
    for (name, value) in asked.iter() {
        if !has_setting(had, name.as_str(), value) {
            return Some(Difference {
                name: name.as_str(),
                had: member(had, name.as_str()),
                asked: value,
            });
        }
    }
    None
}

// Whether a setting of that name and value is among those.
fn has_setting(had: &Map<String, Value>, name: &str, asked: &Value) -> bool
    ensures { result ≡ has_setting (members_view had.now.entries) name.now (view asked.now) }
{
    match member(had, name) {
        Some(value) => read_alike(value, asked),
        None => false,
    }
}

// Whether two values are the same number, truth value or text, or both null.
fn read_alike(had: &Value, asked: &Value) -> bool
    ensures { result ≡ read_alike (view had.now) (view asked.now) }
{
    same_numbers(had, asked)
        || same_flags(had, asked)
        || same_texts(had, asked)
        || (had.is_null() && asked.is_null())
}

fn same_numbers(had: &Value, asked: &Value) -> bool
    ensures { result ≡ same_numbers (view had.now) (view asked.now) }
{
    match (had.as_u64(), asked.as_u64()) {
        (Some(had), Some(asked)) => had == asked,
        _ => false,
    }
}

fn same_flags(had: &Value, asked: &Value) -> bool
    ensures { result ≡ same_flags (view had.now) (view asked.now) }
{
    match (had.as_bool(), asked.as_bool()) {
        (Some(had), Some(asked)) => had == asked,
        _ => false,
    }
}

fn same_texts(had: &Value, asked: &Value) -> bool
    ensures { result ≡ same_texts (view had.now) (view asked.now) }
{
    match (had.as_str(), asked.as_str()) {
        (Some(had), Some(asked)) => had == asked,
        _ => false,
    }
}
