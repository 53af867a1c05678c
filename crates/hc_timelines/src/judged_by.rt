//! By what settings it is judged, and what each hides.

use hc_history::{FieldNames, Settings, UnmarkedReplies};
use hc_html::{Class, Html, Tag};
use hc_shown::{Page, Teller};
use std::alloc::Global;

/// Writes the settings by which an audit judges, and what each hides.
pub(crate) fn write_settings(alloc: Global, settings: &Settings, html: &mut Html) {
    html.leaf(Tag::H2, Class::Plain, "Judged by");
    html.begin(Tag::Dl, Class::Settings);
    write_numbers(settings, html);
    write_flags(settings, html);
    write_names(
        alloc,
        "--ignore ",
        &settings.ignored,
        "that these fields are added, changed or dropped",
        html,
    );
    write_names(
        alloc,
        "--normalized ",
        &settings.allowed.normalized,
        "that the cache doesn't heed Vary for these fields",
        html,
    );
    html.end(Tag::Dl);
    html.leaf(Tag::P, Class::Note, STRICT);
}

const STRICT: &str =
    "What none of these lets pass is judged by the strict rules of hcache, which are narrower than the RFCs in places.";

// Writes those that are numbers.
fn write_numbers(settings: &Settings, html: &mut Html) {
    let allowed = &settings.allowed;
    write_number(
        "--slack ",
        some_of(settings.slack),
        "ages, lifetimes, what permits staleness and the seconds of a hit that are off by as much",
        html,
    );
    write_number(
        "--default-ttl ",
        allowed.default_lifetime,
        "that what states no lifetime lives longer than a heuristic makes sensible",
        html,
    );
    write_number(
        "--grace ",
        allowed.grace,
        "that what is stale by as much is given where the configuration doesn't mean it",
        html,
    );
    write_number(
        "--age-slack ",
        some_of(allowed.age_slack),
        "an Age that is wrong by as much",
        html,
    );
}

fn some_of(given: u32) -> Option<u32> {
    if given == 0 { None } else { Some(given) }
}

// Writes those that are given or not.
fn write_flags(settings: &Settings, html: &mut Html) {
    let allowed = &settings.allowed;
    write_flag(
        allowed.added_fields,
        "--allow added-fields",
        "fields that are added, and one that Connection names and the cache keeps",
        html,
    );
    write_flag(
        allowed.joined_lines,
        "--allow joined-lines",
        "nothing: RFC 9110 section 5.3 permits it",
        html,
    );
    write_flag(
        allowed.ranges,
        "--allow ranges",
        "that a part is another than the one that is asked for",
        html,
    );
    write_flag(
        allowed.inferred_marks,
        "--infer-marks",
        "that a reply doesn't say what it is",
        html,
    );
    write_flag(
        settings.unmarked == UnmarkedReplies::ErrorsOnly,
        "--errors-only",
        "nothing: replies of status under 400 have to have a mark",
        html,
    );
}

fn write_number(option: &str, given: Option<u32>, hides: &str, html: &mut Html) {
    let Some(seconds) = given else {
        return;
    };
    html.begin(Tag::Div, Class::Plain);
    html.begin(Tag::Dt, Class::Plain);
    html.words(option);
    html.count(u64::from(seconds), "");
    html.end(Tag::Dt);
    end_entry(hides, html);
}

fn write_flag(is_given: bool, option: &str, hides: &str, html: &mut Html) {
    if is_given {
        html.begin(Tag::Div, Class::Plain);
        html.leaf(Tag::Dt, Class::Plain, option);
        end_entry(hides, html);
    }
}

fn write_names(alloc: Global, option: &str, names: &FieldNames, hides: &str, html: &mut Html) {
    let mut page = Page::new(alloc);
    let mut is_first = true;
    for name in names.names() {
        page.separator(is_first, option, ",");
        page.said_octets("", name.as_slice(), "");
        is_first = false;
    }
    if !is_first {
        html.begin(Tag::Div, Class::Plain);
        html.leaf_made(Tag::Dt, Class::Plain, page.into_text());
        end_entry(hides, html);
    }
}

// Writes what a setting hides.
fn end_entry(hides: &str, html: &mut Html) {
    html.begin(Tag::Dd, Class::Plain);
    html.words("hides ");
    html.words(hides);
    html.end(Tag::Dd);
    html.end(Tag::Div);
}
