//! The text of a report.

use crate::found::{Firsts, Group, Suspect, unrecorded};
use crate::report::Report;
use crate::tries::Helpful;
use hc_figures::{NO_MARK, ReplyCounts};
use hc_history::{Counts, Ending};
use hc_shown::{Page, Teller};
use std::alloc::Global;

/// The most columns that are left free after a text.
const WIDEST: usize = 48;

/// Writes what stands behind the verdict, what is wrong in the wrong replies, and what could be let pass so that fewer are.
pub(crate) fn say_report(
    report: &Report,
    helpful: &[Helpful],
    ending: Ending,
    counts: Option<Counts>,
    page: &mut Page,
) {
    if let Some(counts) = counts {
        page.count("records    ", counts.records, "\n");
    }
    if let Ending::Broken(position, fault) = ending {
        page.count("ends       at ", position, ", which is malformed: ");
        page.count("", u64::from(fault.number()), " ");
        page.words(fault.name());
        page.words("\n");
    }
    say_replies(&report.replies, page);
    page.count("wrong      ", report.wrongs.count, " of ");
    page.count("", report.replies.judged(), "\n");
    if report.wrongs.count == 0 {
        return;
    }
    let found = &report.found;
    say_groups(report.alloc, &found.groups, page);
    say_suspects(&found.suspects, page);
    let unrecorded = unrecorded(found.groups.kept.as_slice());
    if unrecorded != 0 {
        let after =
            " of targets of which nothing is recorded: was the cache empty when the recording began?\n";
        page.count("warm       ", unrecorded, after);
    }
    say_tries(report.wrongs.count, helpful, page);
}

fn say_replies(replies: &ReplyCounts, page: &mut Page) {
    let all = replies.all();
    page.count("replies    ", all, ": ");
    say_part(replies.hits, all, " hits", page);
    say_part(replies.forwarded, all, " forwarded", page);
    say_part(replies.unmarked, all, " unmarked", page);
    page.count("", replies.both, " with both marks\n");
    if replies.collapsed != 0 {
        let after = " of the forwarded replies\n";
        page.count("collapsed  ", replies.collapsed, after);
    }
    page.count("octets     ", replies.hit_octets, " in bodies of hits, ");
    let after = " in those of forwarded replies\n";
    page.count("", replies.forwarded_octets, after);
    if replies.unjudged != 0 {
        let after = ": nothing is said of replies without a mark\n";
        page.count("unjudged   ", replies.unjudged, after);
    }
    if replies.has_no_mark() {
        page.words("warning: ");
        page.words(NO_MARK);
        page.words("\n");
    }
}

// Writes a count, what it counts, and its share of all in tenths of a percent, rounded down, with a comma after them. Nothing
// has no shares.
fn say_part(part: u64, all: u64, what: &str, page: &mut Page) {
    page.count("", part, what);
    if let Some(thousandths) = part.saturating_mul(1_000).checked_div(all) {
        page.count(" (", thousandths / 10, ".");
        page.count("", thousandths % 10, "%)");
    }
    page.words(", ");
}

fn say_suspects(suspects: &Firsts<Suspect>, page: &mut Page) {
    if suspects.kept.is_empty() {
        return;
    }
    page.words("suspected faults, in how many of these replies\n");
    for suspect in suspects.kept.iter() {
        page.words("  ");
        suspect.say_what(page);
        page.count(": ", suspect.count, "\n");
    }
    if suspects.more != 0 {
        page.count("  others: ", suspects.more, "\n");
    }
}

fn say_tries(wrong: u64, helpful: &[Helpful], page: &mut Page) {
    if helpful.is_empty() {
        return;
    }
    page.words("to try, judged again\n");
    for one in helpful {
        page.words("  ");
        page.words(one.options.as_str());
        let to = if one.is_exact { " to " } else { " to at most " };
        page.count(": ", wrong, to);
        page.count("", one.wrong, "\n");
    }
}

// How many columns texts take in the table of the groups.
#[derive(Clone, Copy)]
struct Widths {
    reason: usize,
    what: usize,
}

fn say_groups(alloc: Global, groups: &Firsts<Group>, page: &mut Page) {
    let mut measured = Page::new(alloc);
    let widths = widths_of(groups.kept.as_slice(), &mut measured);
    page.take_refusal(&measured);
    page.words("\n   count    first  ");
    page.padded("reason", widths.reason);
    page.words("  ");
    page.padded("what", widths.what);
    page.words("  first target\n");
    for group in groups.kept.iter() {
        say_group(group, widths, page);
    }
    if groups.more != 0 {
        page.column(groups.more, " more wrong replies are in no group of these ");
        page.count("", groups.kept.len() as u64, "\n");
    }
}

// The columns that the groups take, each of which is written on a page by itself.
fn widths_of(groups: &[Group], page: &mut Page) -> Widths {
    let mut widths = Widths { reason: 6, what: 4 };
    for group in groups {
        let begun = page.columns();
        page.count("", u64::from(group.reason.number()), " ");
        page.words(group.reason.name());
        let between = page.columns();
        group.say_what(page);
        let reason = between.saturating_sub(begun);
        let what = page.columns().saturating_sub(between);
        widths.reason = widths.reason.max(reason);
        widths.what = widths.what.max(what.min(WIDEST));
    }
    widths
}

fn say_group(group: &Group, widths: Widths, page: &mut Page) {
    page.column(group.count, " ");
    page.column(group.first, "  ");
    let begun = page.columns();
    page.count("", u64::from(group.reason.number()), " ");
    page.words(group.reason.name());
    page.pad(begun, widths.reason);
    page.words("  ");
    let begun = page.columns();
    group.say_what(page);
    page.pad(begun, widths.what);
    page.words("  ");
    group.say_targets(page);
    page.words("\n");
}
