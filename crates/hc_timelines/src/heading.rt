//! What a document begins with: how many replies are wrong, of which recording, and what was counted of it.

use hc_figures::{NO_MARK, ReplyCounts};
use hc_history::{Counts, Ending};
use hc_html::{Class, Html, Tag};
use hc_report::Report;
use hc_shown::{Page, Teller};
use std::alloc::Global;

/// Writes the heading: how many of the replies are wrong. Then of which recording, which ends so, and what was counted.
pub(crate) fn write_front(
    alloc: Global,
    name: &str,
    report: &Report,
    ending: Ending,
    counts: Option<Counts>,
    html: &mut Html,
) {
    html.begin(Tag::Header, Class::Plain);
    write_heading(report, ending, html);
    html.begin(Tag::P, Class::Note);
    write_name(alloc, name, html);
    write_ending(ending, counts, html);
    if let Some(first) = report.first_wrong() {
        html.words(". The first wrong reply: ");
        html.link(first.position);
    }
    html.end(Tag::P);
    html.end(Tag::Header);
    write_counts(report.replies(), report.wrong(), html);
}

fn write_name(alloc: Global, name: &str, html: &mut Html) {
    let mut page = Page::new(alloc);
    page.said_octets("", name.as_bytes(), "");
    html.leaf_made(Tag::Code, Class::Plain, page.into_text());
}

fn write_heading(report: &Report, ending: Ending, html: &mut Html) {
    let (wrong, judged) = (report.wrong(), report.replies().judged());
    if wrong != 0 {
        html.begin(Tag::H1, Class::No);
        html.count(wrong, " of ");
        html.count(judged, are_wrong(wrong));
        return html.end(Tag::H1);
    }
    match ending {
        Ending::Broken(position, _) => {
            html.begin(Tag::H1, Class::Broken);
            html.words("The recording breaks at record ");
            html.count(position, "");
        }
        Ending::Whole => {
            html.begin(Tag::H1, Class::Yes);
            html.count(judged, " judged replies, and none is wrong");
        }
    }
    html.end(Tag::H1);
}

fn are_wrong(count: u64) -> &'static str {
    if count == 1 {
        " judged replies is wrong"
    } else {
        " judged replies are wrong"
    }
}

fn write_ending(ending: Ending, counts: Option<Counts>, html: &mut Html) {
    if let Some(counts) = counts {
        html.words(": ");
        html.count(counts.records, " records, and whole");
    }
    if let Ending::Broken(position, fault) = ending {
        html.words(": malformed at ");
        html.count(position, ", ");
        html.count(u64::from(fault.number()), " ");
        html.words(fault.name());
    }
}

fn write_counts(replies: &ReplyCounts, wrong: u64, html: &mut Html) {
    html.begin(Tag::Dl, Class::Counts);
    write_figure("replies", replies.all(), html);
    write_figure("hits", replies.hits, html);
    write_figure("forwarded", replies.forwarded, html);
    write_figure("collapsed", replies.collapsed, html);
    write_figure("unmarked", replies.unmarked, html);
    write_figure("both marks", replies.both, html);
    write_figure("not judged", replies.unjudged, html);
    write_figure("wrong", wrong, html);
    write_figure("octets of hits", replies.hit_octets, html);
    write_figure("octets forwarded", replies.forwarded_octets, html);
    html.end(Tag::Dl);
    if replies.has_no_mark() {
        html.leaf(Tag::P, Class::Note, NO_MARK);
    }
}

// Writes what was counted, if it isn't nothing.
fn write_figure(name: &str, number: u64, html: &mut Html) {
    if number == 0 {
        return;
    }
    html.begin(Tag::Div, Class::Plain);
    html.leaf(Tag::Dt, Class::Plain, name);
    html.begin(Tag::Dd, Class::Plain);
    html.count(number, "");
    html.end(Tag::Dd);
    html.end(Tag::Div);
}
