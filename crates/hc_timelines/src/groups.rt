//! What is wrong, by what is asked.

use hc_html::{Class, Html, Tag};
use hc_report::{Group, Helpful, Report, Suspect};
use hc_shown::{Page, Teller};
use hc_use::Demand;
use std::alloc::{AllocError, Global};

/// What the wrong reply at a position doesn't keep.
#[derive(Clone, Copy)]
pub(crate) struct AskedAt {
    /// The position.
    pub(crate) position: u64,
    /// What is asked.
    pub(crate) demand: Demand,
}

/// Of the first of a group nothing is known more.
const UNEXPLAINED: Demand = Demand {
    sections: "",
    words: "when it was read again, the recording didn't have these",
};

/// How strongly a thing is asked.
#[derive(Clone, Copy, PartialEq, Eq)]
enum Strength {
    /// By a MUST of an RFC.
    Must,
    /// By what an RFC says a thing means.
    Stated,
    /// By a SHOULD.
    Should,
    /// By a stricter rule of this auditor's own.
    Own,
}

// Whether a word stands in a text.
fn has_word(text: &str, word: &[u8]) -> bool {
    let octets = text.as_bytes();
    for place in 0..octets.len() {
        if octets[place..].starts_with(word) {
            return true;
        }
    }
    false
}

// How strongly a thing is asked, as its sentence and its sections say.
fn strength_of(demand: &Demand) -> Strength {
    if has_word(demand.sections, b"no RFC") {
        Strength::Own
    } else if has_word(demand.words, b"MUST") {
        Strength::Must
    } else if has_word(demand.words, b"SHOULD") {
        Strength::Should
    } else {
        Strength::Stated
    }
}

fn strength_named(strength: Strength) -> (&'static str, Class) {
    match strength {
        Strength::Must => ("MUST", Class::Must),
        Strength::Stated => ("RFC", Class::Stated),
        Strength::Should => ("SHOULD", Class::Should),
        Strength::Own => ("stricter", Class::Own),
    }
}

fn is_same(one: &Demand, other: &Demand) -> bool {
    one.sections == other.sections && one.words == other.words
}

// What the first of a group doesn't keep.
fn demand_of(group: &Group, asked: &[AskedAt]) -> Demand {
    for known in asked {
        if known.position == group.first {
            return known.demand;
        }
    }
    UNEXPLAINED
}

// Whether the first of one of these groups doesn't keep that.
fn is_asked(groups: &[Group], asked: &[AskedAt], demand: &Demand) -> bool {
    for group in groups {
        if is_same(&demand_of(group, asked), demand) {
            return true;
        }
    }
    false
}

/// Writes what is wrong, by what is asked, as far as that is known; and what could be let pass so that less is.
pub(crate) fn write_wrongs(
    alloc: Global,
    report: &Report,
    asked: &[AskedAt],
    html: &mut Html,
) -> Result<(), AllocError> {
    if report.wrong() == 0 {
        return Ok(());
    }
    html.leaf(Tag::H2, Class::Plain, "What is wrong");
    html.leaf(Tag::P, Class::Note, ORDER);
    let groups = report.groups();
    write_strength(alloc, groups, asked, Strength::Must, html);
    write_strength(alloc, groups, asked, Strength::Stated, html);
    write_strength(alloc, groups, asked, Strength::Should, html);
    write_strength(alloc, groups, asked, Strength::Own, html);
    write_rest(report, html);
    write_tries(report.wrong(), report.helpful()?.as_slice(), html);
    write_suspects(alloc, report.suspects(), html);
    Ok(())
}

const ORDER: &str =
    "Each group of replies stands under what the first of them doesn't keep. MUST comes first, then what RFCs say \
    otherwise, SHOULD, and rules of hcache that are stricter than the RFCs.";

// Writes what is asked so strongly, each thing once.
fn write_strength(
    alloc: Global,
    groups: &[Group],
    asked: &[AskedAt],
    strength: Strength,
    html: &mut Html,
) {
    for (place, group) in groups.iter().enumerate() {
        let demand = demand_of(group, asked);
        if strength_of(&demand) == strength && !is_asked(&groups[..place], asked, &demand) {
            write_demand(demand, html);
            write_asked(alloc, groups, asked, &demand, html);
        }
    }
}

fn write_demand(demand: Demand, html: &mut Html) {
    let (word, class) = strength_named(strength_of(&demand));
    html.leaf(Tag::H3, Class::Asked, demand.words);
    html.begin(Tag::P, Class::Plain);
    html.leaf(Tag::Span, class, word);
    html.words(" ");
    html.words(demand.sections);
    html.end(Tag::P);
}

// Writes the groups of which the first doesn't keep that.
fn write_asked(
    alloc: Global,
    groups: &[Group],
    asked: &[AskedAt],
    demand: &Demand,
    html: &mut Html,
) {
    html.begin(Tag::Ul, Class::Groups);
    for group in groups {
        if is_same(&demand_of(group, asked), demand) {
            write_group(alloc, group, html);
        }
    }
    html.end(Tag::Ul);
}

fn write_group(alloc: Global, group: &Group, html: &mut Html) {
    html.begin(Tag::Li, Class::Plain);
    html.begin(Tag::Span, Class::Count);
    html.count(group.count, "");
    html.end(Tag::Span);
    html.begin(Tag::Span, Class::Plain);
    html.count(u64::from(group.reason.number()), " ");
    html.words(group.reason.name());
    let mut page = Page::new(alloc);
    page.words(": ");
    group.say_what(&mut page);
    page.words("; the first ");
    html.made(page.into_text());
    html.link(group.first);
    let mut page = Page::new(alloc);
    page.words(", of ");
    group.say_targets(&mut page);
    html.made(page.into_text());
    html.end(Tag::Span);
    html.end(Tag::Li);
}

// Writes how many wrong replies are in no group, and how many are of targets of which nothing is recorded.
fn write_rest(report: &Report, html: &mut Html) {
    write_count(
        report.ungrouped(),
        " more wrong replies are in no group of these.",
        html,
    );
    write_count(
        report.unrecorded(),
        " wrong replies are of targets of which nothing is recorded: was the cache empty when the recording began?",
        html,
    );
}

fn write_count(count: u64, of: &str, html: &mut Html) {
    if count != 0 {
        html.begin(Tag::P, Class::Note);
        html.count(count, of);
        html.end(Tag::P);
    }
}

fn write_tries(wrong: u64, helpful: &[Helpful], html: &mut Html) {
    if helpful.is_empty() {
        return;
    }
    html.leaf(Tag::H2, Class::Plain, "To try, judged again");
    html.begin(Tag::Dl, Class::Settings);
    for one in helpful {
        write_try(wrong, one, html);
    }
    html.end(Tag::Dl);
}

fn write_try(wrong: u64, one: &Helpful, html: &mut Html) {
    html.begin(Tag::Div, Class::Plain);
    html.leaf(Tag::Dt, Class::Plain, one.options.as_str());
    html.begin(Tag::Dd, Class::Plain);
    html.count(wrong, if one.is_exact { " to " } else { " to at most " });
    html.count(one.wrong, " wrong replies");
    html.end(Tag::Dd);
    html.end(Tag::Div);
}

fn write_suspects(alloc: Global, suspects: &[Suspect], html: &mut Html) {
    if suspects.is_empty() {
        return;
    }
    html.leaf(Tag::H2, Class::Plain, "Suspected faults");
    html.begin(Tag::Dl, Class::Settings);
    for suspect in suspects {
        write_suspect(alloc, suspect, html);
    }
    html.end(Tag::Dl);
}

fn write_suspect(alloc: Global, suspect: &Suspect, html: &mut Html) {
    let mut name = Page::new(alloc);
    suspect.say_what(&mut name);
    html.begin(Tag::Div, Class::Plain);
    html.leaf_made(Tag::Dt, Class::Plain, name.into_text());
    html.begin(Tag::Dd, Class::Plain);
    html.words("in ");
    html.count(suspect.count, " wrong replies");
    html.end(Tag::Dd);
    html.end(Tag::Div);
}
