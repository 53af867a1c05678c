//! The rows of a time line.

ghost use Rattle.std.specs.Prelude.{◌≡◌};
ghost use Rattle.hc_timelines.specs.Rows.{class_of};

use crate::changes::{Change, Standing};
use hc_head::ResponseHeadView;
use hc_history::{Finding, Mark};
use hc_html::{Class, Html, Tag};
use hc_index::RecordedForward;
use hc_shown::{FieldOf, Page, RecordName, Teller};
use hc_use::Forbids;
use std::alloc::{AllocError, Global};

/// What came, and what it made of what is stored.
pub(crate) struct Row {
    pub(crate) named: RecordName,
    /// What it is, by which it is drawn.
    pub(crate) class: Class,
    /// In words.
    pub(crate) words: Page,
    /// How many right hits from the same response it stands for, after the first one, and the position of the last.
    pub(crate) more: u64,
    pub(crate) last: u64,
    /// The response that is given, if one is named.
    pub(crate) from: Option<u64>,
}

impl Drop for Row {
    fn drop(self) {
        let Row {
            named: _,
            class: _,
            words,
            more: _,
            last: _,
            from: _,
        } = self;
        drop(words);
    }
}

impl Row {
    /// A row of that record, and nothing is said yet.
    pub(crate) fn new(alloc: Global, named: RecordName, class: Class) -> Self {
        Row {
            named,
            class,
            words: Page::new(alloc),
            more: 0,
            last: named.position,
            from: None,
        }
    }

    /// Writes it.
    pub(crate) fn write(&self, alloc: Global, html: &mut Html) {
        html.begin(Tag::Li, self.class);
        let mut place = Page::new(alloc);
        place.record("", self.named);
        html.leaf_made(Tag::Span, Class::Plain, place.into_text());
        let mut moment = Page::new(alloc);
        moment.moment(self.named.moment);
        html.leaf_made(Tag::Time, Class::Plain, moment.into_text());
        html.begin(Tag::Span, Class::Plain);
        html.made(copied(alloc, &self.words));
        if self.more != 0 {
            html.words(", and ");
            html.count(self.more, " such hits more, up to ");
            html.count(self.last, "");
        }
        html.end(Tag::Span);
        html.end(Tag::Li);
    }
}

fn copied(alloc: Global, page: &Page) -> Result<String, AllocError> {
    let mut text = String::new(alloc);
    page.onto(&mut text)?;
    Ok(text)
}

/// Says what a response is: its status, to which method, and what it says of its lifetime.
pub(crate) fn say_response(
    forward: &RecordedForward,
    response: &ResponseHeadView<'_>,
    page: &mut Page,
) {
    page.count("", u64::from(response.status.as_u16()), " to ");
    page.said_octets("", forward.request.method.as_slice(), "");
    for name in SAYING {
        if response.fields.contains(name) {
            page.said_octets(", ", name, " ");
            page.said_value(&FieldOf::new(name, &response.fields));
        }
    }
}

const SAYING: [&[u8]; 5] = [b"cache-control", b"expires", b"age", b"vary", b"etag"];

/// Says what forbids to store a response.
pub(crate) fn say_forbidden(forbids: &Forbids, page: &mut Page) {
    page.words("; it must not be stored: ");
    forbids.tell(true, page);
}

/// Says what a record made of the response at that position.
pub(crate) fn say_change(change: Change, position: u64, page: &mut Page) {
    match change {
        Change::Stored(standing) => {
            page.words("; it may be stored");
            say_freshness(standing, page);
        }
        Change::Validated(standing) => {
            page.count("; validates ", position, "");
            say_freshness(standing, page);
        }
        Change::Invalidated => page.count("; invalidates ", position, ""),
    }
}

fn say_freshness(standing: Standing, page: &mut Page) {
    page.count(
        ", with a lifetime of ",
        u64::from(standing.lifetime),
        " s: stale from ",
    );
    page.moment(standing.stale_from);
    page.words(" on");
}

/// How a reply is drawn.
pub(crate) fn class_of(finding: Finding, mark: Mark) -> Class
    ensures { result ≡ class_of finding mark }
{
    match (finding, mark) {
        (Finding::Wrong(_), _) => Class::Wrong,
        (Finding::Right, Mark::Hit { .. }) => Class::Hit,
        (Finding::Right, _) => Class::Other,
    }
}

/// Says as what a reply is judged.
pub(crate) fn say_mark(mark: Mark, page: &mut Page) {
    page.words(match mark {
        Mark::Hit { .. } => ", a hit",
        Mark::Forwarded { collapsed: true } => ", collapsed",
        Mark::Forwarded { collapsed: false } => ", forwarded",
        Mark::Both => ", with both marks",
        Mark::Unmarked => ", unmarked",
    });
}

/// Says the response that a reply gives, or is held against, and by what it is wrong, if it is.
pub(crate) fn say_finding(finding: Finding, from: Option<u64>, page: &mut Page) {
    if let Some(from) = from {
        page.count(", by ", from, "");
    }
    if let Finding::Wrong(reason) = finding {
        page.count(": wrong, ", u64::from(reason.number()), " ");
        page.words(reason.name());
    }
}
