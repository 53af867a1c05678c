//! The second reading of a recording, by which it is told why replies are wrong.

use crate::groups::AskedAt;
use crate::time_line::TimeLine;
use hc_audit::{JudgedReply, PassedRecord, Witness};
use hc_explain::{Explaining, Form};
use hc_head::{Target, same_target};
use hc_history::Finding;
use hc_html::{Class, Html, Tag};
use hc_index::Index;
use hc_report::Report;
use hc_shown::Page;
use hc_why::FoundReply;
use std::alloc::{AllocError, Global};

/// A witness that explains wrong replies, and draws the time lines of their targets.
pub struct Retelling {
    alloc: Global,
    // The lifetime that is lent to what states none, if one is.
    lent: Option<u32>,
    pub(crate) report: Report,
    explained: Vec<Explaining>,
    lines: Vec<TimeLine>,
}

impl Drop for Retelling {
    fn drop(self) {
        let Retelling {
            alloc: _,
            lent: _,
            report,
            explained,
            lines,
        } = self;
        drop(report);
        drop(explained);
        drop(lines);
    }
}

impl<I: Index> Witness<I> for Retelling {
    ghost tells = { λ retelling wrongs. Unit {0} };

    ghost hears = { λ retelling h. Unit {0} };

    fn pass(&mut self, passed: &PassedRecord<'_, I>) -> Result<(), AllocError> {
        for explaining in self.explained.iter_mut() {
            explaining.pass(passed)?;
        }
        for line in self.lines.iter_mut() {
            line.pass(passed)?;
        }
        Ok(())
    }

    fn see(&mut self, judged: &JudgedReply<'_, I>) -> Result<(), AllocError> {
        for explaining in self.explained.iter_mut() {
            explaining.see(judged)?;
        }
        for line in self.lines.iter_mut() {
            line.see(judged)?;
        }
        Ok(())
    }
}

impl Retelling {
    /// Of no reply of that report yet.
    pub(crate) fn new(alloc: Global, report: Report, lent: Option<u32>) -> Self {
        Retelling {
            alloc,
            lent,
            report,
            explained: Vec::new(alloc),
            lines: Vec::new(alloc),
        }
    }

    /// Tells of those that the report explains of the replies that it named.
    pub(crate) fn begin_all(&mut self, named: Vec<FoundReply>) -> Result<(), AllocError> {
        for found in named {
            if self.report.explains(found.position) {
                self.begin(found)?;
            }
        }
        Ok(())
    }

    // Tells of that reply, too.
    fn begin(&mut self, found: FoundReply) -> Result<(), AllocError> {
        self.begin_line(&found)?;
        let explaining = Explaining::new(self.alloc, found, Form::Text)?;
        self.explained.push(explaining)?;
        Ok(())
    }

    // Has a time line of its target.
    fn begin_line(&mut self, found: &FoundReply) -> Result<(), AllocError> {
        for line in self.lines.iter_mut() {
            if same_target(&line.target, &found.target) {
                line.extend(found.position);
                return Ok(());
            }
        }
        let target = found.target.copy(self.alloc)?;
        self.lines.push(TimeLine::new(self.alloc, target, self.lent, found.position))?;
        Ok(())
    }

    /// Whether no more has to be read.
    pub fn is_after(&self) -> bool {
        for explaining in self.explained.iter() {
            if !explaining.is_after() {
                return false;
            }
        }
        true
    }

    /// Writes why the replies are wrong, each with what came before it for its target.
    pub(crate) fn write(&self, html: &mut Html) {
        let wrong = self.report.wrong();
        if wrong == 0 {
            return;
        }
        html.leaf(Tag::H2, Class::Plain, "Wrong replies, by target");
        html.begin(Tag::P, Class::Note);
        let told = self.explained.len() as u64;
        html.count(
            told,
            " wrong replies are explained here, the first of each group and target, and ",
        );
        html.count(
            wrong.saturating_sub(told),
            " are not: hcache explain has them by their positions. ",
        );
        html.words(LETTERS);
        html.end(Tag::P);
        for line in self.lines.iter() {
            write_line(self.alloc, line, self.explained.as_slice(), html);
        }
    }

    /// What the replies don't keep.
    pub(crate) fn asked(&self) -> Result<Vec<AskedAt>, AllocError> {
        let mut asked = Vec::new(self.alloc);
        for explaining in self.explained.iter() {
            if let Some(demand) = explaining.asked() {
                let position = explaining.found().position;
                asked.push(AskedAt { position, demand })?;
            }
        }
        Ok(asked)
    }
}

/// How records are named.
const LETTERS: &str =
    "A record is named as in the recording, by its position, its letter and its number: r is a response of the \
    origin, x that none came, a reply is a, a client's request q, and one to the origin f.";

// Writes the time line of a target, and why its replies are wrong.
fn write_line(alloc: Global, line: &TimeLine, explained: &[Explaining], html: &mut Html) {
    html.begin(Tag::Details, Class::Target);
    html.begin(Tag::Summary, Class::Plain);
    let mut page = Page::new(alloc);
    page.target(&line.target);
    html.leaf_made(Tag::Code, Class::Plain, page.into_text());
    html.begin(Tag::Span, Class::Positions);
    write_places(&line.target, explained, html);
    html.end(Tag::Span);
    html.end(Tag::Summary);
    line.write(html);
    write_explained(&line.target, explained, html);
    html.end(Tag::Details);
}

// Writes where the replies of that target stand.
fn write_places(target: &Target, explained: &[Explaining], html: &mut Html) {
    for explaining in explained {
        if same_target(target, &explaining.found().target) {
            html.place(explaining.found().position);
            html.words(" ");
        }
    }
}

fn write_explained(target: &Target, explained: &[Explaining], html: &mut Html) {
    for explaining in explained {
        if same_target(target, &explaining.found().target) {
            write_why(explaining, html);
        }
    }
}

// Writes why a reply is wrong.
fn write_why(explaining: &Explaining, html: &mut Html) {
    let found = explaining.found();
    html.begin(Tag::Section, Class::Why);
    html.begin(Tag::H3, Class::Plain);
    html.count(found.position, "");
    if let Finding::Wrong(reason) = found.finding {
        html.words(": ");
        html.count(u64::from(reason.number()), " ");
        html.words(reason.name());
    }
    html.end(Tag::H3);
    if let Some(told) = explaining.told() {
        for line in told.lines() {
            html.leaf(Tag::Div, Class::Line, line);
        }
    }
    html.end(Tag::Section);
}
