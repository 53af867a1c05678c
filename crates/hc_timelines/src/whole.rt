//! The whole document.

ghost use Rattle.std.specs.Prelude.{IfOk, string_bytes};
ghost use Rattle.hc_html.specs.Marked.{IsDocument};

use crate::groups::write_wrongs;
use crate::heading::write_front;
use crate::judged_by::write_settings;
use crate::retelling::Retelling;
use hc_history::{Counts, Ending, Settings};
use hc_html::{Class, Html, Tag};
use std::alloc::{AllocError, Global};

/// What a document is about.
#[derive(Clone, Copy)]
pub struct Subject<'a> {
    /// What the recording is called.
    pub name: &'a str,
    /// The line of the verdict on it.
    pub line: &'a str,
    /// By what it was judged.
    pub settings: &'a Settings,
    /// How it ends.
    pub ending: Ending,
    /// What was counted of it, if it is whole.
    pub counts: Option<Counts>,
}

/// A document of a report on a recording, with what was told of its wrong replies when it was read again.
pub fn document(
    alloc: Global,
    subject: &Subject<'_>,
    retelling: &Retelling,
) -> Result<String, AllocError>
    ensures { IfOk result (λ text. IsDocument subject.now.line.now (string_bytes text)) }
{
    let mut html = Html::new(alloc);
    write_all(alloc, subject, retelling, &mut html)?;
    html.into_document(subject.line)
}

fn write_all(
    alloc: Global,
    subject: &Subject<'_>,
    retelling: &Retelling,
    html: &mut Html,
) -> Result<(), AllocError> {
    let report = &retelling.report;
    write_front(
        alloc,
        subject.name,
        report,
        subject.ending,
        subject.counts,
        html,
    );
    html.begin(Tag::Main, Class::Plain);
    write_settings(alloc, subject.settings, html);
    let asked = retelling.asked()?;
    write_wrongs(alloc, report, asked.as_slice(), html)?;
    retelling.write(html);
    html.end(Tag::Main);
    html.words("\n");
    Ok(())
}
