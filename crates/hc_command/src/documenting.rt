//! The document on one transcript, which is read twice: from two readers to HTML on a writer and an exit status.
ghost use Rattle.std.specs.Prelude.{IfOk, string_bytes};
ghost use Rattle.hc_html.specs.Marked.{IsDocument};
ghost use Rattle.hc_command.specs.Documents.{DocumentsBy, SaysDocument};

use crate::surveying::{Outcome, Reading, surveyed};
use crate::twice::Twice;
use hc_arguments::AuditTerms;
use hc_auditing::{Trouble, ended, printed, verdict_line};
use hc_history::{Settings, Verdict};
use hc_index::Index;
use hc_timelines::{NamingReport, Retelling, Subject, document};
use std::alloc::Global;
use std::io::{Read, Write};

impl<I: Index> Reading<I> for NamingReport {
    ghost enough = { λ _. ⊥ };

    fn has_enough(&self) -> bool {
        false
    }
}

impl<I: Index> Reading<I> for Retelling {
    ghost enough = { λ _. Unit {0} };

    fn has_enough(&self) -> bool {
        self.is_after()
    }
}

/// Reports all wrong replies of the transcript that both readers give as a document in HTML, and returns the
/// exit status, which is that of an audit. `name` is what the input is called.
///
/// The document goes to `output`. Where there is no verdict, by a read or a write that fails or by memory,
/// the status is 3, and one line on `faults` says why.
pub fn report_in_html<R: Read, S: Read, W: Write, E: Write>(
    alloc: Global,
    terms: AuditTerms,
    name: &str,
    twice: &mut Twice<R, S>,
    output: &mut W,
    faults: &mut E,
) -> u8
    ensures { DocumentsBy terms.settings terms.minimums (R.remaining twice.old.first) result
        (W.contents output.old) (W.contents output.new) (E.contents faults.old) (E.contents faults.new) }
{
    let AuditTerms { settings, minimums } = terms;
    match documented(alloc, &settings, name, twice, output) {
        Ok(verdict) => ended(alloc, minimums, &verdict, faults),
        Err(trouble) => trouble.told(name, faults),
    }
}

// Writes the document, and returns the verdict.
fn documented<R: Read, S: Read, W: Write>(
    alloc: Global,
    settings: &Settings,
    name: &str,
    twice: &mut Twice<R, S>,
    output: &mut W,
) -> Result<Verdict, Trouble>
    ensures { IfOk result (λ verdict. SaysDocument settings.now verdict (R.remaining twice.old.first)
        (W.contents output.old) (W.contents output.new)) }
{
    let mut naming = NamingReport::new(alloc, settings.copy(alloc)?)?;
    let outcome = surveyed(alloc, settings.copy(alloc)?, &mut twice.first, &mut naming)?;
    let verdict = outcome.verdict(naming.first_wrong());
    let line = verdict_line(alloc, &verdict)?;
    let subject = Subject {
        name,
        line: line.as_str(),
        settings,
        ending: outcome.ending(),
        counts: outcome.counts(),
    };
    let text = document_of(alloc, &subject, naming, &mut twice.again)?;
    match printed(text.as_str(), output) {
        Ok(()) => Ok(verdict),
        Err(error) => Err(Trouble::Output(error)),
    }
}

// The document on what was found, when the transcript is read again.
fn document_of<S: Read>(
    alloc: Global,
    subject: &Subject<'_>,
    naming: NamingReport,
    again: &mut S,
) -> Result<String, Trouble>
    ensures { IfOk result (λ text. IsDocument subject.now.line.now (string_bytes text)) }
{
    let settings = subject.settings;
    let mut retelling = naming.into_retelling(settings.allowed.default_lifetime)?;
    surveyed(alloc, settings.copy(alloc)?, again, &mut retelling)?;
    Ok(document(alloc, subject, &retelling)?)
}
