//! What the program does by words, over devices in memory.

use crate::commands_words::asks_for_audit;
use crate::devices::Pieces;
use crate::written::Written;
use hc_arguments::{Order, ReportTerms, parsed};
use hc_auditing::{audit, printed, shown};
use hc_cases::Unanswered;
use hc_command::{
    BaselineTrouble, Beside, ReportForm, baseline_of, convert, explain, replay, report,
    report_in_html,
};
use hc_figures::Baseline;
use hc_options::{AuditOrder, audit_asked};
use std::alloc::Global;
use std::io::Write;

/// What the program writes by those words of what the pieces make, and its exit status. It reads a piece at a time. An
/// audit is asked of the program that only audits, too.
pub(crate) fn written_of(
    alloc: Global,
    words: &[&str],
    pieces: &[&[u8]],
) -> Result<Written, Unanswered> {
    let mut written = Written::nothing(alloc);
    let mut input = Pieces::new(pieces);
    let output = &mut written.output;
    written.status = status_of(alloc, words, &mut input, output, &mut written.faults)?;
    if asks_for_audit(words) {
        written.compare(&written_alone(alloc, words, pieces));
    }
    Ok(written)
}

// What the program that only audits writes by those words of that transcript, and its exit status.
fn written_alone(alloc: Global, words: &[&str], pieces: &[&[u8]]) -> Written {
    let mut written = Written::nothing(alloc);
    let output = &mut written.output;
    let faults = &mut written.faults;
    written.status = match audit_asked(alloc, words) {
        Ok(order) => {
            let mut input = Pieces::new(pieces);
            audit(alloc, order.terms, order.file, &mut input, output, faults)
        }
        Err(error) => shown(&error, output, faults),
    };
    written
}

/// Does what the words ask, which is to audit, to report, to explain, to replay or to convert, and returns
/// the exit status.
pub(crate) fn status_of<W: Write, E: Write>(
    alloc: Global,
    words: &[&str],
    input: &mut Pieces<'_>,
    output: &mut W,
    faults: &mut E,
) -> Result<u8, Unanswered> {
    match parsed(alloc, words) {
        Ok(order) => done(alloc, order, input, output, faults),
        Err(error) => Ok(shown(&error, output, faults)),
    }
}

// Does what is asked, and returns the exit status.
fn done<W: Write, E: Write>(
    alloc: Global,
    order: Order<'_>,
    input: &mut Pieces<'_>,
    output: &mut W,
    faults: &mut E,
) -> Result<u8, Unanswered> {
    match order {
        Order::Audit { file, terms } => Ok(audit(alloc, terms, file, input, output, faults)),
        Order::Report { file, terms, form } => {
            let order = AuditOrder { file, terms };
            reported(alloc, order, form, input, output, faults)
        }
        Order::Explain { file, terms } => {
            let mut twice = input.twice();
            let status = explain(alloc, terms, file, &mut twice, output, faults);
            *input = twice.first;
            Ok(status)
        }
        Order::Replay { file } => Ok(replay(alloc, file, input, output, faults)),
        Order::Convert { file } => Ok(convert(alloc, file, input, output, faults)),
        _ => Err(Unanswered::Unknown),
    }
}

// Reports in that form, and returns the exit status.
fn reported<W: Write, E: Write>(
    alloc: Global,
    order: AuditOrder<'_>,
    form: ReportTerms<'_>,
    input: &mut Pieces<'_>,
    output: &mut W,
    faults: &mut E,
) -> Result<u8, Unanswered> {
    let AuditOrder { file, terms } = order;
    if form.html {
        let mut twice = input.twice();
        let status = report_in_html(alloc, terms, file, &mut twice, output, faults);
        *input = twice.first;
        return Ok(status);
    }
    match known(alloc, form.baseline) {
        Ok(baseline) => {
            let mut beside = Beside::new(alloc, file, form.junit.is_some());
            let form = ReportForm {
                json: form.json,
                baseline,
                strict: form.strict,
                annotates: form.annotates,
            };
            let status = report(terms, form, &mut beside, input, output, faults);
            put_junit(beside.junit.as_str(), output)?;
            Ok(status)
        }
        Err(trouble) => Ok(trouble.told("baseline", faults)),
    }
}

// Writes the XML behind what the program writes, in place of a file.
fn put_junit<W: Write>(xml: &str, output: &mut W) -> Result<(), Unanswered> {
    match printed(xml, output) {
        Ok(()) => Ok(()),
        Err(_) => Err(Unanswered::Unknown),
    }
}

// The baseline that a word is, which a command line has for the name of a file.
fn known(alloc: Global, word: Option<&str>) -> Result<Option<Baseline>, BaselineTrouble> {
    let Some(word) = word else {
        return Ok(None);
    };
    let pieces = [word.as_bytes()];
    Ok(Some(baseline_of(alloc, &mut Pieces::new(&pieces))?))
}
