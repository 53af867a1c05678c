//! What the program does, over any system and any two writers.
ghost use Rattle.std.specs.Io.KnownBytes.{Keeps};
ghost use Rattle.std.specs.Prelude.{◌≡◌, ◌⊎◌, ◌<◌, ◌∷◌, [], None, codes, false, map, true};
ghost use Rattle.clap.specs.Words.{Text, fault_of};
ghost use Rattle.hc_options.specs.Auditing.{no_minimums, plain_audit};
ghost use Rattle.hc_options.specs.Commands.{IsFileName, IsWord};
ghost use Rattle.hc_arguments.specs.Commands.{hcache};
ghost use Rattle.hc_arguments.specs.Tasks.{Asks, CanBeDone, Task, form_of, task_of};
ghost use Rattle.hc_auditing.specs.Audit.{Answers};
ghost use Rattle.hc_command.specs.Convert.{Converted};
ghost use Rattle.hc_command.specs.Ends.{Does, Ends};
ghost use Rattle.hc_command.specs.Replay.{Played};
ghost use Rattle.hc_command.specs.Show.{ShownFor};
ghost use Rattle.hc_command.specs.Report.{Explained, ExplainedTwice};
ghost use Rattle.hc_command.specs.Documents.{Documented, ReportedAs, ReportedOn};
ghost use Rattle.hc_command.specs.Reporting.{ReportedAlone, ReportedBy, ReportedIn};

use crate::baseline::{BaselineTrouble, baseline_of};
use crate::converting::convert;
use crate::documenting::report_in_html;
use crate::explaining::explain;
use crate::replaying::replay;
use crate::reporting::{Beside, ReportForm, report};
use crate::showing::show;
use crate::twice::{Twice, opened_twice};
use hc_arguments::{
    AuditTerms, ExplainTerms, Order, ReportTerms, beside_html, not_text, parsed, without_baseline,
};
use hc_auditing::{
    Trouble, audited, input_name, input_of, opened, printed, shown, unread, words_of,
};
use hc_figures::Baseline;
use hc_history::Settings;
use hc_parting::{SplitOrder, join, split};
use hc_shown::Span;
use std::alloc::Global;
use std::convert::AsStr;
use std::io::{Read, Write};
use std::rt::{Env, Files};
use std::{fs, io};

/// Does what the program's own arguments ask, and returns its exit status.
pub fn status<R, W: Write, E: Write>(rt: &R, output: &mut W, faults: &mut E) -> u8
where
    R: Env + Files + Input + AllocGlobal,
    ensures { Ends result (W.contents output.old) (W.contents output.new)
        (E.contents faults.old) (E.contents faults.new) }
{
    match words_of(rt) {
        Ok(words) => answered(rt, words.as_slice(), output, faults),
        Err(error) => unread(&error, not_text(rt.alloc()), output, faults),
    }
}

/// Does what the words ask, of which the first is the program's name, and returns the exit status.
///
/// A transcript or a script is read from the system. Clients are served by a program of its own. A verdict, the
/// transcript of a script, a converted transcript, help or the version goes to `output`, and what went wrong, or
/// the verdict on the transcript of a script, to `faults`.
pub fn answered<R, S: AsStr, W: Write, E: Write>(
    rt: &R,
    words: &[S],
    output: &mut W,
    faults: &mut E,
) -> u8
where
    R: Files + Input + AllocGlobal,
    // `audit FILE` is answered by an audit, and by no usage error.
    ensures audit { (name file : Text) → IsWord file
        → map S.text words.now ≡ name ∷ codes "audit" ∷ file ∷ []
        → Answers no_minimums result (W.contents output.old) (W.contents output.new)
        (E.contents faults.old) (E.contents faults.new) }

    // And `report FILE` by a report in text.
    ensures report { (name file : Text) → IsWord file
        → map S.text words.now ≡ name ∷ codes "report" ∷ file ∷ []
        → ReportedBy false false plain_audit result (W.contents output.old) (W.contents output.new)
        (E.contents faults.old) (E.contents faults.new) }

    // And `explain FILE`, where that is no standard input, by an explanation of the first wrong reply.
    ensures explain { (name file : Text) → IsFileName file
        → map S.text words.now ≡ name ∷ codes "explain" ∷ file ∷ []
        → Explained false None result (W.contents output.old) (W.contents output.new)
        (E.contents faults.old) (E.contents faults.new) }

    // And `replay FILE` by a replay.
    ensures replay { (name file : Text) → IsWord file
        → map S.text words.now ≡ name ∷ codes "replay" ∷ file ∷ []
        → Played result (W.contents output.old) (W.contents output.new)
        (E.contents faults.old) (E.contents faults.new) }

    // And `convert FILE` by a conversion.
    ensures convert { (name file : Text) → IsWord file
        → map S.text words.now ≡ name ∷ codes "convert" ∷ file ∷ []
        → Converted result (W.contents output.old) (W.contents output.new)
        (E.contents faults.old) (E.contents faults.new) }

    // So are other words that ask for one of these, and have no fault.
    ensures asked { (task : Task) → fault_of hcache (map S.text words.now) ≡ []
        → Asks (map S.text words.now) task
        → Does task result (W.contents output.old) (W.contents output.new)
        (E.contents faults.old) (E.contents faults.new) }
    ensures ends { Ends result (W.contents output.old) (W.contents output.new)
        (E.contents faults.old) (E.contents faults.new) }
{
    match parsed(rt.alloc(), words) {
        Ok(order) => done(rt, order, output, faults),
        Err(error) => shown(&error, output, faults),
    }
}

// Does what is asked.
fn done<R, W: Write, E: Write>(rt: &R, order: Order<'_>, output: &mut W, faults: &mut E) -> u8
where
    R: Files + Input + AllocGlobal,
    requires { CanBeDone (task_of order) }
    ensures { Does (task_of order.entry) result (W.contents output.old) (W.contents output.new) (E.contents faults.old) (E.contents faults.new) }
{
    match order {
        Order::Audit { file, terms } => audited(rt, file, terms, output, faults),
        Order::Report { file, terms, form } => report_asked(rt, file, terms, form, output, faults),
        Order::Explain { file, terms } => explained(rt, file, terms, output, faults),
        Order::Show { file, span } => records_shown(rt, file, span, output, faults),
        Order::Replay { file } => replayed(rt, file, output, faults),
        Order::Convert { file } => converted(rt, file, output, faults),
        Order::Split { file, parts, dir } => {
            split(rt, SplitOrder { file, parts, dir }, output, faults)
        }
        Order::Join { dir, least } => join(rt, dir, least, output, faults),
        Order::Serve(_) => served_elsewhere(faults),
        Order::Proxy(_) => served_elsewhere(faults),
    }
}

// Says that another program serves clients, and returns the exit status.
fn served_elsewhere<E: Write>(faults: &mut E) -> u8
    ensures { result ≡ 64 }
{
    let _ = printed("error: another program serves clients\n", faults);
    64
}

// Reports on the file as is asked.
fn report_asked<R, W: Write, E: Write>(
    rt: &R,
    file: &str,
    terms: AuditTerms,
    form: ReportTerms<'_>,
    output: &mut W,
    faults: &mut E,
) -> u8
where
    R: Files + Input + AllocGlobal,
    ensures { ReportedOn (form_of form.entry) terms result (W.contents output.old) (W.contents output.new)
        (E.contents faults.old) (E.contents faults.new) }
{
    if form.html {
        document_asked(rt, file, terms, form, output, faults)
    } else {
        report_in_text(rt, file, terms, form, output, faults)
    }
}

// Reports on the file in HTML, if that alone is asked, and it can be read twice.
fn document_asked<R, W: Write, E: Write>(
    rt: &R,
    file: &str,
    terms: AuditTerms,
    form: ReportTerms<'_>,
    output: &mut W,
    faults: &mut E,
) -> u8
where
    R: Files + AllocGlobal,
    ensures { ReportedAs true (form_of form.entry) terms result (W.contents output.old) (W.contents output.new)
        (E.contents faults.old) (E.contents faults.new) }
{
    if has_other_form(form) {
        return refused_beside(rt.alloc(), output, faults);
    }
    match opened_twice(rt, file) {
        Ok(twice) => document_twice(rt.alloc(), twice, file, terms, output, faults),
        Err(fault) => fault.told(file, faults),
    }
}

// Whether something is asked that doesn't go with HTML.
fn has_other_form(form: ReportTerms<'_>) -> bool {
    let has_file = form.baseline.is_some() || form.junit.is_some();
    has_file || form.json || form.annotates || form.strict
}

// Reports in HTML on the file, which was opened twice.
fn document_twice<F: Read + Drop, W: Write, E: Write>(
    alloc: Global,
    mut twice: Twice<F, F>,
    name: &str,
    terms: AuditTerms,
    output: &mut W,
    faults: &mut E,
) -> u8
    ensures { Documented terms result (W.contents output.old) (W.contents output.new)
        (E.contents faults.old) (E.contents faults.new) }
{
    report_in_html(alloc, terms, name, &mut twice, output, faults)
}

// Reports on the file in text or JSON, if the baseline that is named is there.
fn report_in_text<R, W: Write, E: Write>(
    rt: &R,
    file: &str,
    terms: AuditTerms,
    form: ReportTerms<'_>,
    output: &mut W,
    faults: &mut E,
) -> u8
where
    R: Files + Input + AllocGlobal,
    ensures { ReportedAs false (form_of form.entry) terms result (W.contents output.old) (W.contents output.new)
        (E.contents faults.old) (E.contents faults.new) }
{
    let ReportTerms {
        json,
        baseline,
        strict,
        annotates,
        junit,
        html: _,
    } = form;
    let Some(name) = baseline else {
        return report_alone(rt, file, terms, form, output, faults);
    };
    match baseline_in(rt, name) {
        Ok(known) => {
            let form = ReportForm {
                json,
                baseline: Some(known),
                strict,
                annotates,
            };
            let files = ReportFiles { input: file, junit };
            reported(rt, files, terms, form, output, faults)
        }
        Err(trouble) => trouble.told(name, faults),
    }
}

// Reports on the file as is asked, where no baseline is named.
fn report_alone<R, W: Write, E: Write>(
    rt: &R,
    file: &str,
    terms: AuditTerms,
    form: ReportTerms<'_>,
    output: &mut W,
    faults: &mut E,
) -> u8
where
    R: Files + Input + AllocGlobal,
    ensures { ReportedAlone form.entry.strict (form_of form.entry) terms result
        (W.contents output.old) (W.contents output.new) (E.contents faults.old) (E.contents faults.new) }
{
    if form.strict {
        return refused(rt.alloc(), output, faults);
    }
    let files = ReportFiles {
        input: file,
        junit: form.junit,
    };
    let form = ReportForm {
        json: form.json,
        baseline: None,
        strict: false,
        annotates: form.annotates,
    };
    reported(rt, files, terms, form, output, faults)
}

// Says that a baseline has to be named.
fn refused<W: Write, E: Write>(alloc: Global, output: &mut W, faults: &mut E) -> u8
    ensures status { (result ≡ 64) ⊎ (result ≡ 3) }
    ensures quiet { Keeps (W.contents output.old) (W.contents output.new) }
{
    match without_baseline(alloc) {
        Ok(error) => shown(&error, output, faults),
        Err(error) => Trouble::from(error).told("", faults),
    }
}

// Says that HTML goes without another form.
fn refused_beside<W: Write, E: Write>(alloc: Global, output: &mut W, faults: &mut E) -> u8
    ensures status { (result ≡ 64) ⊎ (result ≡ 3) }
    ensures quiet { Keeps (W.contents output.old) (W.contents output.new) }
{
    match beside_html(alloc) {
        Ok(error) => shown(&error, output, faults),
        Err(error) => Trouble::from(error).told("", faults),
    }
}

// The baseline in the file of that name.
fn baseline_in<R: Files + AllocGlobal>(rt: &R, name: &str) -> Result<Baseline, BaselineTrouble> {
    match opened(rt, name) {
        Ok(mut file) => baseline_of(rt.alloc(), &mut file),
        Err(error) => Err(BaselineTrouble::Trouble(Trouble::Device(error))),
    }
}

// The names of the files of a report.
#[derive(Clone, Copy)]
struct ReportFiles<'a> {
    // Of the transcript, or `-` for standard input.
    input: &'a str,
    // Of the one that gets JUnit's XML, if one is named.
    junit: Option<&'a str>,
}

// Reports on the file, or standard input for `-`.
fn reported<R, W: Write, E: Write>(
    rt: &R,
    files: ReportFiles<'_>,
    terms: AuditTerms,
    form: ReportForm,
    output: &mut W,
    faults: &mut E,
) -> u8
where
    R: Files + Input + AllocGlobal,
    ensures { ReportedIn form.baseline form terms result (W.contents output.old) (W.contents output.new)
        (E.contents faults.old) (E.contents faults.new) }
{
    match input_of(rt, files.input) {
        Ok(mut input) => {
            let name = input_name(files.input);
            let mut beside = Beside::new(rt.alloc(), name, files.junit.is_some());
            let input = &mut input;
            let status = report(terms, form, &mut beside, input, output, faults);
            kept(rt, files.junit, beside.junit.as_str(), status, faults)
        }
        Err(error) => Trouble::Device(error).told(files.input, faults),
    }
}

// Writes the XML to the file of that name, if there are both, and returns the status that the program had
// come to.
fn kept<R: Files, E: Write>(rt: &R, name: Option<&str>, xml: &str, status: u8, faults: &mut E) -> u8
    ensures { (result ≡ 3) ⊎ ((result ≡ status) × (E.contents faults.new ≡ E.contents faults.old)) }
{
    let Some(name) = name else {
        return status;
    };
    if xml.is_empty() {
        return status;
    }
    match written(rt, name, xml) {
        Ok(()) => status,
        Err(error) => Trouble::Device(error).told(name, faults),
    }
}

fn written<R: Files>(rt: &R, name: &str, text: &str) -> io::Result<()> {
    let mut file = fs::create(rt, name)?;
    printed(text, &mut file)
}

// Explains a reply of the file, if it can be read twice.
fn explained<R, W: Write, E: Write>(
    rt: &R,
    file: &str,
    terms: ExplainTerms,
    output: &mut W,
    faults: &mut E,
) -> u8
where
    R: Files + AllocGlobal,
    ensures { Explained terms.json terms.position result (W.contents output.old) (W.contents output.new)
        (E.contents faults.old) (E.contents faults.new) }
{
    match opened_twice(rt, file) {
        Ok(twice) => explained_twice(rt.alloc(), twice, file, terms, output, faults),
        Err(fault) => fault.told(file, faults),
    }
}

// Explains a reply of the file, which was opened twice.
fn explained_twice<F: Read + Drop, W: Write, E: Write>(
    alloc: Global,
    mut twice: Twice<F, F>,
    name: &str,
    terms: ExplainTerms,
    output: &mut W,
    faults: &mut E,
) -> u8
    ensures { ExplainedTwice terms.json terms.position result (W.contents output.old) (W.contents output.new)
        (E.contents faults.old) (E.contents faults.new) }
{
    explain(alloc, terms, name, &mut twice, output, faults)
}

// Shows records of the file, or of standard input for `-`.
fn records_shown<R, W: Write, E: Write>(
    rt: &R,
    file: &str,
    span: Span,
    output: &mut W,
    faults: &mut E,
) -> u8
where
    R: Files + Input + AllocGlobal,
    requires { 0 < span.last }
    ensures { ShownFor span result (W.contents output.old) (W.contents output.new)
        (E.contents faults.old) (E.contents faults.new) }
{
    match input_of(rt, file) {
        Ok(mut input) => show(
            rt.alloc(),
            span,
            input_name(file),
            &mut input,
            output,
            faults,
        ),
        Err(error) => Trouble::Device(error).told(file, faults),
    }
}

// Replays the script of the file.
fn replayed<R, W: Write, E: Write>(rt: &R, file: &str, output: &mut W, faults: &mut E) -> u8
where
    R: Files + AllocGlobal,
    ensures { Played result (W.contents output.old) (W.contents output.new)
        (E.contents faults.old) (E.contents faults.new) }
{
    match opened(rt, file) {
        Ok(mut input) => replay(rt.alloc(), file, &mut input, output, faults),
        Err(error) => Trouble::Device(error).told(file, faults),
    }
}

// Converts the transcript of the file.
fn converted<R, W: Write, E: Write>(rt: &R, file: &str, output: &mut W, faults: &mut E) -> u8
where
    R: Files + AllocGlobal,
    ensures { Converted result (W.contents output.old) (W.contents output.new)
        (E.contents faults.old) (E.contents faults.new) }
{
    match opened(rt, file) {
        Ok(mut input) => convert(rt.alloc(), file, &mut input, output, faults),
        Err(error) => Trouble::Device(error).told(file, faults),
    }
}
