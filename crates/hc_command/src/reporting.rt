//! The report on one transcript: from a reader to text or JSON on a writer and an exit status.
ghost use Rattle.std.specs.Prelude.{◌≡◌, ◌⊎◌, None, false, true, IfOk, IfSome, List, OnOk, option_map, string_bytes};
ghost use Rattle.std.specs.Io.KnownBytes.{Appends};
ghost use Rattle.hc_transcript.specs.Items.{Item};
ghost use Rattle.hc_history.specs.declared.wrong.WrongReply.{WrongReply};
ghost use Rattle.hc_report.specs.Counting.{HasCountedIn, TellsAllOf};
ghost use Rattle.hc_report.specs.Made.{made_by};
ghost use Rattle.hc_command.specs.Report.{SaysLineFirst};
ghost use Rattle.hc_command.specs.Reporting.{Annotates, EndsStrictly, IsLast, IsLastBy, IsMadeBy, IsMadeByOthers, ReportsBy, SaysAll, SaysReportOf, WritesIn, WritesInJson, gone_line, is_fewer};

use crate::saying::said_first;
use crate::surveying::{Outcome, Reading, surveyed};
use hc_arguments::{AuditTerms, Minimums};
use hc_auditing::{Trouble, ended, printed, verdict_line, verdict_status};
use hc_figures::Baseline;
use hc_history::{Ending, Settings, Verdict};
use hc_index::Index;
use hc_report::{CountingReport, Report, other_setting};
use std::alloc::{AllocError, Global};
use std::io::{Read, Write};

impl<I: Index> Reading<I> for Report {
    ghost enough = { λ _. ⊥ };

    fn has_enough(&self) -> bool {
        false
    }
}

impl<I: Index> Reading<I> for CountingReport {
    ghost enough = { λ _. ⊥ };

    fn has_enough(&self) -> bool {
        false
    }
}

/// In which form a report is made, and what isn't held against a transcript.
pub struct ReportForm {
    /// As one JSON object, in place of text.
    pub json: bool,
    /// An earlier report, which has wrong replies that are known.
    pub baseline: Option<Baseline>,
    /// Whether the exit status is one of its own where that has wrong replies that aren't there any more.
    pub strict: bool,
    /// Whether wrong replies are annotations, too, behind the report.
    pub annotates: bool,
}

impl Drop for ReportForm {
    fn drop(self) {
        let ReportForm {
            json: _,
            baseline,
            strict: _,
            annotates: _,
        } = self;
        drop(baseline);
    }
}

/// What is told of a transcript beside the report.
pub struct Beside<'a> {
    /// What the transcript is called.
    pub name: &'a str,
    /// Whether the wrong replies are asked for as JUnit's XML.
    pub wants_junit: bool,
    /// That XML. It is empty where none was made.
    pub junit: String,
    /// The annotations.
    annotations: String,
}

impl Drop for Beside<'_> {
    fn drop(self) {
        let Beside {
            name: _,
            wants_junit: _,
            junit,
            annotations,
        } = self;
        drop(junit);
        drop(annotations);
    }
}

impl<'a> Beside<'a> {
    /// Nothing yet, of the transcript that is called so.
    pub fn new(alloc: Global, name: &'a str, wants_junit: bool) -> Self {
        Beside {
            name,
            wants_junit,
            junit: String::new(alloc),
            annotations: String::new(alloc),
        }
    }

    // The allocator of what is told.
    fn alloc(&self) -> Global {
        *self.junit.allocator()
    }
}

/// By which verdict a report ends.
#[derive(Clone, Copy)]
pub struct ReportEnd {
    /// This.
    pub verdict: Verdict,
    /// How many wrong replies its baseline has that aren't there any more.
    pub gone: u64,
}

// The exit status where a baseline has wrong replies that aren't there any more.
const FEWER_WRONG: u8 = 5;

/// Reports all wrong replies of the transcript that `input` gives up to its end, or up to where a record
/// breaks it, and returns the exit status: that of an audit, but for wrong replies that a baseline has.
///
/// The report goes to `output`: the line of the verdict, as an audit says it, and behind it text for people;
/// or in its place one JSON object; and behind it the annotations that are asked for. Where a baseline has
/// all wrong replies, the status is that of a transcript without them. What an audit says on `faults` where
/// too few replies were judged, this says too. Where the status would be 0, and it is asked whether the
/// baseline has more, it is 5 if that has, and a line on `faults` says how many. A baseline that was made by
/// other settings is refused before anything is read: a line on `faults` names one of them, and the status is
/// 64. Where there is no verdict, by a read or a write that fails or by memory, the status is 3, and one line
/// on `faults` says why; a write of that line that fails is passed over.
pub fn report<R: Read, W: Write, E: Write>(
    terms: AuditTerms,
    form: ReportForm,
    beside: &mut Beside<'_>,
    input: &mut R,
    output: &mut W,
    faults: &mut E,
) -> u8
    ensures { ReportsBy form terms
        (record { had = R.remaining input.old; left = R.remaining input.new }) result
        (W.contents output.old) (W.contents output.new) (E.contents faults.old) (E.contents faults.new) }
{
    let alloc = beside.alloc();
    let AuditTerms { settings, minimums } = terms;
    if let Some(status) = other_settings(alloc, &settings, &form, faults) {
        return status;
    }
    match reported_whole(alloc, &settings, &form, beside, input, output) {
        Ok(end) => ended_strictly(alloc, form.strict, minimums, &end, faults),
        Err(trouble) => trouble.told(beside.name, faults),
    }
}

// Where the baseline was made by other settings, says so and returns the exit status.
fn other_settings<E: Write>(
    alloc: Global,
    settings: &Settings,
    form: &ReportForm,
    faults: &mut E,
) -> Option<u8>
    ensures some { IfSome result (λ status. (status ≡ 3) ⊎ ((status ≡ 64) × IsMadeByOthers form.now.baseline settings.now)) }
    ensures none { result ≡ None → IsMadeBy form.now.baseline settings.now }
    ensures quiet { result ≡ None → E.contents faults.new ≡ E.contents faults.old }
{
    match &form.baseline {
        Some(baseline) => other_settings_of(alloc, settings, baseline, faults),
        None => None,
    }
}

fn other_settings_of<E: Write>(
    alloc: Global,
    settings: &Settings,
    baseline: &Baseline,
    faults: &mut E,
) -> Option<u8>
    ensures some { IfSome result (λ status. (status ≡ 3) ⊎ ((status ≡ 64) × (made_by baseline.now settings.now ≡ false))) }
    ensures none { result ≡ None → made_by baseline.now settings.now ≡ true }
    ensures quiet { result ≡ None → E.contents faults.new ≡ E.contents faults.old }
{
    match other_setting(alloc, baseline, settings) {
        Ok(Some(line)) => {
            let _ = printed(line.as_str(), faults);
            Some(64)
        }
        Ok(None) => None,
        Err(error) => Some(Trouble::from(error).told("", faults)),
    }
}

// Ends by the verdict. Where that gives 0, and the baseline has wrong replies that aren't there any more,
// says so if it is asked for, and returns 5.
fn ended_strictly<E: Write>(
    alloc: Global,
    strict: bool,
    least: Minimums,
    end: &ReportEnd,
    faults: &mut E,
) -> u8
    ensures { (result ≡ 3) ⊎ EndsStrictly strict least end.now result (E.contents faults.old) (E.contents faults.new) }
{
    let status = ended(alloc, least, &end.verdict, faults);
    if !is_fewer(strict, end.gone, status) {
        return status;
    }
    match said_gone(alloc, end.gone, faults) {
        Ok(()) => FEWER_WRONG,
        Err(trouble) => trouble.told("standard error", faults),
    }
}

// Whether it is asked for, some are gone, and that is the status.
fn is_fewer(strict: bool, gone: u64, status: u8) -> bool
    ensures { result ≡ is_fewer strict gone status }
{
    strict && 0 < gone && status == 0
}

// Says how many are gone.
fn said_gone<E: Write>(alloc: Global, gone: u64, faults: &mut E) -> Result<(), Trouble>
    ensures { OnOk result (Appends (E.contents faults.old) (E.contents faults.new) (gone_line gone)) }
{
    let line = gone_line(alloc, gone)?;
    match printed(line.as_str(), faults) {
        Ok(()) => Ok(()),
        Err(error) => Err(Trouble::Device(error)),
    }
}

fn gone_line(alloc: Global, gone: u64) -> Result<String, AllocError>
    ensures { IfOk result (λ line. string_bytes line ≡ gone_line gone) }
{
    format!(in alloc; "fewer wrong: gone={gone}\n")
}

// Reports what `input` gives, and annotates it if that is asked for. Returns how the report ends.
fn reported_whole<R: Read, W: Write>(
    alloc: Global,
    settings: &Settings,
    form: &ReportForm,
    beside: &mut Beside<'_>,
    input: &mut R,
    output: &mut W,
) -> Result<ReportEnd, Trouble>
    ensures { IfOk result (λ end. SaysAll form.now settings.now end
        (record { had = R.remaining input.old; left = R.remaining input.new })
        (W.contents output.old) (W.contents output.new)) }
{
    let end = reported(alloc, settings, form, beside, input, output)?;
    annotated(form.annotates, beside, output)?;
    Ok(end)
}

// Writes the annotations, if they are asked for.
fn annotated<W: Write>(annotates: bool, beside: &Beside<'_>, output: &mut W) -> Result<(), Trouble>
    ensures { OnOk result (Annotates annotates (W.contents output.old) (W.contents output.new)) }
{
    if !annotates {
        return Ok(());
    }
    match printed(beside.annotations.as_str(), output) {
        Ok(()) => Ok(()),
        Err(error) => Err(Trouble::Output(error)),
    }
}

// Reports what `input` gives. Returns how the report ends.
fn reported<R: Read, W: Write>(
    alloc: Global,
    settings: &Settings,
    form: &ReportForm,
    beside: &mut Beside<'_>,
    input: &mut R,
    output: &mut W,
) -> Result<ReportEnd, Trouble>
    ensures { IfOk result (λ end. SaysReportOf form.now.json form.now.baseline settings.now end
        (record { had = R.remaining input.old; left = R.remaining input.new })
        (W.contents output.old) (W.contents output.new)) }
{
    if form.json {
        return counted(alloc, settings, form, beside, input, output);
    }
    if are_asked(form, beside) {
        return counted(alloc, settings, form, beside, input, output);
    }
    match &form.baseline {
        Some(_) => counted(alloc, settings, form, beside, input, output),
        None => grouped(alloc, settings, input, output),
    }
}

// Whether each wrong reply is asked for.
fn are_asked(form: &ReportForm, beside: &Beside<'_>) -> bool {
    form.annotates || beside.wants_junit
}

// Reports in text, and counts no kinds of wrong replies.
fn grouped<R: Read, W: Write>(
    alloc: Global,
    settings: &Settings,
    input: &mut R,
    output: &mut W,
) -> Result<ReportEnd, Trouble>
    ensures { IfOk result (λ end. SaysReportOf false None settings.now end
        (record { had = R.remaining input.old; left = R.remaining input.new })
        (W.contents output.old) (W.contents output.new)) }
{
    let mut report = Report::new(alloc, settings.copy(alloc)?)?;
    let outcome = surveyed(alloc, settings.copy(alloc)?, input, &mut report)?;
    let verdict = outcome.verdict(report.first_wrong());
    let mut text = String::new(alloc);
    push_break(alloc, &outcome, &verdict, &mut text)?;
    report.say(outcome.ending(), outcome.counts(), &mut text)?;
    said_first(alloc, &verdict, text.as_str(), output)?;
    Ok(ReportEnd { verdict, gone: 0 })
}

// Reports in that form, and counts the kinds of all wrong replies.
fn counted<R: Read, W: Write>(
    alloc: Global,
    settings: &Settings,
    form: &ReportForm,
    beside: &mut Beside<'_>,
    input: &mut R,
    output: &mut W,
) -> Result<ReportEnd, Trouble>
    ensures { IfOk result (λ end. SaysReportOf form.now.json form.now.baseline settings.now end
        (record { had = R.remaining input.old; left = R.remaining input.new })
        (W.contents output.old) (W.contents output.new)) }
{
    let asked = are_asked(form, beside);
    let mut report = CountingReport::new(alloc, settings.copy(alloc)?, asked)?;
    let outcome = surveyed(alloc, settings.copy(alloc)?, input, &mut report)?;
    let verdict = outcome.verdict(report.first_wrong());
    let end = end_of(&report, form, &outcome, &verdict);
    let concluded = Concluded { outcome, verdict };
    put_beside(form, &report, outcome.ending(), beside)?;
    said_in(alloc, settings, form, report, &concluded, output)?;
    Ok(end)
}

// Puts what is asked for beside the report.
fn put_beside(
    form: &ReportForm,
    report: &CountingReport,
    ending: Ending,
    beside: &mut Beside<'_>,
) -> Result<(), AllocError> {
    let name = beside.name;
    let baseline = form.baseline.as_ref();
    if form.annotates {
        report.write_annotations(baseline, ending, name, &mut beside.annotations)?;
    }
    if beside.wants_junit {
        report.write_junit(baseline, ending, name, &mut beside.junit)?;
    }
    Ok(())
}

// How the octets of a transcript end, and the verdict on them.
#[derive(Clone, Copy)]
struct Concluded {
    outcome: Outcome,
    verdict: Verdict,
}

// How the report ends.
fn end_of(
    report: &CountingReport,
    form: &ReportForm,
    outcome: &Outcome,
    verdict: &Verdict,
) -> ReportEnd
    ensures { (h : List Item) (wrongs : List WrongReply) → TellsAllOf report.now wrongs → HasCountedIn report.now h
        → IsLast form.now.baseline h wrongs outcome.now verdict.now result }
{
    match &form.baseline {
        Some(baseline) => ReportEnd {
            verdict: held_against(report, baseline, outcome, verdict),
            gone: report.gone(baseline),
        },
        None => ReportEnd {
            verdict: *verdict,
            gone: 0,
        },
    }
}

// The verdict by which it ends with a baseline.
fn held_against(
    report: &CountingReport,
    baseline: &Baseline,
    outcome: &Outcome,
    verdict: &Verdict,
) -> Verdict
    ensures { (h : List Item) (wrongs : List WrongReply) → TellsAllOf report.now wrongs → HasCountedIn report.now h
        → IsLastBy baseline.now h wrongs outcome.now verdict.now result }
{
    if report.is_covered(baseline) {
        outcome.verdict_without()
    } else {
        *verdict
    }
}

// Writes the report, as a JSON object or as text, and returns the verdict's status.
fn said_in<W: Write>(
    alloc: Global,
    settings: &Settings,
    form: &ReportForm,
    report: CountingReport,
    concluded: &Concluded,
    output: &mut W,
) -> Result<u8, Trouble>
    ensures { IfOk result (λ status. WritesIn form.now.json report form.now.baseline settings.now
        concluded.now status (W.contents output.old) (W.contents output.new)) }
{
    let baseline = form.baseline.as_ref();
    if form.json {
        said_in_json(settings, report, baseline, concluded, output)
    } else {
        said_in_text(alloc, &report, baseline, concluded, output)
    }
}

// Writes the report as a JSON object, and returns the verdict's status.
fn said_in_json<W: Write>(
    settings: &Settings,
    report: CountingReport,
    baseline: Option<&Baseline>,
    concluded: &Concluded,
    output: &mut W,
) -> Result<u8, Trouble>
    ensures { IfOk result (λ status. WritesInJson report (option_map (λ b. b.now) baseline.entry) settings.now
        concluded.now status (W.contents output.old) (W.contents output.new)) }
{
    let outcome = &concluded.outcome;
    let mut text = report.json(settings, baseline, outcome.ending(), outcome.counts())?;
    text.push('\n')?;
    match printed(text.as_str(), output) {
        Ok(()) => Ok(verdict_status(&concluded.verdict)),
        Err(error) => Err(Trouble::Output(error)),
    }
}

// Writes the verdict's line and behind it the report, and returns the verdict's status.
fn said_in_text<W: Write>(
    alloc: Global,
    report: &CountingReport,
    baseline: Option<&Baseline>,
    concluded: &Concluded,
    output: &mut W,
) -> Result<u8, Trouble>
    ensures { IfOk result (λ status. SaysLineFirst concluded.now.verdict status (W.contents output.old) (W.contents output.new)) }
{
    let outcome = &concluded.outcome;
    let mut text = String::new(alloc);
    push_break(alloc, outcome, &concluded.verdict, &mut text)?;
    report.say(baseline, outcome.ending(), outcome.counts(), &mut text)?;
    said_first(alloc, &concluded.verdict, text.as_str(), output)
}

// Adds the line of the malformed record where reading stopped, if it did so behind a wrong reply.
fn push_break(
    alloc: Global,
    outcome: &Outcome,
    verdict: &Verdict,
    out: &mut String,
) -> Result<(), AllocError> {
    if let (Outcome::Broken(position, fault), Verdict::No(_, _)) = (outcome, verdict) {
        let line = verdict_line(alloc, &Verdict::Malformed(*position, *fault))?;
        out.push_str(line.as_str())?;
    }
    Ok(())
}
