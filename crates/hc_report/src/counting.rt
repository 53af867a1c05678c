//! A report that counts all wrong replies by their kind.

ghost use Rattle.std.specs.Prelude.{◌≡◌, ◌++◌, List, [], ◌∷◌, IfOk, OnOk, option_map, slice_get, string_bytes, true, false};
ghost use Rattle.hc_transcript.specs.Items.{Item};
ghost use Rattle.hc_history.specs.declared.wrong.WrongReply.{WrongReply};
ghost use Rattle.hc_audit.specs.Hearing.{IsReplyBehind, item_judged};
ghost use Rattle.hc_figures.specs.Kinds.{AreKnown};
ghost use Rattle.hc_figures.specs.Tallies.{base_of, gone_from};
ghost use Rattle.serde_json.specs.Data.{Members};
ghost use Rattle.hc_figures.specs.Objects.{Has};
ghost use Rattle.hc_figures.specs.Figures.{LeavesFigures};
ghost use Rattle.hc_report.specs.Held.{SayHeldBy};
ghost use Rattle.hc_report.specs.Json.{WritesAll};
ghost use Rattle.hc_report.specs.Counting.{HasCountedIn, HasHeardOf, TellsAllOf};
ghost use Rattle.hc_report.specs.Kinds.{kinds_in};

use crate::cases::Cases;
use crate::json::{new_json, put_all};
use crate::made::settings_object;
use crate::report::{Report, shown_request};
use crate::source::Source;
use hc_audit::{JudgedReply, PassedRecord, Witness};
use hc_figures::{Baseline, NamedKinds, Object, Tally};
use hc_history::{Counts, Ending, Finding, Reason, Settings, WrongReply};
use hc_index::Index;
use hc_shown::{Page, Teller};
use std::alloc::{AllocError, Global};

/// A report that has all wrong replies, and counts them by their kind, so that they can be held against an earlier report.
/// It takes memory for each wrong reply, for each kind, and for each target.
#[derive(Drop)]
pub struct CountingReport {
    alloc: Global,
    report: Report,
    wrongs: Vec<WrongReply>,
    tally: Tally,
    source: Source,
    cases: Cases,
}

impl<I: Index> Witness<I> for CountingReport {
    ghost tells = { λ report wrongs. TellsAllOf report wrongs };

    ghost hears = { λ report h. HasHeardOf report h };

    fn pass(&mut self, passed: &PassedRecord<'_, I>) -> Result<(), AllocError> {
        self.report.pass(passed)
    }

    fn see(&mut self, judged: &JudgedReply<'_, I>) -> Result<(), AllocError> {
        self.report.see(judged)?;
        self.source.see(judged)?;
        match judged.finding {
            Finding::Right => Ok(()),
            Finding::Wrong(reason) => self.count(judged, reason),
        }
    }
}

impl CountingReport {
    /// The report on an audit by those settings that has read nothing yet. It keeps what is shown of each request that a wrong
    /// reply answers, if cases are asked for.
    pub fn new(alloc: Global, settings: Settings, cases_are_asked: bool) -> Result<Self, AllocError>
        ensures tells { IfOk result (λ report. TellsAllOf report []) }
        ensures hears { IfOk result (λ report. HasHeardOf report []) }
    {
        Ok(CountingReport {
            alloc,
            report: Report::new(alloc, settings)?,
            wrongs: Vec::new(alloc),
            tally: Tally::new(alloc),
            source: Source::new(alloc),
            cases: Cases::new(alloc, cases_are_asked),
        })
    }

    // Counts a wrong reply by its kind.
    fn count<I: Index>(
        &mut self,
        judged: &JudgedReply<'_, I>,
        reason: Reason,
    ) -> Result<(), AllocError>
        ensures report { self.new.report ≡ self.old.report }
        ensures all { OnOk result (self.new.wrongs.items ≡ self.old.wrongs.items ++ record { position = judged.now.position; reason = reason } ∷ []) }
        ensures heard { (h : List Item) → HasCountedIn self.old h → IsReplyBehind I.seen h judged.now
            → OnOk result (HasCountedIn self.new (item_judged judged.now ∷ h)) }
    {
        let request = shown_request(self.alloc, judged)?;
        let kind = request.kind(self.alloc, reason)?;
        self.tally.take(kind.as_str())?;
        let position = judged.position;
        let wrong = WrongReply { position, reason };
        self.cases.take(wrong, request)?;
        self.wrongs.push(wrong)?;
        Ok(())
    }

    /// The first wrong reply.
    pub fn first_wrong(&self) -> Option<WrongReply>
        ensures { (wrongs : List WrongReply) → TellsAllOf self.now wrongs → result ≡ slice_get wrongs 0 }
    {
        self.report.first_wrong()
    }

    /// Whether a baseline has all wrong replies: of each kind as many as there are, or more.
    pub fn is_covered(&self, baseline: &Baseline) -> bool
        ensures yes { (h : List Item) (wrongs : List WrongReply) → TellsAllOf self.now wrongs → HasCountedIn self.now h
            → result ≡ true → AreKnown (base_of baseline.now) (kinds_in h wrongs) }
        ensures no { (h : List Item) (wrongs : List WrongReply) → TellsAllOf self.now wrongs → HasCountedIn self.now h
            → result ≡ false → ¬ AreKnown (base_of baseline.now) (kinds_in h wrongs) }
    {
        let _many = self.wrongs.len();
        baseline.covers(&self.tally)
    }

    /// How many wrong replies a baseline has that aren't there any more: of each kind as many as it has more.
    pub fn gone(&self, baseline: &Baseline) -> u64
        ensures { (h : List Item) (wrongs : List WrongReply) → TellsAllOf self.now wrongs → HasCountedIn self.now h
            → result ≡ gone_from baseline.now (kinds_in h wrongs) }
    {
        let _many = self.wrongs.len();
        baseline.gone(&self.tally)
    }

    /// Writes what stands behind the verdict, for a recording that ends so, and of which so much was counted; and where there
    /// is a baseline, what it has of the wrong replies, and whether its recording has other targets.
    pub fn say(
        &self,
        baseline: Option<&Baseline>,
        ending: Ending,
        counts: Option<Counts>,
        out: &mut String,
    ) -> Result<(), AllocError> {
        self.report.say(ending, counts, out)?;
        let Some(baseline) = baseline else {
            return Ok(());
        };
        let known = baseline.known(&self.tally);
        let new = (self.wrongs.len() as u64).saturating_sub(known);
        let new_kinds = baseline.new_kinds(self.alloc, &self.tally)?;
        let gone_kinds = baseline.gone_kinds(self.alloc, &self.tally)?;
        let mut page = Page::new(self.alloc);
        page.count("known      ", known, " in the baseline\n");
        page.count("new        ", new, "\n");
        say_kinds(&new_kinds, " more kinds have new ones\n", &mut page);
        page.count("gone       ", baseline.gone(&self.tally), "\n");
        say_kinds(&gone_kinds, " more kinds have fewer\n", &mut page);
        if self.source.is_other_than(baseline)? {
            page.words("targets    not the same as in the baseline\n");
        }
        page.onto(out)
    }

    /// The whole report as a JSON object, on one line, with its wrong replies by their kind, and by which settings and of
    /// which recording it was made; and where there is a baseline, with what it has of them.
    pub fn json(
        self,
        settings: &Settings,
        baseline: Option<&Baseline>,
        ending: Ending,
        counts: Option<Counts>,
    ) -> Result<String, AllocError>
        // So it can be a baseline, and be relied on.
        ensures { (h : List Item) (wrongs : List WrongReply) → TellsAllOf self wrongs → HasCountedIn self h
            → IfOk result (λ text. WritesAll (string_bytes text) self (kinds_in h wrongs) settings.now (option_map (λ b. b.now) baseline.entry) ending counts) }
    {
        let mut object = Object::new(self.alloc);
        put_all(&self.report, ending, counts, &mut object);
        self.put_held(baseline, &mut object);
        object.some("format", self.source.format);
        object.put("targets", self.source.targets_json());
        let settings = settings_object(self.alloc, settings).into_value();
        object.put("settings", settings);
        object.put("baseline", Ok(self.tally.into_counts()));
        object.into_text()
    }

    // Adds how many wrong replies a baseline has, if there is one, and how many of which kind it hasn't, or has and aren't there
    // any more.
    fn put_held(&self, baseline: Option<&Baseline>, object: &mut Object)
        ensures { (all : Members) → Has object.old all → (new : Members) × Has object.new new × LeavesFigures all new
            × SayHeldBy (option_map (λ b. b.now) baseline.entry) self.now new }
    {
        let Some(baseline) = baseline else {
            return;
        };
        let known = baseline.known(&self.tally);
        let new = (self.wrongs.len() as u64).saturating_sub(known);
        let gone = baseline.gone(&self.tally);
        let new_kinds = baseline.new_kinds(self.alloc, &self.tally);
        let gone_kinds = baseline.gone_kinds(self.alloc, &self.tally);
        object.number("known", known);
        object.put("new", new_json(self.alloc, new, new_kinds));
        object.put("other_targets", self.source.other_json(baseline));
        object.put("gone", new_json(self.alloc, gone, gone_kinds));
    }

    /// Writes the wrong replies as JUnit's XML, for a recording of that name that ends so: a case each, which fails, or is
    /// skipped if a baseline has it.
    pub fn write_junit(
        &self,
        baseline: Option<&Baseline>,
        ending: Ending,
        name: &str,
        out: &mut String,
    ) -> Result<(), AllocError> {
        let known = match baseline {
            Some(baseline) => baseline.known(&self.tally),
            None => 0,
        };
        let mut page = Page::new(self.alloc);
        self.cases
            .say_suite(name, known, baseline, ending, &mut page)?;
        page.onto(out)
    }

    /// Writes the wrong replies that a baseline hasn't as annotations of the file of that name, for a recording that ends so.
    pub fn write_annotations(
        &self,
        baseline: Option<&Baseline>,
        ending: Ending,
        name: &str,
        out: &mut String,
    ) -> Result<(), AllocError> {
        let mut page = Page::new(self.alloc);
        self.cases.annotate(name, baseline, ending, &mut page)?;
        page.onto(out)
    }
}

// Writes how many wrong replies there are of each of these kinds, and that there are more kinds.
fn say_kinds(kinds: &NamedKinds, more: &str, page: &mut Page) {
    for kind in kinds.named.iter() {
        page.column(kind.count, " ");
        page.words(kind.kind.as_str());
        page.words("\n");
    }
    if kinds.more != 0 {
        page.column(kinds.more, more);
    }
}
