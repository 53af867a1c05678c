//! The judging of a transcript, a record at a time.

ghost use Rattle.std.specs.Prelude.{◌≡◌, ◌<◌, ◌≤◌, ◌++◌, ◌∷◌, ℕ, List, [], IfOk, IfSome, IsSome, OnOk, Ok, None, false};
ghost use Rattle.hc_transcript.specs.declared.format.Format.{Format};
ghost use Rattle.hc_transcript.specs.Items.{Item, ClientReply};
ghost use Rattle.hc_transcript.specs.Limits.{longest_unfinished};
ghost use Rattle.hc_transcript.specs.Reader.{KeepsFormat, format_read, octets_held, unread, records_read};
ghost use Rattle.hc_history.specs.declared.settings.Settings.{Settings};
ghost use Rattle.hc_history.specs.Counting.{AreAtMost};
ghost use Rattle.hc_history.specs.Found.{AnswersOpen, IsFound};
ghost use Rattle.hc_transcript.specs.History.{exchange_of};
ghost use Rattle.hc_history.specs.Marks.{item_mark, mark_to};
ghost use Rattle.hc_history.specs.Seen.{IsSeenAs};
ghost use Rattle.hc_history.specs.Verdicts.{IsVerdict};
ghost use Rattle.hc_audit.specs.Hearing.{is_reply};

use crate::next::{Next, next_behind};
use crate::witness::{JudgedReply, PassedRecord};
use hc_history::{Counts, Finding, Mark, MarkedReply, Settings, Verdict};
use hc_index::Index;
use hc_transcript::{Format, MeaningView, RecordReader, RecordView};
use std::alloc::{AllocError, Global};

/// What became of the next record.
#[derive(Drop)]
pub(crate) enum Step {
    /// It isn't whole yet.
    Waiting,
    /// It is whole, and if it is a reply it is right.
    Right,
    /// The verdict holds however the octets go on.
    Settled(Verdict),
}

/// The records that were read and judged so far, and what is still to be read.
#[derive(Drop)]
pub(crate) struct Judge<I> {
    alloc: Global,
    pub(crate) reader: RecordReader,
    index: I,
    settings: Settings,
    counts: Counts,
    // Nothing is counted more often than a record was read, so no count can overflow.
    ghost few: { AreAtMost (records_read reader) counts },
}

impl<I: Index + Drop> Judge<I> {
    ghost use Rattle.hc_audit.specs.Judging.{HasRead, IsAhead, IsJudging, IsWaiting, GivesNext, GivesStep, GivesJudged, LendsNext, MovesOn, finding_told, mark_told};

    pub(crate) fn new(alloc: Global, index: I, settings: Settings) -> Self
        ensures { ((format : Format) → IsSeenAs format (I.seen index) []) → IsWaiting I.seen result settings [] }
    {
        Judge {
            alloc,
            reader: RecordReader::new(alloc),
            index,
            settings,
            counts: Counts::new(),
        }
    }

    /// How many octets it holds.
    pub(crate) fn rest(&self) -> usize
        ensures { result ≡ octets_held self.now.reader }
    {
        self.reader.rest()
    }

    /// What was counted of the records that were noted.
    pub(crate) fn counts(&self) -> Counts
        ensures { result ≡ self.now.counts }
    {
        self.counts
    }

    /// Takes a piece, of which nothing is read yet.
    pub(crate) fn take(&mut self, piece: &[u8]) -> Result<(), AllocError>
        ensures read { (settings : Settings) (octets : List ℕ) (h : List Item) → HasRead I.seen self.old settings octets h
            → OnOk result (HasRead I.seen self.new settings (octets ++ piece.now) h) }
        ensures format { format_read self.new.reader ≡ format_read self.old.reader }
    {
        if self.reader.feed(piece).is_err() {
            return Err(AllocError);
        }
        Ok(())
    }

    /// Reads the next record, if it is whole. Nothing is judged or noted of it yet.
    pub(crate) fn advance(&mut self) -> Result<Next, AllocError>
        ensures gives { (settings : Settings) (octets : List ℕ) (h : List Item) → HasRead I.seen self.old settings octets h
            → GivesNext I.seen result self.new settings octets h }
        ensures format { KeepsFormat self.old.reader self.new.reader }
        ensures moves { MovesOn result self.old self.new }
    {
        match self.reader.advance() {
            Err(fault) => next_behind(fault, self.reader.position()),
            Ok(false) => Ok(Next::Waiting),
            Ok(true) => Ok(Next::Record(self.reader.format().unwrap())),
        }
    }

    /// The record that was read last and is that item, where it is no reply.
    pub(crate) fn passed<'a>(
        &'a self,
        item: &'a RecordView<'a>,
        format: Format,
    ) -> PassedRecord<'a, I>
        ensures position { result.position ≡ records_read self.now.reader }
        ensures format { result.format ≡ format }
        ensures item { result.item.now ≡ item.now }
        ensures index { result.index.now ≡ self.now.index }
    {
        PassedRecord {
            position: self.reader.records(),
            format,
            item,
            index: &self.index,
        }
    }

    /// What is found of the record that was read last and is that item, where it is a reply.
    pub(crate) fn judged<'a>(
        &'a self,
        item: &'a RecordView<'a>,
        format: Format,
    ) -> Result<Option<JudgedReply<'a, I>>, AllocError>
        ensures position { IfOk result (λ judged. IfSome judged (λ reply. reply.position ≡ records_read self.now.reader)) }
        ensures finding { (h : List Item) → IsSeenAs format (I.seen self.now.index) h
            → IfOk result (λ judged. IsFound format self.now.settings h item.now (finding_told judged)) }
        ensures mark { (h : List Item) → IsSeenAs format (I.seen self.now.index) h → AnswersOpen h item.now
            → IfOk result (λ judged. mark_told judged ≡ item_mark format self.now.settings h item.now) }
        ensures reply { IfOk result (λ judged. IfSome judged (λ reply. item.now ≡ ClientReply reply.exchange reply.moment reply.reply)) }
        ensures known { IfOk result (λ judged. IfSome judged (λ reply.
            (reply.format ≡ format) × (reply.settings.now ≡ self.now.settings) × (reply.index.now ≡ self.now.index))) }
        ensures none { IfOk result (λ judged. judged ≡ None → is_reply item.now ≡ false) }
    {
        let MeaningView::ClientReply(reply) = &item.of else {
            return Ok(None);
        };
        let reply = MarkedReply::read(self.alloc, reply)?;
        let settings = &self.settings;
        let finding = self
            .index
            .find(item.number, &reply, item.moment, settings, format)?;
        let mark = self.mark_of(item.number, &reply, format);
        Ok(Some(JudgedReply {
            position: self.reader.records(),
            exchange: item.number,
            moment: item.moment,
            format,
            reply,
            mark,
            finding,
            settings,
            index: &self.index,
        }))
    }

    /// The mark by which a reply to the open exchange of that number is judged and counted.
    fn mark_of(&self, exchange: u64, reply: &MarkedReply<'_>, format: Format) -> Mark
        ensures { (h : List Item) → IsSeenAs format (I.seen self.now.index) h → IsSome (exchange_of exchange h)
            → result ≡ mark_to format self.now.settings (exchange_of exchange h) reply.now h }
    {
        let allowed = &self.settings.allowed;
        if !allowed.inferred_marks {
            return reply.mark();
        }
        reply.mark_by(format, allowed, self.index.has_forward(exchange))
    }

    /// Counts the record that was read last, and notes it in the index. It has that mark, if it is a reply.
    pub(crate) fn note(&mut self, format: Format, mark: Option<Mark>) -> Result<(), AllocError>
        requires { LendsNext self.old }
        ensures read { (settings : Settings) (octets : List ℕ) (h : List Item) (ahead : IsAhead I.seen self.old settings octets h format)
            → mark ≡ item_mark format settings h ahead.item → OnOk result (HasRead I.seen self.new settings octets (ahead.item ∷ h)) }
        ensures unread { unread self.new.reader ≡ unread self.old.reader }
        ensures format { format_read self.new.reader ≡ format_read self.old.reader }
    {
        let position = self.reader.records();
        self.counts.count(mark);
        let view = self.reader.view();
        self.index.note(position, &view, format)?;
        Ok(())
    }

    /// Takes a piece, and judges each record that is whole then. It returns the verdict that stands, if
    /// there is one now.
    pub(crate) fn feed(&mut self, piece: &[u8]) -> Result<Option<Verdict>, AllocError>
        ensures gives { (settings : Settings) (octets : List ℕ) → IsWaiting I.seen self.old settings octets
            → GivesJudged I.seen result self.new settings (octets ++ piece.now) }
        ensures rest { result ≡ Ok None → octets_held self.new.reader ≤ longest_unfinished }
    {
        self.take(piece)?;
        self.judge_whole()
    }

    /// Judges each record that is whole. It returns the verdict that stands, if there is one now.
    fn judge_whole(&mut self) -> Result<Option<Verdict>, AllocError>
        ensures gives { (settings : Settings) (octets : List ℕ) → IsJudging I.seen self.old settings octets
            → GivesJudged I.seen result self.new settings octets }
        ensures rest { result ≡ Ok None → octets_held self.new.reader ≤ longest_unfinished }
    {
        'records: loop {
            match self.step()? {
                Step::Waiting => return Ok(None),
                Step::Right => {}
                Step::Settled(verdict) => return Ok(Some(verdict)),
            }
        }
    }

    /// Judges the next record, if it is whole.
    fn step(&mut self) -> Result<Step, AllocError>
        ensures gives { (settings : Settings) (octets : List ℕ) → IsJudging I.seen self.old settings octets
            → GivesStep I.seen result self.new settings octets }
        ensures shrinks { result ≡ Ok Step.Right → unread self.new.reader < unread self.old.reader }
        ensures rest { result ≡ Ok Step.Waiting → octets_held self.new.reader ≤ longest_unfinished }
    {
        let format = match self.advance()? {
            Next::Waiting => return Ok(Step::Waiting),
            Next::Broken(position, fault) => {
                return Ok(Step::Settled(Verdict::Malformed(position, fault)));
            }
            Next::Record(format) => format,
        };
        let (finding, mark) = {
            let view = self.reader.view();
            self.found(&view, format)?
        };
        if let Finding::Wrong(reason) = finding {
            return Ok(Step::Settled(Verdict::No(self.reader.records(), reason)));
        }
        self.note(format, mark)?;
        Ok(Step::Right)
    }

    /// What is found of that item, which was read last, and its mark: that it is right, where it is no reply.
    fn found(
        &self,
        item: &RecordView<'_>,
        format: Format,
    ) -> Result<(Finding, Option<Mark>), AllocError>
        ensures finding { (h : List Item) → IsSeenAs format (I.seen self.now.index) h
            → IfOk result (λ found. IsFound format self.now.settings h item.now found.0) }
        ensures mark { (h : List Item) → IsSeenAs format (I.seen self.now.index) h → AnswersOpen h item.now
            → IfOk result (λ found. found.1 ≡ item_mark format self.now.settings h item.now) }
    {
        let Some(judged) = self.judged(item, format)? else {
            return Ok((Finding::Right, None));
        };
        Ok((judged.finding, Some(judged.mark)))
    }

    /// The verdict where the octets end.
    pub(crate) fn finish(mut self) -> Verdict
        ensures { (settings : Settings) (octets : List ℕ) → IsWaiting I.seen self settings octets
            → IsVerdict octets settings result }
    {
        let position = self.reader.position();
        match self.reader.finish() {
            Ok(()) => Verdict::Yes(self.counts),
            Err(fault) => Verdict::Malformed(position, fault),
        }
    }
}
