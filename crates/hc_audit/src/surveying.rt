//! The survey of records, one at a time.

ghost use Rattle.std.specs.Prelude.{◌≡◌, ◌≤◌, ◌++◌, ◌∷◌, ℕ, List, IfOk, OnOk, Ok, None};
ghost use Rattle.hc_transcript.specs.Items.{Item};
ghost use Rattle.hc_transcript.specs.History.{next_position};
ghost use Rattle.hc_transcript.specs.Limits.{longest_unfinished};
ghost use Rattle.hc_transcript.specs.Reader.{octets_held, records_read, unread};
ghost use Rattle.hc_history.specs.declared.settings.Settings.{Settings};
ghost use Rattle.hc_history.specs.declared.wrong.WrongReply.{WrongReply};
ghost use Rattle.hc_history.specs.Found.{AnswersOpen};
ghost use Rattle.hc_history.specs.Marks.{item_mark};
ghost use Rattle.hc_history.specs.Seen.{IsSeenAs};
ghost use Rattle.hc_audit.specs.Endings.{IsSurveyOf};
ghost use Rattle.hc_audit.specs.Judging.{LendsNext};
ghost use Rattle.hc_audit.specs.Told.{AreToldOf, IsToldOf};
ghost use Rattle.hc_audit.specs.Surveying.{IsSurveying, IsSurveyed, GoOnBy, IsAheadOf, GivesSurveyed};

use crate::judge::Judge;
use crate::next::Next;
use crate::witness::Witness;
use hc_history::{Ending, Mark};
use hc_index::Index;
use hc_transcript::{Format, RecordView};
use std::alloc::AllocError;

impl<I: Index + Drop> Judge<I> {
    /// Takes a piece, and tells the witness of each record that is whole then. It returns how the octets end,
    /// if they do however they go on.
    pub(crate) fn survey<W: Witness<I>>(
        &mut self,
        piece: &[u8],
        witness: &mut W,
    ) -> Result<Option<Ending>, AllocError>
        ensures gives { (settings : Settings) (octets : List ℕ)
            → IsToldOf (IsSurveyed I.seen self.old settings octets) (W.tells witness.old) (W.hears witness.old)
            → GivesSurveyed I.seen result self.new settings (octets ++ piece.now) (W.tells witness.new) (W.hears witness.new) }
        ensures rest { result ≡ Ok None → octets_held self.new.reader ≤ longest_unfinished }
    {
        self.take(piece)?;
        self.survey_whole(witness)
    }

    /// Tells the witness of each record that is whole. It returns how the octets end, if they do however they
    /// go on.
    fn survey_whole<W: Witness<I>>(&mut self, witness: &mut W) -> Result<Option<Ending>, AllocError>
        ensures gives { (settings : Settings) (octets : List ℕ)
            → IsToldOf (IsSurveying I.seen self.old settings octets) (W.tells witness.old) (W.hears witness.old)
            → GivesSurveyed I.seen result self.new settings octets (W.tells witness.new) (W.hears witness.new) }
        ensures rest { result ≡ Ok None → octets_held self.new.reader ≤ longest_unfinished }
    {
        'records: loop {
            match self.advance()? {
                Next::Waiting => return Ok(None),
                Next::Broken(position, fault) => return Ok(Some(Ending::Broken(position, fault))),
                Next::Record(format) => self.take_in(format, witness)?,
            }
        }
    }

    /// Tells the witness of the record that was read last, right or wrong, and notes it in the index.
    fn take_in<W: Witness<I>>(&mut self, format: Format, witness: &mut W) -> Result<(), AllocError>
        requires { LendsNext self.old }
        ensures goes_on { (settings : Settings) (octets : List ℕ)
            → IsToldOf (IsAheadOf I.seen self.old settings octets format) (W.tells witness.old) (W.hears witness.old)
            → OnOk result (IsToldOf (IsSurveying I.seen self.new settings octets) (W.tells witness.new) (W.hears witness.new)) }
        ensures unread { unread self.new.reader ≡ unread self.old.reader }
    {
        let mark = {
            let view = self.reader.view();
            self.tell(&view, format, witness)?
        };
        self.note(format, mark)?;
        Ok(())
    }

    /// Tells the witness of that item, which was read last, with the index of the records before it, and
    /// returns its mark, if it is a reply.
    fn tell<W: Witness<I>>(
        &self,
        item: &RecordView<'_>,
        format: Format,
        witness: &mut W,
    ) -> Result<Option<Mark>, AllocError>
        ensures told { (h : List Item) (wrongs : List WrongReply) → IsSeenAs format (I.seen self.now.index) h → records_read self.now.reader ≡ next_position h
            → AnswersOpen h item.now
            → W.tells witness.old wrongs → OnOk result (AreToldOf (GoOnBy format self.now.settings h item.now wrongs) (W.tells witness.new)) }
        ensures heard { (h : List Item) → IsSeenAs format (I.seen self.now.index) h → records_read self.now.reader ≡ next_position h
            → AnswersOpen h item.now
            → W.hears witness.old h → OnOk result (W.hears witness.new (item.now ∷ h)) }
        ensures mark { (h : List Item) → IsSeenAs format (I.seen self.now.index) h → AnswersOpen h item.now
            → IfOk result (λ mark. mark ≡ item_mark format self.now.settings h item.now) }
    {
        let Some(judged) = self.judged(item, format)? else {
            witness.pass(&self.passed(item, format))?;
            return Ok(None);
        };
        witness.see(&judged)?;
        Ok(Some(judged.mark))
    }

    /// How the octets end.
    pub(crate) fn end(mut self) -> Ending
        ensures { (settings : Settings) (octets : List ℕ) (h : List Item) (wrongs : List WrongReply) → IsSurveyed I.seen self settings octets h wrongs
            → IsSurveyOf octets settings h wrongs result }
    {
        let position = self.reader.position();
        match self.reader.finish() {
            Ok(()) => Ending::Whole,
            Err(fault) => Ending::Broken(position, fault),
        }
    }
}
