//! Who is told of the records of a transcript.

ghost use Rattle.std.specs.Prelude.{◌++◌, ◌∷◌, List, OnOk};
ghost use Rattle.hc_transcript.specs.Items.{Item};
ghost use Rattle.hc_history.specs.declared.wrong.WrongReply.{WrongReply};
ghost use Rattle.hc_audit.specs.Hearing.{IsRecordBehind, IsReplyBehind, item_judged, item_passed};
ghost use Rattle.hc_audit.specs.Told.{wrong_of};

use hc_history::{Candidate, Finding, Mark, MarkedReply, ReplyClaim, Settings};
use hc_index::Index;
use hc_transcript::{Format, RecordView};
use std::alloc::AllocError;

/// A reply of a transcript, with what is found of it.
#[derive(Drop)]
pub struct JudgedReply<'a, I> {
    /// The position of its record, of which the first has 1.
    pub position: u64,
    /// The number of the exchange that it answers.
    pub exchange: u64,
    /// In whole seconds since 1970.
    pub moment: u64,
    /// The format of the transcript.
    pub format: Format,
    /// The reply, with what it says of itself.
    pub reply: MarkedReply<'a>,
    /// The mark by which it is judged and counted: its own, or the one that is inferred.
    pub mark: Mark,
    /// That it is right, or why it is wrong.
    pub finding: Finding,
    /// What the survey was asked to let pass.
    pub settings: &'a Settings,
    /// What is known of the records before it, so that more can be asked of it.
    pub index: &'a I,
}

impl<'a, I: Index> JudgedReply<'a, I> {
    ghost use Rattle.std.specs.Prelude.{◌≡◌, IfOk};
    ghost use Rattle.std.specs.Option.{option_map};
    ghost use Rattle.hc_transcript.specs.History.{exchange_of};
    ghost use Rattle.hc_history.specs.Candidates.{AreCandidatesOf};
    ghost use Rattle.hc_history.specs.Claims.{claim_of};
    ghost use Rattle.hc_history.specs.Right.{IsFinding};
    ghost use Rattle.hc_history.specs.Seen.{IsSeenAs};

    /// What it claims. None where no exchange of its number is open: a reader of records gives no such
    /// reply.
    pub fn claim(&self) -> Option<ReplyClaim<'a>>
        ensures { (h : List Item) → IsSeenAs self.now.format (I.seen self.now.index.now) h
            → result ≡ option_map
            (λ opened. claim_of self.now.format self.now.settings.now opened self.now.moment self.now.reply h)
            (exchange_of self.now.exchange h) }
    {
        self.index.claim(
            self.exchange,
            &self.reply,
            self.moment,
            self.settings,
            self.format,
        )
    }

    /// How far the responses get that it may carry, the furthest first.
    pub fn candidates(&self) -> Result<Vec<Candidate>, AllocError>
        ensures { (h : List Item) → IsSeenAs self.now.format (I.seen self.now.index.now) h
            → IfOk result (λ candidates. AreCandidatesOf self.now.format self.now.settings.now
            (exchange_of self.now.exchange h) self.now.moment self.now.reply h candidates.items) }
    {
        self.index.candidates(
            self.exchange,
            &self.reply,
            self.moment,
            self.settings,
            self.format,
        )
    }

    /// What would be found of it where other things were let pass.
    pub fn found_with(&self, settings: &Settings) -> Result<Finding, AllocError>
        ensures { (h : List Item) → IsSeenAs self.now.format (I.seen self.now.index.now) h
            → IfOk result (IsFinding self.now.format settings.now
            (exchange_of self.now.exchange h) self.now.moment self.now.reply h) }
    {
        self.index.find(
            self.exchange,
            &self.reply,
            self.moment,
            settings,
            self.format,
        )
    }
}

/// A record of a transcript that is no reply.
#[derive(Drop)]
pub struct PassedRecord<'a, I> {
    /// Its position, of which that of the first record is 1.
    pub position: u64,
    /// The format of the transcript.
    pub format: Format,
    /// What it says.
    pub item: &'a RecordView<'a>,
    /// What is known of the records before it.
    pub index: &'a I,
}

/// Who is told of the records of a transcript.
pub trait Witness<I: Index> {
    /// These are the wrong replies that it was told of, the first one first, as far as it tells them: one that
    /// keeps less than a list of them tells no more than it keeps.
    ghost tells: { Self → List WrongReply → Type 0 };

    /// These are the records that it was handed, the newest first, as far as it keeps them: one that keeps less
    /// than a list of them says no more than it keeps.
    ghost hears: { Self → List Item → Type 0 };

    /// Takes in the next record, which is no reply: it tells of the same wrong replies as before. It fails only
    /// where memory is refused; after an error nothing is said of what it tells.
    fn pass(&mut self, passed: &PassedRecord<'_, I>) -> Result<(), AllocError>
        ensures told { (wrongs : List WrongReply) → tells self.old wrongs → OnOk result (tells self.new wrongs) }
        // Who hands it a record owes that this stands behind those that it has heard of.
        ensures heard { (h : List Item) → hears self.old h → IsRecordBehind I.seen h passed.now
            → OnOk result (hears self.new (item_passed passed.now ∷ h)) };

    /// Takes in the next reply, right or wrong. It fails only where memory is refused; after an error nothing
    /// is said of what it tells.
    fn see(&mut self, judged: &JudgedReply<'_, I>) -> Result<(), AllocError>
        ensures told { (wrongs : List WrongReply) → tells self.old wrongs
            → OnOk result (tells self.new (wrongs ++ wrong_of judged.now.position judged.now.finding)) }
        // Who hands it a reply owes that this stands behind the records that it has heard of.
        ensures heard { (h : List Item) → hears self.old h → IsReplyBehind I.seen h judged.now
            → OnOk result (hears self.new (item_judged judged.now ∷ h)) };
}
