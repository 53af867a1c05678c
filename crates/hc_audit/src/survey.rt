//! The survey of a transcript: all its records, and which replies among them are wrong.

ghost use Rattle.std.specs.Prelude.{◌≡◌, ◌≤◌, ◌++◌, ◌⊎◌, ℕ, List, [], Option, Some, None, IsSome, IfOk, IfErr, IfSome, OnOk, OnErr, Ok, Err};
ghost use Rattle.std.specs.Option.{option_map};
ghost use Rattle.hc_transcript.specs.declared.format.Format.{Format};
ghost use Rattle.hc_transcript.specs.Items.{Item};
ghost use Rattle.hc_transcript.specs.Limits.{longest_unfinished};
ghost use Rattle.hc_history.specs.declared.settings.Settings.{Settings};
ghost use Rattle.hc_history.specs.declared.wrong.WrongReply.{WrongReply};
ghost use Rattle.hc_history.specs.declared.wrong.Ending.{Ending};
ghost use Rattle.hc_history.specs.Seen.{IsSeenAs};
ghost use Rattle.hc_history.specs.Verdicts.{IsVerdict};
ghost use Rattle.hc_history.specs.WrongReplies.{AreWrongReplies};
ghost use Rattle.hc_audit.specs.Endings.{EndsSo, IsSurveyOf, MayGoOn};
ghost use Rattle.hc_audit.specs.Told.{IsToldOf};

use crate::fault::AuditFault;
use crate::judge::Judge;
use crate::witness::Witness;
use hc_history::{Counts, Ending, Settings, Verdict};
use hc_index::Index;
use std::alloc::Global;

/// How far a survey has come.
#[derive(Drop)]
enum SurveyStage<I> {
    /// Every record so far keeps to the format.
    Open(Judge<I>),
    /// A record broke the octets, however they go on.
    Ended(Ending),
    /// Memory was refused.
    Failed,
}

/// Reads a transcript that comes in pieces, and goes on behind a wrong reply: a witness is told of every record, and of
/// a reply what is found of it. Each record is judged once it is whole, so that only the octets of a record that isn't whole
/// yet wait.
#[derive(Drop)]
pub struct Survey<I> {
    reach: SurveyStage<I>,
}

impl<I: Index + Drop> Survey<I> {
    ghost use Rattle.hc_audit.specs.Surveying.{AreCounted, Surveys, HasFailed, ended, rest};

    /// A survey that was fed nothing. `index` is to know of nothing yet.
    pub fn new(alloc: Global, index: I, settings: Settings) -> Self
        ensures { ((format : Format) → IsSeenAs format (I.seen index) []) → Surveys I.seen result settings [] [] [] }
    {
        Survey {
            reach: SurveyStage::Open(Judge::new(alloc, index, settings)),
        }
    }

    /// Takes the next piece of the transcript, judges the records that are whole then, and tells the witness
    /// of each, right or wrong, with what is known of those before it. Behind a record that breaks the octets
    /// nothing is read. After an `Err` it returns `Failed` for ever, and nothing is said of what the witness
    /// tells.
    pub fn feed<W: Witness<I>>(&mut self, piece: &[u8], witness: &mut W) -> Result<(), AuditFault>
        // A witness that has heard of all records so far has heard of all records then, and so it is with what it tells.
        ensures ok { (settings : Settings) (octets : List ℕ)
            → IsToldOf (Surveys I.seen self.old settings octets) (W.tells witness.old) (W.hears witness.old)
            → OnOk result (IsToldOf (Surveys I.seen self.new settings (octets ++ piece.now)) (W.tells witness.new) (W.hears witness.new)) }
        // What waits is less than a record.
        ensures rest { rest self.new ≤ longest_unfinished }
        ensures ended { IsSome (ended self.old) → (result ≡ Ok tt) × (self.new ≡ self.old) × (witness.new ≡ witness.old) }
        ensures err { IfErr result (λ fault. HasFailed self.new × ((fault ≡ AuditFault.Memory) ⊎ HasFailed self.old)) }
        ensures failed { HasFailed self.old → (result ≡ Err AuditFault.Failed) × (self.new ≡ self.old) × (witness.new ≡ witness.old) }
    {
        let judge = match &mut self.reach {
            SurveyStage::Open(judge) => judge,
            SurveyStage::Ended(_) => return Ok(()),
            SurveyStage::Failed => return Err(AuditFault::Failed),
        };
        match judge.survey(piece, witness) {
            Ok(None) => Ok(()),
            Ok(Some(ending)) => {
                self.reach = SurveyStage::Ended(ending);
                Ok(())
            }
            Err(_) => {
                self.reach = SurveyStage::Failed;
                Err(AuditFault::Memory)
            }
        }
    }

    /// How many octets wait to be judged, 0 where a record broke them or a fault was returned.
    pub fn rest(&self) -> usize
        ensures { result ≡ rest self.now }
    {
        match &self.reach {
            SurveyStage::Open(judge) => judge.rest(),
            SurveyStage::Ended(_) | SurveyStage::Failed => 0,
        }
    }

    /// The ending that holds however the octets go on, if there is one yet: that they break, by any fault but Torn.
    pub fn ended(&self) -> Option<&Ending>
        ensures value { option_map (λ ending. ending.now) result ≡ ended self.now }
        ensures stands { (settings : Settings) (octets : List ℕ) (h : List Item) (wrongs : List WrongReply)
            → Surveys I.seen self.now settings octets h wrongs → IfSome result (λ ending. EndsSo ending.now settings octets h wrongs) }
        // Where there is none, the octets so far are whole or Torn, and these are their wrong replies.
        ensures open { (settings : Settings) (octets : List ℕ) (h : List Item) (wrongs all : List WrongReply) (ending : Ending)
            → Surveys I.seen self.now settings octets h wrongs → result ≡ None → AreWrongReplies octets settings all ending → MayGoOn ending × (all ≡ wrongs) }
        ensures failed { HasFailed self.now → result ≡ None }
    {
        match &self.reach {
            SurveyStage::Ended(ending) => Some(ending),
            SurveyStage::Open(_) => None,
            SurveyStage::Failed => None,
        }
    }

    /// What was counted of the whole records so far, whether their replies are right or wrong. None where a
    /// record broke them, or a fault was returned.
    pub fn counts(&self) -> Option<Counts>
        ensures counted { (settings : Settings) (octets : List ℕ) (h : List Item) (wrongs : List WrongReply) → Surveys I.seen self.now settings octets h wrongs
            → IfSome result (AreCounted octets settings h) }
        // So it is what their yes says, where the octets are whole and no reply is wrong.
        ensures yes { (settings : Settings) (octets : List ℕ) (h : List Item) → Surveys I.seen self.now settings octets h []
            → AreWrongReplies octets settings [] Ending.Whole → IfSome result (λ counts. IsVerdict octets settings (Verdict.Yes counts)) }
        ensures none { result ≡ None → IsSome (ended self.now) ⊎ HasFailed self.now }
    {
        match &self.reach {
            SurveyStage::Open(judge) => Some(judge.counts()),
            SurveyStage::Ended(_) => None,
            SurveyStage::Failed => None,
        }
    }

    /// How all octets that were fed end. What the witness was told of are all their records, and all their wrong replies.
    pub fn finish(self) -> Result<Ending, AuditFault>
        ensures ending { (settings : Settings) (octets : List ℕ) (h : List Item) (wrongs : List WrongReply) → Surveys I.seen self settings octets h wrongs
            → IfOk result (IsSurveyOf octets settings h wrongs) }
        ensures ok { OnErr result (HasFailed self) }
        ensures failed { HasFailed self → result ≡ Err AuditFault.Failed }
    {
        match self.reach {
            SurveyStage::Open(judge) => Ok(judge.end()),
            SurveyStage::Ended(ending) => Ok(ending),
            SurveyStage::Failed => Err(AuditFault::Failed),
        }
    }
}
