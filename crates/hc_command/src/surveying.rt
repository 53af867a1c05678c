//! The survey of one transcript: what a reader gives is told to a witness.
ghost use Rattle.std.specs.Prelude.{◌≡◌, ◌<◌, ◌++◌, ℕ, List, [], false, true, length, slice_get, None, IfErr, IfOk, IfSome};
ghost use Rattle.hc_transcript.specs.Items.{Item};
ghost use Rattle.hc_history.specs.declared.settings.Settings.{Settings};
ghost use Rattle.hc_history.specs.declared.wrong.WrongReply.{WrongReply};
ghost use Rattle.hc_history.specs.declared.verdicts.Verdict.TheVariants.{No};
ghost use Rattle.hc_history.specs.Verdicts.{IsVerdict};
ghost use Rattle.hc_audit.specs.Surveying.{Surveys};
ghost use Rattle.hc_audit.specs.Told.{IsToldOf};
ghost use Rattle.hc_command.specs.Report.{FeedsSurvey, IsSurveyed, SurveysFor, ending_of, whole_counts};
ghost use Rattle.hc_command.specs.Reporting.{verdict_without};
ghost use Rattle.hc_command.specs.SurveyLaws.{survey_goes_on, survey_stays};
ghost use Rattle.hc_auditing.specs.Trouble.{is_of_output};

use hc_audit::{AuditFault, Ending, Survey, Witness};
use hc_auditing::{Fed, Trouble, buffer, pull};
use hc_history::{Counts, Settings, Verdict, WrongReply};
use hc_index::{Index, MapIndex};
use hc_transcript::RecordFault;
use std::alloc::Global;
use std::io::Read;

/// How the octets of a transcript end, and what was counted of them where they are whole.
#[derive(Clone, Copy)]
pub(crate) enum Outcome {
    /// With their last record.
    Whole(Counts),
    /// They break at this position, by this fault.
    Broken(u64, RecordFault),
}

impl Outcome {
    /// How they end.
    pub(crate) fn ending(&self) -> Ending
        ensures { result ≡ ending_of self.now }
    {
        match self {
            Outcome::Whole(_) => Ending::Whole,
            Outcome::Broken(position, fault) => Ending::Broken(*position, *fault),
        }
    }

    /// What was counted, where they are whole.
    pub(crate) fn counts(&self) -> Option<Counts>
        ensures { result ≡ whole_counts self.now }
    {
        match self {
            Outcome::Whole(counts) => Some(*counts),
            Outcome::Broken(_, _) => None,
        }
    }

    /// The verdict on them, where that is the first of their wrong replies.
    pub(crate) fn verdict(&self, first: Option<WrongReply>) -> Verdict
        ensures verdict { (octets : List ℕ) (settings : Settings) (h : List Item) (wrongs : List WrongReply)
            → IsSurveyed octets settings h wrongs self.now → first ≡ slice_get wrongs 0 → IsVerdict octets settings result }
        ensures no { IfSome first (λ wrong. result ≡ No wrong.position wrong.reason) }
        ensures none { first ≡ None → result ≡ verdict_without self.now }
    {
        match first {
            Some(WrongReply { position, reason }) => Verdict::No(position, reason),
            None => self.verdict_without(),
        }
    }

    /// The verdict, where no reply is wrong.
    pub(crate) fn verdict_without(&self) -> Verdict
        ensures outcome { result ≡ verdict_without self.now }
        ensures verdict { (octets : List ℕ) (settings : Settings) (h : List Item) → IsSurveyed octets settings h [] self.now
            → IsVerdict octets settings result }
    {
        match self {
            Outcome::Whole(counts) => Verdict::Yes(*counts),
            Outcome::Broken(position, fault) => Verdict::Malformed(*position, *fault),
        }
    }
}

/// A witness that may have seen enough before the end.
pub(crate) trait Reading<I: Index>: Witness<I> {
    /// It has seen enough.
    ghost enough: { Self → Type 0 };

    /// Whether it has seen enough, so that no more has to be read.
    fn has_enough(&self) -> bool
        ensures { result ≡ true → enough self.now };
}

/// Surveys the transcript that `input` gives up to its end, or up to where a record breaks it or the witness, which
/// is new, has seen enough.
pub(crate) fn surveyed<R: Read, T: Reading<MapIndex>>(
    alloc: Global,
    settings: Settings,
    input: &mut R,
    witness: &mut T,
) -> Result<Outcome, Trouble>
    ensures surveyed { T.tells witness.old [] → T.hears witness.old []
        → IfOk result (SurveysFor (T.tells witness.new) (T.hears witness.new) (T.enough witness.new) settings
        (record { had = R.remaining input.old; left = R.remaining input.new })) }
    ensures err { IfErr result (λ trouble. is_of_output trouble ≡ false) }
{
    let mut piece = buffer(alloc)?;
    let survey = Survey::new(alloc, MapIndex::new(alloc), settings);
    surveyed_by(Surveying { survey }, input, piece.as_mut_slice(), witness)
}

// The same by that survey.
fn surveyed_by<I: Index + Drop, R: Read, T: Reading<I>>(
    mut surveying: Surveying<I>,
    input: &mut R,
    piece: &mut [u8],
    witness: &mut T,
) -> Result<Outcome, Trouble>
    requires { 0 < length piece.old }
    ensures surveyed { (settings : Settings) → IsToldOf (Surveys I.seen surveying.survey settings []) (T.tells witness.old) (T.hears witness.old)
        → IfOk result (SurveysFor (T.tells witness.new) (T.hears witness.new) (T.enough witness.new) settings
        (record { had = R.remaining input.old; left = R.remaining input.new })) }
    ensures err { IfErr result (λ trouble. is_of_output trouble ≡ false) }
{
    match pull(&mut surveying, witness, input, piece)? {
        Some(Stop::Broken(position, fault)) => Ok(Outcome::Broken(position, fault)),
        Some(Stop::Enough) => concluded(surveying.survey),
        None => concluded(surveying.survey),
    }
}

// The outcome of a survey of which no ending is known to hold however the octets go on.
fn concluded<I: Index + Drop>(survey: Survey<I>) -> Result<Outcome, Trouble>
    ensures outcome { (settings : Settings) (octets : List ℕ) (h : List Item) (wrongs : List WrongReply)
        → Surveys I.seen survey settings octets h wrongs → IfOk result (IsSurveyed octets settings h wrongs) }
    ensures err { IfErr result (λ trouble. is_of_output trouble ≡ false) }
{
    // One that counts nothing has failed: it was refused memory.
    let Some(counts) = survey.counts() else {
        return Err(Trouble::Memory);
    };
    match survey.finish()? {
        Ending::Whole => Ok(Outcome::Whole(counts)),
        Ending::Broken(position, fault) => Ok(Outcome::Broken(position, fault)),
    }
}

// A survey that is fed an input.
#[derive(Drop)]
struct Surveying<I> {
    survey: Survey<I>,
}

// Why a survey needs no more octets.
#[derive(Clone, Copy)]
enum Stop {
    // The witness has seen enough.
    Enough,
    // A record breaks the octets, however they go on.
    Broken(u64, RecordFault),
}

impl<I: Index + Drop, T: Reading<I>> Fed<T> for Surveying<I> {
    type Answer = Stop;

    ghost goes = { λ first before last after octets stop. (settings : Settings) (read : List ℕ)
        → IsToldOf (Surveys I.seen first.survey settings read) (T.tells before) (T.hears before)
        → FeedsSurvey I.seen last.survey (T.tells after) (T.hears after) (T.enough after) settings (read ++ octets) stop };

    ghost fails = { λ trouble. is_of_output trouble ≡ false };

    ghost stays = { survey_stays I.seen T.tells T.hears T.enough };

    ghost goes_on = { survey_goes_on I.seen T.tells T.hears T.enough };

    fn take(&mut self, piece: &[u8], told: &mut T) -> Result<Option<Stop>, Trouble> {
        Ok(feed(&mut self.survey, piece, told)?)
    }
}

// Feeds the survey a piece, and returns whether it needs no more.
fn feed<I: Index + Drop, T: Reading<I>>(
    survey: &mut Survey<I>,
    piece: &[u8],
    witness: &mut T,
) -> Result<Option<Stop>, AuditFault>
    ensures { (settings : Settings) (octets : List ℕ)
        → IsToldOf (Surveys I.seen survey.old settings octets) (T.tells witness.old) (T.hears witness.old)
        → IfOk result (FeedsSurvey I.seen survey.new (T.tells witness.new) (T.hears witness.new) (T.enough witness.new) settings (octets ++ piece.now)) }
{
    survey.feed(piece, witness)?;
    if let Some(Ending::Broken(position, fault)) = survey.ended() {
        return Ok(Some(Stop::Broken(*position, *fault)));
    }
    if witness.has_enough() {
        return Ok(Some(Stop::Enough));
    }
    Ok(None)
}
