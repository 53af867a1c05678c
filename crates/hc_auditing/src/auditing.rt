//! The audit of one transcript: from a reader to a line on a writer and an exit status.
ghost use Rattle.std.specs.Prelude.{◌≡◌, ◌⊎◌, ◌<◌, ◌++◌, ℕ, List, [], None, Ok, false, length, IfErr, IfOk, IfSome};
ghost use Rattle.std.specs.Io.KnownBytes.{IsAtEnd, Keeps};
ghost use Rattle.hc_history.specs.declared.settings.Settings.{Settings};
ghost use Rattle.hc_history.specs.Verdicts.{IsVerdict};
ghost use Rattle.hc_audit.specs.Agreement.{Agrees};
ghost use Rattle.hc_auditing.specs.Audit.{AnswersFor, FeedsPiece, IsConcluded, IsReadUp, SaysLine, SaysVerdict};
ghost use Rattle.hc_auditing.specs.Laws.{auditor_goes_on, auditor_stays};
ghost use Rattle.hc_auditing.specs.Line.{status_of};
ghost use Rattle.hc_auditing.specs.Trouble.{is_of_output};

use crate::line::verdict_line;
use crate::minimums::ended;
use crate::print::printed;
use crate::pulling::{Fed, buffer, pull};
use crate::trouble::Trouble;
use hc_audit::Auditor;
use hc_history::{Settings, Verdict};
use hc_index::{Index, MapIndex};
use hc_options::AuditTerms;
use std::alloc::Global;
use std::io::{Read, Write};

/// Audits the transcript that `input` gives up to its end, or up to where a verdict stands, and returns
/// the exit status. `name` is what the input is called where it fails.
///
/// A verdict is one line on `output`, and the status is 0 for a transcript that is right, 1 for one with
/// a wrong reply and 2 for one that is malformed. Where it is right and fewer replies were judged than the
/// terms want, `faults` gets a line for each number of them that is too small, and the status is 4. Where
/// there is no verdict, by a read or a write that fails or by memory, the status is 3, and one line on
/// `faults` says why; a write of that line that fails is passed over.
pub fn audit<R: Read, W: Write, E: Write>(
    alloc: Global,
    terms: AuditTerms,
    name: &str,
    input: &mut R,
    output: &mut W,
    faults: &mut E,
) -> u8
    // A verdict is that of all octets that the reader had, where they are known, also where some of them
    // are left.
    ensures answers { AnswersFor terms (R.remaining input.old) (R.remaining input.new) result
        (W.contents output.old) (W.contents output.new) (E.contents faults.old) (E.contents faults.new) }

    // Nothing is written on the output before the input's end, or before a verdict stands.
    ensures late { IsReadUp terms.settings (R.remaining input.old) (R.remaining input.new)
        ⊎ Keeps (W.contents output.old) (W.contents output.new) }
{
    let AuditTerms { settings, minimums } = terms;
    match concluded(alloc, settings, input, output) {
        Ok(verdict) => ended(alloc, minimums, &verdict, faults),
        Err(trouble) => trouble.told(name, faults),
    }
}

// Says the verdict on what `input` gives, and returns it.
fn concluded<R: Read, W: Write>(
    alloc: Global,
    settings: Settings,
    input: &mut R,
    output: &mut W,
) -> Result<Verdict, Trouble>
    ensures ok { IfOk result (λ verdict. SaysVerdict settings verdict (R.remaining input.old) (R.remaining input.new)
        (W.contents output.old) (W.contents output.new)) }
    ensures late { IsReadUp settings (R.remaining input.old) (R.remaining input.new)
        ⊎ Keeps (W.contents output.old) (W.contents output.new) }
    ensures quiet { IfErr result (λ trouble. is_of_output trouble ≡ false
        → Keeps (W.contents output.old) (W.contents output.new)) }
{
    let verdict = judged(alloc, settings, input)?;
    said(alloc, &verdict, output)?;
    Ok(verdict)
}

// The verdict on what `input` gives.
fn judged<R: Read>(alloc: Global, settings: Settings, input: &mut R) -> Result<Verdict, Trouble>
    ensures verdict { IfOk result (λ verdict. IfSome (R.remaining input.old) (λ octets. IsVerdict octets settings verdict)) }
    ensures concluded { IfOk result (λ verdict. IsConcluded settings verdict (R.remaining input.old) (R.remaining input.new)) }
    ensures err { IfErr result (λ trouble. is_of_output trouble ≡ false) }
{
    let mut piece = buffer(alloc)?;
    let auditor = Auditor::new(alloc, MapIndex::new(alloc), settings);
    judged_by(auditor, input, piece.as_mut_slice())
}

// The verdict of the auditor on what `input` gives.
fn judged_by<I: Index + Drop, R: Read>(
    mut auditor: Auditor<I>,
    input: &mut R,
    piece: &mut [u8],
) -> Result<Verdict, Trouble>
    requires { 0 < length piece.old }
    ensures verdict { (settings : Settings) → Agrees I.seen auditor settings []
        → IfOk result (λ verdict. IfSome (R.remaining input.old) (λ octets. IsVerdict octets settings verdict)) }
    ensures concluded { (settings : Settings) → Agrees I.seen auditor settings []
        → IfOk result (λ verdict. IsConcluded settings verdict (R.remaining input.old) (R.remaining input.new)) }
    ensures err { IfErr result (λ trouble. is_of_output trouble ≡ false) }
{
    match pull(&mut auditor, &mut (), input, piece)? {
        Some(verdict) => Ok(verdict),
        None => finished(auditor),
    }
}

// The verdict of the auditor, which was fed all octets.
fn finished<I: Index + Drop>(auditor: Auditor<I>) -> Result<Verdict, Trouble>
    ensures verdict { (settings : Settings) (octets : List ℕ) → Agrees I.seen auditor settings octets
        → IfOk result (IsVerdict octets settings) }
    ensures err { IfErr result (λ trouble. is_of_output trouble ≡ false) }
{
    Ok(auditor.finish()?)
}

impl<I: Index + Drop> Fed<()> for Auditor<I> {
    type Answer = Verdict;

    ghost goes = { λ first _ last _ octets settled. (settings : Settings) (before : List ℕ) → Agrees I.seen first settings before
        → FeedsPiece I.seen last settings (before ++ octets) settled };

    ghost fails = { λ trouble. is_of_output trouble ≡ false };

    ghost stays = { auditor_stays I.seen };

    ghost goes_on = { auditor_goes_on I.seen };

    fn take(&mut self, piece: &[u8], _told: &mut ()) -> Result<Option<Verdict>, Trouble> {
        self.feed(piece)?;
        match self.settled() {
            Some(verdict) => Ok(Some(*verdict)),
            None => Ok(None),
        }
    }
}

/// Writes the verdict's line on `output`, and returns its status.
pub fn said<W: Write>(alloc: Global, verdict: &Verdict, output: &mut W) -> Result<u8, Trouble>
    ensures ok { IfOk result (λ status.
        SaysLine verdict.now status (W.contents output.old) (W.contents output.new)) }
    ensures status { IfOk result (λ status. status ≡ status_of verdict.now) }
    ensures quiet { IfErr result (λ trouble. is_of_output trouble ≡ false
        → Keeps (W.contents output.old) (W.contents output.new)) }
{
    let line = verdict_line(alloc, verdict)?;
    match printed(line.as_str(), output) {
        Ok(()) => Ok(verdict_status(verdict)),
        Err(error) => Err(Trouble::Output(error)),
    }
}

/// The exit status of a verdict.
pub fn verdict_status(verdict: &Verdict) -> u8
    ensures { result ≡ status_of verdict.now }
{
    match verdict {
        Verdict::Yes(_) => 0,
        Verdict::No(_, _) => 1,
        Verdict::Malformed(_, _) => 2,
    }
}
