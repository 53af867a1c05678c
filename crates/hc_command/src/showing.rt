//! Records of one transcript as text: from a reader to text on a writer and an exit status.
ghost use Rattle.std.specs.Prelude.{◌≡◌, ◌<◌, ◌++◌, ℕ, List, None, ⊤, IfOk, OnOk};
ghost use Rattle.std.specs.Io.KnownBytes.{Appends};
ghost use Rattle.hc_shown.specs.declared.span.Span.{Span};
ghost use Rattle.hc_shown.specs.Showings.{Shows};
ghost use Rattle.hc_command.specs.Show.{ComesTo, GoesOn, PutsOut, SaysOfShown, ShowsFor, ShowsOf, shown_end, shown_status, stopped_by};
ghost use Rattle.hc_command.specs.ShowLaws.{showing_goes_on, showing_stays};

use hc_auditing::{Fed, Trouble, buffer, printed, pull, verdict_line};
use hc_history::Verdict;
use hc_shown::{EarlyEnding, Showing, ShowingStage, Span};
use hc_transcript::RecordFault;
use std::alloc::Global;
use std::io::{Read, Write};

/// The exit status where the last position is past the end.
const NO_RECORD: u8 = 64;

/// What was shown.
#[derive(Clone, Copy)]
pub(crate) enum Shown {
    /// The records at all positions.
    All,
    /// Those that the transcript has, which has fewer.
    Fewer,
    /// Those before this position, where a record breaks the transcript by this fault.
    Broken(u64, RecordFault),
}

/// Shows the records of the transcript that `input` gives at these positions, and returns the exit status.
/// `name` is what the input is called where it fails. Behind the last position nothing is read.
///
/// The text goes to `output`, and the status is 0. Where a record at one of the positions or before them breaks the
/// transcript, `output` gets the line that says so behind the records that were shown, and the status is 2; where the last
/// position is past the end, `faults` gets `error: position`, and the status is 64. Where a read or a write fails, or
/// memory is refused, the status is 3, and one line on `faults` says why. A write to `faults` that fails is passed over.
pub fn show<R: Read, W: Write, E: Write>(
    alloc: Global,
    span: Span,
    name: &str,
    input: &mut R,
    output: &mut W,
    faults: &mut E,
) -> u8
    requires { 0 < span.last }
    ensures { ShowsFor span (R.remaining input.old) (R.remaining input.new) result (W.contents output.old) (W.contents output.new)
        (E.contents faults.old) (E.contents faults.new) }
{
    match show_records(alloc, span, input, output) {
        Ok(shown) => ended(shown, faults),
        Err(trouble) => trouble.told(name, faults),
    }
}

// Returns the exit status, and says where the last position is past the end.
fn ended<E: Write>(shown: Shown, faults: &mut E) -> u8
    ensures status { result ≡ shown_status shown }
    ensures says { SaysOfShown shown (E.contents faults.old) (E.contents faults.new) }
{
    match shown {
        Shown::All => 0,
        Shown::Fewer => {
            let _ = printed("error: position\n", faults);
            NO_RECORD
        }
        Shown::Broken(_, _) => 2,
    }
}

// Shows the records, and the line of a break behind them.
fn show_records<R: Read, W: Write>(
    alloc: Global,
    span: Span,
    input: &mut R,
    output: &mut W,
) -> Result<Shown, Trouble>
    requires { 0 < span.last }
    ensures { IfOk result (PutsOut span (R.remaining input.old) (R.remaining input.new) (W.contents output.old) (W.contents output.new)) }
{
    let mut piece = buffer(alloc)?;
    let mut putting = Putting {
        alloc,
        showing: Showing::new(alloc, span),
    };
    let stopped = pull(&mut putting, output, input, piece.as_mut_slice())?;
    let shown = shown_by(putting.showing, stopped);
    said_behind(alloc, shown, output)?;
    Ok(shown)
}

// What was shown, by where a showing stopped, which was fed all octets if it didn't.
fn shown_by(showing: Showing, stopped: Option<Shown>) -> Shown
    ensures shows { (span : Span) (octets text : List ℕ) → ComesTo showing span octets text stopped → ShowsOf result span octets text }
    ensures fewer { (span : Span) (octets text : List ℕ) → ComesTo showing span octets text stopped → result ≡ Shown.Fewer → stopped ≡ None }
{
    match stopped {
        Some(shown) => shown,
        None => match showing.finish() {
            EarlyEnding::Short => Shown::Fewer,
            EarlyEnding::Broken(position, fault) => Shown::Broken(position, fault),
        },
    }
}

// Says what stands behind the records: where a record breaks the transcript, the line that says so.
fn said_behind<W: Write>(alloc: Global, shown: Shown, output: &mut W) -> Result<(), Trouble>
    ensures { OnOk result (Appends (W.contents output.old) (W.contents output.new) (shown_end shown)) }
{
    let Shown::Broken(position, fault) = shown else {
        return Ok(());
    };
    let line = verdict_line(alloc, &Verdict::Malformed(position, fault))?;
    match printed(line.as_str(), output) {
        Ok(()) => Ok(()),
        Err(error) => Err(Trouble::Output(error)),
    }
}

// A showing whose text is put out.
#[derive(Drop)]
struct Putting {
    alloc: Global,
    showing: Showing,
}

impl<W: Write> Fed<W> for Putting {
    type Answer = Shown;

    ghost goes = { λ first before last after octets shown. (span : Span) (read text : List ℕ) → Shows first.showing span read text
        → GoesOn last.showing span (read ++ octets) text (W.contents before) (W.contents after) shown };

    ghost fails = { λ _. ⊤ };

    ghost stays = { showing_stays W.contents };

    ghost goes_on = { showing_goes_on W.contents };

    fn take(&mut self, piece: &[u8], told: &mut W) -> Result<Option<Shown>, Trouble> {
        let mut text = String::new(self.alloc);
        let reach = self.showing.feed(piece, &mut text)?;
        match printed(text.as_str(), told) {
            Ok(()) => Ok(stopped_by(reach)),
            Err(error) => Err(Trouble::Output(error)),
        }
    }
}

// What was shown, where the records have come so far that no more are to.
fn stopped_by(reach: ShowingStage) -> Option<Shown>
    ensures { result ≡ stopped_by reach }
{
    match reach {
        ShowingStage::More => None,
        ShowingStage::Last => Some(Shown::All),
        ShowingStage::Broken(position, fault) => Some(Shown::Broken(position, fault)),
    }
}
