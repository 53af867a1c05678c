//! The explanation of one reply of a transcript, which is read twice: from two readers to text on a writer and an exit
//! status.
ghost use Rattle.std.specs.Prelude.{◌≡◌, ◌++◌, ℕ, List, [], None, Some, IfOk, IsSome, string_bytes, unwrap_or};
ghost use Rattle.std.specs.Io.KnownBytes.{Appends};
ghost use Rattle.std.specs.Option.{option_map};
ghost use Rattle.hc_history.specs.declared.verdicts.Finding.{Finding};
ghost use Rattle.hc_why.specs.Found.{finding_of, position_of};
ghost use Rattle.hc_why.specs.Seeking.{HasPassed, first_of};
ghost use Rattle.hc_command.specs.Report.{BreaksIfSome, ExplainsAt, IsHeadLine, IsToldAgain, ReportsFor, SaysBreakIn, SaysIfSome, SaysOf, SaysReplyIn, SaysReport, WritesIfSome, form_of, reply_status};

use crate::objects::object;
use crate::saying::said_first;
use crate::surveying::{Outcome, Reading, surveyed};
use crate::twice::Twice;
use hc_arguments::ExplainTerms;
use hc_auditing::{Trouble, printed, said, verdict_status};
use hc_explain::{Explaining, Form, say_head};
use hc_history::{Finding, Settings, Verdict};
use hc_index::Index;
use hc_why::{FirstWrong, FoundReply, ReplyAt};
use std::alloc::{AllocError, Global};
use std::io;
use std::io::{Read, Write};

/// The exit status where no reply stands at the position that was asked for.
const NO_REPLY: u8 = 64;

/// Why a reply that was found isn't told of.
const CHANGED: &str = "read again, it doesn't have the reply that it had";

impl<I: Index> Reading<I> for FirstWrong {
    ghost enough = { λ seeker. IsSome (first_of seeker) };

    fn has_enough(&self) -> bool {
        self.is_behind()
    }
}

impl<I: Index> Reading<I> for ReplyAt {
    ghost enough = { λ seeker. HasPassed seeker };

    fn has_enough(&self) -> bool {
        self.is_behind()
    }
}

impl<I: Index> Reading<I> for Explaining {
    ghost enough = { λ _. Unit {0} };

    fn has_enough(&self) -> bool {
        self.is_after()
    }
}

/// Explains the reply at the position of the transcript that both readers give, or where no position is given
/// the first wrong reply, and returns the exit status. `name` is what the input is called where it fails.
///
/// The explanation goes to `output`. The status is that of the reply, 0 where it is right and 1 where it is wrong.
/// Where no position is given and no reply is wrong, `output` gets the line of the verdict, and the status is that of
/// an audit. Where a record breaks the transcript before the position, `output` gets the line that says so, and the
/// status is 2; where no reply stands there, the status is 64, and `faults` gets `error: position`. Where none of that
/// can be said, by a read or a write that fails or by memory, the status is 3, and one line on `faults` says why.
///
/// In JSON all that goes to `output` is one object on one line: its `verdict` is the line of a verdict, or null, and its
/// `reply` the explanation, or null.
pub fn explain<R: Read, S: Read, W: Write, E: Write>(
    alloc: Global,
    terms: ExplainTerms,
    name: &str,
    twice: &mut Twice<R, S>,
    output: &mut W,
    faults: &mut E,
) -> u8
    // Without a position the verdict on all octets that the input had comes first.
    ensures first { terms.position ≡ None
        → ReportsFor terms.json terms.settings (R.remaining twice.old.first)
        (record { had = S.remaining twice.old.again; left = S.remaining twice.new.again }) result
        (W.contents output.old) (W.contents output.new) (E.contents faults.old) (E.contents faults.new) }
    // At a position what is found there of what was read of the input, or a break before it.
    ensures at { (place : ℕ) → terms.position ≡ Some place
        → ExplainsAt terms.json terms.settings
        (record { had = R.remaining twice.old.first; left = R.remaining twice.new.first })
        (record { had = S.remaining twice.old.again; left = S.remaining twice.new.again }) place result
        (W.contents output.old) (W.contents output.new) (E.contents faults.old) (E.contents faults.new) }
{
    match explained(alloc, terms, twice, output) {
        Ok(Some(status)) => status,
        Ok(None) => no_reply(faults),
        Err(trouble) => trouble.told(name, faults),
    }
}

// Says that no reply stands at the position, and returns the exit status.
fn no_reply<E: Write>(faults: &mut E) -> u8
    ensures { result ≡ 64 }
{
    let _ = printed("error: position\n", faults);
    NO_REPLY
}

// Explains the reply, and returns the exit status: none where no reply stands at the position.
fn explained<R: Read, S: Read, W: Write>(
    alloc: Global,
    terms: ExplainTerms,
    twice: &mut Twice<R, S>,
    output: &mut W,
) -> Result<Option<u8>, Trouble>
    ensures first { terms.position ≡ None
        → IfOk result (λ status. SaysIfSome terms.json terms.settings (R.remaining twice.old.first)
        (record { had = S.remaining twice.old.again; left = S.remaining twice.new.again }) status
        (W.contents output.old) (W.contents output.new)) }
    ensures at { (place : ℕ) → terms.position ≡ Some place
        → IfOk result (λ status. WritesIfSome terms.json terms.settings
        (record { had = R.remaining twice.old.first; left = R.remaining twice.new.first })
        (record { had = S.remaining twice.old.again; left = S.remaining twice.new.again }) place status
        (W.contents output.old) (W.contents output.new)) }
{
    match terms.position {
        None => Ok(Some(first_explained(alloc, terms, twice, output)?)),
        Some(position) => reply_explained(alloc, position, terms, twice, output),
    }
}

// Says the verdict, and explains the first wrong reply, if there is one. Returns the verdict's status.
fn first_explained<R: Read, S: Read, W: Write>(
    alloc: Global,
    terms: ExplainTerms,
    twice: &mut Twice<R, S>,
    output: &mut W,
) -> Result<u8, Trouble>
    ensures { IfOk result (λ status. SaysReport terms.json terms.settings (R.remaining twice.old.first)
        (record { had = S.remaining twice.old.again; left = S.remaining twice.new.again }) status
        (W.contents output.old) (W.contents output.new)) }
{
    let json = terms.json;
    let same = terms.settings.copy(alloc)?;
    let mut seeker = FirstWrong::new(alloc);
    let outcome = surveyed(alloc, terms.settings, &mut twice.first, &mut seeker)?;
    let verdict = outcome.verdict(seeker.first_wrong());
    match seeker.into_found() {
        Some(found) => {
            let told = told_again(alloc, same, found, json, &mut twice.again)?;
            verdict_said(alloc, json, &verdict, Some(told.as_str()), output)
        }
        None => verdict_said(alloc, json, &verdict, None, output),
    }
}

// The form in which a reply is explained.
fn form_of(json: bool) -> Form
    ensures { result ≡ form_of json }
{
    if json { Form::Json } else { Form::Text }
}

// Says the verdict and what is told of a reply, if something is, and returns the verdict's status.
fn verdict_said<W: Write>(
    alloc: Global,
    json: bool,
    verdict: &Verdict,
    told: Option<&str>,
    output: &mut W,
) -> Result<u8, Trouble>
    ensures { IfOk result (λ status. SaysOf json verdict.now (option_map (λ t. t.now) told.entry) status (W.contents output.old) (W.contents output.new)) }
{
    if json {
        let text = object(alloc, Some(verdict), told)?;
        written_as(text.as_str(), verdict_status(verdict), output)
    } else {
        said_first(alloc, verdict, told_behind(told), output)
    }
}

// What is told behind the verdict, or nothing.
fn told_behind<'a>(told: Option<&'a str>) -> &'a str
    ensures { result.now ≡ unwrap_or (option_map (λ t. t.now) told.entry) [] }
{
    match told {
        Some(told) => told,
        None => "",
    }
}

// Explains the reply at that position, and returns its status: none where no reply stands there.
fn reply_explained<R: Read, S: Read, W: Write>(
    alloc: Global,
    position: u64,
    terms: ExplainTerms,
    twice: &mut Twice<R, S>,
    output: &mut W,
) -> Result<Option<u8>, Trouble>
    ensures { IfOk result (λ status. WritesIfSome terms.json terms.settings
        (record { had = R.remaining twice.old.first; left = R.remaining twice.new.first })
        (record { had = S.remaining twice.old.again; left = S.remaining twice.new.again }) position status
        (W.contents output.old) (W.contents output.new)) }
{
    let json = terms.json;
    let same = terms.settings.copy(alloc)?;
    let mut seeker = ReplyAt::new(alloc, position);
    let outcome = surveyed(alloc, terms.settings, &mut twice.first, &mut seeker)?;
    // It looks at that position still.
    if seeker.position() != position {
        return Err(Trouble::Device(io::Error::other("another position")));
    }
    let Some(found) = seeker.into_found() else {
        return not_found(alloc, json, &outcome, position, output);
    };
    let head = head_line(alloc, &found)?;
    let status = status_of(found.finding);
    let told = told_again(alloc, same, found, json, &mut twice.again)?;
    Ok(Some(reply_said(alloc, json, head, status, told.as_str(), output)?))
}

// Says what is told of the reply, in text after the line that heads it, and returns that status.
fn reply_said<W: Write>(
    alloc: Global,
    json: bool,
    head: String,
    status: u8,
    told: &str,
    output: &mut W,
) -> Result<u8, Trouble>
    ensures { (position : ℕ) (finding : Finding) → IsHeadLine position finding (string_bytes head) → status ≡ reply_status finding
        → IfOk result (SaysReplyIn json position finding told.now (W.contents output.old) (W.contents output.new)) }
{
    let text = if json {
        object(alloc, None, Some(told))?
    } else {
        with_lines(head, told)?
    };
    written_as(text.as_str(), status, output)
}

// Writes the text, and returns that status.
fn written_as<W: Write>(text: &str, status: u8, output: &mut W) -> Result<u8, Trouble>
    ensures { IfOk result (λ told. (told ≡ status) × Appends (W.contents output.old) (W.contents output.new) text.now) }
{
    match printed(text, output) {
        Ok(()) => Ok(status),
        Err(error) => Err(Trouble::Output(error)),
    }
}

// The line that heads the explanation of what was found.
fn head_line(alloc: Global, found: &FoundReply) -> Result<String, AllocError>
    ensures { IfOk result (λ line. IsHeadLine (position_of found.now) (finding_of found.now) (string_bytes line)) }
{
    let mut line = String::new(alloc);
    say_head(found, &mut line)?;
    line.push('\n')?;
    Ok(line)
}

// The exit status of a reply.
fn status_of(finding: Finding) -> u8
    ensures { result ≡ reply_status finding }
{
    match finding {
        Finding::Right => 0,
        Finding::Wrong(_) => 1,
    }
}

// What is told of a reply that was found, in JSON or as text, when the transcript is read again.
fn told_again<S: Read>(
    alloc: Global,
    settings: Settings,
    found: FoundReply,
    json: bool,
    again: &mut S,
) -> Result<String, Trouble>
    ensures { IfOk result (λ told. IsToldAgain json settings
        (record { had = S.remaining again.old; left = S.remaining again.new })
        (position_of found) (finding_of found) (string_bytes told)) }
{
    let (position, finding) = (found.position, found.finding);
    let form = form_of(json);
    let mut explaining = Explaining::new(alloc, found, form)?;
    surveyed(alloc, settings, again, &mut explaining)?;
    // It looks for that reply still.
    if !explaining.is_of(position, finding, form) {
        return Err(Trouble::Device(io::Error::other(CHANGED)));
    }
    match explaining.into_told() {
        Some(told) => Ok(told),
        None => Err(Trouble::Device(io::Error::other(CHANGED))),
    }
}

// The text, and after it what is told.
fn with_lines(text: String, told: &str) -> Result<String, AllocError>
    ensures { IfOk result (λ longer. string_bytes longer ≡ string_bytes text ++ told.now) }
{
    let mut text = text;
    text.push_str(told)?;
    Ok(text)
}

// Says where the transcript breaks, if that is no later than the position.
fn not_found<W: Write>(
    alloc: Global,
    json: bool,
    outcome: &Outcome,
    position: u64,
    output: &mut W,
) -> Result<Option<u8>, Trouble>
    ensures { IfOk result (λ status. BreaksIfSome json outcome.now position status (W.contents output.old) (W.contents output.new)) }
{
    let Outcome::Broken(at, fault) = *outcome else {
        return Ok(None);
    };
    if position < at {
        return Ok(None);
    }
    Ok(Some(break_said(alloc, json, &Verdict::Malformed(at, fault), output)?))
}

// Says that verdict alone, and returns its status.
fn break_said<W: Write>(
    alloc: Global,
    json: bool,
    verdict: &Verdict,
    output: &mut W,
) -> Result<u8, Trouble>
    ensures { IfOk result (λ status. SaysBreakIn json verdict.now status (W.contents output.old) (W.contents output.new)) }
{
    if json {
        let text = object(alloc, Some(verdict), None)?;
        written_as(text.as_str(), verdict_status(verdict), output)
    } else {
        said(alloc, verdict, output)
    }
}
