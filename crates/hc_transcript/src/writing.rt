//! Writing transcripts.

ghost use Rattle.std.specs.Prelude.{◌≡◌, [], ◌∷◌, ◌++◌, length, take, vec_len, IfOk, OnOk, OnErr};
ghost use Rattle.hc_transcript.specs.Records.{letter, told, told_cause, cause_text, line_text, line_of, passed_kind, passed_octets, passed_cause, record_text};

use crate::format::Format;
use crate::limits::LONGEST_LINE;
use crate::line::{Kind, Line, ToldCause, line_has_cause};
use crate::record::{Passed, Record};
use hc_fields::Octets;
use std::alloc::{AllocError, Global};
use std::io::Write;

/// The letter that begins the line of a record of that kind.
fn letter(kind: Kind) -> &'static str
    ensures { result.now ≡ letter kind ∷ [] }
{
    match kind {
        Kind::ClientRequest => "q",
        Kind::OriginRequest => "f",
        Kind::OriginResponse => "r",
        Kind::OriginFailure => "x",
        Kind::ClientReply => "a",
    }
}

/// The kind of what passed.
fn passed_kind(passed: &Passed) -> Kind
    ensures { result ≡ passed_kind passed.now }
{
    match passed {
        Passed::ClientRequest(_) => Kind::ClientRequest,
        Passed::OriginRequest { .. } => Kind::OriginRequest,
        Passed::OriginResponse(_) => Kind::OriginResponse,
        Passed::OriginFailure => Kind::OriginFailure,
        Passed::ClientReply(_) => Kind::ClientReply,
    }
}

/// How many octets passed; of a failure none.
fn passed_len(passed: &Passed) -> usize
    ensures { result ≡ length (passed_octets passed.now) }
{
    match passed {
        Passed::ClientRequest(message)
        | Passed::OriginRequest { message, .. }
        | Passed::OriginResponse(message)
        | Passed::ClientReply(message) => message.len(),
        Passed::OriginFailure => 0,
    }
}

/// Puts the octets that passed at the end; of a failure there are none.
fn append_passed(text: &mut Vec<u8>, passed: &Passed) -> Result<(), AllocError>
    ensures ok { OnOk result (text.new.items ≡ text.old.items ++ passed_octets passed.now) }
    ensures err { OnErr result (text.new.items ≡ text.old.items) }
{
    match passed {
        Passed::ClientRequest(message)
        | Passed::OriginRequest { message, .. }
        | Passed::OriginResponse(message)
        | Passed::ClientReply(message) => message.append_to(text),
        Passed::OriginFailure => Ok(()),
    }
}

/// The exchange that a forward was made for, where it is one and has one.
fn passed_cause(passed: &Passed) -> Option<u64>
    ensures { result ≡ passed_cause passed.now }
{
    match passed {
        Passed::OriginRequest { cause, .. } => *cause,
        _ => None,
    }
}

/// A cause as a line tells it.
fn told(cause: Option<u64>) -> ToldCause
    ensures { result ≡ told cause }
{
    match cause {
        Some(number) => ToldCause::Exchange(number),
        None => ToldCause::NoExchange,
    }
}

/// What the line of a record tells of its cause.
fn told_cause(format: Format, passed: &Passed) -> ToldCause
    ensures { result ≡ told_cause format passed.now }
{
    if line_has_cause(format, passed_kind(passed)) {
        told(passed_cause(passed))
    } else {
        ToldCause::Untold
    }
}

/// The line that begins a record.
fn line_of(record: &Record, format: Format) -> Line
    ensures { result ≡ line_of format «record».now }
{
    Line {
        kind: passed_kind(&record.of),
        number: record.number,
        moment: record.moment,
        size: passed_len(&record.of) as u64,
        cause: told_cause(format, &record.of),
    }
}

/// Puts a line and its line feed at the end. Where memory runs out, some of it may stand there.
pub(crate) fn write_line(text: &mut Vec<u8>, line: &Line) -> Result<(), AllocError>
    ensures { OnOk result (text.new.items ≡ text.old.items ++ (line_text line.now ++ 10 ∷ [])) }
{
    let letter = letter(line.kind);
    let number = line.number;
    let moment = line.moment;
    let size = line.size;
    write!(text, "{letter} {number} {moment} {size}").map_err(|_| AllocError)?;
    match line.cause {
        ToldCause::Untold => write!(text, "\n").map_err(|_| AllocError),
        ToldCause::NoExchange => write!(text, " -\n").map_err(|_| AllocError),
        ToldCause::Exchange(cause) => write!(text, " {cause}\n").map_err(|_| AllocError),
    }
}

/// Puts the text of a record at the end. Where memory runs out, some of it may stand there.
fn append_parts(text: &mut Vec<u8>, record: &Record, format: Format) -> Result<(), AllocError>
    ensures ok { OnOk result (text.new.items ≡ text.old.items ++ record_text format «record».now) }
    ensures err { OnErr result (take (vec_len text.old) text.new.items ≡ text.old.items) }
{
    let mut line = Vec::with_capacity(*text.allocator(), LONGEST_LINE)?;
    write_line(&mut line, &line_of(record, format))?;
    text.extend_from_slice(line.as_slice())?;
    append_passed(text, &record.of)?;
    text.extend_from_slice(b"\n")
}

/// Puts the text of a record at the end: its line, the octets of its message as they are, and a line
/// feed behind each. Whether the record may stand in a transcript isn't asked; of a cause in the first
/// format nothing is written.
pub fn append_record(text: &mut Vec<u8>, record: &Record, format: Format) -> Result<(), AllocError>
    ensures ok { OnOk result (text.new.items ≡ text.old.items ++ record_text format «record».now) }
    ensures err { OnErr result (text.new.items ≡ text.old.items) }
{
    let before = text.len();
    let appended = append_parts(text, record, format);
    if appended.is_err() {
        text.truncate(before);
    }
    appended
}

/// The text of a record in two parts, without the line feed at its end: its line with the front of
/// its message, and the rest of the message, which isn't copied.
pub fn record_parts<'a>(
    alloc: Global,
    record: &'a Record,
    format: Format,
) -> Result<(Vec<u8>, &'a [u8]), AllocError>
    ensures { IfOk result (λ parts. (parts.0.items ++ parts.1.now) ++ 10 ∷ [] ≡ record_text format «record».now) }
{
    let mut front = Vec::with_capacity(alloc, LONGEST_LINE)?;
    write_line(&mut front, &line_of(record, format))?;
    match &record.of {
        Passed::ClientRequest(message)
        | Passed::OriginRequest { message, .. }
        | Passed::OriginResponse(message)
        | Passed::ClientReply(message) => {
            let (head, rest) = message.parts();
            front.extend_from_slice(head.as_slice())?;
            Ok((front, rest.as_slice()))
        }
        Passed::OriginFailure => Ok((front, b"")),
    }
}

/// The text of a record, as `append_record` writes it.
pub fn write_record(alloc: Global, record: &Record, format: Format) -> Result<Octets, AllocError>
    ensures { IfOk result (λ text. text ≡ record_text format «record».now) }
{
    let mut text = Vec::new(alloc);
    append_record(&mut text, record, format)?;
    Ok(Octets::from_vec(text))
}
