//! Transcripts of the second format in the first.

ghost use Rattle.std.specs.Prelude.{◌≡◌, ◌≢◌, ◌<◌, ◌≤◌, ℕ, List, [], ◌∷◌, ◌++◌, drop, length, IfOk, IfErr, OnOk};
ghost use Rattle.hc_transcript.specs.declared.converting.ConvertFault.TheVariants.{Memory};
ghost use Rattle.hc_transcript.specs.declared.format.Format.{Format};
ghost use Rattle.hc_transcript.specs.declared.record.Record.{Record};
ghost use Rattle.hc_transcript.specs.Records.{opening, line_text};
ghost use Rattle.hc_transcript.specs.Items.{Item};
ghost use Rattle.hc_transcript.specs.Transcript.{Splits};
ghost use Rattle.hc_transcript.specs.Malformed.{BreaksOpening};
ghost use Rattle.hc_transcript.specs.Standing.{StandsAs};
ghost use Rattle.hc_transcript.specs.Converting.{IsConverted, FailsBy, line_without_cause, malformed_at, ReadsOne};

use crate::fault::RecordFault;
use crate::format::{Format, format_at, may_open};
use crate::framed::{Framed, record_at};
use crate::line::{Line, ToldCause};
use crate::open_numbers::Standing;
use crate::places::RecordPlaces;
use crate::writing::write_line;
use std::alloc::{AllocError, Global};
use thiserror::Error;

/// Why octets could not be converted.
#[derive(Clone, Copy, Debug, PartialEq, Eq, Error)]
pub enum ConvertFault {
    /// They are no transcript: the record at this position is malformed, by this fault. The opening has
    /// position 0, the first record 1.
    #[error("the transcript is malformed")]
    Malformed(u64, RecordFault),
    /// Memory was refused.
    #[error("out of memory")]
    Memory,
}

impl From<AllocError> for ConvertFault {
    ghost from_gives = { λ _ e. e ≡ Memory };

    fn from(_e: AllocError) -> ConvertFault {
        ConvertFault::Memory
    }
}

/// A fault of the record at a position.
fn malformed_at(position: u64, fault: RecordFault) -> ConvertFault
    ensures { result ≡ malformed_at position fault }
{
    match fault {
        RecordFault::Memory => ConvertFault::Memory,
        fault => ConvertFault::Malformed(position, fault),
    }
}

/// What is wrong with octets that no opening begins.
fn opening_fault(octets: &[u8]) -> RecordFault
    requires { (format : Format) (rest : List ℕ) → octets.now ≢ opening format ++ rest }
    ensures { BreaksOpening octets.now result }
{
    if may_open(octets) {
        RecordFault::Torn
    } else {
        RecordFault::Opening
    }
}

/// The record that begins what is left of a transcript.
fn next_record<'a>(
    places: &mut RecordPlaces,
    format: Format,
    rest: &'a [u8],
    standing: &mut Standing,
) -> Result<Framed<'a>, ConvertFault>
    requires { rest.now ≢ [] }
    ensures ok { (octets : List ℕ) (records : List Record) (h : List Item) → Splits format octets records h rest.now → StandsAs standing.old h
        → IfOk result (λ framed. ReadsOne format octets records h (drop framed.len rest.now) framed.line framed.message.now standing.new) }
    ensures err { (octets : List ℕ) (records : List Record) (h : List Item) → Splits format octets records h rest.now → StandsAs standing.old h
        → IfErr result (FailsBy octets) }
    ensures fits { IfOk result (λ framed. (0 < framed.len) × (framed.len ≤ length rest.now)) }
{
    let position = standing.records() + 1;
    let framed = match record_at(format, rest, standing) {
        Err(fault) => return Err(malformed_at(position, fault)),
        Ok(None) => return Err(ConvertFault::Malformed(position, RecordFault::Torn)),
        Ok(Some(framed)) => framed,
    };
    let to_head = standing.is_to_head(framed.line.kind, framed.line.number);
    match places.find(&framed.line, framed.message, to_head) {
        Err(fault) => return Err(malformed_at(position, fault)),
        Ok(()) => {}
    }
    standing.note(&places.record(&framed.line, framed.message))?;
    Ok(framed)
}

/// Puts a record at the end, without its cause.
fn append_without_cause(text: &mut Vec<u8>, line: &Line, message: &[u8]) -> Result<(), AllocError>
    ensures { OnOk result (text.new.items ≡ text.old.items ++ (line_text (line_without_cause line.now) ++ 10 ∷ (message.now ++ 10 ∷ []))) }
{
    let told = Line {
        cause: ToldCause::Untold,
        ..*line
    };
    write_line(text, &told)?;
    text.extend_from_slice(message)?;
    text.extend_from_slice(b"\n")
}

/// The transcript of the same records in the first format, which tells no causes: of one in the first
/// format the same octets.
pub fn convert(alloc: Global, octets: &[u8]) -> Result<Vec<u8>, ConvertFault>
    ensures ok { IfOk result (λ text. IsConverted octets.now text.items) }
    ensures err { IfErr result (FailsBy octets.now) }
{
    let Some(format) = format_at(octets) else {
        return Err(ConvertFault::Malformed(0, opening_fault(octets)));
    };
    let mut text = Vec::new(alloc);
    text.extend_from_slice(Format::First.opening())?;
    let mut standing = Standing::new(alloc);
    let mut places = RecordPlaces::new(alloc);
    let (_, behind) = octets.split_at(format.opening().len());
    let mut rest = behind;
    while !rest.is_empty() {
        let framed = next_record(&mut places, format, rest, &mut standing)?;
        append_without_cause(&mut text, &framed.line, framed.message)?;
        let (_, behind) = rest.split_at(framed.len);
        rest = behind;
    }
    Ok(text)
}
