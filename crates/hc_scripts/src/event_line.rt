//! The line of an event.

ghost use Rattle.std.specs.Prelude.{ℕ, IfSome, IfNone, IfOk, IfErr};
ghost use Rattle.hc_scripts.specs.declared.event_line.EventLine.{EventLine};
ghost use Rattle.hc_scripts.specs.Scripts.{IsEventLine};
ghost use Rattle.hc_scripts.specs.ScriptFaults.{HasLine, IsLineOfEvent, LineBreaks};
ghost use Rattle.hc_scripts.specs.ScriptParts.{IsTail};

use crate::fault::ScriptFault;
use crate::first_line::first_line;
use crate::kind::{EventKind, has_octets, kind_of};
use crate::limits::GREATEST_COUNT;
use crate::numeral::{numeral, numeral_before_space};
use crate::splitting::split_at_mark;
use hc_transcript::LONGEST_MESSAGE;

/// The line of an event: its kind, the number of its connection or forward, its moment in whole
/// seconds since 1970, and how many octets follow, 0 where none may.
#[derive(Clone, Copy)]
pub struct EventLine {
    /// What happens.
    pub kind: EventKind,
    /// The number of its connection or its forward.
    pub number: u64,
    /// In whole seconds since 1970.
    pub moment: u64,
    /// How many octets follow.
    pub size: u64,
}

/// The moment of an event of that kind, and how many octets follow its line.
fn moment_and_size(kind: EventKind, text: &[u8]) -> Option<(u64, u64)>
    ensures found { IfSome result (λ tail. IsTail kind text.now tail.0 tail.1) }
    ensures none { IfNone result ((moment size : ℕ) → ¬ (IsTail kind text.now moment size)) }
{
    if has_octets(kind) {
        let (moment, rest) = numeral_before_space(text, GREATEST_COUNT)?;
        let size = numeral(rest, LONGEST_MESSAGE)?;
        Some((moment, size))
    } else {
        let moment = numeral(text, GREATEST_COUNT)?;
        Some((moment, 0))
    }
}

/// The line of an event that the text is, without its line feed.
fn parse_line(text: &[u8]) -> Option<EventLine>
    ensures found { IfSome result (IsEventLine text.now) }
    ensures none { IfNone result ((line : EventLine) → ¬ (IsEventLine text.now line)) }
{
    let (word, rest) = split_at_mark(text, b' ')?;
    let kind = kind_of(word)?;
    let (number, rest) = numeral_before_space(rest, GREATEST_COUNT)?;
    let (moment, size) = moment_and_size(kind, rest)?;
    Some(EventLine {
        kind,
        number,
        moment,
        size,
    })
}

/// The line of the event that begins the octets, and what stands behind it.
pub(crate) fn read_event_line(octets: &[u8]) -> Result<(EventLine, &[u8]), ScriptFault>
    ensures ok { IfOk result (λ parts. HasLine octets.now parts.0 parts.1.now) }
    ensures err { IfErr result (λ f. LineBreaks IsLineOfEvent f octets.now) }
{
    let (text, behind) = first_line(octets)?;
    match parse_line(text) {
        Some(line) => Ok((line, behind)),
        None => Err(ScriptFault::Line),
    }
}
