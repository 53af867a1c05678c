//! The events of a script.

ghost use Rattle.std.specs.Prelude.{◌≡◌, ◌≢◌, IfOk, IfErr};
ghost use Rattle.hc_scripts.specs.declared.fault.ScriptFault.TheVariants as fault;
ghost use Rattle.hc_scripts.specs.ScriptFaults.{OctetsBreak, EventBreaks};
ghost use Rattle.hc_scripts.specs.ScriptParts.{event_with, HasOctets, BringsOctets, BeginsEvent, AreEvents, EventsBreak};

use crate::event_line::{EventLine, read_event_line};
use crate::fault::ScriptFault;
use crate::kind::{EventKind, has_octets};
use hc_fields::Octets;
use hc_service::{Event, Happening};
use std::alloc::Global;

/// The event of that line, which brings those octets; where its kind brings none they are dropped.
fn event_with(line: &EventLine, octets: Octets) -> Event
    ensures { result ≡ event_with line.now octets }
{
    let number = line.number;
    let of = match line.kind {
        EventKind::ClientOpened => Happening::ClientOpened(number),
        EventKind::ClientBytes => Happening::ClientBytes(number, octets),
        EventKind::ClientEnd => Happening::ClientEnd(number),
        EventKind::OriginBytes => Happening::OriginBytes(number, octets),
        EventKind::OriginEnd => Happening::OriginEnd(number),
        EventKind::OriginFailed => Happening::OriginFailed(number),
    };
    Event {
        moment: line.moment,
        of,
    }
}

/// So many octets, and what stands behind them and their line feed.
fn read_octets(text: &[u8], size: u64) -> Result<(&[u8], &[u8]), ScriptFault>
    ensures ok { IfOk result (λ parts. HasOctets size text.now parts.0.now parts.1.now) }
    ensures err { IfErr result (λ f. OctetsBreak f size text.now) }
{
    let size = size as usize;
    if text.len() <= size {
        return Err(ScriptFault::Torn);
    }
    if text[size] != b'\n' {
        return Err(ScriptFault::Line);
    }
    let (octets, end) = text.split_at(size);
    let (_, behind) = end.split_at(1);
    Ok((octets, behind))
}

/// The event that begins the text, and what stands behind it.
fn read_event(alloc: Global, text: &[u8]) -> Result<(Event, &[u8]), ScriptFault>
    ensures ok { IfOk result (λ parts. BeginsEvent text.now parts.0 parts.1.now) }
    ensures err { IfErr result (λ f. f ≢ fault.Memory → EventBreaks f text.now) }
{
    let (line, behind) = read_event_line(text)?;
    if !has_octets(line.kind) {
        return Ok((event_with(&line, Octets::new(alloc)), behind));
    }
    read_bringing(alloc, &line, behind)
}

/// The event of that line, of a kind that brings octets, by those that begin the text, and what stands behind them.
fn read_bringing<'a>(
    alloc: Global,
    line: &EventLine,
    text: &'a [u8],
) -> Result<(Event, &'a [u8]), ScriptFault>
    ensures ok { IfOk result (λ parts. BringsOctets line.now text.now parts.0 parts.1.now) }
    ensures err { IfErr result (λ f. f ≢ fault.Memory → OctetsBreak f line.now.size text.now) }
{
    let (octets, behind) = read_octets(text, line.size)?;
    let octets = Octets::from_slice(alloc, octets)?;
    Ok((event_with(line, octets), behind))
}

/// The events that the text is, all of it.
#[tactic(auto, using(crate::proofs::ScriptEventLemmas::all_events, crate::proofs::ScriptEventLemmas::behind_event_is_less))]
pub(crate) fn read_events(alloc: Global, text: &[u8]) -> Result<Vec<Event>, ScriptFault>
    ensures ok { IfOk result (λ events. AreEvents text.now events.items) }
    ensures err { IfErr result (λ f. f ≢ fault.Memory → EventsBreak f text.now) }
{
    let mut events = Vec::new(alloc);
    let mut rest = text;
    'events: while !rest.is_empty() {
        let (event, behind) = read_event(alloc, rest)?;
        events.push(event)?;
        rest = behind;
    }
    Ok(events)
}
