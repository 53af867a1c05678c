//! Messages that are read in pieces, however they are cut.
ghost use Rattle.std.specs.Prelude.{OnOk};
ghost use Rattle.hc_framing.specs.Reader.{CanFeed, HasMessage};

use crate::messages_describing::{self, ShownHead, frame_fault};
use crate::messages_parts::{joined, kind};
use crate::messages_shared::read_and_written;
use hc_cases::{Case, Unanswered};
use hc_framing::{FrameFault, Kind, Message, MessageReader, Progress};
use hc_head::{RequestHead, ResponseHead, Room};
use std::alloc::{AllocError, Global};
use std::fmt::Write;

/// The longest octets that are cut at each place.
const LONGEST: usize = 4_096;

/// What is asked of octets that are read as a message.
#[derive(Clone, Copy)]
pub enum Asked {
    /// The message that they begin with, however they are cut. Where they are more than the message,
    /// also what they are as a whole.
    Cuts,
    /// The text of the message that they are, and how much of it is the body's own.
    Text,
}

/// Answers a question of a KIND of message and octets.
pub fn answer(asked: Asked, case: &Case<'_>, out: &mut String) -> Result<(), Unanswered> {
    let Some((of, pieces)) = case.about.split_first() else {
        return Err(Unanswered::Unknown);
    };
    let kind = kind(of)?;
    let octets = joined(case.alloc, pieces)?;
    match kind {
        Kind::Request => Ok(told::<RequestHead>(asked, case.alloc, &octets, kind, out)?),
        Kind::Response { to_head: _ } => {
            Ok(told::<ResponseHead>(asked, case.alloc, &octets, kind, out)?)
        }
    }
}

fn told<H: ShownHead>(
    asked: Asked,
    alloc: Global,
    octets: &[u8],
    kind: Kind,
    out: &mut String,
) -> Result<(), AllocError> {
    match asked {
        Asked::Cuts => every_way::<H>(alloc, octets, kind, out),
        Asked::Text => read_and_written::<H>(alloc, octets, kind, out),
    }
}

// Writes what is read of the octets in one piece, and each other way that reads something else.
fn every_way<H: ShownHead>(
    alloc: Global,
    octets: &[u8],
    kind: Kind,
    out: &mut String,
) -> Result<(), AllocError> {
    let text = text_in_two::<H>(alloc, octets, octets.len(), kind)?;
    other_ways::<H>(alloc, octets, kind, text.as_str(), out)
}

// Writes the text, and what each other way reads that isn't the same.
fn other_ways<H: ShownHead>(
    alloc: Global,
    octets: &[u8],
    kind: Kind,
    text: &str,
    out: &mut String,
) -> Result<(), AllocError> {
    out.push_str(text)?;
    if octets.len() <= LONGEST {
        every_cut::<H>(alloc, octets, kind, text, out)?;
    }
    let whole = text_whole::<H>(alloc, octets, kind)?;
    other(whole.as_str(), "whole", text, out)
}

// Writes each cut in two that reads something else.
fn every_cut<H: ShownHead>(
    alloc: Global,
    octets: &[u8],
    kind: Kind,
    text: &str,
    out: &mut String,
) -> Result<(), AllocError> {
    for cut in 0..octets.len() {
        let found = text_in_two::<H>(alloc, octets, cut, kind)?;
        other_cut(found.as_str(), cut, text, out)?;
    }
    Ok(())
}

fn other_cut(found: &str, cut: usize, text: &str, out: &mut String) -> Result<(), AllocError> {
    if found != text {
        write!(out, "; cut at {cut}")?;
    }
    other(found, "", text, out)
}

/// Writes a text that is another one.
pub fn other(found: &str, way: &str, text: &str, out: &mut String) -> Result<(), AllocError> {
    if found == text {
        return Ok(());
    }
    write!(out, "; {way}: {found}")
}

// What is read of the octets in two pieces, as text.
fn text_in_two<H: ShownHead>(
    alloc: Global,
    octets: &[u8],
    cut: usize,
    kind: Kind,
) -> Result<String, AllocError> {
    let mut reader = MessageReader::<H>::new(alloc, kind, Room::RECEIVED);
    let fed = feed_two(&mut reader, octets, cut);
    text_read(alloc, reader, fed)
}

// What the reader has read once it was fed, as text.
fn text_read<H: ShownHead>(
    alloc: Global,
    reader: MessageReader<H>,
    fed: Result<usize, FrameFault>,
) -> Result<String, AllocError>
    requires { OnOk fed (HasMessage reader) }
{
    match fed {
        Ok(length) => message_text(alloc, &reader.take(), length),
        Err(fault) => fault_text(alloc, fault),
    }
}

// What the octets are as a whole, as text.
fn text_whole<H: ShownHead>(
    alloc: Global,
    octets: &[u8],
    kind: Kind,
) -> Result<String, AllocError> {
    match H::whole(alloc, octets, kind) {
        Ok(message) => message_text(alloc, &message, octets.len()),
        Err(fault) => fault_text(alloc, fault),
    }
}

// A message and how many octets it takes, as text.
fn message_text<H: ShownHead>(
    alloc: Global,
    message: &Message<H>,
    length: usize,
) -> Result<String, AllocError> {
    let mut text = String::new(alloc);
    messages_describing::message(message, &mut text)?;
    write!(text, "; {length} octets")?;
    Ok(text)
}

fn fault_text(alloc: Global, fault: FrameFault) -> Result<String, AllocError> {
    let mut text = String::new(alloc);
    frame_fault(fault, &mut text)?;
    Ok(text)
}

// Feeds the octets and their end in two pieces, and returns how many the message takes.
fn feed_two<H: ShownHead>(
    reader: &mut MessageReader<H>,
    octets: &[u8],
    cut: usize,
) -> Result<usize, FrameFault>
    requires { CanFeed H.form reader.old }
    ensures { OnOk result (HasMessage reader.new) }
{
    let (first, second) = octets.split_at(cut.min(octets.len()));
    if let Progress::Whole(used) = reader.feed(first)? {
        return Ok(used);
    }
    if let Progress::Whole(used) = reader.feed(second)? {
        return Ok(first.len().saturating_add(used));
    }
    reader.end()?;
    Ok(octets.len())
}
