//! Words, and what the program answers to them.

use crate::written::Written;
use hc_arguments::{Order, Proxying, parsed};
use hc_cases::Unanswered;
use hc_command::answered;
use std::alloc::{AllocError, Global};
use std::fmt::Write;
use std::rt::Files;

/// The words that the parts of a case are, behind the program's name.
pub(crate) fn words_of(alloc: Global, parts: &[Vec<u8>]) -> Result<Vec<&str>, Unanswered> {
    let mut words = Vec::new(alloc);
    words.push("hcache")?;
    push_words(parts, &mut words)?;
    Ok(words)
}

/// Adds the words that the parts of a case are.
pub(crate) fn push_words<'a>(
    parts: &'a [Vec<u8>],
    words: &mut Vec<&'a str>,
) -> Result<(), Unanswered> {
    for part in parts {
        words.push(word_of(part.as_slice())?)?;
    }
    Ok(())
}

fn word_of(part: &[u8]) -> Result<&str, Unanswered> {
    match str::from_utf8(part) {
        Ok(word) => Ok(word),
        Err(_) => Err(Unanswered::Unknown),
    }
}

// What the program writes by those words, of which the first is its name, and its exit status.
fn written_by<R>(system: &R, words: &[&str]) -> Written
where
    R: Files + Input + AllocGlobal,
{
    let mut written = Written::nothing(system.alloc());
    let output = &mut written.output;
    written.status = answered(system, words, output, &mut written.faults);
    written
}

// What the program writes by the words that the parts of a case are, after its name, and its exit status. An audit is asked
// of the program that only audits, too.
fn written_for<R>(system: &R, parts: &[Vec<u8>]) -> Result<Written, Unanswered>
where
    R: Files + Input + AllocGlobal,
{
    let words = words_of(system.alloc(), parts)?;
    let mut written = written_by(system, words.as_slice());
    if asks_for_audit(words.as_slice()) {
        written.compare(&written_alone(system, words.as_slice()));
    }
    Ok(written)
}

/// Whether the words, of which the first is the program's name, ask for an audit.
pub(crate) fn asks_for_audit(words: &[&str]) -> bool {
    match words {
        [_, command, ..] => *command == "audit",
        _ => false,
    }
}

// What the program that only audits writes by those words, and its exit status.
fn written_alone<R: Files + Input + AllocGlobal>(system: &R, words: &[&str]) -> Written {
    let mut written = Written::nothing(system.alloc());
    written.status = hc_auditing::answered(system, words, &mut written.output, &mut written.faults);
    written
}

/// Writes the exit status by which the program answers the words, and what it writes.
pub(crate) fn say_answer<R>(
    system: &R,
    parts: &[Vec<u8>],
    out: &mut String,
) -> Result<(), Unanswered>
where
    R: Files + Input + AllocGlobal,
{
    Ok(written_for(system, parts)?.say(out)?)
}

/// Writes the exit status by which the program answers the words behind the first part, and on which of the two writers
/// that part stands. What stands there is written where it is another text.
pub(crate) fn say_text_of<R>(
    system: &R,
    parts: &[Vec<u8>],
    out: &mut String,
) -> Result<(), Unanswered>
where
    R: Files + Input + AllocGlobal,
{
    let (wanted, parts) = parts.split_first().ok_or(Unanswered::Unknown)?;
    Ok(written_for(system, parts)?.say_beside(wanted.as_slice(), out)?)
}

/// Writes the exit status, and whether anything is written on either of the two writers.
pub(crate) fn say_status<R>(
    system: &R,
    parts: &[Vec<u8>],
    out: &mut String,
) -> Result<(), Unanswered>
where
    R: Files + Input + AllocGlobal,
{
    Ok(written_for(system, parts)?.say_whether(out)?)
}

/// Writes where a proxy is to listen by the words, a place in brackets each, and where it is to tell of itself.
pub(crate) fn say_places(
    alloc: Global,
    parts: &[Vec<u8>],
    out: &mut String,
) -> Result<(), Unanswered> {
    let words = words_of(alloc, parts)?;
    match parsed(alloc, words.as_slice()) {
        Ok(Order::Proxy(proxying)) => Ok(say_places_of(&proxying, out)?),
        _ => Err(Unanswered::Unknown),
    }
}

fn say_places_of(proxying: &Proxying<'_>, out: &mut String) -> Result<(), AllocError> {
    for place in proxying.listens.iter() {
        write!(out, "[{place}]")?;
    }
    match proxying.status {
        Some(place) => write!(out, ", told at [{place}]"),
        None => Ok(()),
    }
}
