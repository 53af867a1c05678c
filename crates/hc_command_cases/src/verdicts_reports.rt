//! What the program reports of a transcript, and how it explains a reply.

use crate::program::written_of;
use crate::verdicts_words::words_for;
use crate::written::Written;
use hc_cases::Unanswered;
use std::alloc::{AllocError, Global};
use std::fmt::Write;

/// Writes what the program writes by a command and the words behind the transcript, the parts; line feeds as `\n`. Its
/// exit status stands behind.
pub fn say_by(
    alloc: Global,
    command: &str,
    octets: &[u8],
    parts: &[Vec<u8>],
    out: &mut String,
) -> Result<(), Unanswered> {
    let words = words_for(alloc, command, parts)?;
    push_written(&written_of(alloc, words.as_slice(), &[octets])?, out)
}

// Writes what the program wrote, faults behind, its line feeds as `\n`, and its exit status.
fn push_written(written: &Written, out: &mut String) -> Result<(), Unanswered> {
    push_lines(written.output.as_slice(), out)?;
    push_lines(written.faults.as_slice(), out)?;
    let status = written.status;
    write!(out, ", {status}")?;
    Ok(())
}

// Writes the text, its line feeds as `\n`.
fn push_lines(text: &[u8], out: &mut String) -> Result<(), Unanswered> {
    let Ok(text) = str::from_utf8(text) else {
        return Err(Unanswered::Unknown);
    };
    for part in text.split_inclusive('\n') {
        match part.strip_suffix('\n') {
            Some(line) => write!(out, "{line}\\n")?,
            None => out.push_str(part)?,
        }
    }
    Ok(())
}

/// Writes whether the report on so many wrong replies, of as many targets and of as many names, keeps to its bounds.
pub fn say_many(alloc: Global, count: &[u8], out: &mut String) -> Result<(), Unanswered> {
    let octets = many(alloc, number_of(count)?)?;
    for (what, most) in [("report", 32_768), ("json", 4_194_304)] {
        say_length(alloc, what, most, octets.as_bytes(), out)?;
    }
    Ok(())
}

// Writes whether the report on the transcript has at most so many octets.
fn say_length(
    alloc: Global,
    what: &str,
    most: usize,
    octets: &[u8],
    out: &mut String,
) -> Result<(), Unanswered> {
    let words = words_of_many(what);
    let length = written_of(alloc, &words, &[octets])?.output.len();
    if length <= most {
        write!(out, "{what} within {most} octets; ")?;
    } else {
        write!(out, "{what} of {length} octets; ")?;
    }
    Ok(())
}

fn words_of_many(what: &str) -> [&'static str; 4] {
    if what == "json" {
        ["hcache", "report", "--json", "-"]
    } else {
        ["hcache", "report", "--slack=0", "-"]
    }
}

fn number_of(text: &[u8]) -> Result<u32, Unanswered> {
    let Ok(text) = str::from_utf8(text) else {
        return Err(Unanswered::Unknown);
    };
    text.parse::<u32>().or(Err(Unanswered::Unknown))
}

// What is stored, what asks for it, and how a hit of it begins.
const STORED: &str = "HTTP/1.1 200 OK\r\ncontent-length: 0\r\ncache-control: max-age=600\r\n\r\n";

const ASKED: &str = "GET /stored HTTP/1.1\r\nhost: h\r\n\r\n";

const REPLY: &str =
    "HTTP/1.1 200 OK\r\ncontent-length: 0\r\ncache-control: max-age=600\r\nage: 0\r\ncache-status: h;hit\r\n";

// A transcript with so many hits of targets of which nothing is stored, and as many with a field more than is stored,
// each of another name.
fn many(alloc: Global, count: u32) -> Result<String, AllocError> {
    let mut transcript = String::from_str(alloc, "HCT1\n")?;
    push_record('q', 1, ASKED, &mut transcript)?;
    push_record('f', 1, ASKED, &mut transcript)?;
    push_record('r', 1, STORED, &mut transcript)?;
    push_record('a', 1, STORED, &mut transcript)?;
    for number in 2..count.saturating_add(2) {
        push_elsewhere(alloc, u64::from(number), &mut transcript)?;
        push_more(alloc, u64::from(number), &mut transcript)?;
    }
    Ok(transcript)
}

// Appends a hit of a target of its own.
fn push_elsewhere(alloc: Global, number: u64, out: &mut String) -> Result<(), AllocError> {
    let asked = format!(in alloc; "GET /{number} HTTP/1.1\r\nhost: h\r\n\r\n")?;
    push_record('q', number, asked.as_str(), out)?;
    drop(asked);
    let reply = format!(in alloc; "{REPLY}\r\n")?;
    push_record('a', number, reply.as_str(), out)
}

// Appends a hit of what is stored, with a field more.
fn push_more(alloc: Global, number: u64, out: &mut String) -> Result<(), AllocError> {
    push_record('q', number, ASKED, out)?;
    let reply = format!(in alloc; "{REPLY}x-{number}: 1\r\n\r\n")?;
    push_record('a', number, reply.as_str(), out)
}

// Appends the record of a message.
fn push_record(kind: char, number: u64, message: &str, out: &mut String) -> Result<(), AllocError> {
    let length = message.len();
    write!(out, "{kind} {number} 1000 {length}\n{message}\n")
}
