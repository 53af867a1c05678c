//! Who tells something of a transcript.

use crate::program::written_of;
use crate::verdicts_converting::say_converted;
use crate::verdicts_others::say_listed;
use crate::verdicts_records::say_records;
use crate::verdicts_words::settings_of;
use hc_cases::Unanswered;
use std::alloc::Global;
use std::fmt::Write;

/// Who tells something of a transcript, which comes in pieces.
#[derive(Clone, Copy)]
pub enum Teller<'a> {
    /// The program, asked by these words, and an auditor by lists, where that says something else.
    Program(&'a [&'a str]),
    /// The reader of records.
    Reader,
    /// The program, of what it is in the first format.
    Converted(&'a [&'a str]),
}

impl<'a> Teller<'a> {
    /// The one of that name. The program is asked by the words.
    pub fn named(name: &str, words: &'a [&'a str]) -> Result<Self, Unanswered> {
        match name {
            "audit" => Ok(Teller::Program(words)),
            "records" => Ok(Teller::Reader),
            "converted" => Ok(Teller::Converted(words)),
            _ => Err(Unanswered::Unknown),
        }
    }

    /// Writes what is told of the octets that the pieces make.
    pub fn tell(
        &self,
        alloc: Global,
        pieces: &[&[u8]],
        out: &mut String,
    ) -> Result<(), Unanswered> {
        match self {
            Teller::Program(words) => say_audited(alloc, words, pieces, out),
            Teller::Reader => say_records(alloc, pieces, out),
            Teller::Converted(words) => say_converted(alloc, words, pieces, out),
        }
    }
}

/// Writes what the program says of the octets that the pieces make, and what is said by a list, where that is something
/// else.
pub(crate) fn say_audited(
    alloc: Global,
    words: &[&str],
    pieces: &[&[u8]],
    out: &mut String,
) -> Result<(), Unanswered> {
    let written = written_of(alloc, words, pieces)?;
    let Some(settings) = settings_of(alloc, words) else {
        let status = written.status;
        return Ok(write!(out, "refused, {status}")?);
    };
    written.say_line(out)?;
    say_listed(alloc, settings, pieces, written.output.as_slice(), out)
}
