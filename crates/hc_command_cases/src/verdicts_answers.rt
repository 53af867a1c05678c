//! The questions of transcripts.

use crate::verdicts_changes::{say_changed, say_cuts, say_fronts, say_replaced};
use crate::verdicts_converting::say_same;
use crate::verdicts_reports::{say_by, say_many};
use crate::verdicts_shown::{say_moment, say_value};
use crate::verdicts_tellers::Teller;
use crate::verdicts_words::{plain_words, words_of};
use hc_cases::Unanswered;
use hc_shown::push_octets;
use std::alloc::Global;

/// Answers a question of some octets, mostly of a transcript, the first part of the case.
pub(crate) fn answer_of_octets(
    alloc: Global,
    question: &str,
    octets: &[u8],
    parts: &[Vec<u8>],
    out: &mut String,
) -> Result<(), Unanswered> {
    match question {
        "shown" => Ok(push_octets(octets, out)?),
        "shown value" => say_value(octets, parts, out),
        "shown moment" => say_moment(octets, out),
        "report" | "explain" => say_by(alloc, question, octets, parts, out),
        "report of many" => say_many(alloc, octets, out),
        "converted to" => say_same(alloc, octets, parts, out),
        _ => tell(alloc, question, octets, parts, out),
    }
}

// Writes what is told of the octets, or of parts and changes of them.
fn tell(
    alloc: Global,
    question: &str,
    octets: &[u8],
    parts: &[Vec<u8>],
    out: &mut String,
) -> Result<(), Unanswered> {
    match question.split_once(' ') {
        Some((who, how)) => {
            let words = plain_words();
            let teller = Teller::named(who, &words)?;
            tell_of(alloc, &teller, how, octets, parts, out)
        }
        None => {
            let words = words_of(alloc, parts)?;
            Teller::named(question, words.as_slice())?.tell(alloc, &[octets], out)
        }
    }
}

// Writes what is told of parts and changes of the octets.
fn tell_of(
    alloc: Global,
    teller: &Teller<'_>,
    how: &str,
    octets: &[u8],
    parts: &[Vec<u8>],
    out: &mut String,
) -> Result<(), Unanswered> {
    match how {
        "cuts" => say_cuts(alloc, teller, octets, out),
        "replaced" => say_replaced(alloc, teller, octets, parts, out),
        "fronts" => say_fronts(alloc, teller, octets, parts, out),
        "changed" => say_changed(alloc, teller, octets, parts, out),
        _ => Err(Unanswered::Unknown),
    }
}
