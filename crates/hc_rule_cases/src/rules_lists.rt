//! Lists, numbers, tokens and the directives of Cache-Control.

use crate::blocks::fields_of_block;
use crate::rules_describing::bracketed;
use hc_cases::{Case, Unanswered, yes_or_no};
use hc_directives::{Directives, Seconds};
use hc_fields::{Fields, is_token, list_members, number};
use std::alloc::{AllocError, Global};
use std::fmt::Write;

/// Answers a question of lists, numbers, tokens or directives.
pub fn answer(case: &Case<'_>, out: &mut String) -> Result<(), Unanswered> {
    match case.about {
        [text] => Ok(answer_of_text(case.question, text, out)?),
        [name, block] => Ok(directive(case.alloc, name, block, out)?),
        _ => Err(Unanswered::Unknown),
    }
}

fn answer_of_text(question: &str, text: &[u8], out: &mut String) -> Result<(), AllocError> {
    match question {
        "list" => list(text, out),
        "number" => numeral(seconds_in(text), out),
        _ => yes_or_no(is_token(text), out),
    }
}

fn seconds_in(text: &[u8]) -> Option<u64> {
    Some(u64::from(number(text)?))
}

fn numeral(number: Option<u64>, out: &mut String) -> Result<(), AllocError> {
    match number {
        Some(number) => write!(out, "{number}"),
        None => out.push_str("none"),
    }
}

fn list(value: &[u8], out: &mut String) -> Result<(), AllocError> {
    for member in list_members(value) {
        bracketed(member, out)?;
    }
    Ok(())
}

fn directive(alloc: Global, name: &[u8], block: &[u8], out: &mut String) -> Result<(), AllocError> {
    let fields = fields_of_block(alloc, block)?;
    directive_of(name, &fields, out)
}

fn directive_of(name: &[u8], fields: &Fields, out: &mut String) -> Result<(), AllocError> {
    let directives = Directives::read(fields);
    seconds(directives.has(name), directives.seconds(name), out)?;
    let count = directives.unreadable();
    write!(out, "; {count} unreadable")
}

// Writes what a directive says. One that is there is never absent.
fn seconds(has: bool, seconds: Seconds, out: &mut String) -> Result<(), AllocError> {
    out.push_str(if has { "there" } else { "not there" })?;
    match seconds {
        Seconds::Absent => out.push_str(", absent"),
        Seconds::Bare => out.push_str(", bare"),
        Seconds::Unreadable => out.push_str(", no number"),
        Seconds::Value(count) => write!(out, ", {count}"),
    }
}
