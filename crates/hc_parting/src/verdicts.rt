//! Which verdict a line says.

ghost use Rattle.std.specs.Prelude.{IfOk, IfSome};
ghost use Rattle.hc_auditing.specs.Line.{IsVerdictLine};

use hc_auditing::verdict_line;
use hc_history::{Counts, Reason, Verdict};
use std::alloc::{AllocError, Global};

/// The verdict whose line that is, a yes or a no; none of another text.
pub fn verdict_said(alloc: Global, text: &[u8]) -> Result<Option<Verdict>, AllocError>
    ensures { IfOk result (λ said. IfSome said (λ verdict. IsVerdictLine verdict text.now)) }
{
    let Some(verdict) = verdict_guessed(text) else {
        return Ok(None);
    };
    let line = verdict_line(alloc, &verdict)?;
    if line.as_bytes() == text {
        return Ok(Some(verdict));
    }
    Ok(None)
}

// The verdict that it says if it is the line of one.
fn verdict_guessed(text: &[u8]) -> Option<Verdict> {
    let numbers = numbers_in(text);
    match text.first() {
        Some(b'y') => Some(Verdict::Yes(Counts {
            records: numbers[0],
            replies: numbers[1],
            hits: numbers[2],
            forwarded: numbers[3],
            unmarked: numbers[4],
        })),
        Some(b'n') => Some(Verdict::No(numbers[0], reason_of(numbers[1])?)),
        _ => None,
    }
}

/// The first five numbers in a text; 0 for each that it lacks.
pub(crate) fn numbers_in(text: &[u8]) -> [u64; 5] {
    let mut numbers = [0u64; 5];
    let mut at = 0usize;
    let mut is_inside = false;
    for octet in text.iter() {
        if octet.is_ascii_digit() {
            push_digit(&mut numbers, at, *octet);
            is_inside = true;
        } else {
            if is_inside {
                at = at.saturating_add(1);
            }
            is_inside = false;
        }
    }
    numbers
}

// Puts a digit at the end of a number.
fn push_digit(numbers: &mut [u64], at: usize, digit: u8) {
    if let Some(number) = numbers.get_mut(at) {
        let value = u64::from(digit.saturating_sub(b'0'));
        *number = number.saturating_mul(10).saturating_add(value);
    }
}

// The reason of that number.
fn reason_of(number: u64) -> Option<Reason> {
    let reason = match number {
        1 => Reason::NoResponse,
        2 => Reason::Vary,
        3 => Reason::Invalidated,
        4 => Reason::NoExplicitFreshness,
        5 => Reason::NotAllowed,
        6 => Reason::Body,
        7 => Reason::Fields,
        8 => Reason::Age,
        9 => Reason::Ttl,
        10 => Reason::NotForwarded,
        11 => Reason::Unmarked,
        12 => Reason::BothMarks,
        13 => Reason::NotCollapsible,
        _ => return None,
    };
    Some(reason)
}
