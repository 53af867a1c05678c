//! Positions, and hyphens between two of them.

ghost use Rattle.std.specs.Prelude.{◌≡◌, ◌≤◌, length};
ghost use Rattle.hc_arguments.specs.Positions.{len_before_hyphen, positive_of, span_between, span_of};

use hc_options::{Takes, number_of};
use hc_shown::Span;
use hc_transcript::GREATEST_NUMBER;

/// How many octets stand before the first hyphen.
fn len_before_hyphen(text: &[u8]) -> usize
    ensures is { result ≡ len_before_hyphen text.now }
    ensures within { result ≤ length text.now }
{
    for (index, octet) in text.iter().enumerate() {
        if *octet == b'-' {
            return index;
        }
    }
    text.len()
}

/// The positive number that one or more digits write, at most 999999999999.
fn positive_of(text: &[u8]) -> Option<u64>
    ensures { result ≡ positive_of text.now }
{
    number_of(Takes::Number(1, GREATEST_NUMBER), text)
}

/// The positions from one to another, if there are some.
fn span_between(first: u64, last: u64) -> Option<Span>
    ensures { result ≡ span_between first last }
{
    if first > last {
        return None;
    }
    Some(Span { first, last })
}

/// The positions that are written: one alone, or from one to another with a hyphen between them.
pub(crate) fn span_of(text: &[u8]) -> Option<Span>
    ensures { result ≡ span_of text.now }
{
    let (first, rest) = text.split_at(len_before_hyphen(text));
    let first = positive_of(first)?;
    match rest.split_first() {
        Some((_, last)) => span_between(first, positive_of(last)?),
        None => span_between(first, first),
    }
}
