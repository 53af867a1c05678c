//! What is told of parts and changes of a transcript.

use crate::verdicts_runs::Runs;
use crate::verdicts_tellers::Teller;
use hc_cases::Unanswered;
use hc_fields::number;
use std::alloc::{AllocError, Global};
use std::ops::Range;

/// Writes what is told of the octets where the first that are the old ones are the new ones: the parts
/// are the old and the new.
pub fn say_replaced(
    alloc: Global,
    teller: &Teller<'_>,
    octets: &[u8],
    parts: &[Vec<u8>],
    out: &mut String,
) -> Result<(), Unanswered> {
    let [old, new] = parts else {
        return Err(Unanswered::Unknown);
    };
    let (front, behind) = around(octets, old.as_slice()).ok_or(Unanswered::Unknown)?;
    teller.tell(alloc, &[front, new.as_slice(), behind], out)
}

// What stands before the first octets that are the old ones, and what stands behind them.
fn around<'a>(octets: &'a [u8], old: &[u8]) -> Option<(&'a [u8], &'a [u8])> {
    for place in 0..octets.len() {
        let (front, rest) = octets.split_at(place);
        if let Some(behind) = rest.strip_prefix(old) {
            return Some((front, behind));
        }
    }
    None
}

/// Writes what is told of the first so many octets: the parts are the least and the greatest number.
pub fn say_fronts(
    alloc: Global,
    teller: &Teller<'_>,
    octets: &[u8],
    parts: &[Vec<u8>],
    out: &mut String,
) -> Result<(), Unanswered> {
    let [first, last] = parts else {
        return Err(Unanswered::Unknown);
    };
    let first = number_of(first.as_slice())?;
    let last = number_of(last.as_slice())?;
    say_fronts_from(alloc, teller, octets, first, last, out)
}

fn say_fronts_from(
    alloc: Global,
    teller: &Teller<'_>,
    octets: &[u8],
    first: usize,
    last: usize,
    out: &mut String,
) -> Result<(), Unanswered> {
    let mut runs = Runs::new(out);
    for length in first..=last {
        let Some(front) = octets.get(..length) else {
            return Err(Unanswered::Unknown);
        };
        runs.tell(alloc, teller, length, &[front])?;
    }
    Ok(())
}

/// Writes what is told of the octets where each octet of a piece of them is another: the parts are that
/// octet, the place of the piece, and the piece.
pub fn say_changed(
    alloc: Global,
    teller: &Teller<'_>,
    octets: &[u8],
    parts: &[Vec<u8>],
    out: &mut String,
) -> Result<(), Unanswered> {
    let [other, at, piece] = parts else {
        return Err(Unanswered::Unknown);
    };
    let other = other.first().copied().ok_or(Unanswered::Unknown)?;
    let at = number_of(at.as_slice())?;
    let end = at.saturating_add(piece.len());
    if octets.get(at..end) != Some(piece.as_slice()) {
        return Err(Unanswered::Unknown);
    }
    say_each_changed(alloc, teller, octets, other, at..end, out)
}

// Writes what is told of the octets with another at a place, for each of those places.
fn say_each_changed(
    alloc: Global,
    teller: &Teller<'_>,
    octets: &[u8],
    other: u8,
    places: Range<usize>,
    out: &mut String,
) -> Result<(), Unanswered> {
    let mut runs = Runs::new(out);
    for place in places {
        let changed = with_octet(alloc, octets, place, other)?;
        runs.tell(alloc, teller, place, &[changed.as_slice()])?;
    }
    Ok(())
}

// The octets with another at a place.
fn with_octet(
    alloc: Global,
    octets: &[u8],
    place: usize,
    other: u8,
) -> Result<Vec<u8>, AllocError> {
    let mut changed = Vec::from_slice(alloc, octets)?;
    if let Some(octet) = changed.get_mut(place) {
        *octet = other;
    }
    Ok(changed)
}

/// Writes what is told of the octets in each two pieces that make them, and octet by octet.
pub fn say_cuts(
    alloc: Global,
    teller: &Teller<'_>,
    octets: &[u8],
    out: &mut String,
) -> Result<(), Unanswered> {
    let mut runs = Runs::new(out);
    for cut in 0..octets.len() {
        let (front, back) = octets.split_at(cut);
        runs.tell(alloc, teller, cut, &[front, back])?;
    }
    let pieces: Vec<&[u8]> = octets.chunks(1).collect(alloc)?;
    runs.tell(alloc, teller, octets.len(), pieces.as_slice())
}

// The number that a part is.
fn number_of(part: &[u8]) -> Result<usize, Unanswered> {
    let number = number(part).ok_or(Unanswered::Unknown)?;
    Ok(number as usize)
}
