//! What waits to be written, piece by piece.

ghost use Rattle.std.specs.Prelude.{◌≡◌, ◌≤◌, ◌+◌, ◌++◌, [], length, drop, OnOk};
ghost use Rattle.hc_flow.specs.Pieces.{Grows, GrowsIfOk, all_of, first_of, octets_of};

use hc_framing::MessageText;
use std::alloc::{AllocError, Global};
use std::collections::VecDeque;
use std::mem;

/// The longest text that is copied behind others.
const LONGEST_JOINED: usize = 4_096;

/// The most octets that are joined in one buffer.
const LONGEST_BUFFER: usize = 16_384;

/// Octets that wait, and are written as one.
pub(crate) enum Piece {
    /// Short texts, one behind the other.
    Joined(Vec<u8>),
    /// A text that may have more owners.
    Shared(MessageText),
}

impl Drop for Piece {
    fn drop(self) {
        match self {
            Piece::Joined(octets) => drop(octets),
            Piece::Shared(text) => drop(text),
        }
    }
}

/// All but so many of the octets.
fn behind(octets: &[u8], count: usize) -> &[u8]
    ensures { result.now ≡ drop count octets.now }
{
    let (_, rest) = octets.split_at(count.min(octets.len()));
    rest
}

/// All but so many of the octets of two parts.
fn both_behind<'a>(front: &'a [u8], rest: &'a [u8], count: usize) -> (&'a [u8], &'a [u8])
    ensures { result.0.now ++ result.1.now ≡ drop count (front.now ++ rest.now) }
{
    let more = count.saturating_sub(front.len());
    (behind(front, count), behind(rest, more))
}

impl Piece {
    /// How many octets there are.
    fn len(&self) -> usize
        ensures { result ≡ length (octets_of self.now) }
    {
        match self {
            Piece::Joined(octets) => octets.len(),
            Piece::Shared(text) => text.len(),
        }
    }

    /// All but so many of them, in two parts.
    fn parts_behind(&self, count: usize) -> (&[u8], &[u8])
        ensures { result.0.now ++ result.1.now ≡ drop count (octets_of self.now) }
    {
        match self {
            Piece::Joined(octets) => (behind(octets.as_slice(), count), &[]),
            Piece::Shared(text) => {
                let (front, rest) = text.parts();
                both_behind(front.as_slice(), rest.as_slice(), count)
            }
        }
    }
}

/// All but so many octets of the first piece, in two parts. Where there is none, that is the tail.
pub(crate) fn first_parts<'a>(
    pieces: &'a VecDeque<Piece>,
    tail: &'a [u8],
    written: usize,
) -> (&'a [u8], &'a [u8])
    ensures { result.0.now ++ result.1.now ≡ drop written (first_of pieces.now.items tail.now) }
{
    match pieces.front() {
        Some(piece) => piece.parts_behind(written),
        None => (behind(tail, written), &[]),
    }
}

/// How long the first piece is.
fn first_len(pieces: &VecDeque<Piece>, tail: &[u8]) -> usize
    ensures { result ≡ length (first_of pieces.now.items tail.now) }
{
    match pieces.front() {
        Some(piece) => piece.len(),
        None => tail.len(),
    }
}

/// Drops the first piece.
fn drop_first(pieces: &mut VecDeque<Piece>, tail: &mut Vec<u8>)
    ensures { all_of pieces.old.items tail.old.items ≡ first_of pieces.old.items tail.old.items ++ all_of pieces.new.items tail.new.items }
{
    match pieces.pop_front() {
        Some(piece) => drop(piece),
        None => tail.clear(),
    }
}

/// So many octets more of the first piece were written. It is dropped once all of them were. Returns how many
/// of the first piece were written.
pub(crate) fn advance(
    pieces: &mut VecDeque<Piece>,
    tail: &mut Vec<u8>,
    written: usize,
    count: usize,
) -> usize
    requires { written + count ≤ length (first_of pieces.old.items tail.old.items) }
    ensures all { drop result (all_of pieces.new.items tail.new.items) ≡ drop (written + count) (all_of pieces.old.items tail.old.items) }
    ensures begun { result ≤ length (first_of pieces.new.items tail.new.items) }
{
    let left = first_len(pieces, tail.as_slice()) - written;
    if count < left {
        return written + count;
    }
    drop_first(pieces, tail);
    0
}

/// Makes the tail a piece of its own, and begins another.
fn close_tail(
    alloc: Global,
    pieces: &mut VecDeque<Piece>,
    tail: &mut Vec<u8>,
) -> Result<(), AllocError>
    ensures grows { Grows pieces.old.items tail.old.items pieces.new.items tail.new.items [] }
    ensures none { OnOk result (tail.new.items ≡ []) }
{
    if tail.is_empty() {
        return Ok(());
    }
    pieces.reserve(1)?;
    let joined = mem::replace(tail, Vec::new(alloc));
    // It has its place, so that no memory is wanted.
    let _ = pieces.push_back(Piece::Joined(joined));
    Ok(())
}

/// Puts a text behind all that waits: a short one into the tail, a longer one as a piece of its own.
pub(crate) fn put_behind(
    alloc: Global,
    pieces: &mut VecDeque<Piece>,
    tail: &mut Vec<u8>,
    text: &MessageText,
) -> Result<(), AllocError>
    ensures { GrowsIfOk pieces.old.items tail.old.items pieces.new.items tail.new.items text.now result }
{
    let size = text.len();
    if size <= LONGEST_JOINED && tail.len() <= LONGEST_BUFFER - size {
        return text.append_to(tail);
    }
    close_tail(alloc, pieces, tail)?;
    if size <= LONGEST_JOINED {
        return text.append_to(tail);
    }
    pieces.push_back(Piece::Shared(text.share()?))?;
    Ok(())
}
