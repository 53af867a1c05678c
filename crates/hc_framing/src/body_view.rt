//! Bodies that are lent in pieces.

ghost use Rattle.std.specs.Prelude.{◌≡◌, ◌==◌, ◌≤◌, ◌++◌, length, IfOk, OnOk, Decides};
ghost use Rattle.std.specs.Iterator.{YieldsFirstRef, item_count};
ghost use Rattle.std.specs.List.{concat, flat_map};
ghost use Rattle.hc_framing.specs.Pieces.{AreInOrder, in_common, piece_at};

use hc_fields::{Octets, SharedOctets};
use std::alloc::{AllocError, Global};
use std::marker::Model;

/// Where a piece of a body stands in octets.
#[derive(Clone, Copy)]
pub struct Piece {
    /// Where it begins.
    pub start: u32,
    /// How many octets it has.
    pub len: u32,
}

/// A body that is lent, which contracts see as its octets: those of a slice, and then those of its pieces of
/// others.
#[derive(Drop)]
pub struct BodyView<'a> {
    one: &'a [u8],
    octets: &'a [u8],
    pieces: &'a [Piece],
}

impl<'a> Model for BodyView<'a> {
    ghost use Rattle.std.specs.Prelude.{List, ℕ, ◌++◌};
    ghost use Rattle.std.specs.List.{flat_map};
    ghost use Rattle.hc_framing.specs.Pieces.{AreInOrder, piece_at};

    ghost Value = { List ℕ };

    ghost view = { λ b. b.one.now ++ flat_map (piece_at b.octets.now) b.pieces.now };

    ghost invariant = { λ b. AreInOrder 0 b.pieces.now };
}

/// An iterator over the slices of a body that is lent, which contracts see as the list of those that are left.
#[derive(Drop)]
pub struct BodySlices<'a> {
    // The slice before the pieces, until it is given.
    one: Option<&'a [u8]>,
    octets: &'a [u8],
    pieces: &'a [Piece],
}

impl<'a> Model for BodySlices<'a> {
    ghost use Rattle.std.specs.Prelude.{List, ℕ};
    ghost use Rattle.hc_framing.specs.Pieces.{slices_at};

    ghost Value = { List (List ℕ) };

    ghost view = { λ s. slices_at s.one s.octets.now s.pieces.now };
}

/// The octets of a piece.
fn octets_at(octets: &[u8], at: Piece) -> &[u8]
    ensures { result.now ≡ piece_at octets.now at }
{
    hc_fields::piece(octets, at.start as usize, at.len as usize)
}

/// How many octets the pieces have together. As they share none, these are no more than there are.
fn pieces_len(octets: &[u8], pieces: &[Piece]) -> usize
    requires { AreInOrder 0 pieces.now }
    ensures is { result ≡ length (flat_map (piece_at octets.now) pieces.now) }
    ensures few { result ≤ length octets.now }
{
    let mut total = 0;
    for at in pieces {
        total += octets_at(octets, *at).len();
    }
    total
}

/// Whether the octets are those of the pieces, one behind another.
fn equal_pieces(octets: &[u8], pieces: &[Piece], other: &[u8]) -> bool
    ensures { Decides result (flat_map (piece_at octets.now) pieces.now ≡ other.now) }
{
    let mut rest = other;
    for at in pieces {
        let Some(behind) = rest.strip_prefix(octets_at(octets, *at)) else {
            return false;
        };
        rest = behind;
    }
    rest.is_empty()
}

/// How many octets both begin with.
fn octets_in_common(one: &[u8], other: &[u8]) -> usize
    ensures { result ≡ in_common one.now other.now }
{
    one.iter()
        .zip(other.iter())
        .take_while(|pair| pair.0 == pair.1)
        .count()
}

/// How many octets the pieces, one behind another, and the octets both begin with.
fn pieces_in_common(octets: &[u8], pieces: &[Piece], other: &[u8]) -> usize
    ensures { result ≡ in_common (flat_map (piece_at octets.now) pieces.now) other.now }
{
    let mut rest = other;
    for at in pieces {
        let piece = octets_at(octets, *at);
        let Some(behind) = rest.strip_prefix(piece) else {
            return other.len() - rest.len() + octets_in_common(piece, rest);
        };
        rest = behind;
    }
    other.len() - rest.len()
}

/// Appends the octets of the pieces.
fn push_pieces(copy: &mut Octets, octets: &[u8], pieces: &[Piece]) -> Result<(), AllocError>
    ensures { OnOk result (copy.new ≡ copy.old ++ flat_map (piece_at octets.now) pieces.now) }
{
    for at in pieces {
        copy.extend_from_slice(octets_at(octets, *at))?;
    }
    Ok(())
}

impl<'a> Iterator for BodySlices<'a> {
    type Item = &'a [u8];

    ghost next_gives = { YieldsFirstRef (λ slices. slices) };

    ghost remaining = { item_count (λ slices. slices) };

    fn next(&mut self) -> Option<&'a [u8]> {
        if let Some(one) = self.one.take() {
            return Some(one);
        }
        let (first, others) = self.pieces.split_first()?;
        self.pieces = others;
        Some(octets_at(self.octets, *first))
    }
}

impl<'a> BodyView<'a> {
    /// A body that lies in one slice.
    pub fn of(one: &'a [u8]) -> Self
        ensures { result ≡ one.now }
    {
        BodyView {
            one,
            octets: &[],
            pieces: &[],
        }
    }

    /// A body that lies in pieces of octets, which are in order and share none of them.
    pub fn at(octets: &'a [u8], pieces: &'a [Piece]) -> Self
        requires { AreInOrder 0 pieces.now }
        ensures { result ≡ flat_map (piece_at octets.now) pieces.now }
    {
        BodyView {
            one: &[],
            octets,
            pieces,
        }
    }

    /// The same body, lent once more.
    pub fn again(&self) -> BodyView<'a>
        ensures { result ≡ self.now }
    {
        BodyView {
            one: self.one,
            octets: self.octets,
            pieces: self.pieces,
        }
    }

    /// How many octets the body has.
    pub fn len(&self) -> usize
        ensures { result ≡ length self.now }
    {
        self.one.len() + pieces_len(self.octets, self.pieces)
    }

    /// Whether the body has no octets.
    pub fn is_empty(&self) -> bool
        ensures { result ≡ (length self.now == 0) }
    {
        self.len() == 0
    }

    /// The slices that the body lies in, one behind another: one more than it has pieces.
    pub fn slices(&self) -> BodySlices<'a>
        ensures { concat result ≡ self.now }
    {
        BodySlices {
            one: Some(self.one),
            octets: self.octets,
            pieces: self.pieces,
        }
    }

    /// Whether the body has these octets.
    pub fn equals(&self, other: &[u8]) -> bool
        ensures { Decides result (self.now ≡ other.now) }
    {
        match other.strip_prefix(self.one) {
            Some(behind) => equal_pieces(self.octets, self.pieces, behind),
            None => false,
        }
    }

    /// How many octets the body and these both begin with.
    pub fn agreed_len(&self, other: &[u8]) -> usize
        ensures { result ≡ in_common self.now other.now }
    {
        match other.strip_prefix(self.one) {
            Some(behind) => self.one.len() + pieces_in_common(self.octets, self.pieces, behind),
            None => octets_in_common(self.one, other),
        }
    }

    /// The octets of the body in memory of their own, which may have more owners.
    pub fn copy_shared(&self, alloc: Global) -> Result<SharedOctets, AllocError>
        ensures { IfOk result (λ o. o ≡ self.now) }
    {
        SharedOctets::from_vec(alloc, self.copy(alloc)?.into_vec())
    }

    /// The octets of the body in memory of their own.
    pub fn copy(&self, alloc: Global) -> Result<Octets, AllocError>
        ensures { IfOk result (λ o. o ≡ self.now) }
    {
        let mut copy = Octets::from_slice(alloc, self.one)?;
        push_pieces(&mut copy, self.octets, self.pieces)?;
        Ok(copy)
    }
}
