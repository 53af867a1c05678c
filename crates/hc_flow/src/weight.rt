//! How much memory is held for what waits.

ghost use Rattle.std.specs.Prelude.{◌≤◌, ◌+◌, ◌-◌, ◌^◌, length, min};
ghost use Rattle.hc_flow.specs.Pieces.{all_of};
ghost use Rattle.hc_flow.specs.Weights.{IsWeight, IsWeightOf, joined_in, size_of};

use crate::pieces::Piece;
use hc_fields::SharedOctets;
use hc_framing::MessageText;
use std::collections::VecDeque;

/// The share of one owner in so many octets, rounded up.
fn share(len: usize, owners: usize) -> usize
    ensures { IsWeight result len }
{
    len.div_ceil(owners.max(1))
}

/// The share of one owner in octets that may have more.
fn share_of(octets: &SharedOctets) -> usize
    ensures { IsWeight result (length octets.now) }
{
    share(octets.len(), octets.owners())
}

/// How many octets of memory one owner of a text holds for it: of a part that has more owners a share, rounded up.
pub fn weight_of(text: &MessageText) -> usize
    ensures { IsWeight result (length text.now) }
{
    let (front, rest) = text.parts();
    share_of(front).saturating_add(share_of(rest))
}

/// How many octets of memory are held for a piece.
fn weight_of_piece(piece: &Piece) -> usize
    ensures { IsWeightOf result piece.now }
{
    match piece {
        Piece::Joined(octets) => octets.len(),
        Piece::Shared(text) => weight_of(text),
    }
}

/// How many octets of memory are held for so many pieces.
fn weight_of_pieces(pieces: &[Piece]) -> usize
    ensures all { IsWeight result (size_of pieces.now) }
    ensures own { min (joined_in pieces.now) (2 ^ 64 - 1) ≤ result }
{
    let mut weight = 0_usize;
    'pieces: for piece in pieces {
        weight = weight.saturating_add(weight_of_piece(piece));
    }
    weight
}

/// How many octets of memory are held for all pieces, and for the tail behind them.
pub(crate) fn weight_of_all(pieces: &VecDeque<Piece>, tail: &[u8]) -> usize
    ensures all { IsWeight result (length (all_of pieces.now.items tail.now)) }
    // What has no other owners counts whole.
    ensures own { min (joined_in pieces.now.items + length tail.now) (2 ^ 64 - 1) ≤ result }
{
    let (first, second) = pieces.as_slices();
    weight_of_pieces(first)
        .saturating_add(weight_of_pieces(second))
        .saturating_add(tail.len())
}
