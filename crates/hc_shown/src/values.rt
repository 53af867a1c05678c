//! Values of fields, and targets: octets that are shown, and runs of those that are hidden.

ghost use Rattle.std.specs.Prelude.{◌≡◌, ◌++◌, List, [], ◌∷◌, MatchOption, OnOk, string_bytes, true};
ghost use Rattle.std.specs.Iterator.{YieldsFirst, item_count};
ghost use Rattle.hc_shown.specs.declared.values.Piece.{Piece};
ghost use Rattle.hc_shown.specs.Hidden.{begins_shown, hidden_run, pieces_behind, pieces_of};
ghost use Rattle.hc_shown.specs.Octets.{IsShown};
ghost use Rattle.hc_shown.specs.Pieces.{both_text, piece_room, piece_text};
ghost use Rattle.hc_shown.specs.Values.{target_text, value_text};

use crate::hidden::{Place, is_credential};
use crate::octets::{SHOWN, push_all, push_length, push_octet};
use hc_head::Target;
use std::alloc::AllocError;
use std::marker::Model;

/// A piece of a text.
#[derive(Clone, Copy)]
enum Piece {
    /// An octet that is shown.
    Octet(u8),
    /// So many octets that are hidden.
    Hidden(usize),
}

impl Piece {
    // As how many octets it counts.
    fn room(self) -> usize
        ensures { result ≡ piece_room self }
    {
        match self {
            Piece::Octet(_) => 1,
            Piece::Hidden(_) => 8,
        }
    }

    fn push(self, out: &mut String) -> Result<(), AllocError>
        ensures { OnOk result (string_bytes out.new ≡ string_bytes out.old ++ piece_text self) }
    {
        match self {
            Piece::Octet(octet) => push_octet(octet, out),
            Piece::Hidden(count) => push_length(count, out),
        }
    }
}

// How many of the octets at the front are hidden, and where the others stand.
fn pass_hidden(mut place: Place, octets: &[u8]) -> (usize, Place, &[u8])
    ensures pieces { pieces_behind 0 place octets.now ≡ hidden_run result.0 ++ pieces_behind 0 result.1 result.2.now }
    ensures shown { begins_shown result.1 result.2.now ≡ true }
{
    let mut rest = octets;
    while let Some((octet, behind)) = rest.split_first() {
        if !place.hides(*octet) {
            return (octets.len() - rest.len(), place, rest);
        }
        place = place.behind(*octet, behind);
        rest = behind;
    }
    (octets.len(), place, rest)
}

// The first piece of octets, and where those after it stand.
fn first_piece(place: Place, octets: &[u8]) -> Option<(Piece, Place, &[u8])>
    ensures { MatchOption result (pieces_behind 0 place octets.now ≡ [])
        (λ p. pieces_behind 0 place octets.now ≡ p.0 ∷ pieces_behind 0 p.1 p.2.now) }
{
    let (hidden, place, rest) = pass_hidden(place, octets);
    if hidden > 0 {
        return Some((Piece::Hidden(hidden), place, rest));
    }
    let (octet, behind) = rest.split_first()?;
    Some((Piece::Octet(*octet), place.behind(*octet, behind), behind))
}

/// An iterator over the pieces of octets, and of others after them, which contracts see as the list of those that are
/// left.
#[derive(Drop)]
struct Pieces<'a> {
    place: Place,
    rest: &'a [u8],
    then: &'a [u8],
}

impl<'a> Model for Pieces<'a> {
    ghost Value = { List Piece };

    ghost view = { λ p. pieces_behind 0 p.place p.rest.now ++ pieces_of p.then.now };
}

impl Iterator for Pieces<'_> {
    type Item = Piece;

    ghost next_gives = { YieldsFirst (λ pieces. pieces) };

    ghost remaining = { item_count (λ pieces. pieces) };

    fn next(&mut self) -> Option<Piece> {
        if let Some((piece, place, rest)) = first_piece(self.place, self.rest) {
            self.place = place;
            self.rest = rest;
            return Some(piece);
        }
        let (piece, place, rest) = first_piece(Place::front(), self.then)?;
        self.place = place;
        self.rest = rest;
        self.then = b"";
        Some(piece)
    }
}

// Puts two runs of octets at the end as one, as `push_octets` does, but of those that are hidden how many they are
// alone, as `(12 octets)`. These count as eight.
fn push_both(one: &[u8], other: &[u8], out: &mut String) -> Result<(), AllocError>
    ensures { OnOk result (string_bytes out.new ≡ string_bytes out.old ++ both_text one.now other.now) }
{
    let place = Place::front();
    let pieces = Pieces {
        place,
        rest: one,
        then: other,
    };
    let mut room = SHOWN;
    for piece in pieces {
        let Some(left) = room.checked_sub(piece.room()) else {
            return push_all(one.len().saturating_add(other.len()), out);
        };
        piece.push(out)?;
        room = left;
    }
    Ok(())
}

/// Puts the value of a field of that name at the end: its octets in double quotes, without userinfo of URIs and values
/// of parameters that are named like secrets, of which it is said how many octets they are, as `(12 octets)`; of a field
/// that bears credentials that alone. The name is one in any case.
pub fn push_value(name: &[u8], value: &[u8], out: &mut String) -> Result<(), AllocError>
    ensures text { OnOk result (string_bytes out.new ≡ string_bytes out.old ++ value_text name.now value.now) }
    // That is printable ASCII alone, and not much.
    ensures shown { OnOk result (IsShown (value_text name.now value.now)) }
{
    if is_credential(name) {
        return push_length(value.len(), out);
    }
    out.push('"')?;
    push_both(value, b"", out)?;
    out.push('"')
}

/// Puts a target at the end, as `example.test/path?query`: its host, with the port if there is one, and its path with
/// the query. It is cut as a whole, and userinfo and values of parameters are hidden as in values of fields.
pub fn push_target(target: &Target, out: &mut String) -> Result<(), AllocError>
    ensures text { OnOk result (string_bytes out.new ≡ string_bytes out.old ++ target_text target.now) }
    // That is printable ASCII alone, and not much.
    ensures shown { OnOk result (IsShown (target_text target.now)) }
{
    push_both(target.host.as_slice(), target.path.as_slice(), out)
}
