//! Where the octets of a body stand among those of its framing.

ghost use Rattle.std.specs.Prelude.{◌≡◌, ℕ, ◌+◌, ◌≤◌, ◌++◌, List, [], drop, true, OnOk, IfErr};
ghost use Rattle.std.specs.List.{flat_map};
ghost use Rattle.hc_fields.specs.Views.{piece};
ghost use Rattle.hc_framing.specs.Bodies.{has_octets};
ghost use Rattle.hc_framing.specs.Pieces.{AreInOrder, end_of, piece_at};
ghost use Rattle.hc_framing.specs.WholeParts.{noted, GivesWholeBody};

use crate::body::has_octets;
use crate::body_view::Piece;
use crate::fault::FrameFault;
use crate::framing::Framing;
use crate::framing_reader::FramingReader;
use std::alloc::Global;

/// Notes one piece more, behind the others, unless it has no octets. One that 32 bits can't tell is the
/// fault `Memory`.
fn note_piece(pieces: &mut Vec<Piece>, start: usize, len: usize) -> Result<(), FrameFault>
    requires ordered { AreInOrder 0 pieces.old.items }
    requires behind { end_of 0 pieces.old.items ≤ start }
    ensures ok { OnOk result ((octets : List ℕ) → flat_map (piece_at octets) pieces.new.items
        ≡ flat_map (piece_at octets) pieces.old.items ++ piece octets start len) }
    ensures err { IfErr result (λ fault. fault ≡ FrameFault.Memory) }
    ensures ordered { AreInOrder 0 pieces.new.items }
    ensures within { end_of 0 pieces.new.items ≤ start + len }
{
    if len == 0 {
        return Ok(());
    }
    let (Ok(start), Ok(len)) = (u32::try_from(start), u32::try_from(len)) else {
        return Err(FrameFault::Memory);
    };
    match pieces.push(Piece { start, len }) {
        Ok(()) => Ok(()),
        Err(_) => Err(FrameFault::Memory),
    }
}

/// Notes the pieces of a body that has octets of its own, in their order.
fn note_parts(
    alloc: Global,
    pieces: &mut Vec<Piece>,
    framing: Framing,
    octets: &[u8],
    from: usize,
) -> Result<(), FrameFault>
    requires some { has_octets framing ≡ true }
    requires none { pieces.old.items ≡ [] }
    ensures gives { GivesWholeBody (noted result (flat_map (piece_at octets.now) pieces.new.items)) framing
        (drop from octets.now) }
    ensures ordered { AreInOrder 0 pieces.new.items }
{
    let mut reader = FramingReader::new(alloc, framing);
    let mut at = from;
    while at < octets.len() {
        let (_, rest) = octets.split_at(at);
        let part = reader.step(rest)?;
        note_piece(pieces, at, part.body)?;
        at += part.used;
        if part.ends {
            return if at < octets.len() {
                Err(FrameFault::BadLength)
            } else {
                Ok(())
            };
        }
    }
    if reader.ends_with_close() {
        Ok(())
    } else {
        Err(FrameFault::Truncated)
    }
}

/// Notes in place of the pieces where the octets of a body stand, if the octets from a place on are all of a
/// body that is framed so. The pieces are in order, after a fault too. A place that 32 bits can't tell is the
/// fault `Memory`.
pub(crate) fn note_body(
    alloc: Global,
    pieces: &mut Vec<Piece>,
    framing: Framing,
    octets: &[u8],
    from: usize,
) -> Result<(), FrameFault>
    ensures gives { GivesWholeBody (noted result (flat_map (piece_at octets.now) pieces.new.items)) framing
        (drop from octets.now) }
    ensures ordered { AreInOrder 0 pieces.new.items }
{
    pieces.clear();
    if has_octets(framing) {
        return note_parts(alloc, pieces, framing, octets, from);
    }
    if from < octets.len() {
        return Err(FrameFault::BadLength);
    }
    Ok(())
}
