//! How much stored responses weigh: their bodies, and the names and values of their heads. What is
//! frame in a message weighs nothing.

ghost use Rattle.std.specs.Prelude.{◌≡◌, ◌+◌, ◌-◌, ◌≤◌, ◌&&◌, nat_le, length};
ghost use Rattle.hc_update.specs.Sizes.{fits};
ghost use Rattle.std.specs.Option.{SomeIff};
ghost use Rattle.hc_store.specs.Entries.{lines_weight, variants_weight, weight};

use hc_fields::Field;
use hc_update::{Stored, fits};

/// What of the room lies behind a line.
fn room_behind_line(room: usize, line: &Field) -> Option<usize>
    ensures { SomeIff result (length line.now.name + length line.now.value ≤ room) (room - (length line.now.name + length line.now.value)) }
{
    let room = room.checked_sub(line.name.len())?;
    room.checked_sub(line.value.len())
}

/// What of the room lies behind all lines.
fn room_behind_lines(mut room: usize, lines: &[Field]) -> Option<usize>
    ensures { SomeIff result (lines_weight lines.now ≤ room) (room - lines_weight lines.now) }
{
    for line in lines {
        room = room_behind_line(room, line)?;
    }
    Some(room)
}

/// What of the room lies behind a response.
pub(crate) fn room_behind(room: usize, stored: &Stored) -> Option<usize>
    ensures { SomeIff result (weight stored.now ≤ room) (room - weight stored.now) }
{
    let room = room.checked_sub(stored.body.len())?;
    let room = room_behind_lines(room, stored.fields.lines())?;
    room_behind_lines(room, stored.request.fields.lines())
}

/// What of the room lies behind several.
pub(crate) fn room_behind_all(mut room: usize, variants: &[Stored]) -> Option<usize>
    ensures { SomeIff result (variants_weight variants.now ≤ room) (room - variants_weight variants.now) }
{
    for variant in variants {
        room = room_behind(room, variant)?;
    }
    Some(room)
}

/// What is left of a weight without those that are part of it.
pub(crate) fn weight_without(total: usize, variants: &[Stored]) -> usize
    requires { variants_weight variants.now ≤ total }
    ensures { result ≡ total - variants_weight variants.now }
{
    room_behind_all(total, variants).unwrap_or(0)
}

/// What variants weigh that weigh no more than that together.
pub(crate) fn weight_within(bytes: usize, variants: &[Stored]) -> usize
    requires { variants_weight variants.now ≤ bytes }
    ensures { result ≡ variants_weight variants.now }
{
    bytes - weight_without(bytes, variants)
}

/// Whether a response may be put into a store of so many octets.
pub(crate) fn is_small_enough(stored: &Stored, bytes: usize) -> bool
    ensures { result ≡ (fits stored.now && nat_le (weight stored.now) bytes) }
{
    fits(stored) && room_behind(bytes, stored).is_some()
}
