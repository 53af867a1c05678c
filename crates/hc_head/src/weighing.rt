//! Whether lines fit into a room.

ghost use Rattle.std.specs.Prelude.{◌-◌, ◌≤◌};
ghost use Rattle.std.specs.Option.{SomeIff};
ghost use Rattle.hc_head.specs.Weights.{fields_weight, line_weight};

use hc_fields::Field;

/// What a field line has beside the name and the value.
const FIELD_FRAME: &[u8] = b": \r\n";

/// What of the room lies behind the line.
fn room_behind_line(room: usize, line: &Field) -> Option<usize>
    ensures { SomeIff result (line_weight line.now ≤ room) (room - line_weight line.now) }
{
    let room = room.checked_sub(line.name.len())?;
    let room = room.checked_sub(line.value.len())?;
    room.checked_sub(FIELD_FRAME.len())
}

/// What of a room, in octets, lies behind the lines as they are written; none where they don't fit. It
/// takes no memory.
pub fn room_behind_lines(mut room: usize, lines: &[Field]) -> Option<usize>
    ensures { SomeIff result (fields_weight lines.now ≤ room) (room - fields_weight lines.now) }
{
    for line in lines {
        room = room_behind_line(room, line)?;
    }
    Some(room)
}
