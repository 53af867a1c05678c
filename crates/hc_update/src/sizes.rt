//! How large what is kept of a response's head may be.

ghost use Rattle.std.specs.Prelude.{◌≡◌};
ghost use Rattle.hc_update.specs.Sizes.{fits};

use crate::stored::Stored;
use hc_head::room_behind_lines;

/// The most field lines of a stored response.
const MOST_FIELDS: usize = 100;

/// The most octets that they have as they are written.
const MOST_OCTETS: usize = 65_536;

/// Whether the fields of a stored response are few and short enough to be kept: a 304 may add fields
/// at each freshening, and without a bound they would outgrow what a message may have. It takes no memory.
pub fn fits(state: &Stored) -> bool
    ensures { result ≡ fits state.now }
{
    state.fields.len() <= MOST_FIELDS
        && room_behind_lines(MOST_OCTETS, state.fields.lines()).is_some()
}
