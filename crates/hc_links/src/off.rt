//! A link that is off.

ghost use Rattle.std.specs.Prelude.{◌≡◌, []};

use crate::link::{Link, LinkFailure};

/// A link that takes all that is written to it, and keeps nothing. Nothing can be read from it, and it never fails.
#[derive(Clone, Copy)]
pub struct Off;

impl Link for Off {
    ghost has_given = { λ _ given. given ≡ [] };

    // What was written to it is kept nowhere.
    ghost has_got = { λ _ _. Unit {0} };

    ghost was_read = { λ _ _. Unit {0} };

    ghost has_kept = { λ _ _. Unit {0} };

    ghost count = { λ _. 0 };

    fn read(&mut self, _buffer: &mut [u8]) -> Result<usize, LinkFailure> {
        Ok(0)
    }

    fn write(&mut self, octets: &[u8]) -> Result<usize, LinkFailure> {
        Ok(octets.len())
    }

    fn end(&mut self) {}

    fn failures(&self) -> u64 {
        0
    }
}
