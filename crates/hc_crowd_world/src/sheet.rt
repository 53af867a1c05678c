//! A recorder in memory.

ghost use Rattle.std.specs.Prelude.{◌≡◌};

use hc_links::{Link, LinkFailure};
use hc_transcript::Format;
use std::alloc::{AllocError, Global};

/// What a recorder writes to: it fails behind so many writes.
pub struct Sheet {
    got: Vec<u8>,
    writes: u64,
    failures: u64,
}

impl Drop for Sheet {
    fn drop(self) {
        let Sheet {
            got,
            writes: _,
            failures: _,
        } = self;
        drop(got);
    }
}

impl Sheet {
    /// One that has the opening of a transcript.
    pub fn new(alloc: Global, writes: u64) -> Result<Self, AllocError> {
        Ok(Sheet {
            got: Vec::from_slice(alloc, Format::Second.opening())?,
            writes,
            failures: 0,
        })
    }

    /// What was written to it.
    pub fn into_got(self) -> Vec<u8> {
        let Sheet {
            got,
            writes: _,
            failures: _,
        } = self;
        got
    }

    /// Takes the octets, unless it fails.
    fn put(&mut self, octets: &[u8]) -> Result<(), AllocError>
        ensures { self.new.failures ≡ self.old.failures }
    {
        if self.writes == 0 {
            return Err(AllocError);
        }
        self.writes -= 1;
        self.got.extend_from_slice(octets)
    }
}

impl Link for Sheet {
    // What it has got is compared in cases.
    ghost has_given = { λ _ _. Unit {0} };

    ghost has_got = { λ _ _. Unit {0} };

    ghost was_read = { λ _ _. Unit {0} };

    ghost has_kept = { λ _ _. Unit {0} };

    ghost count = { λ sheet. sheet.failures };

    fn read(&mut self, _buffer: &mut [u8]) -> Result<usize, LinkFailure> {
        Ok(0)
    }

    fn write(&mut self, octets: &[u8]) -> Result<usize, LinkFailure> {
        match self.put(octets) {
            Ok(()) => Ok(octets.len()),
            Err(AllocError) => {
                self.failures += 1;
                Err(LinkFailure)
            }
        }
    }

    fn end(&mut self) {}

    fn failures(&self) -> u64 {
        self.failures
    }
}
