//! What a program of cases answers.
ghost use Rattle.std.specs.Prelude.{◌≡◌};
ghost use Rattle.hc_cases.specs.declared.asking.Unanswered.TheVariants.{Memory};

use std::alloc::{AllocError, AllocFailed, Global};
use std::io;

/// Why a case has no answer.
#[derive(Clone, Copy, PartialEq, Eq)]
pub enum Unanswered {
    /// Memory was refused.
    Memory,
    /// A file of the case, or the list, can't be read.
    Unreadable,
    /// What stands in place of a method is no token.
    NoMethod,
    /// What stands in place of a status doesn't have three digits.
    NoStatus,
    /// The case asks nothing that the program knows, or of the wrong things.
    Unknown,
}

/// A case.
#[derive(Clone, Copy)]
pub struct Case<'a> {
    /// What an answer takes its memory of.
    pub alloc: Global,
    /// What is asked: its first part.
    pub question: &'a str,
    /// What it is asked of: the octets of each other part.
    pub about: &'a [Vec<u8>],
}

/// A program's answers.
pub trait Ask {
    /// Writes the answer to the case behind what `out` has. It has no line feed.
    ///
    /// After an error some of it may be written.
    fn answer(&self, case: &Case<'_>, out: &mut String) -> Result<(), Unanswered>;
}

impl From<AllocError> for Unanswered {
    ghost from_gives = { λ _ t. t ≡ Memory };

    fn from(_error: AllocError) -> Unanswered {
        Unanswered::Memory
    }
}

impl<T: Drop> From<AllocFailed<T>> for Unanswered {
    ghost from_gives = { λ _ t. t ≡ Memory };

    fn from(_error: AllocFailed<T>) -> Unanswered {
        Unanswered::Memory
    }
}

impl From<io::Error> for Unanswered {
    fn from(error: io::Error) -> Unanswered {
        match error.kind() {
            io::ErrorKind::OutOfMemory => Unanswered::Memory,
            _ => Unanswered::Unreadable,
        }
    }
}
