//! Why a command line that has no fault of its form is refused all the same.

ghost use Rattle.std.specs.Prelude.{◌≡◌, IfErr, IfOk, Some};
ghost use Rattle.clap.specs.Words.{kind_of};
ghost use Rattle.hc_options.specs.declared.refusal.Refusal.TheVariants.{Memory};

use crate::rows::Row;
use clap::error::ErrorKind;
use clap::{Command, Error};
use std::alloc::{AllocError, Global};

/// Why nothing is asked by the words.
#[derive(Clone, Copy)]
pub enum Refusal {
    /// Memory was refused.
    Memory,
    /// A value that has to be there isn't.
    Missing,
    /// The value of this row is none that it takes.
    Value(&'static Row),
}

impl Refusal {
    ghost use Rattle.hc_options.specs.Refusals.{kind_by, refused_kind};

    /// The error that says it, with the usage of the command.
    pub fn error(
        self,
        alloc: Global,
        command: Result<Command<'_>, AllocError>,
    ) -> Result<Error, AllocError>
        ensures { IfOk result (λ error. refused_kind self ≡ Some (kind_of error)) }
    {
        usage_error(command, self.kind(), self.message(alloc))
    }

    // The kind of that error.
    fn kind(self) -> ErrorKind
        ensures { result ≡ kind_by self }
    {
        match self {
            Refusal::Memory => ErrorKind::OutOfMemory,
            Refusal::Missing => ErrorKind::MissingRequiredArgument,
            Refusal::Value(_) => ErrorKind::ValueValidation,
        }
    }

    // What it says; none where memory was refused.
    fn message(self, alloc: Global) -> Result<String, AllocError>
        ensures { IfOk result (λ _. refused_kind self ≡ Some (kind_by self)) }
    {
        match self {
            Refusal::Memory => Err(AllocError),
            Refusal::Missing => String::from_str(alloc, "a value is missing"),
            Refusal::Value(row) => row.complaint(alloc),
        }
    }
}

/// The error of this kind and with this message, with the usage of the command.
pub fn usage_error(
    command: Result<Command<'_>, AllocError>,
    kind: ErrorKind,
    message: Result<String, AllocError>,
) -> Result<Error, AllocError>
    ensures kind { IfOk result (λ error. kind_of error ≡ kind) }
    // There is one only where there is a message.
    ensures message { IfOk result (λ _. IfErr message (λ _. ⊥)) }
{
    let mut command = command?;
    error_of(&mut command, kind, message)
}

fn error_of(
    command: &mut Command<'_>,
    kind: ErrorKind,
    message: Result<String, AllocError>,
) -> Result<Error, AllocError>
    ensures kind { IfOk result (λ error. kind_of error ≡ kind) }
    ensures message { IfOk result (λ _. IfErr message (λ _. ⊥)) }
{
    match message {
        Ok(text) => command.error(kind, text.as_str()),
        Err(error) => Err(error),
    }
}

impl From<AllocError> for Refusal {
    ghost from_gives = { λ _ refusal. refusal ≡ Memory };

    fn from(_error: AllocError) -> Self {
        Refusal::Memory
    }
}
