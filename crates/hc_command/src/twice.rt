//! Inputs that are read twice.

ghost use Rattle.std.specs.Prelude.{◌≡◌, ◌⊎◌};

use hc_auditing::{Trouble, opened, printed};
use std::io::Write;
use std::rt::Files;
use std::{fs, io};

/// Two readers of one input, which is read twice.
#[derive(Drop)]
pub struct Twice<R, S> {
    /// It is read from its front.
    pub first: R,
    /// And again.
    pub again: S,
}

/// Why a file isn't read twice.
#[derive(Clone, Copy)]
pub(crate) enum NotTwice {
    /// Another reading of it wouldn't begin from its front.
    Stream,
    /// A call of the system failed for this reason.
    Device(io::Error),
}

impl From<io::Error> for NotTwice {
    fn from(error: io::Error) -> NotTwice {
        NotTwice::Device(error)
    }
}

impl NotTwice {
    /// Says why the file of that name isn't read twice, and returns the exit status.
    pub(crate) fn told<E: Write>(self, name: &str, faults: &mut E) -> u8
        ensures { (result ≡ 64) ⊎ (result ≡ 3) }
    {
        match self {
            NotTwice::Stream => not_twice(faults),
            NotTwice::Device(error) => Trouble::Device(error).told(name, faults),
        }
    }
}

// Says that it can't be, and returns the exit status.
fn not_twice<E: Write>(faults: &mut E) -> u8
    ensures { result ≡ 64 }
{
    let _ = printed(
        "error: it is read twice, so it can't be a pipe or a device\n",
        faults,
    );
    64
}

/// Opens the file of that name twice; standard input, which is `-`, isn't.
pub(crate) fn opened_twice<R: Files>(
    rt: &R,
    name: &str,
) -> Result<Twice<R::File, R::File>, NotTwice> {
    if name == "-" || !reads_twice(rt, name)? {
        return Err(NotTwice::Stream);
    }
    let first = opened(rt, name)?;
    let again = opened(rt, name)?;
    Ok(Twice { first, again })
}

// Whether each reading of it begins from its front, as of a regular file, or fails, as of a directory.
fn reads_twice<R: Files>(rt: &R, name: &str) -> io::Result<bool> {
    let found = fs::metadata(rt, name)?;
    Ok(found.is_file() || found.is_dir())
}
