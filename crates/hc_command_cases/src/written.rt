//! What the program writes, and the status by which it ends.

use hc_cases::{Unanswered, show_short};
use std::alloc::{AllocError, Global};
use std::fmt::Write;

/// The status that stands for programs that differ.
const DIFFERENT: u8 = 255;

/// What the program wrote, and its exit status.
pub(crate) struct Written {
    pub(crate) output: Vec<u8>,
    pub(crate) faults: Vec<u8>,
    pub(crate) status: u8,
}

impl Drop for Written {
    fn drop(self) {
        let Written {
            output,
            faults,
            status: _,
        } = self;
        drop(output);
        drop(faults);
    }
}

impl Written {
    /// Nothing is written yet.
    pub(crate) fn nothing(alloc: Global) -> Self {
        Written {
            output: Vec::new(alloc),
            faults: Vec::new(alloc),
            status: 0,
        }
    }

    /// Takes a status that no program has, unless that is the same.
    pub(crate) fn compare(&mut self, other: &Written) {
        let same = self.status == other.status
            && self.output.as_slice() == other.output.as_slice()
            && self.faults.as_slice() == other.faults.as_slice();
        if !same {
            self.status = DIFFERENT;
        }
    }

    /// Writes the status, and what stands on the two writers.
    pub(crate) fn say(&self, out: &mut String) -> Result<(), AllocError> {
        let status = self.status;
        write!(out, "{status}")?;
        say_text(", on output ", self.output.as_slice(), out)?;
        say_text(", on errors ", self.faults.as_slice(), out)
    }

    /// Writes the status, and on which of the two writers that text stands. What stands there is written where it is
    /// another text.
    pub(crate) fn say_beside(&self, wanted: &[u8], out: &mut String) -> Result<(), AllocError> {
        let status = self.status;
        write!(out, "{status}")?;
        say_same(", on output ", self.output.as_slice(), wanted, out)?;
        say_same(", on errors ", self.faults.as_slice(), wanted, out)
    }

    /// Writes the status, and whether anything stands on either of the two writers.
    pub(crate) fn say_whether(&self, out: &mut String) -> Result<(), AllocError> {
        let status = self.status;
        write!(out, "{status}")?;
        say_unless(self.output.is_empty(), ", something on output", out)?;
        say_unless(self.faults.is_empty(), ", something on errors", out)
    }

    /// Writes the line that stands on the two writers, and the status.
    pub(crate) fn say_line(&self, out: &mut String) -> Result<(), Unanswered> {
        out.push_str(line_in(self.output.as_slice())?)?;
        self.say_fault(out)
    }

    /// Writes the line that stands on the errors, and the status.
    pub(crate) fn say_fault(&self, out: &mut String) -> Result<(), Unanswered> {
        let line = line_in(self.faults.as_slice())?;
        let status = self.status;
        Ok(write!(out, "{line}, {status}")?)
    }
}

/// The text of the octets, without a line feed at its end.
pub(crate) fn line_in(octets: &[u8]) -> Result<&str, Unanswered> {
    match str::from_utf8(octets) {
        Ok(text) => Ok(text.strip_suffix('\n').unwrap_or(text)),
        Err(_) => Err(Unanswered::Unknown),
    }
}

fn say_text(place: &str, text: &[u8], out: &mut String) -> Result<(), AllocError> {
    if text.is_empty() {
        return Ok(());
    }
    out.push_str(place)?;
    show_short(text, out)
}

fn say_same(place: &str, text: &[u8], wanted: &[u8], out: &mut String) -> Result<(), AllocError> {
    if text == wanted {
        out.push_str(place)?;
        return out.push_str("this text");
    }
    say_text(place, text, out)
}

fn say_unless(is_empty: bool, text: &str, out: &mut String) -> Result<(), AllocError> {
    if is_empty {
        return Ok(());
    }
    out.push_str(text)
}
