//! Notices on standard error.

ghost use Rattle.std.specs.Prelude.{◌≡◌, true, false};
ghost use Rattle.std.specs.Io.KnownBytes.{Appends};
ghost use Rattle.hc_notices.specs.Notices.{BeginsBehind};

use crate::notice::Notice;
use std::alloc::Global;
use std::io;
use std::io::Write;

/// Says notices, line by line. Behind a line that couldn't be written whole nothing more is said.
#[derive(Drop)]
pub struct Voice<'a, E: Write> {
    alloc: Global,
    to: &'a mut E,
    /// Whether a line couldn't be written whole.
    silent: bool,
}

impl<'a, E: Write> Voice<'a, E> {
    ghost use Rattle.hc_notices.specs.Voices.{GoesOn};

    /// Nothing was said yet.
    pub fn new(alloc: Global, to: &'a mut E) -> Self
        ensures same_reference { result.to.ghost_name ≡ to.entry.ghost_name }
        ensures same { result.to.now ≡ to.old }
        ensures silent { result.silent ≡ false }
    {
        Voice {
            alloc,
            to,
            silent: false,
        }
    }

    /// Says a notice, unless a line couldn't be written whole before. One for which memory is refused is left out.
    pub fn say(&mut self, notice: Notice<'_>)
        ensures { GoesOn E.contents self.old self.new }
    {
        if self.silent {
            return;
        }
        let Ok(line) = notice.line(self.alloc) else {
            return;
        };
        self.silent = !put(self.to, line.as_bytes());
    }

    /// Says that the recording has ended for that reason, likewise.
    pub fn say_record_failed(&mut self, reason: io::Error)
        ensures { GoesOn E.contents self.old self.new }
    {
        let Ok(reason) = format!(in self.alloc; "{reason}") else {
            return;
        };
        self.say(Notice::RecordFailed(reason.as_str()));
    }

    /// Says a notice if it is due.
    pub fn say_if(&mut self, is_due: bool, notice: Notice<'_>)
        ensures { GoesOn E.contents self.old self.new }
    {
        if !is_due {
            return;
        }
        self.say(notice);
    }
}

/// Writes octets, as far as they are taken. Returns whether all were.
fn put<E: Write>(to: &mut E, octets: &[u8]) -> bool
    ensures all { result ≡ true → Appends (E.contents to.old) (E.contents to.new) octets.now }
    ensures some { BeginsBehind (E.contents to.old) (E.contents to.new) octets.now }
{
    let mut rest = octets;
    'pieces: while !rest.is_empty() {
        match to.write(rest) {
            Ok(0) => return false,
            Ok(count) => rest = &rest[count..],
            Err(_) => return false,
        }
    }
    true
}
