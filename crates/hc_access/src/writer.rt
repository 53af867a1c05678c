//! What an access log is written by.

ghost use Rattle.std.specs.Prelude.{◌≡◌, [], ◌^◌, ◌-◌, min};
ghost use Rattle.hc_access.specs.Writing.{Mends, PutsAllBut, PutsLines, WritesSome, feeds_in};

use crate::access_log::Target;
use crate::lines::Lines;
use std::alloc::Global;
use std::io::Write;

/// Writes the lines of an access log to that: they wait, and are written many at once. What can't be written is dropped,
/// and its lines are counted.
pub(crate) struct LogWriter<F: Target> {
    to: F,
    pub(crate) lines: Lines,
    /// Whether what was written last ends inside of a line.
    torn: bool,
    /// How many lines were dropped.
    pub(crate) lost: u64,
}

impl<F: Target + Drop> Drop for LogWriter<F> {
    fn drop(self) {
        let LogWriter {
            to,
            lines,
            torn: _,
            lost: _,
        } = self;
        drop(to);
        drop(lines);
    }
}

impl<F: Target> LogWriter<F> {
    /// Nothing is written yet.
    pub(crate) fn new(alloc: Global, to: F) -> Self
        ensures to { result.to ≡ to }
        ensures none { result.lines.octets.items ≡ [] }
    {
        LogWriter {
            to,
            lines: Lines::new(alloc),
            torn: false,
            lost: 0,
        }
    }

    /// How many lines were dropped, since they couldn't be written, or memory was refused for them.
    pub(crate) fn lost(&self) -> u64
        ensures { result ≡ self.now.lost }
    {
        self.lost
    }

    /// How many octets of lines wait.
    pub(crate) fn waiting(&self) -> usize {
        self.lines.octets.len()
    }

    /// Goes on in another file, if the name leads to one by now.
    pub(crate) fn follow(&mut self)
        ensures { (self.new.lines ≡ self.old.lines) × (self.new.lost ≡ self.old.lost) }
    {
        if self.to.follow() {
            self.torn = false;
        }
    }

    /// Writes the lines that wait. Where all isn't taken, the rest is dropped; and the line that was cut is ended before
    /// others are written.
    pub(crate) fn write(&mut self)
        ensures written { WritesSome (F.contents self.old.to) (F.contents self.new.to) self.old.lines.octets.items self.old.lost self.new.lost }
        ensures none { self.new.lines.octets.items ≡ [] }
    {
        self.mend();
        let unwritten = put_lines(&mut self.to, &self.lines, self.torn);
        self.lost = self.lost.saturating_add(unwritten.lost);
        self.torn |= unwritten.torn;
        self.lines.clear();
    }

    /// Ends a line that was cut, if one was.
    fn mend(&mut self)
        ensures mended { Mends (F.contents self.old.to) (F.contents self.new.to) }
        ensures rest { (self.new.lines ≡ self.old.lines) × (self.new.lost ≡ self.old.lost) }
    {
        if self.torn {
            self.torn = !put(&mut self.to, b"\n").is_empty();
        }
    }
}

/// What came of writing lines.
#[derive(Clone, Copy)]
struct Unwritten {
    /// How many weren't written whole.
    lost: u64,
    /// Whether one was cut.
    torn: bool,
}

/// Writes lines, as far as they are taken; none where that can't be.
fn put_lines<F: Write>(to: &mut F, lines: &Lines, cant: bool) -> Unwritten
    ensures { PutsLines (F.contents to.old) (F.contents to.new) lines.now.octets.items result.lost }
{
    let octets = lines.octets.as_slice();
    let rest = if cant { octets } else { put(to, octets) };
    Unwritten {
        lost: feeds_in(rest),
        torn: is_torn(octets, rest.len()),
    }
}

/// Writes octets, as far as they are taken. Returns those that aren't.
fn put<'a, F: Write>(to: &mut F, octets: &'a [u8]) -> &'a [u8]
    ensures { PutsAllBut (F.contents to.old) (F.contents to.new) octets.now result.now }
{
    let mut rest = octets;
    'pieces: while !rest.is_empty() {
        match to.write(rest) {
            Ok(0) => return rest,
            Ok(count) => rest = &rest[count..],
            Err(_) => return rest,
        }
    }
    rest
}

/// How many lines end in those octets.
fn feeds_in(octets: &[u8]) -> u64
    ensures { result ≡ min (feeds_in octets.now) (2 ^ 64 - 1) }
{
    let mut count = 0u64;
    for octet in octets {
        if *octet == b'\n' {
            count = count.saturating_add(1);
        }
    }
    count
}

/// Whether octets of which so many, the last ones, weren't written were cut inside of a line.
fn is_torn(octets: &[u8], unwritten: usize) -> bool {
    let written = octets.len().saturating_sub(unwritten);
    match octets[..written].last() {
        Some(b'\n') => false,
        Some(_) => true,
        None => false,
    }
}
