//! Links in memory, which tell what was read from them and written to them.

ghost use Rattle.std.specs.Prelude.{◌≡◌, ◌≤◌, ◌++◌, [], length, take};
ghost use Rattle.hc_links.specs.Links.{IsBeginning};

use crate::notebook::{Device, Notebook};
use hc_links::{Link, LinkFailure};
use std::alloc::Global;

/// Octets that are given out, and how many were.
#[derive(Clone, Copy)]
pub(crate) struct Source<'a> {
    octets: &'a [u8],
    at: usize,
}

impl<'a> Source<'a> {
    pub(crate) fn new(octets: &'a [u8]) -> Self
        ensures { result.at ≡ 0 }
    {
        Source { octets, at: 0 }
    }

    /// Gives as many octets as the buffer takes, but at most so many, and returns how many.
    fn give(&mut self, buffer: &mut [u8], most: usize) -> usize
        ensures octets { self.new.octets ≡ self.old.octets }
        ensures fits { result ≤ length buffer.new }
        ensures given { take self.new.at self.new.octets.now
            ≡ take self.old.at self.old.octets.now ++ take result buffer.new }
    {
        if self.at >= self.octets.len() {
            return 0;
        }
        let (_, rest) = self.octets.split_at(self.at);
        let count = rest.len().min(buffer.len()).min(most);
        let (front, _) = rest.split_at(count);
        let (room, _) = buffer.split_at_mut(count);
        room.copy_from_slice(front);
        self.at += count;
        count
    }
}

/// A link that gives octets and then ends, keeps what it gets, and fails where its notebook says so.
pub(crate) struct Memory<'a> {
    source: Source<'a>,
    got: Vec<u8>,
    reads: u64,
    failures: u64,
    /// The most octets that a call moves.
    most: usize,
    device: Device,
    notebook: &'a Notebook,
}

impl<'a> Drop for Memory<'a> {
    fn drop(self) {
        let Memory {
            source: _,
            got,
            reads: _,
            failures: _,
            most: _,
            device: _,
            notebook: _,
        } = self;
        drop(got);
    }
}

impl<'a> Memory<'a> {
    pub(crate) fn new(
        alloc: Global,
        device: Device,
        octets: &'a [u8],
        most: usize,
        notebook: &'a Notebook,
    ) -> Self
        ensures given { result.source.at ≡ 0 }
        ensures got { result.got.items ≡ [] }
    {
        Memory {
            source: Source::new(octets),
            got: Vec::new(alloc),
            reads: 0,
            failures: 0,
            most,
            device,
            notebook,
        }
    }

    /// What was written to it.
    pub(crate) fn got(&self) -> &[u8] {
        self.got.as_slice()
    }

    /// How many octets were read from it.
    pub(crate) fn given(&self) -> usize {
        self.source.at
    }
}

impl<'a> Link for Memory<'a> {
    ghost has_given = { λ link octets. octets ≡ take link.source.at link.source.octets.now };

    ghost has_got = { λ link octets. octets ≡ link.got.items };

    ghost was_read = { λ link times. link.reads ≤ times };

    ghost has_kept = { λ link octets. IsBeginning octets link.got.items };

    ghost count = { λ link. link.failures };

    fn read(&mut self, buffer: &mut [u8]) -> Result<usize, LinkFailure> {
        self.reads = self.reads.saturating_add(1);
        self.notebook.count_read();
        if self.notebook.fails(self.device) {
            self.failures += 1;
            return Err(LinkFailure);
        }
        let count = self.source.give(buffer, self.most);
        let (given, _) = buffer.split_at(count);
        self.notebook.note(self.device, "gives", Some(given));
        Ok(count)
    }

    fn write(&mut self, octets: &[u8]) -> Result<usize, LinkFailure> {
        if self.notebook.fails(self.device) {
            self.failures += 1;
            return Err(LinkFailure);
        }
        let count = octets.len().min(self.most.max(1));
        let (front, _) = octets.split_at(count);
        if self.got.extend_from_slice(front).is_err() {
            self.failures += 1;
            return Err(LinkFailure);
        }
        self.notebook.gets(self.device, front);
        Ok(count)
    }

    fn end(&mut self) {
        self.notebook.note(self.device, "ends", None);
    }

    fn failures(&self) -> u64 {
        self.failures
    }
}

/// A link that gives octets and then ends, and counts those that it gets.
#[derive(Clone, Copy)]
pub(crate) struct Tally<'a> {
    source: Source<'a>,
    got: u64,
    reads: u64,
    failures: u64,
}

impl<'a> Tally<'a> {
    pub(crate) fn new(octets: &'a [u8]) -> Self
        ensures given { result.source.at ≡ 0 }
        ensures got { result.got ≡ 0 }
    {
        Tally {
            source: Source::new(octets),
            got: 0,
            reads: 0,
            failures: 0,
        }
    }

    /// How many octets were written to it.
    pub(crate) fn got(&self) -> u64 {
        self.got
    }
}

impl<'a> Link for Tally<'a> {
    ghost has_given = { λ link octets. octets ≡ take link.source.at link.source.octets.now };

    ghost has_got = { λ link octets. length octets ≡ link.got };

    ghost was_read = { λ link times. link.reads ≤ times };

    // It keeps none.
    ghost has_kept = { λ _ _. Unit {0} };

    ghost count = { λ link. link.failures };

    fn read(&mut self, buffer: &mut [u8]) -> Result<usize, LinkFailure> {
        self.reads = self.reads.saturating_add(1);
        Ok(self.source.give(buffer, usize::MAX))
    }

    fn write(&mut self, octets: &[u8]) -> Result<usize, LinkFailure> {
        match self.got.checked_add(octets.len() as u64) {
            Some(got) => {
                self.got = got;
                Ok(octets.len())
            }
            None => {
                self.failures += 1;
                Err(LinkFailure)
            }
        }
    }

    fn end(&mut self) {}

    fn failures(&self) -> u64 {
        self.failures
    }
}
