//! A link that is written to through a buffer.

ghost use Rattle.std.specs.Prelude.{◌≡◌, ◌<◌, ◌≤◌, ◌+◌, ℕ, true, List, [], length, OnOk};
ghost use Rattle.hc_links.specs.Buffers.{HasGot, HasKept, most_waiting};
ghost use Rattle.hc_links.specs.Links.{Counts, CountsSent, Writes, greatest_count};

use crate::link::{Link, LinkFailure};
use hc_fields::Waiting;
use std::alloc::{AllocError, Global};

/// The most octets that wait.
const MOST_WAITING: usize = 65_536;

/// A link to which octets are written many at once. What is written waits, up to 65,536 octets, until there is no room
/// for more, or until it is flushed. More octets than that are written as they lie, and so are those for which no memory
/// is found, behind what waits.
///
/// Where the link fails, what it hasn't got waits on.
#[derive(Drop)]
pub struct Buffered<R: Link> {
    link: R,
    waiting: Waiting,
}

impl<R: Link> Buffered<R> {
    /// Nothing waits.
    pub fn new(alloc: Global, link: R) -> Self
        ensures link { result.link ≡ link }
        ensures waiting { result.waiting ≡ [] }
    {
        Buffered {
            link,
            waiting: Waiting::new(alloc),
        }
    }

    /// The link.
    pub fn link(&self) -> &R
        ensures { result.now ≡ self.now.link }
    {
        &self.link
    }

    /// The link. What waits is let go.
    pub fn into_link(self) -> R
        ensures { result ≡ self.link }
    {
        self.link
    }

    /// Writes all that waits. A link that has failed as often as can be counted isn't written to.
    pub fn flush(&mut self) -> Result<(), LinkFailure>
        ensures given { (given : List ℕ) → R.has_given self.old.link given → R.has_given self.new.link given }
        ensures got { (octets : List ℕ) → HasGot R.has_got self.old.link self.old.waiting octets → HasGot R.has_got self.new.link self.new.waiting octets }
        ensures all { OnOk result ((octets : List ℕ) → HasGot R.has_got self.old.link self.old.waiting octets → R.has_got self.new.link octets) }
        ensures none { OnOk result (self.new.waiting ≡ []) }
        ensures kept { (kept : List ℕ) → HasKept R.has_got self.old.link kept → HasKept R.has_got self.new.link kept }
        ensures reads { (times : ℕ) → R.was_read self.old.link times → R.was_read self.new.link times }
        ensures count { CountsSent result (R.count self.old.link) (R.count self.new.link) }
    {
        if self.link.failures() == u64::MAX {
            return Err(LinkFailure);
        }
        self.write_waiting()
    }

    /// The same, where the link may be written to.
    fn write_waiting(&mut self) -> Result<(), LinkFailure>
        requires { R.count self.old.link < greatest_count }
        ensures given { (given : List ℕ) → R.has_given self.old.link given → R.has_given self.new.link given }
        ensures got { (octets : List ℕ) → HasGot R.has_got self.old.link self.old.waiting octets → HasGot R.has_got self.new.link self.new.waiting octets }
        ensures none { OnOk result (self.new.waiting ≡ []) }
        ensures few { length self.new.waiting ≤ length self.old.waiting }
        ensures kept { (kept : List ℕ) → HasKept R.has_got self.old.link kept → HasKept R.has_got self.new.link kept }
        ensures reads { (times : ℕ) → R.was_read self.old.link times → R.was_read self.new.link times }
        ensures count { Counts result (R.count self.old.link) (R.count self.new.link) }
    {
        'pieces: while !self.waiting.as_slice().is_empty() {
            let count = self.link.write(self.waiting.as_slice())?;
            self.waiting.skip(count);
        }
        Ok(())
    }

    /// Whether so many octets more may wait.
    fn has_room(&self, count: usize) -> bool
        ensures { result ≡ true → length self.now.waiting + count ≤ most_waiting }
    {
        let waiting = self.waiting.as_slice().len();
        waiting <= MOST_WAITING && count <= MOST_WAITING - waiting
    }

    /// Writes what waits, unless so many octets more may wait.
    fn make_room(&mut self, count: usize) -> Result<(), LinkFailure>
        requires few { R.count self.old.link < greatest_count }
        requires fits { count ≤ most_waiting }
        ensures given { (given : List ℕ) → R.has_given self.old.link given → R.has_given self.new.link given }
        ensures got { (octets : List ℕ) → HasGot R.has_got self.old.link self.old.waiting octets → HasGot R.has_got self.new.link self.new.waiting octets }
        ensures room { OnOk result (length self.new.waiting + count ≤ most_waiting) }
        ensures few { length self.new.waiting ≤ length self.old.waiting }
        ensures kept { (kept : List ℕ) → HasKept R.has_got self.old.link kept → HasKept R.has_got self.new.link kept }
        ensures reads { (times : ℕ) → R.was_read self.old.link times → R.was_read self.new.link times }
        ensures count { Counts result (R.count self.old.link) (R.count self.new.link) }
    {
        if self.has_room(count) {
            return Ok(());
        }
        self.write_waiting()
    }

    /// Writes what waits, and behind that a beginning of the octets.
    fn write_through(&mut self, octets: &[u8]) -> Result<usize, LinkFailure>
        requires { R.count self.old.link < greatest_count }
        ensures given { (given : List ℕ) → R.has_given self.old.link given → R.has_given self.new.link given }
        ensures got { Writes (HasGot R.has_got self.old.link self.old.waiting) (HasGot R.has_got self.new.link self.new.waiting) result octets.now }
        ensures few { length self.new.waiting ≤ length self.old.waiting }
        ensures kept { (kept : List ℕ) → HasKept R.has_got self.old.link kept → HasKept R.has_got self.new.link kept }
        ensures reads { (times : ℕ) → R.was_read self.old.link times → R.was_read self.new.link times }
        ensures count { Counts result (R.count self.old.link) (R.count self.new.link) }
    {
        self.write_waiting()?;
        self.link.write(octets)
    }

    /// Lets the octets wait, if there is room for them, or writes a beginning of them.
    fn put(&mut self, octets: &[u8]) -> Result<usize, LinkFailure>
        requires { R.count self.old.link < greatest_count }
        ensures given { (given : List ℕ) → R.has_given self.old.link given → R.has_given self.new.link given }
        ensures got { Writes (HasGot R.has_got self.old.link self.old.waiting) (HasGot R.has_got self.new.link self.new.waiting) result octets.now }
        ensures few { length self.old.waiting ≤ most_waiting → length self.new.waiting ≤ most_waiting }
        ensures kept { (kept : List ℕ) → HasKept R.has_got self.old.link kept → HasKept R.has_got self.new.link kept }
        ensures reads { (times : ℕ) → R.was_read self.old.link times → R.was_read self.new.link times }
        ensures count { Counts result (R.count self.old.link) (R.count self.new.link) }
    {
        if octets.len() > MOST_WAITING {
            return self.write_through(octets);
        }
        self.make_room(octets.len())?;
        match self.waiting.push(octets) {
            Ok(()) => Ok(octets.len()),
            Err(AllocError) => self.write_through(octets),
        }
    }
}

impl<R: Link> Link for Buffered<R> {
    ghost has_given = { λ buffered. R.has_given buffered.link };

    ghost has_got = { λ buffered. HasGot R.has_got buffered.link buffered.waiting };

    ghost was_read = { λ buffered. R.was_read buffered.link };

    // What waits doesn't stand for good yet.
    ghost has_kept = { λ buffered. HasKept R.has_got buffered.link };

    ghost count = { λ buffered. R.count buffered.link };

    fn read(&mut self, buffer: &mut [u8]) -> Result<usize, LinkFailure> {
        self.link.read(buffer)
    }

    fn write(&mut self, octets: &[u8]) -> Result<usize, LinkFailure> {
        self.put(octets)
    }

    fn end(&mut self) {
        // Behind an end nothing could be written that waits still.
        if self.waiting.as_slice().is_empty() {
            self.link.end();
        }
    }

    fn failures(&self) -> u64 {
        self.link.failures()
    }
}
