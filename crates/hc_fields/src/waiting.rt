//! Octets that wait to be read.

ghost use Rattle.std.specs.Prelude.{◌≡◌, ◌≤◌, ◌-◌, ◌*◌, ◌++◌, List, ℕ, [], length, take, drop, OnOk, OnErr};

use std::alloc::{AllocError, Global};
use std::marker::Model;

/// The most octets that a buffer may have held which is kept while none waits.
const MOST_KEPT: usize = 1_024;

/// Octets in one buffer, of which those before `start` were read. Contracts see the rest of them.
/// What was read is dropped once it is more than half, so each octet is moved at most once for each
/// octet that was read. Once all were read, a buffer that has held more than 1,024 is given back.
pub struct Waiting {
    alloc: Global,
    bytes: Vec<u8>,
    start: usize,
    /// The most octets that the buffer has held.
    most: usize,
}

impl Drop for Waiting {
    fn drop(self) {
        let Waiting {
            alloc: _,
            bytes,
            start: _,
            most: _,
        } = self;
        drop(bytes);
    }
}

impl Model for Waiting {
    ghost use Rattle.std.specs.Prelude.{List, ℕ, drop, length, ◌≤◌};

    ghost Value = { List ℕ };

    ghost view = { λ w. drop w.start w.bytes.items };

    ghost invariant = { λ w. w.start ≤ length w.bytes.items };
}

/// Copies the octets behind so many, which are at least half of all, to the front.
fn copy_to_front(bytes: &mut [u8], gone: usize)
    requires within { gone ≤ length bytes.old }
    requires half { length bytes.old ≤ gone * 2 }
    ensures len { length bytes.new ≡ length bytes.old }
    ensures front { take (length bytes.old - gone) bytes.new ≡ drop gone bytes.old }
{
    let left = bytes.len() - gone;
    let (read, rest) = bytes.split_at_mut(gone);
    let (front, _) = read.split_at_mut(left);
    front.copy_from_slice(rest);
}

/// Drops the first octets, which are at least half of all.
fn drop_front(bytes: &mut Vec<u8>, gone: usize)
    requires within { gone ≤ length bytes.old.items }
    requires half { length bytes.old.items ≤ gone * 2 }
    ensures { bytes.new.items ≡ drop gone bytes.old.items }
{
    let left = bytes.len() - gone;
    copy_to_front(bytes.as_mut_slice(), gone);
    bytes.truncate(left);
}

impl Waiting {
    pub fn new(alloc: Global) -> Self
        ensures { result ≡ [] }
    {
        Waiting {
            alloc,
            bytes: Vec::new(alloc),
            start: 0,
            most: 0,
        }
    }

    pub fn as_slice(&self) -> &[u8]
        ensures { result.now ≡ self.now }
    {
        let (_, rest) = self.bytes.as_slice().split_at(self.start);
        rest
    }

    /// Puts a piece at the end.
    pub fn push(&mut self, piece: &[u8]) -> Result<(), AllocError>
        ensures ok { OnOk result (self.new ≡ self.old ++ piece.now) }
        ensures err { OnErr result (self.new ≡ self.old) }
    {
        self.compact();
        self.bytes.extend_from_slice(piece)?;
        self.most = self.most.max(self.bytes.len());
        Ok(())
    }

    /// Drops what was read, once it is more than half.
    fn compact(&mut self)
        ensures { self.new ≡ self.old }
    {
        let gone = self.start;
        if gone <= self.bytes.len() / 2 {
            return;
        }
        drop_front(&mut self.bytes, gone);
        self.start = 0;
    }

    /// Reads so many octets off the front.
    pub fn skip(&mut self, count: usize)
        requires { count ≤ length self.old }
        ensures { self.new ≡ drop count self.old }
    {
        self.start += count;
        if self.start == self.bytes.len() {
            self.empty();
        }
    }

    /// Drops all octets.
    pub fn clear(&mut self)
        ensures { self.new ≡ [] }
    {
        self.empty();
    }

    /// Empties the buffer, or gives it back where it has held more than may be kept.
    fn empty(&mut self)
        ensures { self.new ≡ [] }
    {
        self.start = 0;
        if self.most <= MOST_KEPT {
            self.bytes.clear();
            return;
        }
        self.bytes = Vec::new(self.alloc);
        self.most = 0;
    }
}
