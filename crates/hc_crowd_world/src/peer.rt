//! The other side of a link, in memory.

ghost use Rattle.hc_flow.specs.Reads.{FitsBuffer};
ghost use Rattle.hc_crowd_world.specs.Taking.{FitsText};
ghost use Rattle.std.specs.Prelude.{◌++◌, ◌≤◌, ℕ, List, length};

use crate::deeds::Act;
use crate::standing::Standing;
use hc_flow::{Arrival, Presence, Readiness, Uptake};
use std::alloc::{AllocError, Global};

/// The other side of a link, in memory.
pub struct Peer {
    /// What it has sent.
    pub said: Vec<u8>,
    /// How many octets of that were read.
    read: usize,
    /// What was written to it.
    pub got: Vec<u8>,
    /// So many octets more it takes now.
    room: usize,
    /// So many octets it takes at once at most.
    most: usize,
    /// Whether the link is made.
    made: bool,
    /// Whether it sends no more.
    ends: bool,
    /// Whether the link has failed.
    failed: bool,
    /// Whether what is written to it was ended.
    pub(crate) has_end: bool,
    /// Whether it was ever offered more than it took.
    pub pressed: bool,
    /// Whether the link was let go.
    pub gone: bool,
    /// How it stands.
    pub standing: Standing,
}

impl Drop for Peer {
    fn drop(self) {
        let Peer {
            said,
            read: _,
            got,
            room: _,
            most: _,
            made: _,
            ends: _,
            failed: _,
            has_end: _,
            pressed: _,
            gone: _,
            standing: _,
        } = self;
        drop(said);
        drop(got);
    }
}

/// Something is told of a link.
const STIRRING: Readiness = Readiness {
    readable: true,
    writable: true,
    ended: false,
    failed: false,
};

impl Peer {
    /// One of a link that is made, or isn't yet. It takes so many octets at first, and so many at once at most.
    pub(crate) fn new(alloc: Global, made: bool, room: usize, most: usize) -> Self {
        Peer {
            said: Vec::new(alloc),
            read: 0,
            got: Vec::new(alloc),
            room,
            most,
            made,
            ends: false,
            failed: false,
            has_end: false,
            pressed: false,
            gone: false,
            standing: Standing::Waits,
        }
    }

    /// It does that. Returns what the system tells of the link.
    pub(crate) fn acts(&mut self, act: &Act) -> Result<Readiness, AllocError> {
        match act {
            Act::Says(octets) => self.says(octets.as_slice()),
            Act::Ends => {
                self.ends = true;
                Ok(self.readiness())
            }
            Act::Resets => {
                self.failed = true;
                Ok(self.readiness())
            }
            Act::Breaks => {
                self.failed = true;
                Ok(STIRRING)
            }
            Act::Takes(count) => {
                self.room = self.room.saturating_add(*count);
                Ok(self.readiness())
            }
            Act::Made => {
                self.made = true;
                Ok(self.readiness())
            }
            Act::Stirs => Ok(self.readiness()),
        }
    }

    fn says(&mut self, octets: &[u8]) -> Result<Readiness, AllocError> {
        self.said.extend_from_slice(octets)?;
        Ok(self.readiness())
    }

    /// What the system tells of the link.
    pub(crate) fn readiness(&self) -> Readiness {
        Readiness {
            readable: self.failed || self.ends || self.read < self.said.len(),
            writable: self.failed || self.made && self.room > 0,
            ended: self.failed || self.ends,
            failed: self.failed,
        }
    }

    /// What it has sent and wasn't read.
    fn unread(&self) -> &[u8] {
        let said = self.said.as_slice();
        let (_, rest) = said.split_at(self.read.min(said.len()));
        rest
    }

    /// What it has sent and was read.
    pub fn was_read(&self) -> &[u8] {
        let said = self.said.as_slice();
        let (front, _) = said.split_at(self.read.min(said.len()));
        front
    }

    /// A read of the link.
    pub(crate) fn read(&mut self, buffer: &mut [u8]) -> Arrival
        ensures { FitsBuffer result buffer.new }
    {
        if self.failed {
            return Arrival::Failed;
        }
        let rest = self.unread();
        let count = rest.len().min(buffer.len());
        if count == 0 {
            return self.silence();
        }
        let (front, _) = rest.split_at(count);
        let (room, _) = buffer.split_at_mut(count);
        room.copy_from_slice(front);
        self.read = self.read.saturating_add(count);
        Arrival::Octets(count)
    }

    /// What comes of a read that finds nothing.
    fn silence(&self) -> Arrival
        ensures { (size : List ℕ) → FitsBuffer result size }
    {
        if self.ends {
            Arrival::End
        } else {
            Arrival::Later
        }
    }

    /// What a read would find.
    pub(crate) fn peek(&self) -> Presence {
        if self.failed {
            return Presence::Over;
        }
        if !self.unread().is_empty() {
            return Presence::Octets;
        }
        if self.ends {
            Presence::Over
        } else {
            Presence::Later
        }
    }

    /// A write to the link.
    pub(crate) fn write(&mut self, front: &[u8], rest: &[u8]) -> Uptake
        ensures { FitsText result (front.now ++ rest.now) }
    {
        if self.failed {
            return Uptake::Failed;
        }
        if !self.made {
            return Uptake::Later;
        }
        let room = self.room.min(self.most);
        let first = front.len().min(room);
        let second = rest.len().min(room - first);
        let count = first + second;
        self.pressed = self.pressed | (first < front.len()) | (second < rest.len());
        if count == 0 {
            return Uptake::Later;
        }
        if self.takes(front, first, rest, second).is_err() {
            return Uptake::Failed;
        }
        Uptake::Octets(count)
    }

    /// Takes so many octets of two texts.
    fn takes(
        &mut self,
        front: &[u8],
        first: usize,
        rest: &[u8],
        second: usize,
    ) -> Result<(), AllocError>
        requires first { first ≤ length front.now }
        requires second { second ≤ length rest.now }
    {
        let (front, _) = front.split_at(first);
        let (rest, _) = rest.split_at(second);
        self.got.extend_from_slice(front)?;
        self.got.extend_from_slice(rest)?;
        self.room = self.room.saturating_sub(first).saturating_sub(second);
        Ok(())
    }

    /// Whether all that was sent to it has to have come: what is written to it was ended, and the link hasn't failed.
    pub fn is_whole(&self) -> bool {
        self.has_end && !self.failed
    }

    /// Whether somebody had a link to it, and hasn't let it go.
    pub fn is_linked(&self) -> bool {
        !matches!(self.standing, Standing::Waits) && !self.gone
    }
}
