//! The access log of a proxy.

ghost use Rattle.std.specs.Prelude.{◌≡◌, false, true};
ghost use Rattle.hc_access.specs.Accounts.{Accounts, replies_in};

use crate::replies::Replies;
use crate::visits::Visited;
use crate::writer::LogWriter;
use hc_links::Awaiting;
use hc_order::Occurrence;
use hc_service::Action;
use std::alloc::{AllocError, Global};
use std::io::Write;

/// So many milliseconds may pass between two writes while lines wait.
const LONGEST_WAIT: u64 = 200;

/// Behind so many octets of lines they are written at once.
const MOST_WAITING: usize = 32_768;

/// So many milliseconds lie between two looks at whether the log has another file.
const FOLLOWING: u64 = 1_000;

/// What an access log is written to.
pub trait Target: Write {
    /// Goes on in another file where the name of that which is written to leads to one by now. Returns
    /// whether it does.
    fn follow(&mut self) -> bool;
}

/// The access log of a proxy: a line for each reply, once its last octet was written, or its client has gone.
pub struct AccessLog<F: Target> {
    alloc: Global,
    /// Whether there is one.
    on: bool,
    replies: Replies,
    writer: LogWriter<F>,
    /// The milliseconds from which on it is written, and looked for another file.
    due: u64,
    follows: u64,
}

impl<F: Target + Drop> Drop for AccessLog<F> {
    fn drop(self) {
        let AccessLog {
            alloc: _,
            on: _,
            replies,
            writer,
            due: _,
            follows: _,
        } = self;
        drop(replies);
        drop(writer);
    }
}

impl<F: Target + Drop> AccessLog<F> {
    /// One that is written to that; or none, where it isn't on.
    pub fn new(alloc: Global, to: F, on: bool) -> Result<Self, AllocError> {
        Ok(AccessLog {
            alloc,
            on,
            replies: Replies::new(alloc)?,
            writer: LogWriter::new(alloc, to),
            due: 0,
            follows: 0,
        })
    }
}

impl<F: Target> AccessLog<F> {
    /// How many lines were dropped, since they couldn't be written, or memory was refused for them.
    pub fn lost(&self) -> u64 {
        self.replies.lost.saturating_add(self.writer.lost())
    }

    /// Takes in that something happens.
    pub fn hear<V: Visited>(&mut self, links: &V, occurrence: &Occurrence) {
        if self.on {
            self.replies.hear(links, occurrence);
        }
    }

    /// Takes in what the cache did by that.
    pub fn see<V: Visited, A: Awaiting>(&mut self, links: &V, cache: &A, actions: &[Action])
        ensures { (self.old.on ≡ true → Accounts (replies_in actions.now) self.old.replies self.new.replies)
            × (self.old.on ≡ false → self.new ≡ self.old)
            × (self.new ≡ record self.old { replies = self.new.replies }) }
    {
        if self.on {
            self.replies.see(cache, actions, links.tick());
        }
    }

    /// A client was turned away who has that address.
    pub fn turn_away(&mut self, address: &[u8]) {
        if self.on {
            self.replies.turn_away(address, &mut self.writer.lines);
        }
    }

    /// Behind a batch: lines of replies that were written are written, too.
    pub fn look<V: Visited>(&mut self, links: &V) {
        if !self.on {
            return;
        }
        self.replies.look(links, &mut self.writer.lines);
        self.write_if_due(links.tick());
    }

    /// Writes lines, if there are many, or they have waited for long.
    fn write_if_due(&mut self, tick: u64) {
        if self.writer.waiting() < MOST_WAITING && tick < self.due {
            return;
        }
        self.due = tick.saturating_add(LONGEST_WAIT);
        if tick >= self.follows {
            self.follows = tick.saturating_add(FOLLOWING);
            self.writer.follow();
        }
        self.writer.write();
    }

    /// Nothing more happens: all that waits is written.
    pub fn finish(&mut self, tick: u64) {
        if self.on {
            self.replies.finish(tick, &mut self.writer.lines);
            self.writer.write();
        }
    }
}
