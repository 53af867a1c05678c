//! What waits to be written to a link.

ghost use Rattle.std.specs.Prelude.{◌≡◌, ◌==◌, ◌++◌, not, ℕ, Bool, List, [], length, OnOk, OnErr, nat_lt};
ghost use Rattle.hc_flow.specs.Emptyings.{FailsEmptying, LeavesWaiting};
ghost use Rattle.hc_flow.specs.Passing.{Moves, Stays};
ghost use Rattle.hc_flow.specs.Writes.{FailsWrite, TakesOff};

use crate::pieces::{Piece, advance, first_parts, put_behind};
use crate::stream::{Stream, Uptake};
use crate::weight::weight_of_all;
use hc_framing::MessageText;
use std::alloc::{AllocError, Global};
use std::collections::VecDeque;
use std::marker::Model;

/// What came of writing all that waits.
#[derive(Clone, Copy, PartialEq, Eq)]
pub enum Emptying {
    /// Nothing waits any more.
    Emptied,
    /// Some waits still, and isn't taken now; it may be taken later.
    Later,
    /// The link has failed.
    Failed,
}

/// The octets that wait to be written to a link, in order, which contracts see as the list of them. A long text is
/// shared, and not copied. Short ones that follow one another go out by one write. While nothing waits, no memory is
/// held.
pub struct Outbox {
    alloc: Global,
    pieces: VecDeque<Piece>,
    /// Short texts behind the pieces.
    tail: Vec<u8>,
    /// How many octets of the first piece were written.
    written: usize,
    /// How many octets wait.
    waiting: usize,
}

impl Drop for Outbox {
    fn drop(self) {
        let Outbox {
            alloc: _,
            pieces,
            tail,
            written: _,
            waiting: _,
        } = self;
        drop(pieces);
        drop(tail);
    }
}

impl Model for Outbox {
    ghost use Rattle.std.specs.Prelude.{List, ℕ, drop};
    ghost use Rattle.hc_flow.specs.Pieces.{IsKept, all_of};

    ghost Value = { List ℕ };

    ghost view = { λ o. drop o.written (all_of o.pieces.items o.tail.items) };

    ghost invariant = { λ o. IsKept o.pieces.items o.tail.items o.written o.waiting };
}

impl Outbox {
    /// Nothing waits.
    pub fn new(alloc: Global) -> Self
        ensures { result ≡ [] }
    {
        Outbox {
            alloc,
            pieces: VecDeque::new(alloc),
            tail: Vec::new(alloc),
            written: 0,
            waiting: 0,
        }
    }

    /// How many octets wait.
    pub fn len(&self) -> usize
        ensures { result ≡ length self.now }
    {
        self.waiting
    }

    /// Whether none do.
    pub fn is_empty(&self) -> bool
        ensures { result ≡ (length self.now == 0) }
    {
        self.waiting == 0
    }

    /// How many octets of memory are held for what waits. A piece counts until all of it is written; of what has more
    /// owners a share counts.
    pub fn weight(&self) -> usize
        ensures { nat_lt 0 result ≡ not (length self.now == 0) }
    {
        if self.waiting == 0 {
            return 0;
        }
        weight_of_all(&self.pieces, self.tail.as_slice())
    }

    /// Puts a text behind all that waits. It fails where memory is refused, or more would wait than can be counted.
    pub fn push(&mut self, text: &MessageText) -> Result<(), AllocError>
        ensures ok { OnOk result (self.new ≡ self.old ++ text.now) }
        ensures err { OnErr result (self.new ≡ self.old) }
    {
        if text.is_empty() {
            return Ok(());
        }
        let Some(waiting) = self.waiting.checked_add(text.len()) else {
            return Err(AllocError);
        };
        put_behind(self.alloc, &mut self.pieces, &mut self.tail, text)?;
        self.waiting = waiting;
        Ok(())
    }

    /// Drops all that waits, and gives its memory back.
    pub fn clear(&mut self)
        ensures { self.new ≡ [] }
    {
        self.pieces.clear();
        self.pieces.shrink_to_fit();
        self.tail.clear();
        self.tail.shrink_to_fit();
        self.written = 0;
        self.waiting = 0;
    }

    /// Writes of the first piece what is taken now.
    fn write_some<S: Stream>(&mut self, stream: &mut S) -> Uptake
        ensures given { Stays (S.has_given stream.old) (S.has_given stream.new) }
        ensures got { TakesOff (S.has_got stream.old) (S.has_got stream.new) result self.old self.new }
        ensures ended { (ended : Bool) → S.was_ended stream.old ended → S.was_ended stream.new ended }
        ensures fails { FailsWrite (S.has_failed stream.old) (S.has_failed stream.new) result }
    {
        let (front, rest) = first_parts(&self.pieces, self.tail.as_slice(), self.written);
        match stream.write(front, rest) {
            Uptake::Octets(count) => {
                self.written = advance(&mut self.pieces, &mut self.tail, self.written, count);
                self.waiting -= count;
                Uptake::Octets(count)
            }
            Uptake::Later => Uptake::Later,
            Uptake::Failed => Uptake::Failed,
        }
    }

    /// Writes all that waits, as far as it is taken now. What was written waits no more.
    pub fn write_to<S: Stream>(&mut self, stream: &mut S) -> Emptying
        ensures given { Stays (S.has_given stream.old) (S.has_given stream.new) }
        ensures got { Moves (S.has_got stream.old) (S.has_got stream.new) self.old self.new }
        ensures waits { LeavesWaiting result self.new }
        ensures ended { (ended : Bool) → S.was_ended stream.old ended → S.was_ended stream.new ended }
        ensures fails { FailsEmptying (S.has_failed stream.old) (S.has_failed stream.new) result }
    {
        'writes: while !self.is_empty() {
            match self.write_some(stream) {
                Uptake::Octets(_) => {}
                Uptake::Later => return Emptying::Later,
                Uptake::Failed => return Emptying::Failed,
            }
        }
        self.clear();
        Emptying::Emptied
    }
}
