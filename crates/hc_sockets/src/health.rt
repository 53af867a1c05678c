//! Whether the system still does what serving needs.

use std::cell::Cell;
use std::io;
use std::time::Duration;

/// So many polls may fail in a row before serving ends.
const MOST_IN_A_ROW: u64 = 100;

/// Why the system lets nobody be served any more.
#[derive(Clone, Copy)]
pub enum Breakdown {
    /// It couldn't say what is ready, for this reason.
    Poll(io::Error),
    /// Its clock that is never set couldn't be read, for this reason.
    Clock(io::Error),
}

/// Whether the system still does what serving needs. The sockets note it, and whoever serves looks at it.
pub struct Health {
    /// How many polls have failed.
    failed: Cell<u64>,
    /// How many of them have in a row, up to the last poll.
    in_a_row: Cell<u64>,
    /// What the clock that is never set told last.
    last: Cell<Duration>,
    /// Why serving ends, if it does.
    end: Cell<Option<Breakdown>>,
    /// When this turn began, in which nothing is waited for, and how many microseconds the longest one took.
    begun: Cell<Duration>,
    longest_turn: Cell<u64>,
}

impl Drop for Health {
    fn drop(self) {
        let Health {
            failed,
            in_a_row,
            last,
            end,
            begun,
            longest_turn,
        } = self;
        drop(failed);
        drop(in_a_row);
        drop(last);
        drop(end);
        drop(begun);
        drop(longest_turn);
    }
}

impl Health {
    /// Nothing has failed.
    pub fn new() -> Self {
        Health {
            failed: Cell::new(0),
            in_a_row: Cell::new(0),
            last: Cell::new(Duration::ZERO),
            end: Cell::new(None),
            begun: Cell::new(Duration::MAX),
            longest_turn: Cell::new(0),
        }
    }

    /// A poll came to that.
    pub(crate) fn note_poll(&self, polled: io::Result<()>) {
        match polled {
            Ok(()) => self.in_a_row.set(0),
            Err(reason) => self.note_failed_poll(reason),
        }
    }

    /// A poll failed, for this reason.
    fn note_failed_poll(&self, reason: io::Error) {
        self.failed.set(self.failed.get().saturating_add(1));
        let in_a_row = self.in_a_row.get().saturating_add(1);
        self.in_a_row.set(in_a_row);
        if in_a_row >= MOST_IN_A_ROW {
            self.break_down(Breakdown::Poll(reason));
        }
    }

    /// The clock that is never set told that. Returns it, or where it couldn't be read what it told last.
    pub(crate) fn note_clock(&self, told: io::Result<Duration>) -> Duration {
        match told {
            Ok(now) => {
                self.last.set(now);
                now
            }
            Err(reason) => {
                self.break_down(Breakdown::Clock(reason));
                self.last.get()
            }
        }
    }

    /// A turn begins.
    pub(crate) fn begin_turn(&self, now: Duration) {
        self.begun.set(now);
    }

    /// It ends. The time before the first one counts for none.
    pub(crate) fn end_turn(&self, now: Duration) {
        let took = now.saturating_sub(self.begun.get()).as_micros();
        let took = u64::try_from(took).unwrap_or(u64::MAX);
        if took > self.longest_turn.get() {
            self.longest_turn.set(took);
        }
    }

    /// How many microseconds the longest turn took, in which nothing was waited for: 0 where turns aren't timed.
    pub fn longest_turn(&self) -> u64 {
        self.longest_turn.get()
    }

    /// Serving ends for this reason, if it doesn't end for another one already.
    fn break_down(&self, breakdown: Breakdown) {
        if self.end.get().is_none() {
            self.end.set(Some(breakdown));
        }
    }

    /// How many polls have failed.
    pub fn failed_polls(&self) -> u64 {
        self.failed.get()
    }

    /// Why serving ends, if it does.
    pub fn end(&self) -> Option<Breakdown> {
        self.end.get()
    }

    /// Whether serving ends.
    pub fn ends(&self) -> bool {
        self.end.get().is_some()
    }
}
