//! What is said of a transcript, and of a reply.

ghost use Rattle.std.specs.Prelude.{◌≡◌};
ghost use Rattle.hc_history.specs.Counting.{AreAtMost, no_counts, one_more, marked_by, marked};

use crate::reasons::Reason;
use hc_status::Mark;
use hc_transcript::RecordFault;

/// What was counted in a transcript whose replies are all right.
#[derive(Clone, Copy, PartialEq, Eq)]
pub struct Counts {
    /// All records.
    pub records: u64,
    /// Replies, each of which is one of the following.
    pub replies: u64,
    /// Replies judged as hits: marked so, but for those of status 206, or inferred to be.
    pub hits: u64,
    /// Replies judged as forwarded: marked so, or inferred to be.
    pub forwarded: u64,
    /// Replies that aren't judged: without a mark, and hits of status 206.
    pub unmarked: u64,
}

impl Counts {
    /// What is counted where there is nothing.
    pub fn new() -> Self
        ensures { result ≡ no_counts }
    {
        Counts {
            records: 0,
            replies: 0,
            hits: 0,
            forwarded: 0,
            unmarked: 0,
        }
    }

    /// Counts one item more, which has that mark if it is a reply.
    pub fn count(&mut self, mark: Option<Mark>)
        requires { AreAtMost 9223372036854775807 self.old }
        ensures { self.new ≡ marked mark (one_more self.old) }
    {
        self.records += 1;
        if let Some(mark) = mark {
            self.count_reply(mark);
        }
    }

    /// Counts one reply more.
    fn count_reply(&mut self, mark: Mark)
        requires { AreAtMost 9223372036854775808 self.old }
        ensures { self.new ≡ marked_by mark self.old }
    {
        self.replies += 1;
        match mark {
            Mark::Hit { .. } => self.hits += 1,
            Mark::Forwarded { .. } => self.forwarded += 1,
            Mark::Unmarked => self.unmarked += 1,
            Mark::Both => {}
        }
    }
}

/// The verdict on a transcript. Positions count the records from 1; the opening has position 0.
#[derive(Clone, Copy, PartialEq, Eq)]
pub enum Verdict {
    /// It keeps to the format, and every reply in it is right.
    Yes(Counts),
    /// The reply at this position is wrong, by this reason.
    No(u64, Reason),
    /// It breaks at this position, by this fault.
    Malformed(u64, RecordFault),
}

/// What is found of one reply.
#[derive(Clone, Copy, PartialEq, Eq)]
pub enum Finding {
    /// It is right.
    Right,
    /// It is wrong, by this reason.
    Wrong(Reason),
}
