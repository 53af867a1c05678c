//! How many replies say what of themselves.

ghost use Rattle.std.specs.Prelude.{◌≡◌, true};
ghost use Rattle.hc_status.specs.declared.marks.Mark.TheVariants.{Forwarded, Unmarked};
ghost use Rattle.hc_figures.specs.Counts.{all_of, counted, have_no_mark, judged_of, none_counted};

use hc_history::Mark;

/// How many replies say what of themselves, and how many octets their bodies have. A count that has come to the
/// greatest number stays there.
#[derive(Clone, Copy)]
pub struct ReplyCounts {
    /// Replies marked as hits.
    pub hits: u64,
    /// Replies marked as forwarded.
    pub forwarded: u64,
    /// Those of the forwarded ones that were collapsed.
    pub collapsed: u64,
    /// Replies without a mark, and hits of status 206.
    pub unmarked: u64,
    /// Replies with both marks.
    pub both: u64,
    /// Those of the unmarked ones that may be so: nothing is said of them.
    pub unjudged: u64,
    /// The octets of the bodies of hits.
    pub hit_octets: u64,
    /// The octets of the bodies of forwarded replies.
    pub forwarded_octets: u64,
}

impl ReplyCounts {
    /// What is counted where there is nothing.
    pub fn new() -> Self
        ensures { result ≡ none_counted }
    {
        ReplyCounts {
            hits: 0,
            forwarded: 0,
            collapsed: 0,
            unmarked: 0,
            both: 0,
            unjudged: 0,
            hit_octets: 0,
            forwarded_octets: 0,
        }
    }

    /// Counts one reply more, of that mark, and with a body of so many octets.
    pub fn count(&mut self, mark: Mark, octets: u64, is_right: bool)
        ensures { self.new ≡ counted mark octets is_right self.old }
    {
        match mark {
            Mark::Hit { .. } => {
                self.hits = self.hits.saturating_add(1);
                self.hit_octets = self.hit_octets.saturating_add(octets);
            }
            Mark::Forwarded { collapsed } => self.count_forwarded(collapsed, octets),
            Mark::Both => self.both = self.both.saturating_add(1),
            Mark::Unmarked => self.count_unmarked(is_right),
        }
    }

    fn count_forwarded(&mut self, collapsed: bool, octets: u64)
        ensures { self.new ≡ counted (Forwarded collapsed) octets true self.old }
    {
        self.forwarded = self.forwarded.saturating_add(1);
        self.forwarded_octets = self.forwarded_octets.saturating_add(octets);
        if collapsed {
            self.collapsed = self.collapsed.saturating_add(1);
        }
    }

    fn count_unmarked(&mut self, is_right: bool)
        ensures { self.new ≡ counted Unmarked 0 is_right self.old }
    {
        self.unmarked = self.unmarked.saturating_add(1);
        if is_right {
            self.unjudged = self.unjudged.saturating_add(1);
        }
    }

    /// How many replies there are.
    pub fn all(&self) -> u64
        ensures { result ≡ all_of self.now }
    {
        self.hits
            .saturating_add(self.forwarded)
            .saturating_add(self.unmarked)
            .saturating_add(self.both)
    }

    /// How many of them something is said of.
    pub fn judged(&self) -> u64
        ensures { result ≡ judged_of self.now }
    {
        self.all().saturating_sub(self.unjudged)
    }

    /// Whether there are replies, and no mark on any.
    pub fn has_no_mark(&self) -> bool
        ensures { result ≡ have_no_mark self.now }
    {
        let all = self.all();
        all != 0 && all == self.unmarked
    }
}
