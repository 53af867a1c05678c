//! How fast messages were read, records audited, or calls made.

use std::time::Duration;

/// So many messages, records or calls, with so many octets together, in so much time.
#[derive(Clone, Copy)]
pub struct Rate {
    pub count: usize,
    pub octets: usize,
    pub nanoseconds: u64,
}

impl Rate {
    ghost use Rattle.std.specs.Prelude.{◌≡◌, ◌⊎◌, ◌-◌, ◌^◌, min};
    ghost use Rattle.std.specs.Duration.{as_nanos};
    ghost use Rattle.hc_bench.specs.Rates.{count_per_second, octets_per_second, cost, percent_of};

    /// So many of them and octets in that time, which counts as 584 years at most.
    pub fn new(count: usize, octets: usize, time: Duration) -> Self
        ensures count { result.count ≡ count }
        ensures octets { result.octets ≡ octets }
        ensures time { result.nanoseconds ≡ min (as_nanos time) (2 ^ 64 - 1) }
    {
        Rate {
            count,
            octets,
            nanoseconds: u64::try_from(time.as_nanos()).unwrap_or(u64::MAX),
        }
    }

    /// The one of the two that took less time.
    pub fn faster(self, other: Rate) -> Rate
        ensures one { (result ≡ self) ⊎ (result ≡ other) }
        ensures least { result.nanoseconds ≡ min self.nanoseconds other.nanoseconds }
    {
        if self.nanoseconds <= other.nanoseconds {
            self
        } else {
            other
        }
    }

    /// How many of them a second that is.
    pub fn count_per_second(&self) -> u128
        ensures { result ≡ count_per_second self.now }
    {
        self.count as u128 * 1_000_000_000 / u128::from(self.nanoseconds.max(1))
    }

    /// How many octets a second that is.
    pub fn octets_per_second(&self) -> u128
        ensures { result ≡ octets_per_second self.now }
    {
        self.octets as u128 * 1_000_000_000 / u128::from(self.nanoseconds.max(1))
    }

    /// How many femtoseconds an octet took.
    fn cost(&self) -> u128
        ensures { result ≡ cost self.now }
    {
        u128::from(self.nanoseconds) * 1_000_000 / (self.octets.max(1) as u128)
    }

    /// What an octet took, in percent of what an octet of the other took.
    pub fn percent_of(&self, other: &Rate) -> u128
        ensures { result ≡ percent_of self.now other.now }
    {
        self.cost() * 100 / other.cost().max(1)
    }
}
