//! How much is held, as far as is known without a look at each link.

ghost use Rattle.std.specs.Prelude.{◌≡◌, ◌+◌, ◌-◌, ◌≤◌, ◌^◌, min, nat_lt};
ghost use Rattle.hc_agenda.specs.Loads.{cuts_to, looks_above, most_held};

/// How much is held, as far as is known without a look at each link. They are looked at where as much came since the last
/// look that no more than a sixteenth of what may be held is left. Then some are cut off, if no eighth is left of it.
#[derive(Clone, Copy)]
pub struct Holding {
    /// How many octets were held when each link was looked at.
    reckoned: u64,
    /// How many came or were sent since.
    grown: u64,
}

impl Holding {
    /// Nothing is held.
    pub fn new() -> Self
        ensures { most_held result ≡ 0 }
    {
        Holding {
            reckoned: 0,
            grown: 0,
        }
    }

    /// Each link was looked at: so many octets are held.
    pub fn reckoned(sum: u64) -> Self
        ensures { most_held result ≡ sum }
    {
        Holding {
            reckoned: sum,
            grown: 0,
        }
    }

    /// So many octets came, or were sent.
    pub fn grow(&mut self, octets: usize)
        ensures reckoned { self.new.reckoned ≡ self.old.reckoned }
        ensures grown { self.new.grown ≡ min (self.old.grown + octets) (2 ^ 64 - 1) }
    {
        self.grown = self.grown.saturating_add(octets as u64);
    }

    /// Whether each link has to be looked at, where so much may be held.
    pub fn looks(self, limit: u64) -> bool
        ensures { result ≡ nat_lt (looks_above limit) (most_held self) }
    {
        self.reckoned.saturating_add(self.grown) > limit - limit / 16
    }

    /// Links are cut off until no more than so much is held, where so much may be.
    pub fn cuts_to(limit: u64) -> u64
        ensures to { result ≡ cuts_to limit }
        ensures less { result ≤ looks_above limit }
    {
        limit - limit / 8
    }
}
