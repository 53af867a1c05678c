//! Numbers by chance.

/// Numbers by chance, the same for the same seed (splitmix64).
#[derive(Clone, Copy)]
pub(crate) struct Dice {
    state: u64,
}

impl Dice {
    /// Those of that seed.
    pub(crate) fn of(seed: u64) -> Self {
        Dice { state: seed }
    }

    fn throw(&mut self) -> u64 {
        self.state = self.state.wrapping_add(0x9e37_79b9_7f4a_7c15);
        let mixed = (self.state ^ (self.state >> 30)).wrapping_mul(0xbf58_476d_1ce4_e5b9);
        let mixed = (mixed ^ (mixed >> 27)).wrapping_mul(0x94d0_49bb_1331_11eb);
        mixed ^ (mixed >> 31)
    }

    /// A number below that one; 0 below 0.
    pub(crate) fn below(&mut self, bound: u64) -> u64 {
        self.throw() % bound.max(1)
    }

    /// A number from 1 up to that one.
    pub(crate) fn up_to(&mut self, most: u64) -> u64 {
        self.below(most).saturating_add(1)
    }

    /// Whether it is the one of so many times.
    pub(crate) fn once_in(&mut self, times: u64) -> bool {
        self.below(times) == 0
    }

    /// A time of 100 milliseconds and more, by a number below that one.
    pub(crate) fn timeout(&mut self, bound: u64) -> u64 {
        self.below(bound).saturating_add(100)
    }

    /// A number from 1 up to the first one, and the one of so many times up to the second.
    pub(crate) fn mostly(&mut self, times: u64, most: u64, other: u64) -> u64 {
        let most = if self.once_in(times) { other } else { most };
        self.up_to(most)
    }

    /// Below so many milliseconds things follow one another.
    pub(crate) fn scale(&mut self) -> u64 {
        match self.below(4) {
            0 => 1,
            1 => 2_000,
            _ => 60,
        }
    }
}
