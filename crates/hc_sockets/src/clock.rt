//! The system's clock.

use hc_links::Clock;
use std::time;

/// The system's clock. Where it can't be read, it tells the moment 0, which a cache takes for the last that it was told.
#[derive(Drop)]
pub struct SystemClock<'a, R: time::Clock> {
    /// The system.
    pub system: &'a R,
}

impl<'a, R: time::Clock> Clock for SystemClock<'a, R> {
    // No clause can know what the system tells.
    ghost may_tell = { λ _ _. Unit {0} };

    fn now(&self) -> u64 {
        match self.system.since_1970() {
            Ok(since) => since.as_secs(),
            Err(_) => 0,
        }
    }
}
