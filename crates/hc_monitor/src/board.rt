//! Where whoever serves and whoever answers those who watch leave word for each other.

use std::cell::Cell;

/// Where whoever serves and whoever answers those who watch leave word for each other, in one thread.
pub struct Board {
    /// Whether the numbers are asked for.
    wanted: Cell<bool>,
    /// The numbers as they are told, since they were asked for.
    metrics: Cell<Option<Vec<u8>>>,
}

impl Drop for Board {
    fn drop(self) {
        let Board { wanted, metrics } = self;
        drop(wanted);
        drop(metrics);
    }
}

impl Board {
    /// Nothing is asked for.
    pub fn new() -> Self {
        Board {
            wanted: Cell::new(false),
            metrics: Cell::new(None),
        }
    }

    /// The numbers are asked for.
    pub fn ask(&self) {
        self.wanted.set(true);
    }

    /// Whether the numbers are asked for.
    pub fn is_asked(&self) -> bool {
        self.wanted.get()
    }

    /// The numbers are told; or none, where memory was refused for them. They aren't asked for any more.
    pub fn tell(&self, metrics: Option<Vec<u8>>) {
        self.wanted.set(false);
        drop(self.metrics.replace(metrics));
    }

    /// Takes the numbers that were told, if they were since this was asked last.
    pub fn take(&self) -> Option<Vec<u8>> {
        self.metrics.replace(None)
    }
}
