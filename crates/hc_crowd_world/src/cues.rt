//! What is to be done, and when.

use crate::deeds::{Act, Deed};
use hc_order::Receiver;
use std::alloc::{AllocError, Global};
use std::collections::BTreeMap;

/// How many deeds of one millisecond are kept in order.
const DEEDS_OF_ONE: u64 = 1_048_576;

/// What is to be done, by millisecond, and in the order in which it was put there.
pub(crate) struct Cues {
    table: BTreeMap<u64, Deed>,
    /// How many were put there.
    count: u64,
}

impl Drop for Cues {
    fn drop(self) {
        let Cues { table, count: _ } = self;
        drop(table);
    }
}

impl Cues {
    /// None.
    pub(crate) fn new(alloc: Global) -> Self {
        Cues {
            table: BTreeMap::new(alloc),
            count: 0,
        }
    }

    /// That is to be done at that millisecond.
    pub(crate) fn put(&mut self, tick: u64, deed: Deed) -> Result<(), AllocError> {
        self.count = self.count.saturating_add(1);
        let place = tick.saturating_mul(DEEDS_OF_ONE).saturating_add(self.count);
        self.table.insert(place, deed)?;
        Ok(())
    }

    /// The other side of that link is to do that.
    pub(crate) fn act(&mut self, tick: u64, link: Receiver, act: Act) -> Result<(), AllocError> {
        self.put(tick, Deed::Does(link, act))
    }

    /// The millisecond of the first of them.
    pub(crate) fn first(&self) -> Option<u64> {
        let (place, _) = self.table.first_key_value()?;
        Some(*place / DEEDS_OF_ONE)
    }

    /// The first, which is taken out, if it is to be done by that millisecond.
    pub(crate) fn next(&mut self, tick: u64) -> Option<Deed> {
        if self.first()? > tick {
            return None;
        }
        let (_, deed) = self.table.pop_first()?;
        Some(deed)
    }
}
