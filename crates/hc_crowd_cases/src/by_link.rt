//! Octets by link.

use hc_crowd_world::key_of;
use hc_order::Receiver;
use std::alloc::{AllocError, Global};
use std::collections::BTreeMap;

/// Octets by link.
pub(crate) struct ByLink {
    alloc: Global,
    table: BTreeMap<u64, Vec<u8>>,
}

impl Drop for ByLink {
    fn drop(self) {
        let ByLink { alloc: _, table } = self;
        drop(table);
    }
}

impl ByLink {
    /// None.
    pub(crate) fn new(alloc: Global) -> Self {
        ByLink {
            alloc,
            table: BTreeMap::new(alloc),
        }
    }

    /// Puts octets behind those of the same link.
    pub(crate) fn put(&mut self, link: Receiver, octets: &[u8]) -> Result<(), AllocError> {
        let key = key_of(link);
        if let Some(text) = self.table.get_mut(&key) {
            return text.extend_from_slice(octets);
        }
        self.table
            .insert(key, Vec::from_slice(self.alloc, octets)?)?;
        Ok(())
    }

    /// What is there of the link of that key.
    pub(crate) fn at(&self, key: u64) -> &[u8] {
        match self.table.get(&key) {
            Some(octets) => octets.as_slice(),
            None => b"",
        }
    }
}
