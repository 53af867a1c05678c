//! What a part has: how much, and which digests.

use sha2::{Digest, Sha256};

/// What a part has, as its octets and those of its table come.
pub struct Tally {
    records: u64,
    octets: u64,
    text: Sha256,
    table: Sha256,
}

impl Drop for Tally {
    fn drop(self) {
        let Tally {
            records: _,
            octets: _,
            text,
            table,
        } = self;
        drop(text);
        drop(table);
    }
}

/// What a part has: records, octets, and the digests by SHA-256 of its octets and of its table.
#[derive(Clone, Copy)]
pub struct Extent {
    /// The records: as many as the table has lines.
    pub records: u64,
    /// The octets, those of the opening among them.
    pub octets: u64,
    /// The digest of these octets.
    pub text: [u8; 32],
    /// And that of the table.
    pub table: [u8; 32],
}

impl Tally {
    /// Of a part that has nothing.
    pub fn new() -> Self {
        Tally {
            records: 0,
            octets: 0,
            text: Sha256::new(),
            table: Sha256::new(),
        }
    }

    /// Takes in octets more of the part.
    pub fn add_text(&mut self, octets: &[u8]) {
        self.octets = self.octets.saturating_add(octets.len() as u64);
        self.text.update(octets);
    }

    /// Takes in octets more of its table.
    pub fn add_table(&mut self, octets: &[u8]) {
        for octet in octets.iter() {
            if *octet == b'\n' {
                self.records = self.records.saturating_add(1);
            }
        }
        self.table.update(octets);
    }

    /// What the part has.
    pub fn extent(self) -> Extent {
        let Tally {
            records,
            octets,
            text,
            table,
        } = self;
        Extent {
            records,
            octets,
            text: text.finalize(),
            table: table.finalize(),
        }
    }
}
