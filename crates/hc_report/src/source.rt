//! Of which recording a report is: in which format, and with which targets.

ghost use Rattle.std.specs.Prelude.{ℕ, IfOk};
ghost use Rattle.hc_figures.specs.Nesting.{NestsTo};

use hc_audit::JudgedReply;
use hc_figures::{Baseline, Object};
use hc_index::Index;
use hc_shown::push_target;
use hc_transcript::Format;
use serde_json::Value;
use std::alloc::{AllocError, Global};
use std::collections::BTreeSet;

// Where a hash begins, and by what it is multiplied after each octet: FNV-1a of 64 bits.
const BASIS: u64 = 0xcbf2_9ce4_8422_2325;

const PRIME: u64 = 0x100_0000_01b3;

/// What is kept of a recording, so that a later report can tell whether it is on another. It takes memory for each target.
#[derive(Drop)]
pub(crate) struct Source {
    alloc: Global,
    /// The number of its format, if it has replies.
    pub(crate) format: Option<u64>,
    // A hash of each target of a request that was answered.
    targets: BTreeSet<u64>,
}

impl Source {
    /// Of a recording of which nothing has come.
    pub(crate) fn new(alloc: Global) -> Self {
        Source {
            alloc,
            format: None,
            targets: BTreeSet::new(alloc),
        }
    }

    /// Takes in a reply.
    pub(crate) fn see<I: Index>(&mut self, judged: &JudgedReply<'_, I>) -> Result<(), AllocError> {
        self.format = Some(match judged.format {
            Format::First => 1,
            Format::Second => 2,
        });
        let Some(claim) = judged.claim() else {
            return Ok(());
        };
        let mut target = String::new(self.alloc);
        push_target(claim.target, &mut target)?;
        match self.targets.insert(hashed(BASIS, target.as_bytes())) {
            Ok(_) => Ok(()),
            Err(_) => Err(AllocError),
        }
    }

    /// The targets as JSON: how many there are, and a digest of them, which is the same in whatever order they came.
    pub(crate) fn targets_json(&self) -> Result<Value, AllocError>
        ensures { IfOk result (NestsTo 1) }
    {
        let digest = self.digest()?;
        let mut targets = Object::new(self.alloc);
        targets.number("count", self.targets.len() as u64);
        targets.text("digest", digest.as_str());
        targets.into_value()
    }

    /// Whether a baseline says that it is of other targets.
    pub(crate) fn is_other_than(&self, baseline: &Baseline) -> Result<bool, AllocError> {
        match baseline.digest() {
            Some(digest) => Ok(self.digest()?.as_str() != digest),
            None => Ok(false),
        }
    }

    /// The same as JSON.
    pub(crate) fn other_json(&self, baseline: &Baseline) -> Result<Value, AllocError>
        ensures { (n : ℕ) → IfOk result (NestsTo n) }
    {
        Ok(Value::from(self.is_other_than(baseline)?))
    }

    fn digest(&self) -> Result<String, AllocError> {
        let mut digest = BASIS;
        for target in self.targets.iter() {
            digest = hashed(digest, &target.to_be_bytes());
        }
        format!(in self.alloc; "{digest:016x}")
    }
}

// The hash that goes on from one by these octets.
fn hashed(begun: u64, octets: &[u8]) -> u64 {
    let mut hash = begun;
    for octet in octets {
        hash = (hash ^ u64::from(*octet)).wrapping_mul(PRIME);
    }
    hash
}
