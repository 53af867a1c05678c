//! What a document tells of a report, and which of the wrong replies it explains.

use crate::found::{Group, Named, Suspect, unrecorded};
use crate::report::Report;
use crate::tries::Helpful;
use hc_figures::ReplyCounts;
use std::alloc::AllocError;

/// How many wrong replies are explained, if there are so many.
const MOST_EXPLAINED: usize = 200;

/// How many of a group at most, and at least.
const MOST_OF_GROUP: usize = 16;

const LEAST_OF_GROUP: usize = 2;

// The place of the target of which that reply is the first, or after all of them.
fn place_at(targets: &[Named], position: u64) -> usize {
    for (place, target) in targets.iter().enumerate() {
        if target.position == position {
            return place;
        }
    }
    targets.len()
}

// Whether that reply is the first of one of so many targets of a group.
fn is_among(groups: &[Group], position: u64, most: usize) -> bool {
    for group in groups {
        let targets = group.targets.kept.as_slice();
        let place = place_at(targets, position);
        if place < targets.len() && place < most {
            return true;
        }
    }
    false
}

impl Report {
    /// What its replies say of themselves.
    pub fn replies(&self) -> &ReplyCounts {
        &self.replies
    }

    /// How many of them are wrong.
    pub fn wrong(&self) -> u64 {
        self.wrongs.count
    }

    /// These by what is wrong in them.
    pub fn groups(&self) -> &[Group] {
        self.found.groups.kept.as_slice()
    }

    /// How many are in no group, or the greatest number.
    pub fn ungrouped(&self) -> u64 {
        self.found.groups.more
    }

    /// How many are of targets of which nothing is recorded.
    pub fn unrecorded(&self) -> u64 {
        unrecorded(self.groups())
    }

    /// The fields in which faults are suspected.
    pub fn suspects(&self) -> &[Suspect] {
        self.found.suspects.kept.as_slice()
    }

    /// What could be let pass so that fewer are wrong.
    pub fn helpful(&self) -> Result<Vec<Helpful>, AllocError> {
        self.found.tries.helpful(self.wrongs.count)
    }

    /// Whether a wrong reply is the first of its group that was asked for its target, of the targets that are named.
    pub fn names(&self, position: u64) -> bool {
        is_among(self.groups(), position, MOST_OF_GROUP)
    }

    /// Whether it is one of those that are explained: of each group the first, as many of each.
    pub fn explains(&self, position: u64) -> bool {
        let groups = self.groups();
        let share = MOST_EXPLAINED.checked_div(groups.len()).unwrap_or(0);
        is_among(groups, position, share.max(LEAST_OF_GROUP))
    }
}
