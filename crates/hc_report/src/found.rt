//! What is found of the wrong replies: by what they are wrong, and what would make them right.

ghost use Rattle.std.specs.Prelude.{◌≤◌, vec_len};

use crate::tries::{Tries, WrongCase};
use hc_audit::JudgedReply;
use hc_fields::Octets;
use hc_gaps::{Change, Differences, FieldGap};
use hc_history::{Reason, ReplyClaim, Settings};
use hc_index::Index;
use hc_past::{Past, Shortfall, Wrong, names_response};
use hc_shown::{Page, Teller};
use std::alloc::{AllocError, Global};

// How many groups, targets of a group and suspected fields are kept at most.
const MOST_GROUPS: usize = 100;

const MOST_TARGETS: usize = 16;

const MOST_SUSPECTS: usize = 20;

/// The first things that came, up to a number of them. The rest is counted.
#[derive(Drop)]
pub(crate) struct Firsts<T> {
    most: usize,
    pub(crate) kept: Vec<T>,
    /// How many more there were, or the greatest number.
    pub(crate) more: u64,
    ghost few: { vec_len kept ≤ most },
}

impl<T: Drop> Firsts<T> {
    /// Nothing yet, and room for so many.
    pub(crate) fn new(alloc: Global, most: usize) -> Self {
        Firsts {
            most,
            kept: Vec::new(alloc),
            more: 0,
        }
    }

    /// Takes in one more.
    pub(crate) fn note(&mut self, one: T) -> Result<(), AllocError> {
        if self.kept.len() < self.most {
            self.kept.push(one)?;
        } else {
            self.more = self.more.saturating_add(1);
        }
        Ok(())
    }
}

/// A target of a group, as it is shown.
#[derive(Drop)]
pub(crate) struct Named {
    pub(crate) shown: String,
    /// The position of the first of its replies in the group.
    pub(crate) position: u64,
}

/// By how many seconds the replies of a group are off.
#[derive(Clone, Copy)]
pub(crate) struct Spread {
    pub(crate) least: u64,
    pub(crate) greatest: u64,
}

/// The wrong replies that have a reason in common, and the words for what is wrong in them.
#[derive(Drop)]
pub struct Group {
    /// The reason.
    pub reason: Reason,
    /// A word for what in them is.
    pub(crate) kind: &'static str,
    what: String,
    // In what a response falls short of the first of them, if that is what is wrong.
    shortfall: Option<Shortfall>,
    /// Whether no response of their targets is recorded.
    pub(crate) is_unrecorded: bool,
    /// How many there are, or the greatest number.
    pub count: u64,
    /// The position of the first of them.
    pub first: u64,
    /// What they were asked for, each target once, and how many were asked for another one.
    pub(crate) targets: Firsts<Named>,
    pub(crate) spread: Option<Spread>,
}

// By how many seconds a reply is off, if that is what is wrong.
fn spread_of(wrong: &Wrong<'_>) -> Option<Spread> {
    let (seconds, _) = wrong.shortfall()?.off()?;
    Some(Spread {
        least: seconds,
        greatest: seconds,
    })
}

impl Group {
    // The group of a reply at that position which is wrong so, before it has a target.
    fn of(
        alloc: Global,
        position: u64,
        reason: Reason,
        wrong: Wrong<'_>,
    ) -> Result<Self, AllocError> {
        let nearest = wrong.nearest.as_ref();
        let mut words = Page::new(alloc);
        wrong.why.name(nearest, wrong.near, &mut words);
        Ok(Group {
            reason,
            kind: wrong.why.kind(nearest),
            what: words.into_text()?,
            is_unrecorded: wrong.is_unrecorded(),
            count: 1,
            first: position,
            targets: Firsts::new(alloc, MOST_TARGETS),
            spread: spread_of(&wrong),
            shortfall: wrong.into_shortfall(),
        })
    }

    // Takes in a further reply, which is wrong as those of that group are.
    fn join(&mut self, other: &Group) {
        self.count = self.count.saturating_add(1);
        if let (Some(spread), Some(other)) = (self.spread, other.spread) {
            self.spread = Some(Spread {
                least: spread.least.min(other.least),
                greatest: spread.greatest.max(other.greatest),
            });
        }
    }

    // Names a target of its replies.
    fn name(&mut self, target: Named) -> Result<(), AllocError> {
        for known in self.targets.kept.iter() {
            if known.shown.as_str() == target.shown.as_str() {
                return Ok(());
            }
        }
        self.targets.note(target)
    }

    /// The fields in which the first of them differs, if these are what is wrong.
    pub(crate) fn differences(&self) -> Option<&Differences> {
        self.shortfall.as_ref()?.differences()
    }

    /// Writes what is wrong in its replies, and by how much.
    pub fn say_what(&self, page: &mut Page) {
        page.words(self.what.as_str());
        let Some(spread) = self.spread else {
            return;
        };
        page.count(" by ", spread.least, "");
        if spread.least != spread.greatest {
            page.count(" to ", spread.greatest, "");
        }
        page.words(" s");
    }

    /// Writes the first target, and how many more there are.
    pub fn say_targets(&self, page: &mut Page) {
        let targets = &self.targets;
        let Some((first, others)) = targets.kept.as_slice().split_first() else {
            return;
        };
        page.words(first.shown.as_str());
        let more = others.len() as u64;
        if targets.more != 0 {
            return page.count(" and over ", more, " more");
        }
        if more != 0 {
            page.count(" and ", more, " more");
        }
    }
}

// The place of the group to which a wrong reply belongs, or after all of them.
fn group_of(groups: &[Group], one: &Group) -> usize {
    for (place, group) in groups.iter().enumerate() {
        if group.reason == one.reason && group.what.as_str() == one.what.as_str() {
            return place;
        }
    }
    groups.len()
}

// Takes in a wrong reply, which is a group by itself, and its target: adds it to the group where it belongs, or begins one.
fn add(groups: &mut Firsts<Group>, mut one: Group, shown: String) -> Result<(), AllocError> {
    let target = Named {
        shown,
        position: one.first,
    };
    let place = group_of(groups.kept.as_slice(), &one);
    if place < groups.kept.len() {
        groups.kept[place].join(&one);
        return groups.kept[place].name(target);
    }
    one.name(target)?;
    groups.note(one)
}

/// How many replies are of targets of which nothing is recorded.
pub(crate) fn unrecorded(groups: &[Group]) -> u64 {
    for group in groups {
        if group.is_unrecorded {
            return group.count;
        }
    }
    0
}

/// A field that was dropped or changed, which is rather a fault than anything to be ignored.
#[derive(Drop)]
pub struct Suspect {
    pub(crate) name: Octets,
    pub(crate) change: Change,
    /// In how many wrong replies, or the greatest number.
    pub count: u64,
}

impl Suspect {
    /// Writes what became of it, and its name.
    pub fn say_what(&self, page: &mut Page) {
        page.words(self.change.word());
        page.said_octets(" ", self.name.as_slice(), "");
    }
}

/// What is found of the wrong replies.
#[derive(Drop)]
pub(crate) struct Found {
    alloc: Global,
    /// Them by what is wrong in them.
    pub(crate) groups: Firsts<Group>,
    /// The fields that were dropped or changed, each once.
    pub(crate) suspects: Firsts<Suspect>,
    /// What could be let pass so that fewer are wrong.
    pub(crate) tries: Tries,
}

// The place of a field among those that are suspected, or after all of them.
fn suspect_of(suspects: &[Suspect], gap: &FieldGap) -> usize {
    for (place, known) in suspects.iter().enumerate() {
        if known.change == gap.change && known.name == gap.name {
            return place;
        }
    }
    suspects.len()
}

impl Found {
    /// Nothing, in an audit by those settings.
    pub(crate) fn new(alloc: Global, settings: Settings) -> Result<Self, AllocError> {
        Ok(Found {
            alloc,
            groups: Firsts::new(alloc, MOST_GROUPS),
            suspects: Firsts::new(alloc, MOST_SUSPECTS),
            tries: Tries::new(alloc, settings)?,
        })
    }

    /// Takes in a wrong reply, of which that target is shown, after what is remembered of the records before it.
    pub(crate) fn take<I: Index>(
        &mut self,
        judged: &JudgedReply<'_, I>,
        reason: Reason,
        target: String,
        past: &Past,
    ) -> Result<(), AllocError> {
        let group = self.group_alone(judged, reason, past)?;
        add(&mut self.groups, group, target)
    }

    // The group of a wrong reply alone, before it has a target.
    fn group_alone<'a, I: Index>(
        &mut self,
        judged: &JudgedReply<'a, I>,
        reason: Reason,
        past: &'a Past,
    ) -> Result<Group, AllocError> {
        let wrong = match judged.claim() {
            Some(claim) => self.judge_again(judged, reason, &claim, past)?,
            None => Wrong::unasked(),
        };
        self.suspect_all(&wrong)?;
        Group::of(self.alloc, judged.position, reason, wrong)
    }

    // What is wrong with the reply that claims that, which is judged once more by what might make it right.
    fn judge_again<'a, I: Index>(
        &mut self,
        judged: &JudgedReply<'a, I>,
        reason: Reason,
        claim: &ReplyClaim<'a>,
        past: &'a Past,
    ) -> Result<Wrong<'a>, AllocError> {
        let may_carry = names_response(reason);
        let candidates = if may_carry {
            judged.candidates()?
        } else {
            Vec::new(self.alloc)
        };
        let listed = candidates.as_slice();
        let wrong = Wrong::read(self.alloc, judged.index, claim, reason, listed, past)?;
        let case = WrongCase {
            reason,
            candidates: listed,
            asks_part: may_carry && claim.request.fields.contains(b"range"),
        };
        self.tries.judge(judged, case, &wrong)?;
        Ok(wrong)
    }

    // Takes in the fields of a wrong reply that were dropped or changed.
    fn suspect_all(&mut self, wrong: &Wrong<'_>) -> Result<(), AllocError> {
        let Some(found) = wrong.differences() else {
            return Ok(());
        };
        for gap in found.listed.iter() {
            if gap.change != Change::Added {
                add_suspect(self.alloc, gap, &mut self.suspects)?;
            }
        }
        Ok(())
    }
}

fn add_suspect(
    alloc: Global,
    gap: &FieldGap,
    suspects: &mut Firsts<Suspect>,
) -> Result<(), AllocError> {
    let place = suspect_of(suspects.kept.as_slice(), gap);
    if place < suspects.kept.len() {
        let known = &mut suspects.kept[place];
        known.count = known.count.saturating_add(1);
        return Ok(());
    }
    suspects.note(Suspect {
        name: gap.name.copy(alloc)?,
        change: gap.change,
        count: 1,
    })
}
