//! The places at the origin: who has one, and who waits for one.

ghost use Rattle.std.specs.Prelude.{◌≡◌, ◌+◌, ◌-◌, ◌≤◌, ◌++◌, ◌∷◌, ℕ, [], true, false, IfSome, OnErr, OnOk};
ghost use Rattle.std.specs.BTreeMap.{is_at};
ghost use Rattle.std.specs.Ordering.{nat_cmp};
ghost use Rattle.hc_agenda.specs.Places.{ChangesLine, ChangesOpened, HasPlaceLeft, IsNext, IsNextBehind, KeepsLines, KeepsPlaces, TakesForward, TakesNext, awaited_in, first_in, has_place, line_of, opened_in, places_given, places_in_all, unawaited_in, without_first};

use std::alloc::{AllocError, Global};
use std::collections::{BTreeMap, VecDeque};

/// A forward that may have a place.
#[derive(Clone, Copy)]
pub struct PlaceCandidate {
    pub forward: u64,
    /// Whether nobody awaits what comes on it.
    background: bool,
}

/// The places at the origin. Forwards wait for them in the order in which they were opened, those that nobody awaits
/// behind all others; these have half of all places at most.
#[derive(Drop)]
pub struct Places {
    /// How many places there are.
    most: usize,
    /// Those that were given, by forward: whether nobody awaited what comes on it.
    given: BTreeMap<u64, bool>,
    /// How many of these nobody awaits.
    background: usize,
    /// Forwards that were opened and aren't sorted yet.
    opened: VecDeque<u64>,
    /// Forwards that wait.
    awaited: VecDeque<u64>,
    /// Forwards that wait, and that nobody awaits.
    unawaited: VecDeque<u64>,
}

impl Places {
    /// So many places, of which none was given.
    pub fn new(alloc: Global, most: usize) -> Self
        ensures all { places_in_all result ≡ most }
        ensures none { places_given result ≡ 0 }
        ensures empty { (f : ℕ) → has_place f result ≡ false }
        ensures opened { opened_in result ≡ [] }
        ensures awaited { awaited_in result ≡ [] }
        ensures unawaited { unawaited_in result ≡ [] }
    {
        Places {
            most,
            given: BTreeMap::new(alloc),
            background: 0,
            opened: VecDeque::new(alloc),
            awaited: VecDeque::new(alloc),
            unawaited: VecDeque::new(alloc),
        }
    }

    /// A forward was opened.
    pub fn open(&mut self, forward: u64) -> Result<(), AllocError>
        ensures kept { KeepsPlaces self.old self.new }
        ensures only { ChangesOpened self.old self.new }
        ensures ok { OnOk result (opened_in self.new ≡ opened_in self.old ++ forward ∷ []) }
        ensures err { OnErr result (opened_in self.new ≡ opened_in self.old) }
    {
        self.opened.push_back(forward)?;
        Ok(())
    }

    /// The first of those that were opened and aren't sorted yet, which is left there.
    pub fn first_opened(&self) -> Option<u64>
        ensures { result ≡ first_in (opened_in self.now) }
    {
        first_of(&self.opened)
    }

    /// The first of these, which is taken out.
    pub fn next_opened(&mut self) -> Option<u64>
        ensures kept { KeepsPlaces self.old self.new }
        ensures only { ChangesOpened self.old self.new }
        ensures first { TakesForward result (opened_in self.old) (opened_in self.new) }
    {
        self.opened.pop_front()
    }

    /// A forward waits for a place.
    pub fn wait(&mut self, forward: u64, background: bool) -> Result<(), AllocError>
        ensures kept { KeepsPlaces self.old self.new }
        ensures only { ChangesLine background self.old self.new }
        ensures ok { OnOk result (line_of background self.new ≡ line_of background self.old ++ forward ∷ []) }
        ensures err { OnErr result (line_of background self.new ≡ line_of background self.old) }
    {
        if background {
            self.unawaited.push_back(forward)?;
        } else {
            self.awaited.push_back(forward)?;
        }
        Ok(())
    }

    /// The next forward that may have a place now, which is left in its line.
    pub fn candidate(&self) -> Option<PlaceCandidate>
        ensures { IsNext self.now result }
    {
        if self.given.len() >= self.most {
            return None;
        }
        if let Some(forward) = first_of(&self.awaited) {
            return Some(PlaceCandidate {
                forward,
                background: false,
            });
        }
        self.candidate_behind()
    }

    /// The same of those that nobody awaits, where none of the others waits and a place is left. Of an odd number of places
    /// the larger half is theirs, so that they have one at least.
    fn candidate_behind(&self) -> Option<PlaceCandidate>
        ensures { IsNextBehind self.now result }
    {
        if self.background >= self.most - self.most / 2 {
            return None;
        }
        let forward = first_of(&self.unawaited)?;
        Some(PlaceCandidate {
            forward,
            background: true,
        })
    }

    /// The next forward that may have a place now, which is taken out.
    pub fn next(&mut self) -> Option<PlaceCandidate>
        ensures kept { KeepsPlaces self.old self.new }
        ensures left { IfSome result (λ _. HasPlaceLeft self.new) }
        ensures first { IsNext self.old result }
        ensures taken { TakesNext result self.old self.new }
    {
        let candidate = self.candidate()?;
        if candidate.background {
            self.unawaited.pop_front();
        } else {
            self.awaited.pop_front();
        }
        Some(candidate)
    }

    /// A forward has a place. Where memory is refused, all is as it was.
    pub fn give(&mut self, candidate: PlaceCandidate) -> Result<(), AllocError>
        ensures all { places_in_all self.new ≡ places_in_all self.old }
        ensures one_more { places_given self.new ≤ places_given self.old + 1 }
        ensures kept { (f : ℕ) → has_place f self.old ≡ true → has_place f self.new ≡ true }
        ensures given { OnOk result (has_place candidate.forward self.new ≡ true) }
        ensures lines { KeepsLines self.old self.new }
    {
        let PlaceCandidate {
            forward,
            background,
        } = candidate;
        let before = self.given.insert(forward, background)?;
        if let Some(was_background) = before {
            self.count_out(was_background);
        }
        if background {
            self.background = self.background.saturating_add(1);
        }
        Ok(())
    }

    /// A forward waits no more. The one that has waited for longest is taken out at once, any other once its turn comes.
    pub fn leave(&mut self, forward: u64)
        ensures kept { KeepsPlaces self.old self.new }
        ensures opened { opened_in self.new ≡ opened_in self.old }
        ensures awaited { awaited_in self.new ≡ without_first forward (awaited_in self.old) }
        ensures unawaited { unawaited_in self.new ≡ without_first forward (unawaited_in self.old) }
    {
        take_first(&mut self.awaited, forward);
        take_first(&mut self.unawaited, forward);
    }

    /// Whether a forward has a place.
    pub fn has(&self, forward: u64) -> bool
        ensures { result ≡ has_place forward self.now }
    {
        self.given.contains_key(&forward)
    }

    /// A forward needs no place any more. Returns whether it had one.
    pub fn free(&mut self, forward: u64) -> bool
        ensures all { places_in_all self.new ≡ places_in_all self.old }
        ensures fewer { places_given self.new ≤ places_given self.old }
        ensures others { (f : ℕ) → is_at (nat_cmp forward) f ≡ false → has_place f self.new ≡ has_place f self.old }
        ensures freed { has_place forward self.new ≡ false }
        ensures had { result ≡ has_place forward self.old }
        ensures lines { KeepsLines self.old self.new }
    {
        let Some(background) = self.given.remove(&forward) else {
            return false;
        };
        self.count_out(background);
        true
    }

    /// A place isn't given any more.
    fn count_out(&mut self, background: bool)
        ensures kept { KeepsPlaces self.old self.new }
        ensures lines { KeepsLines self.old self.new }
    {
        if background {
            self.background = self.background.saturating_sub(1);
        }
    }
}

/// The first one of a line.
fn first_of(line: &VecDeque<u64>) -> Option<u64>
    ensures { result ≡ first_in line.now.items }
{
    line.front().copied()
}

/// Takes the first one out of a line, if it is that one.
fn take_first(line: &mut VecDeque<u64>, forward: u64)
    ensures { line.new.items ≡ without_first forward line.old.items }
{
    if first_of(line) == Some(forward) {
        line.pop_front();
    }
}
