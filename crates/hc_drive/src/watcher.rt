//! Who watches what happens at links, what the cache does by it, and how links and the recorder are between batches.

ghost use Rattle.std.specs.Prelude.{◌≡◌};
ghost use Rattle.std.proofs.Common.{refl, ◌∙◌};

use hc_links::Awaiting;
use hc_order::Occurrence;
use hc_service::Action;

/// Who watches what happens at links, what the cache does by it, and how links and the recorder are between batches: to tell
/// what is amiss, or what was replied. It changes nothing of these.
pub trait Watcher<L, R> {
    /// What watching may make of it.
    ghost may_become: { Self → Self → Type 0 };

    /// Something happens, of which the cache isn't told yet.
    fn hear(&mut self, links: &L, occurrence: &Occurrence)
        ensures { may_become self.old self.new };

    /// The cache has done that by it, all of which was carried out.
    fn see<A: Awaiting>(&mut self, links: &L, cache: &A, actions: &[Action])
        ensures { may_become self.old self.new };

    /// Looks at the links, at the cache and at the recorder, behind a batch: its records were flushed, and what is owed was
    /// written, as far as links take it now.
    fn look<A: Awaiting>(&mut self, links: &L, cache: &A, recorder: &R)
        ensures { may_become self.old self.new };

    // Where nothing is watched it is as it was.
    ghost stays: { (watcher : Self) → may_become watcher watcher };

    // One thing may follow others.
    ghost goes_on: { (first then last : Self) → may_become first then → may_become then last → may_become first last };
}

/// Nobody watches.
#[derive(Clone, Copy)]
pub struct Unwatched;

impl<L, R> Watcher<L, R> for Unwatched {
    ghost may_become = { λ before after. after ≡ before };

    fn hear(&mut self, _links: &L, _occurrence: &Occurrence) {}

    fn see<A: Awaiting>(&mut self, _links: &L, _cache: &A, _actions: &[Action]) {}

    fn look<A: Awaiting>(&mut self, _links: &L, _cache: &A, _recorder: &R) {}

    ghost stays = { λ _. refl };

    ghost goes_on = { λ _ _ _ one other. other ∙ one };
}
