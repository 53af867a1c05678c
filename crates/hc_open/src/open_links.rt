//! The forwards that are open.

ghost use Rattle.std.specs.Prelude.{◌≡◌};
ghost use Rattle.hc_service.specs.Reactions.{is_for_store};

use crate::groups::Groups;
use crate::links::Link;
use crate::open_exchanges::OpenExchanges;
use hc_head::Target;
use hc_reactions::OpenBehind;
use hc_service::{OpenForward, Purpose, may_be_joined};
use std::alloc::{AllocError, Global};
use std::collections::BTreeMap;

/// The forwards that are open, by number, and by target those among them that are for the store alone, and those that
/// other requests may wait for.
pub struct OpenLinks {
    pub by_number: BTreeMap<u64, Link>,
    /// The number of the one for the store alone that is open for a target.
    pub behind: BTreeMap<Target, u64>,
    /// Those that other requests may wait for, by their target.
    joinable: Groups<Target>,
}

impl Drop for OpenLinks {
    fn drop(self) {
        let OpenLinks {
            by_number,
            behind,
            joinable,
        } = self;
        drop(by_number);
        drop(behind);
        drop(joinable);
    }
}

/// Whether a forward is for the store alone.
fn is_for_store(purpose: Purpose) -> bool
    ensures { result ≡ is_for_store purpose }
{
    match purpose {
        Purpose::Background => true,
        Purpose::Reply { .. } => false,
    }
}

impl OpenLinks {
    ghost use Rattle.std.specs.Prelude.{◌≡◌, ℕ, None, OnOk, Some};
    ghost use Rattle.std.specs.FinMap.{empty, get, insert, len, remove};
    ghost use Rattle.hc_reactions.specs.Reacting.{IsOpenBehind};
    ghost use Rattle.hc_service.specs.Joining.{IsLeast};
    ghost use Rattle.hc_service.specs.State.{Awaited, OpenNow, Table};
    ghost use Rattle.hc_open.specs.Groups.{AreGrouped};
    ghost use Rattle.hc_open.specs.Links.{AreBehind, AreExchanges, AreLinks, HasPlace, IsLink, TakesLink, by_target, is_joinable_for};

    /// None is open.
    pub fn new(alloc: Global) -> Self
        ensures { AreLinks result empty }
    {
        OpenLinks {
            by_number: BTreeMap::new(alloc),
            behind: BTreeMap::new(alloc),
            joinable: Groups::new(alloc),
        }
    }

    /// How many are open.
    pub fn len(&self) -> usize
        ensures { (forwards : Table Awaited) → AreLinks self.now forwards → result ≡ len forwards }
    {
        self.by_number.len()
    }

    /// How many are open for the store alone, and whether one of them is for that target.
    pub fn open_behind(&self, target: &Target) -> OpenBehind
        ensures { (forwards : Table Awaited) → AreLinks self.now forwards → IsOpenBehind target.now forwards result }
    {
        OpenBehind {
            count: self.behind.len(),
            for_target: self.behind.contains_key(target),
        }
    }

    /// The forward of that number was taken out.
    pub fn forget(&mut self, number: u64, forward: &OpenForward)
        ensures by_number { self.new.by_number ≡ self.old.by_number }
        ensures others { (forwards : Table Awaited) (a : Awaited) → AreBehind self.old.behind forwards
            → AreGrouped by_target is_joinable_for self.old.joinable.sets forwards
            → get forwards number ≡ Some a → a.forward ≡ forward.now
            → AreBehind self.new.behind (remove forwards number)
            × AreGrouped by_target is_joinable_for self.new.joinable.sets (remove forwards number) }
    {
        self.forget_behind(forward);
        self.forget_joinable(number, forward);
    }

    /// A forward was taken out; what is known of those for the store alone follows.
    fn forget_behind(&mut self, forward: &OpenForward)
        ensures by_number { self.new.by_number ≡ self.old.by_number }
        ensures joinable { self.new.joinable ≡ self.old.joinable }
        ensures behind { (forwards : Table Awaited) (f : ℕ) (a : Awaited) → AreBehind self.old.behind forwards
            → get forwards f ≡ Some a → a.forward ≡ forward.now → AreBehind self.new.behind (remove forwards f) }
    {
        if !is_for_store(forward.purpose) {
            return;
        }
        self.behind.remove(&forward.target);
    }

    /// The forward of that number was taken out; what is known of those that may be waited for follows.
    fn forget_joinable(&mut self, number: u64, forward: &OpenForward)
        ensures by_number { self.new.by_number ≡ self.old.by_number }
        ensures behind { self.new.behind ≡ self.old.behind }
        ensures joinable { (forwards : Table Awaited) (a : Awaited) → AreGrouped by_target is_joinable_for self.old.joinable.sets forwards
            → get forwards number ≡ Some a → a.forward ≡ forward.now
            → AreGrouped by_target is_joinable_for self.new.joinable.sets (remove forwards number) }
    {
        if !may_be_joined(forward.purpose) {
            return;
        }
        self.joinable.remove(&forward.target, number);
    }

    /// Takes out the forward of that number.
    pub fn take(&mut self, number: u64) -> Option<Link>
        ensures { (forwards : Table Awaited) → AreLinks self.old forwards → TakesLink number result forwards self.new }
    {
        let link = self.by_number.remove(&number)?;
        self.forget(number, &link.forward);
        Some(link)
    }

    /// Notes a forward that opens under that number, under which none is open.
    fn note(&mut self, alloc: Global, number: u64, forward: &OpenForward) -> Result<(), AllocError>
        ensures by_number { self.new.by_number ≡ self.old.by_number }
        ensures others { (forwards : Table Awaited) (a : Awaited) → AreBehind self.old.behind forwards
            → AreGrouped by_target is_joinable_for self.old.joinable.sets forwards
            → get forwards number ≡ None → a.forward ≡ forward.now → HasPlace a forwards
            → OnOk result (AreBehind self.new.behind (insert forwards number a)
            × AreGrouped by_target is_joinable_for self.new.joinable.sets (insert forwards number a)) }
    {
        self.note_behind(alloc, number, forward)?;
        self.note_joinable(alloc, number, forward)
    }

    /// A forward opens; what is known of those for the store alone follows.
    fn note_behind(
        &mut self,
        alloc: Global,
        number: u64,
        forward: &OpenForward,
    ) -> Result<(), AllocError>
        ensures by_number { self.new.by_number ≡ self.old.by_number }
        ensures joinable { self.new.joinable ≡ self.old.joinable }
        ensures behind { (forwards : Table Awaited) (a : Awaited) → AreBehind self.old.behind forwards
            → get forwards number ≡ None → a.forward ≡ forward.now → HasPlace a forwards
            → OnOk result (AreBehind self.new.behind (insert forwards number a)) }
    {
        if !is_for_store(forward.purpose) {
            return Ok(());
        }
        let target = forward.target.copy(alloc)?;
        self.behind.insert(target, number)?;
        Ok(())
    }

    /// A forward opens; what is known of those that may be waited for follows.
    fn note_joinable(
        &mut self,
        alloc: Global,
        number: u64,
        forward: &OpenForward,
    ) -> Result<(), AllocError>
        ensures by_number { self.new.by_number ≡ self.old.by_number }
        ensures behind { self.new.behind ≡ self.old.behind }
        ensures joinable { (forwards : Table Awaited) (a : Awaited) → AreGrouped by_target is_joinable_for self.old.joinable.sets forwards
            → get forwards number ≡ None → a.forward ≡ forward.now
            → OnOk result (AreGrouped by_target is_joinable_for self.new.joinable.sets (insert forwards number a)) }
    {
        if !may_be_joined(forward.purpose) {
            return Ok(());
        }
        let target = forward.target.copy(alloc)?;
        self.joinable.add(alloc, target, number)
    }

    /// A forward opens under that number. None is open under it, unless all numbers are used up; that one
    /// is given up then.
    pub fn put(&mut self, alloc: Global, number: u64, link: Link) -> Result<(), AllocError>
        ensures { (forwards : Table Awaited) (a : Awaited) → AreLinks self.old forwards → IsLink link a → HasPlace a forwards
            → OnOk result (AreLinks self.new (insert forwards number a)) }
    {
        drop(self.take(number));
        self.note(alloc, number, &link.forward)?;
        self.by_number.insert(number, link)?;
        Ok(())
    }

    /// The least forward of another request that one for that target may wait for, if there is one. Of those that
    /// come before it each has as many waiting as may.
    pub fn least_joinable(&self, exchanges: &OpenExchanges, target: &Target) -> Option<u64>
        ensures { (underway : OpenNow) → AreLinks self.now underway.forwards → AreExchanges exchanges.now underway.exchanges
            → IsLeast target.now underway result }
    {
        let numbers = self.joinable.at(target)?;
        numbers
            .iter()
            .copied()
            .find(|number| exchanges.has_place(*number))
    }
}
