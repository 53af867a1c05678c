//! The open forwards, and the open exchanges for which one was made.

ghost use Rattle.std.specs.Prelude.{◌≡◌, ◌==◌, ◌||◌, ℕ, false, OnOk, if◌then◌else◌, option_copied};
ghost use Rattle.std.specs.BTreeMap.{get};
ghost use Rattle.std.specs.BTreeSet.{contains};
ghost use Rattle.std.specs.Ordering.{nat_cmp};
ghost use Rattle.hc_history.specs.Windows.{is_number_of};
ghost use Rattle.hc_index.specs.Lists.{is_made_for};
ghost use Rattle.hc_index.specs.Forwards.{BeginsAnew, Opens, Takes};

use crate::kept::RecordedForward;
use std::alloc::{AllocError, Global};
use std::collections::{BTreeMap, BTreeSet};

/// The open forwards, and the open exchanges for which one was made.
pub(crate) struct OpenForwards {
    by_number: BTreeMap<u64, RecordedForward>,
    made_for: BTreeSet<u64>,
}

impl Drop for OpenForwards {
    fn drop(self) {
        let OpenForwards {
            by_number,
            made_for,
        } = self;
        drop(by_number);
        drop(made_for);
    }
}

/// Takes in that a forward was made for the exchange of that number, if it was for one.
fn add_cause(made_for: &mut BTreeSet<u64>, cause: Option<u64>) -> Result<(), AllocError>
    ensures { OnOk result ((e : ℕ) → contains nat_cmp made_for.new e ≡ (is_number_of e cause || contains nat_cmp made_for.old e)) }
{
    let Some(exchange) = cause else {
        return Ok(());
    };
    made_for.insert(exchange)?;
    Ok(())
}

impl OpenForwards {
    /// None is open.
    pub(crate) fn new(alloc: Global) -> Self
        ensures forwards { (f : ℕ) → get nat_cmp result.by_number f ≡ None }
        ensures made_for { (e : ℕ) → contains nat_cmp result.made_for e ≡ false }
    {
        OpenForwards {
            by_number: BTreeMap::new(alloc),
            made_for: BTreeSet::new(alloc),
        }
    }

    /// The open forward of that number.
    pub(crate) fn get(&self, number: u64) -> Option<&RecordedForward>
        ensures { option_copied result ≡ get nat_cmp self.now.by_number number }
    {
        self.by_number.get(&number)
    }

    /// Whether a forward was made for the exchange of that number.
    pub(crate) fn is_made_for(&self, exchange: u64) -> bool
        ensures { result ≡ is_made_for exchange self.now }
    {
        self.made_for.contains(&exchange)
    }

    /// Takes in that the exchange of that number is opened or closed: no forward was made for it.
    pub(crate) fn begin_anew(&mut self, exchange: u64)
        ensures { BeginsAnew exchange self.old self.new }
    {
        self.made_for.remove(&exchange);
    }

    /// Opens the forward, which has that number.
    pub(crate) fn open(&mut self, number: u64, forward: RecordedForward) -> Result<(), AllocError>
        ensures { OnOk result (Opens number forward self.old self.new) }
    {
        let cause = forward.cause;
        self.by_number.insert(number, forward)?;
        add_cause(&mut self.made_for, cause)
    }

    /// Closes the forward of that number, and hands it out.
    pub(crate) fn take(&mut self, number: u64) -> Option<RecordedForward>
        ensures { Takes number result self.old self.new }
    {
        self.by_number.remove(&number)
    }
}
