//! Who awaits what comes on a forward, and whether it goes on where nobody does.

ghost use Rattle.std.specs.Prelude.{◌≡◌};
ghost use Rattle.hc_core.specs.Held.{goes_on};

use crate::desk::Desk;
use crate::releasing::listed;
use hc_head::{Target, is_unsafe};
use hc_service::{OpenForward, Purpose};
use std::alloc::AllocError;
use std::hash::BuildHasher;

/// Whether a forward goes on where nobody awaits what comes on it.
fn goes_on(forward: &OpenForward) -> bool
    ensures { result ≡ goes_on forward.now }
{
    match forward.purpose {
        Purpose::Background => true,
        Purpose::Reply { .. } => is_unsafe(&forward.request.method),
    }
}

impl<S: BuildHasher> Desk<S> {
    ghost use Rattle.std.specs.Prelude.{◌≡◌, IfOk};
    ghost use Rattle.std.specs.Option.{option_copied};
    ghost use Rattle.hc_service.specs.declared.settings.CoreSettings.{CoreSettings};
    ghost use Rattle.hc_service.specs.Serves.{answered_by, clients_of};
    ghost use Rattle.hc_service.specs.State.{State};
    ghost use Rattle.hc_core.specs.Held.{exchange_of, is_needed, target_at};
    ghost use Rattle.hc_core.specs.Standing.{DeskStandsFor};

    /// Whether that forward is open, and goes on where nobody awaits what comes on it.
    pub(crate) fn is_needed(&self, forward: u64) -> bool
        ensures { (settings : CoreSettings) (s : State) → DeskStandsFor settings self.now s → result ≡ is_needed forward s }
    {
        match self.links.by_number.get(&forward) {
            Some(link) => goes_on(&link.forward),
            None => false,
        }
    }

    /// What that forward asks for, if it is open.
    pub(crate) fn target_of(&self, forward: u64) -> Option<&Target>
        ensures { (settings : CoreSettings) (s : State) → DeskStandsFor settings self.now s → option_copied result ≡ target_at forward s }
    {
        match self.links.by_number.get(&forward) {
            Some(link) => Some(&link.forward.target),
            None => None,
        }
    }

    /// The exchange for which that forward was sent, if it is open and was sent for one.
    fn exchange_of(&self, forward: u64) -> Option<u64>
        ensures { (settings : CoreSettings) (s : State) → DeskStandsFor settings self.now s → result ≡ exchange_of forward s }
    {
        match self.links.by_number.get(&forward) {
            Some(link) => link.forward.purpose.exchange(),
            None => None,
        }
    }

    /// The exchanges that the end of that forward answers: that for which it was sent, then those that wait for it, by
    /// rising number.
    fn answered_by(&self, forward: u64) -> Result<Vec<u64>, AllocError>
        ensures { (settings : CoreSettings) (s : State) → DeskStandsFor settings self.now s
            → IfOk result (λ numbers. numbers.items ≡ answered_by forward s) }
    {
        let mut numbers = listed(self.alloc, self.exchange_of(forward))?;
        let waiting = self.exchanges.waiting_for(self.alloc, forward)?;
        numbers.extend_from_slice(waiting.as_slice())?;
        Ok(numbers)
    }

    /// The connections on which those exchanges came.
    pub(crate) fn clients_of(&self, forward: u64) -> Result<Vec<u64>, AllocError>
        ensures { (settings : CoreSettings) (s : State) → DeskStandsFor settings self.now s
            → IfOk result (λ clients. clients.items ≡ clients_of forward s) }
    {
        let numbers = self.answered_by(forward)?;
        self.exchanges
            .connections_of(self.alloc, numbers.as_slice())
    }
}
