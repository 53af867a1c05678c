//! Which events are served.

ghost use Rattle.std.specs.Prelude.{◌≡◌};
ghost use Rattle.hc_service.specs.Numbers.{is_later};

use crate::desk::Desk;
use hc_fields::END_OF_MOMENTS;
use hc_service::{Event, Happening, StepFault};
use std::hash::BuildHasher;

/// Whether the number is greater than those of all connections before.
fn is_later(number: u64, last: Option<u64>) -> bool
    ensures { result ≡ is_later number last }
{
    match last {
        None => true,
        Some(last) => last < number,
    }
}

impl<S: BuildHasher> Desk<S> {
    ghost use Rattle.std.specs.Prelude.{◌≡◌, ◌<◌, IfSome, None};
    ghost use Rattle.hc_fields.specs.Numbers.{end_of_moments};
    ghost use Rattle.hc_service.specs.declared.settings.CoreSettings.{CoreSettings};
    ghost use Rattle.hc_service.specs.State.{State};
    ghost use Rattle.hc_service.specs.Serves.{first_fault, is_full, is_known};
    ghost use Rattle.hc_core.specs.Standing.{DeskStandsFor};
    ghost use Rattle.hc_core.specs.Steps.{IsOfTest};

    /// Whether what the event is about is open, or has a number that may be opened; or it is about the cache as a whole.
    fn is_known(&self, of: &Happening) -> bool
        ensures { (settings : CoreSettings) (s : State) → DeskStandsFor settings self.now s → result ≡ is_known of.now s }
    {
        match of {
            Happening::ClientOpened(c) => is_later(*c, self.numbers.connection),
            Happening::ClientBytes(c, _) => self.clients.contains_key(c),
            Happening::ClientEnd(c) => self.clients.contains_key(c),
            Happening::OriginBytes(f, _) => self.links.by_number.contains_key(f),
            Happening::OriginEnd(f) => self.links.by_number.contains_key(f),
            Happening::OriginFailed(f) => self.links.by_number.contains_key(f),
            Happening::Stopping => true,
        }
    }

    /// Whether the event opens a connection, and as many are open as may be.
    fn is_full(&self, of: &Happening) -> bool
        ensures { (settings : CoreSettings) (s : State) → DeskStandsFor settings self.now s → result ≡ is_full of.now s }
    {
        match of {
            Happening::ClientOpened(_) => self.numbers.room <= self.clients.len(),
            Happening::ClientBytes(_, _) => false,
            Happening::ClientEnd(_) => false,
            Happening::OriginBytes(_, _) => false,
            Happening::OriginEnd(_) => false,
            Happening::OriginFailed(_) => false,
            Happening::Stopping => false,
        }
    }

    /// The first test that the event fails, before memory is asked for.
    pub(crate) fn first_fault(&self, event: &Event) -> Option<StepFault>
        ensures tests { (settings : CoreSettings) (s : State) → DeskStandsFor settings self.now s → result ≡ first_fault event.now s }
        ensures kind { IfSome result IsOfTest }
        ensures in_time { result ≡ None → event.now.moment < end_of_moments }
    {
        if END_OF_MOMENTS <= event.moment {
            return Some(StepFault::MomentTooLarge);
        }
        if !self.is_known(&event.of) {
            return Some(StepFault::UnknownNumber);
        }
        if self.is_full(&event.of) {
            return Some(StepFault::TooManyConnections);
        }
        None
    }
}
