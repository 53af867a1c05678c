//! What a step makes of what has happened.

ghost use Rattle.hc_service.specs.declared.event.Event.{Event};
ghost use Rattle.hc_service.specs.declared.settings.CoreSettings.{CoreSettings};
ghost use Rattle.hc_service.specs.Agreement.{Agrees, History, IsReady};
ghost use Rattle.hc_service.specs.Runs.{StepResult};
ghost use Rattle.hc_service.specs.Settings.{AreGood};
ghost use Rattle.hc_service.specs.State.{State};
ghost use Rattle.hc_core.specs.Steps.{Cache, GivesAgreement, GivesStep};

use hc_service::{agreement_is_ready, events_keep_agreement};

/// A cache of good settings that agrees with what has happened, and does what it owes for an event where
/// each forward can end, agrees with what has happened then.
pub(crate) fn steps_keep_agreement()
    ensures { (settings : CoreSettings) (event : Event) (s : State) (h : History) (result : StepResult) (cache : Cache)
        → AreGood settings → Agrees s h → (IsReady s → GivesStep result settings event s cache)
        → GivesAgreement result settings event s h cache }
{
    agreement_is_ready();
    events_keep_agreement();
}
