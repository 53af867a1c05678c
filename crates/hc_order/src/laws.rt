//! Laws of what is open: each holds of the definitions, and the functions that bear them do nothing.

ghost use Rattle.std.specs.Prelude.{◌≡◌, ℕ, List, [], ◌∷◌, Option, Some, None};
ghost use Rattle.hc_service.specs.declared.event.Event.{Event};
ghost use Rattle.hc_service.specs.declared.action.Action.{Action};
ghost use Rattle.hc_service.specs.declared.settings.CoreOptions.{CoreOptions};
ghost use Rattle.hc_service.specs.declared.settings.CoreSettings.{CoreSettings};
ghost use Rattle.hc_service.specs.Runs.{StepResult, Steps};
ghost use Rattle.hc_service.specs.Serves.{Serves, first_fault};
ghost use Rattle.hc_service.specs.State.{State, new_state_with};
ghost use Rattle.hc_order.specs.declared.occurrence.Occurrence.{Occurrence};
ghost use Rattle.hc_order.specs.Log.{Beginning, Move, carried};
ghost use Rattle.hc_order.specs.Log.Move.{Before, Heard};
ghost use Rattle.hc_order.specs.Mirrors.{MayHappen, Mirrors, moment_fault};
ghost use Rattle.hc_order.specs.Passed.{AreOrderly, AreServed, AreUsual, events_of, passed};
ghost use Rattle.hc_order.specs.Resting.{IsAtRest};

/// What the log of who drives a cache leaves open is what is open in the cache, behind each event that was served, once
/// what the cache did for it was carried out.
pub fn actions_leave_what_is_open()
    ensures { (room : ℕ) (settings : CoreSettings) (occurrence : Occurrence) (s : State) (actions : List Action)
        (other : State) (log : List Move) → Mirrors room s log → Serves settings occurrence.event s actions other
        → Mirrors room other (carried actions (Heard occurrence ∷ log)) }
{}

/// An event that may happen by the log is served, unless its moment is too large: no other test of it fails.
pub fn what_may_happen_is_served()
    ensures { (room : ℕ) (event : Event) (s : State) (log : List Move) → Mirrors room s log
        → MayHappen room event.of log → first_fault event s ≡ moment_fault event }
{}

/// Events that may happen by the log, one after another, are served by a cache that mirrors it, up to one for which
/// memory is refused or whose moment is too large. Where all were served, the cache that is left mirrors what has passed.
pub fn what_may_happen_in_turn_is_served()
    ensures usual { (room : ℕ) (settings : CoreSettings) (occurrences : List Occurrence) (results : List StepResult)
        (s : State) (end : Option State) (log : List Move) → Steps settings s (events_of occurrences) results end
        → Mirrors room s log → AreOrderly room occurrences results log → AreUsual occurrences results }
    ensures mirrors { (room : ℕ) (settings : CoreSettings) (occurrences : List Occurrence) (results : List StepResult)
        (s other : State) (log : List Move) → Steps settings s (events_of occurrences) results (Some other)
        → Mirrors room s log → AreServed results → Mirrors room other (passed occurrences results log) }
{}

/// A new cache mirrors the empty log, and what is before all others, where no connection was opened before; and a cache
/// that mirrors what is before all others is at rest.
pub fn a_new_cache_mirrors_what_is_before()
    ensures mirrors { (options : CoreOptions) (settings : CoreSettings) (beginning : Beginning) → beginning.last ≡ None
        → Mirrors options.connections (new_state_with settings options) (Before beginning ∷ []) }
    ensures rests { (room : ℕ) (s : State) (beginning : Beginning) → Mirrors room s (Before beginning ∷ []) → IsAtRest s }
    ensures empty { (options : CoreOptions) (settings : CoreSettings) → Mirrors options.connections (new_state_with settings options) [] }
{}
