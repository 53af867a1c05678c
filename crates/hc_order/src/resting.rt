//! Laws of clients and forwards that have ended, and of a cache at rest: each holds of the definitions, and the functions
//! that bear them do nothing.

ghost use Rattle.std.specs.Prelude.{◌≡◌, ◌≤◌, ℕ, Bool, true, false, List, Option, Some, None, is_some};
ghost use Rattle.std.specs.FinMap.{get};
ghost use Rattle.std.specs.Option.{IsSome};
ghost use Rattle.hc_transcript.specs.Limits.{greatest_number};
ghost use Rattle.hc_transcript.specs.declared.record.Record.{Record};
ghost use Rattle.hc_service.specs.declared.event.Event.{Event};
ghost use Rattle.hc_service.specs.declared.event.Happening.TheVariants.{ClientEnd, OriginEnd, OriginFailed};
ghost use Rattle.hc_service.specs.declared.action.Action.{Action};
ghost use Rattle.hc_service.specs.declared.settings.CoreOptions.{CoreOptions};
ghost use Rattle.hc_service.specs.declared.settings.CoreSettings.{CoreSettings};
ghost use Rattle.hc_service.specs.Agreement.{Agrees, History};
ghost use Rattle.hc_service.specs.Follows.{forward_after};
ghost use Rattle.hc_service.specs.Joining.{AllHaveForwards};
ghost use Rattle.hc_service.specs.Numbers.{is_later};
ghost use Rattle.hc_service.specs.Runs.{Runs, StepResult, Steps};
ghost use Rattle.hc_service.specs.Serves.{Serves};
ghost use Rattle.hc_service.specs.State.{Connection, State, new_state_with};
ghost use Rattle.hc_order.specs.Resting.{AllHaveEnded, AwaitWhereLeft, HasEnded, HasNoExchange, HasNoForward, IsAtRest, IsOver, ended_behind, ended_behind_all, open_behind, open_behind_all};

/// A connection of which nothing more is read awaits a reply, behind which it closes: in a new cache, behind each event
/// that is served, and so wherever steps have led a new cache; and where a cache agrees with what has happened.
pub fn leaving_connections_await_a_reply()
    ensures begins { (settings : CoreSettings) (options : CoreOptions) → AwaitWhereLeft (new_state_with settings options) }
    ensures event { (settings : CoreSettings) (event : Event) (s : State) (actions : List Action) (other : State)
        → AwaitWhereLeft s → Serves settings event s actions other → AwaitWhereLeft other }
    ensures run { (settings : CoreSettings) (options : CoreOptions) (events : List Event) (results : List StepResult) (s : State)
        → Steps settings (new_state_with settings options) events results (Some s) → AwaitWhereLeft s }
    ensures agrees { (s : State) (h : History) → Agrees s h → AwaitWhereLeft s }
{}

/// Where a client's end is served, its connection isn't open any more, or nothing more is read of it; and so it stays.
pub fn an_end_stays()
    ensures ends { (settings : CoreSettings) (event : Event) (s : State) (actions : List Action) (other : State)
        (h : History) (c : ℕ) → Agrees s h → event.of ≡ ClientEnd c → Serves settings event s actions other
        → HasEnded c other }
    ensures stays { (settings : CoreSettings) (event : Event) (s : State) (actions : List Action) (other : State) (c : ℕ)
        → HasEnded c s → Serves settings event s actions other → HasEnded c other }
    // Both, as the event tells it, and as the events of a run do.
    ensures told { (settings : CoreSettings) (event : Event) (s : State) (actions : List Action) (other : State)
        (h : History) (c : ℕ) (was : Bool) → Agrees s h → (was ≡ true → HasEnded c s)
        → Serves settings event s actions other → ended_behind c event.of was ≡ true → HasEnded c other }
    ensures runs { (settings : CoreSettings) (c : ℕ) (events : List Event) (results : List StepResult) (s other : State)
        (h : History) (records : List Record) (was : Bool) → Runs settings s h events results records (Some other)
        → (was ≡ true → HasEnded c s) → ended_behind_all c events results was ≡ true → HasEnded c other }
{}

/// Where an origin's end or its failure is served, the forward isn't open behind it, whatever had come; and so it stays.
///
/// So whoever forgets the link of a forward at its end or its failure, and carries out what the cache does, has a link
/// for each forward that is open in the cache.
pub fn an_origins_end_closes_the_forward()
    ensures ended { (settings : CoreSettings) (event : Event) (s : State) (actions : List Action) (other : State)
        (h : History) (f : ℕ) → Agrees s h → event.of ≡ OriginEnd f → Serves settings event s actions other
        → IsOver f other }
    ensures failed { (settings : CoreSettings) (event : Event) (s : State) (actions : List Action) (other : State)
        (h : History) (f : ℕ) → Agrees s h → event.of ≡ OriginFailed f → Serves settings event s actions other
        → IsOver f other }
    ensures stays { (settings : CoreSettings) (event : Event) (s : State) (actions : List Action) (other : State) (f : ℕ)
        → f ≤ greatest_number → IsOver f s → Serves settings event s actions other → IsOver f other }
    ensures told { (settings : CoreSettings) (event : Event) (s : State) (actions : List Action) (other : State)
        (h : History) (f : ℕ) (was : Bool) → Agrees s h → (is_some (get s.forwards f) ≡ true → was ≡ true)
        → Serves settings event s actions other → is_some (get other.forwards f) ≡ true
        → forward_after f actions (open_behind f event.of was) ≡ true }
    ensures runs { (settings : CoreSettings) (f : ℕ) (events : List Event) (results : List StepResult) (s other : State)
        (h : History) (records : List Record) (was : Bool) → Runs settings s h events results records (Some other)
        → (is_some (get s.forwards f) ≡ true → was ≡ true) → is_some (get other.forwards f) ≡ true
        → open_behind_all f events results was ≡ true }
{}

/// Where no forward is open and each open exchange has one, no request awaits its reply, and so of each connection that
/// is open more is read: where all clients have ended, the cache is at rest.
///
/// So is a cache that was at rest, behind a run of events by which no forward is open at its link, and each client whose
/// connection is open has ended.
pub fn what_has_ended_is_at_rest()
    ensures exchanges { (s : State) → HasNoForward s → AllHaveForwards s → HasNoExchange s }
    ensures connections { (s : State) (h : History) → Agrees s h → HasNoExchange s → (c : ℕ) (k : Connection)
        → get s.connections c ≡ Some k → (k.exchange ≡ None) × (k.leaves ≡ false) }
    ensures rests { (s : State) (h : History) → Agrees s h → AllHaveForwards s → HasNoForward s → AllHaveEnded s
        → IsAtRest s }
    ensures begins { (s : State) (h : History) → Agrees s h → IsAtRest s → AllHaveForwards s }
    // Whatever was told before of forwards, and of clients that had opened connections.
    ensures runs { (settings : CoreSettings) (events : List Event) (results : List StepResult) (s other : State)
        (h : History) (records : List Record) (opened ended : ℕ → Bool) → IsAtRest s
        → ((c : ℕ) → ended c ≡ true → is_later c s.numbers.connection ≡ false)
        → Runs settings s h events results records (Some other)
        → ((f : ℕ) → open_behind_all f events results (opened f) ≡ false)
        → ((c : ℕ) → IsSome (get other.connections c) → ended_behind_all c events results (ended c) ≡ true)
        → IsAtRest other }
{}
