//! A law of connections that rest: it holds of the definitions, and the function that bears it does nothing.

ghost use Rattle.std.specs.Prelude.{ℕ, Bool, List, Option, Some, length};
ghost use Rattle.std.specs.BTreeMap.{BTreeMap};
ghost use Rattle.hc_transcript.specs.declared.record.Record.{Record};
ghost use Rattle.hc_service.specs.declared.settings.CoreSettings.{CoreSettings};
ghost use Rattle.hc_service.specs.Agreement.{History};
ghost use Rattle.hc_service.specs.Runs.{Runs, StepResult};
ghost use Rattle.hc_service.specs.State.{State};
ghost use Rattle.hc_order.specs.declared.occurrence.Occurrence.{Occurrence};
ghost use Rattle.hc_order.specs.Log.{Move};
ghost use Rattle.hc_order.specs.Mirrors.{Mirrors};
ghost use Rattle.hc_order.specs.Passed.{AreOrderly, AreServed, events_of, passed};
ghost use Rattle.hc_order.specs.Resting.{IsAtRest};
ghost use Rattle.hc_connection.specs.declared.client_side.ClientSide.{ClientSide};
ghost use Rattle.hc_connection.specs.Connections.{HasPassed};
ghost use Rattle.hc_connection.specs.Sides.{IsUntouched, Rests};

use hc_links::{Clock, Link, Origins};

/// Where a cache was at rest, was handed what happened at a connection of which nothing had happened before, and mirrors
/// what has passed, it is at rest again once the links of the connection rest.
pub fn a_connection_at_rest_leaves_a_cache_at_rest<C: Link, O: Origins, K: Clock>()
    ensures { (clock : K) (opened : Bool) (client : ClientSide C) (links : BTreeMap ℕ (Option O.Link)) (most room : ℕ)
        (settings : CoreSettings) (occurrences : List Occurrence) (results : List StepResult) (s other : State) (h : History)
        (records : List Record) (log : List Move) → IsAtRest s → IsUntouched client.number log
        → Runs settings s h (events_of occurrences) results records (Some other) → AreServed results
        → AreOrderly most occurrences results log → Mirrors room other (passed occurrences results log)
        → HasPassed C.has_given C.has_got C.was_read C.count O.Link.has_given O.Link.has_got (K.may_tell clock) opened client links
        (passed occurrences results log)
        → Rests opened (length links.entries) client → IsAtRest other }
{}
