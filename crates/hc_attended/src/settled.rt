//! Laws of what stands where a crowd waits: each holds of the definitions, and the functions that bear them do nothing.

ghost use Rattle.std.specs.Prelude.{◌≡◌, ◌≤◌, ◌+◌, ◌⊎◌, true, ℕ, List, [], Option, Some, max};
ghost use Rattle.std.specs.BTreeMap.{get};
ghost use Rattle.std.specs.List.{Contains};
ghost use Rattle.std.specs.Ordering.{nat_cmp};
ghost use Rattle.hc_order.specs.declared.receiver.Receiver.TheVariants as to;
ghost use Rattle.hc_flow.specs.Flows.{is_owed};
ghost use Rattle.hc_flow.specs.Paces.{forward_due, next_look};
ghost use Rattle.hc_flow.specs.declared.progress.ForwardProgress.{ForwardProgress};
ghost use Rattle.hc_agenda.specs.declared.agenda.Agenda.{Agenda};
ghost use Rattle.hc_agenda.specs.declared.deadline.Timeout.{Timeout};
ghost use Rattle.hc_agenda.specs.declared.deadline.Timeout.TheVariants as timeouts;
ghost use Rattle.hc_agenda.specs.Agendas.{IsFree, IsToBeDone};
ghost use Rattle.hc_agenda.specs.Earliest.{IsEarliest};
ghost use Rattle.hc_agenda.specs.Places.{awaited_in, opened_in, unawaited_in};
ghost use Rattle.hc_agenda.specs.Turns.{IsBatch, Step, Waiting, all_of, turns_of};
ghost use Rattle.hc_peers.specs.declared.client.Client.{Client};
ghost use Rattle.hc_peers.specs.declared.forward.Forward.{Forward};
ghost use Rattle.hc_peers.specs.declared.peers.Peers.{Peers};
ghost use Rattle.hc_peers.specs.Behind.{is_client_heard, is_forward_heard};
ghost use Rattle.hc_peers.specs.Forwards.{is_linked_and, is_waiting, progress_at};
ghost use Rattle.hc_peers.specs.Peers.{NoLinkIsLeft};
ghost use Rattle.hc_attended.specs.declared.times.TheConstants.{LOOKS_AGAIN};
ghost use Rattle.hc_attended.specs.declared.times.Times.{Times};
ghost use Rattle.hc_attended.specs.Notes.{is_due_up_to};
ghost use Rattle.hc_attended.specs.Settled.{IsSettled, LinkWaitsForOthers, OwesInVain, WaitsForOthers, WaitsForPlace};

use hc_flow::Stream;

/// Where a crowd waits, each client is heard next, or goes on by what others do alone; and it is looked at by the time that
/// its own is over. Each forward is heard next, or waits for a place where none is left, or its link goes on by what others
/// do alone; what is owed there waits for nobody but others; and where it has a link it is looked at by the time that its
/// own is over.
pub fn nothing_is_left_lying<S: Stream + Drop>()
    ensures client { (times : Times) (tick : ℕ) (peers : Peers S) (agenda : Agenda) (n : ℕ) (client : Client S)
        → IsSettled times tick peers agenda → get nat_cmp peers.clients.links n ≡ Some client
        → (Contains (all_of agenda.turns) (to.Client n) ⊎ WaitsForOthers client)
        × (is_due_up_to timeouts.Client n (max (next_look client.pace tick times.patience) (tick + LOOKS_AGAIN)) agenda ≡ true) }
    ensures forward { (times : Times) (tick : ℕ) (peers : Peers S) (agenda : Agenda) (f : ℕ) (forward : Forward S)
        → IsSettled times tick peers agenda → get nat_cmp peers.forwards.links f ≡ Some forward
        → Contains (all_of agenda.turns) (to.Origin f) ⊎ (((is_waiting forward.reaching ≡ true) × WaitsForPlace f times tick peers.places agenda)
        ⊎ LinkWaitsForOthers forward.ended forward.reaching) }
    ensures in_time { (times : Times) (tick : ℕ) (peers : Peers S) (agenda : Agenda) (f : ℕ) (forward : Forward S) (progress : ForwardProgress)
        → IsSettled times tick peers agenda → get nat_cmp peers.forwards.links f ≡ Some forward → progress_at forward.reaching ≡ Some progress
        → is_due_up_to timeouts.Origin f (forward_due progress times.patience + 1) agenda ≡ true }
    ensures owed { (times : Times) (tick : ℕ) (peers : Peers S) (agenda : Agenda) (f : ℕ) (forward : Forward S)
        → IsSettled times tick peers agenda → get nat_cmp peers.forwards.links f ≡ Some forward
        → is_linked_and forward.reaching (λ link. is_owed link.flow) ≡ true → OwesInVain forward.reaching }
    // Who is due up to a tick is looked at by then: no crowd waits longer than until the first is due.
    ensures due { (timeout : Timeout) (n latest : ℕ) (agenda : Agenda) (first : Option ℕ) → IsEarliest (IsToBeDone agenda) first
        → is_due_up_to timeout n latest agenda ≡ true → (due : ℕ) × (first ≡ Some due) × (due ≤ latest) }
{}

/// Where a crowd waits, each client of whom something is to be heard has its turn in the next batch, and so has each such
/// forward: so each turn makes progress, as long as the world goes on telling what is ready.
pub fn who_is_to_be_heard_has_a_turn<S: Stream + Drop>()
    ensures client { (times : Times) (tick : ℕ) (peers : Peers S) (agenda : Agenda) (n : ℕ) (client : Client S)
        → IsSettled times tick peers agenda → get nat_cmp peers.clients.links n ≡ Some client → is_client_heard client ≡ true
        → (steps : List Step) (after : Waiting) → IsBatch steps agenda.turns after → Contains (turns_of steps) (to.Client n) }
    ensures forward { (times : Times) (tick : ℕ) (peers : Peers S) (agenda : Agenda) (f : ℕ) (forward : Forward S)
        → IsSettled times tick peers agenda → get nat_cmp peers.forwards.links f ≡ Some forward → is_forward_heard forward ≡ true
        → (steps : List Step) (after : Waiting) → IsBatch steps agenda.turns after → Contains (turns_of steps) (to.Origin f) }
{}

/// Where no link is left, and nothing is to be done, a crowd is settled: so it is where it begins.
pub fn a_crowd_without_links_is_settled<S: Stream + Drop>()
    ensures { (times : Times) (tick : ℕ) (peers : Peers S) (agenda : Agenda) → NoLinkIsLeft peers → IsFree agenda
        → opened_in peers.places ≡ [] → awaited_in peers.places ≡ [] → unawaited_in peers.places ≡ [] → IsSettled times tick peers agenda }
{}
