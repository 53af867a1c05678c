//! The links of a cache as its driver sees them: it hears what happens there, and sends what the cache gives out.

ghost use Rattle.std.specs.Prelude.{◌≡◌, ℕ, Bool, List, ◌∷◌, Option, Result, Ok, None, IfOk};
ghost use Rattle.std.specs.declared.alloc.AllocError.{AllocError};
ghost use Rattle.hc_order.specs.declared.occurrence.Occurrence.{Occurrence};
ghost use Rattle.hc_order.specs.declared.receiver.Receiver.{Receiver};
ghost use Rattle.hc_order.specs.Log.{Move};
ghost use Rattle.hc_order.specs.Log.Move.{Closed};
ghost use Rattle.hc_links.specs.Keeping.{KeepsLinks};
ghost use Rattle.hc_links.specs.Telling.{MayBeNext, TellsNext, TellsSent};

use hc_framing::MessageText;
use hc_head::Target;
use hc_order::{Occurrence, Receiver};
use hc_service::{Incident, Stock};
use std::alloc::AllocError;

/// What a cache awaits, for whoever hears what happens next.
pub trait Awaiting {
    /// That may be what it returns about a connection.
    ghost awaited: { Self → ℕ → Bool → Type 0 };

    /// That may be what it returns about a forward.
    ghost background: { Self → ℕ → Bool → Type 0 };

    /// That may be what it returns about whether a forward goes on where nobody awaits what comes on it.
    ghost needed: { Self → ℕ → Bool → Type 0 };

    /// Those may be the connections that it names of a forward.
    ghost clients: { Self → ℕ → List ℕ → Type 0 };

    /// That may be what it returns about what it holds of a link.
    ghost holds: { Self → Receiver → ℕ → Type 0 };

    /// Whether a request of that connection awaits its reply.
    fn awaits(&self, connection: u64) -> bool
        ensures { awaited self.now connection result };

    /// Whether nobody awaits what comes on that forward: it revalidates a stored response behind a reply that was given
    /// out stale.
    fn is_background(&self, forward: u64) -> bool
        ensures { background self.now forward result };

    /// Whether that forward goes on even where nobody awaits what comes on it: it is for the store alone, or its request
    /// may change something at the origin.
    fn is_needed(&self, forward: u64) -> bool
        ensures { needed self.now forward result };

    /// The connections of the exchanges that the end of that forward answers: first that for which it was sent, then those
    /// that wait for it. It fails only where memory is refused.
    fn clients_of(&self, forward: u64) -> Result<Vec<u64>, AllocError>
        ensures { IfOk result (λ numbers. clients self.now forward numbers.items) };

    /// What that forward asks for, if it is open. It is for whoever tells of it: no clause binds it.
    fn target_of(&self, forward: u64) -> Option<&Target>;

    /// What was refused in the last step that was served, and which forwards failed there by what came on them, in the
    /// order in which that happened. It is for whoever tells of it: no clause binds it.
    fn incidents(&self) -> &[Incident];

    /// What its store holds, in numbers. It is for whoever tells of it: no clause binds it.
    fn stock(&self) -> Stock;

    /// How many octets the cache holds of what came on that link and isn't whole.
    fn held(&self, link: Receiver) -> usize
        ensures { holds self.now link result };
}

/// The links of a cache, all together.
pub trait Links {
    /// This is what passed at them so far, as far as they tell it.
    ghost tells: { Self → List Move → Type 0 };

    /// What was written to clients is no more than what was sent to them by then, as far as that is told.
    ghost shows: { Self → List Move → Type 0 };

    /// Nothing more will happen.
    ghost rests: { Self → Type 0 };

    /// How many connections are open at once at most.
    ghost most: { Self → ℕ };

    /// What bounds their number.
    ghost Bounds: { Type 0 };

    /// The bounds within which they stay, as they were made.
    ghost bounds: { Self → Bounds };

    /// There are no more of them than there may be within those bounds.
    ghost within: { Bounds → Self → Type 0 };

    /// The moments at which things may happen.
    ghost may_tell: { Self → ℕ → Type 0 };

    /// What happens next heeds whose requests await a reply, by what the cache may return about that.
    ghost heeds: { (ℕ → Bool → Type 0) → Result (Option Occurrence) AllocError → Type 0 };

    /// What happens next, and why it is told, or none where nothing more will. It waits until something does, and may
    /// ask the cache what it awaits. It fails only where memory is refused.
    fn next<A: Awaiting>(&mut self, cache: &A) -> Result<Option<Occurrence>, AllocError>
        ensures tells { (log : List Move) → tells self.old log → TellsNext (tells self.new) result log }
        // It may happen by the log: where the cache mirrors the log, no test of the event fails but that of its moment.
        ensures orderly { (log : List Move) → tells self.old log → MayBeNext (most self.old) result log }
        ensures links { KeepsLinks shows most bounds may_tell self.old self.new }
        ensures rests { result ≡ Ok None → rests self.new }
        ensures in_turn { heeds (A.awaited cache.now) result };

    /// Sends the octets to the client, or makes a link for the forward and sends them to the origin. Where a link fails,
    /// or isn't made, they are lost, and that is told in its turn. It fails only where memory is refused, and sends
    /// nothing then.
    fn send(&mut self, to: Receiver, octets: &MessageText) -> Result<(), AllocError>
        ensures sent { (log : List Move) → tells self.old log → TellsSent (tells self.new) result to octets.now log }
        ensures links { KeepsLinks shows most bounds may_tell self.old self.new };

    /// Closes a client's connection, or a forward.
    fn close(&mut self, link: Receiver)
        ensures closed { (log : List Move) → tells self.old log → tells self.new (Closed link ∷ log) }
        ensures links { KeepsLinks shows most bounds may_tell self.old self.new };
}
