//! Links that are served in batches.

ghost use Rattle.std.specs.Prelude.{◌≡◌, ◌≤◌, true, List, ◌∷◌, OnOk};
ghost use Rattle.hc_transcript.specs.Limits.{greatest_moment};
ghost use Rattle.hc_order.specs.declared.occurrence.Occurrence.{Occurrence};
ghost use Rattle.hc_order.specs.Log.{Move};
ghost use Rattle.hc_order.specs.Log.Move.{Heard};
ghost use Rattle.hc_links.specs.Batches.{NothingIsOpen};
ghost use Rattle.hc_links.specs.Keeping.{KeepsLimits, KeepsLinks};

use crate::links::{Awaiting, Links};
use std::alloc::AllocError;

/// Links that are served in batches. What happens next is of this batch, and none once the batch is over: a further one
/// may bring more. What is sent to clients waits until it is delivered.
pub trait Batches: Links {
    /// No further client is served, and no link is left.
    ghost over: { Self → Type 0 };

    /// Nothing is left lying that could go on: so further things may be waited for.
    ghost settled: { Self → Type 0 } = { λ _. Unit {0} };

    /// Writes what was sent, as far as links take it now, and may ask the cache what it awaits. It fails only where
    /// memory is refused.
    fn deliver<A: Awaiting>(&mut self, cache: &A) -> Result<(), AllocError>
        ensures tells { (log : List Move) → Self.tells self.old log → Self.tells self.new log }
        ensures shown { (log : List Move) → Self.tells self.old log → Self.shows self.new log }
        ensures limits { KeepsLimits Self.most Self.bounds Self.may_tell self.old self.new }
        ensures settled { OnOk result (settled self.new) };

    /// Waits until something is ready or due, and begins a new batch with that. It fails only where memory is refused.
    fn wait(&mut self) -> Result<(), AllocError>
        requires settled { settled self.old }
        ensures tells { (log : List Move) → Self.tells self.old log → Self.tells self.new log }
        ensures links { KeepsLinks Self.shows Self.most Self.bounds Self.may_tell self.old self.new };

    /// Whether no further client is served, and no link is left.
    fn is_over(&self) -> bool
        ensures { result ≡ true → over self.now };

    // Whatever is told can be told by a transcript.
    ghost in_time: { (links : Self) (occurrence : Occurrence) (log : List Move) → Self.tells links (Heard occurrence ∷ log)
        → occurrence.event.moment ≤ greatest_moment };

    // Wherever something is told, links are within their bounds.
    ghost few: { (links : Self) (log : List Move) → Self.tells links log → Self.within (Self.bounds links) links };

    // Where no link is left, nothing is open.
    ghost all_closed: { (links : Self) (log : List Move) → over links → Self.tells links log → NothingIsOpen log };
}
