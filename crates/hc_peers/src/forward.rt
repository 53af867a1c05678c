//! One forward, and how far the origin was reached for it.

ghost use Rattle.std.specs.Prelude.{◌≡◌, ◌+◌, ◌-◌, ◌^◌, ◌<◌, ◌&&◌, not, false, true, [], None, Some, is_ok, is_some, min, unwrap_or, IsErr, OnOk};

use crate::origin_link::OriginLink;
use hc_flow::{Emptying, ForwardProgress, Heard, Readiness, Stream, wants_turn, weight_of};
use hc_framing::MessageText;
use hc_order::Reason;
use std::alloc::{AllocError, Global};

/// How far the origin was reached for a forward.
#[derive(Drop)]
pub(crate) enum Reaching<S: Stream> {
    /// The request waits for a link.
    Waiting(MessageText),
    /// There is a link, or one begins to be made.
    Linked(OriginLink<S>),
    /// There is none any more, or none could be made, told for that reason.
    Lost(Reason),
}

/// One forward, and what the cache was told of it.
#[derive(Drop)]
pub struct Forward<S: Stream> {
    reaching: Reaching<S>,
    /// How many links were begun for it.
    attempts: u32,
    /// When the first one was begun.
    begun: Option<u64>,
    /// Whether the cache was told that the origin sends no more.
    ended: bool,
    /// Whether it stands among the turns.
    pub(crate) queued: bool,
}

impl<S: Stream + Drop> Forward<S> {
    ghost use Rattle.std.specs.Option.{option_copied};
    ghost use Rattle.hc_order.specs.Passages.{Passage, opened_with};
    ghost use Rattle.hc_peers.specs.Behind.{ForwardHears, ForwardIsLinked, ForwardIsWritten, ForwardLearns, ForwardRetries, IsFreshForward, brings_news, is_forward_heard, may_be_written_on, may_retry};
    ghost use Rattle.hc_peers.specs.Losses.{HasEnded, IsLostBy};
    ghost use Rattle.hc_flow.specs.Hearings.{IsEndOf, IsHeardOpen, KeepsHeard, ends_by, wants_turn};
    ghost use Rattle.hc_peers.specs.Forwards.{HasUnusedLink, IsForward, StaysReached, has_link, is_linked_and, is_opening, is_waiting, lingers, link_of, progress_at};
    ghost use Rattle.hc_flow.specs.Flows.{TellsOwed, is_owed};

    /// One whose request waits for a link.
    pub(crate) fn new(request: MessageText) -> Self
        ensures opened { IsForward S.has_given S.has_got result (opened_with request) }
        ensures behind { IsFreshForward result }
        ensures linked { has_link result.reaching ≡ false }
        ensures begun { (result.begun ≡ None) × (result.attempts ≡ 0) }
    {
        Forward {
            reaching: Reaching::Waiting(request),
            attempts: 0,
            begun: None,
            ended: false,
            queued: false,
        }
    }

    /// A link begins to be made, and owes the request, if that waits for one. Else the stream is dropped. Where memory is
    /// refused, the request waits still.
    pub(crate) fn link(&mut self, alloc: Global, stream: S, tick: u64) -> Result<(), AllocError>
        ensures kept { S.has_given stream [] → S.has_got stream [] → (passage : Passage) → IsForward S.has_given S.has_got self.old passage
            → IsForward S.has_given S.has_got self.new passage }
        ensures rest { self.new ≡ record self.old { reaching = self.new.reaching; attempts = min (self.old.attempts + 1) (2 ^ 32 - 1); begun = Some (unwrap_or self.old.begun tick) } }
        ensures progress { OnOk result (is_waiting self.old.reaching ≡ true
            → progress_at self.new.reaching ≡ Some (record { begun = unwrap_or self.old.begun tick; last = tick })) }
        ensures behind { ForwardIsLinked (is_ok result) tick self.old self.new }
    {
        self.attempts = self.attempts.saturating_add(1);
        let begun = self.begun.unwrap_or(tick);
        self.begun = Some(begun);
        let Reaching::Waiting(request) = &self.reaching else {
            return Ok(());
        };
        let link = OriginLink::opening(alloc, stream, request, ForwardProgress::new(begun, tick))?;
        self.reaching = Reaching::Linked(link);
        Ok(())
    }

    /// There is no link any more, or none could be made.
    pub(crate) fn lose(&mut self, reason: Reason)
        ensures kept { (passage : Passage) → IsForward S.has_given S.has_got self.old passage → IsForward S.has_given S.has_got self.new passage }
        ensures rest { self.new ≡ record self.old { reaching = Reaching.Lost reason } }
    {
        self.reaching = Reaching::Lost(reason);
    }

    /// What is heard of the origin now; behind its end nothing.
    pub(crate) fn hear(
        &mut self,
        alloc: Global,
        buffer: &mut [u8],
        tick: u64,
    ) -> Result<Heard, AllocError>
        ensures kept { (passage : Passage) → IsForward S.has_given S.has_got self.old passage
            → KeepsHeard (IsForward S.has_given S.has_got self.new) result passage }
        ensures linked { has_link self.new.reaching ≡ true → has_link self.old.reaching ≡ true }
        ensures told { (passage : Passage) → IsForward S.has_given S.has_got self.old passage
            → IsHeardOpen passage.is_open passage.is_ended result }
        ensures reason { IsLostBy S.has_failed self.old.reaching self.new.reaching result }
        ensures over { IsEndOf (HasEnded S.has_ended self.new.reaching) result }
        ensures stays { StaysReached S.has_failed (IsErr result) self.old.reaching self.new.reaching }
        ensures behind { ForwardHears result tick self.old self.new }
        ensures rest { self.new ≡ record self.old { reaching = self.new.reaching; ended = ends_by result self.old.ended } }
    {
        if self.ended {
            return Ok(Heard::Nothing);
        }
        match &mut self.reaching {
            Reaching::Waiting(_) => Ok(Heard::Nothing),
            Reaching::Linked(link) => {
                let heard = link.hear(alloc, buffer, tick)?;
                self.ended = heard.is_end();
                Ok(heard)
            }
            Reaching::Lost(reason) => Ok(Heard::Lost(*reason)),
        }
    }

    /// Writes what is owed, as far as it is taken now. Without a link nothing is returned.
    pub(crate) fn write(&mut self, tick: u64) -> Option<Emptying>
        ensures kept { (passage : Passage) → IsForward S.has_given S.has_got self.old passage → IsForward S.has_given S.has_got self.new passage }
        ensures owed { TellsOwed result (is_linked_and self.new.reaching (λ link. is_owed link.flow)) }
        ensures stays { StaysReached S.has_failed ⊥ self.old.reaching self.new.reaching }
        ensures linked { has_link self.new.reaching ≡ true → has_link self.old.reaching ≡ true }
        ensures behind { ForwardIsWritten result tick self.old self.new }
    {
        match &mut self.reaching {
            Reaching::Waiting(_) => None,
            Reaching::Linked(link) => Some(link.write(tick)),
            Reaching::Lost(_) => None,
        }
    }

    /// What the system tells of the link. Returns whether the forward has to get a turn for that now.
    pub(crate) fn learn(&mut self, readiness: Readiness) -> bool
        ensures kept { (passage : Passage) → IsForward S.has_given S.has_got self.old passage → IsForward S.has_given S.has_got self.new passage }
        ensures first { result ≡ (wants_turn readiness && not self.old.queued) }
        ensures stays { StaysReached S.has_failed ((is_opening self.old.reaching && readiness.failed) ≡ true) self.old.reaching self.new.reaching }
        ensures behind { ForwardLearns readiness self.old self.new }
        ensures linked { has_link self.new.reaching ≡ true → has_link self.old.reaching ≡ true }
    {
        let wanted = wants_turn(readiness);
        let is_first = wanted & !self.queued;
        self.queued = wanted | self.queued;
        let Reaching::Linked(link) = &mut self.reaching else {
            return is_first;
        };
        link.learn(readiness);
        is_first
    }

    /// Where its link has failed before it was known to work, the request waits for another one. Returns whether it does.
    pub(crate) fn retry(&mut self) -> bool
        ensures kept { (passage : Passage) → IsForward S.has_given S.has_got self.old passage → IsForward S.has_given S.has_got self.new passage }
        ensures unused { result ≡ true → (passage : Passage) → IsForward S.has_given S.has_got self.old passage
            → HasUnusedLink S.has_given S.has_got self.old.reaching }
        ensures can { result ≡ may_retry self.old.reaching }
        ensures behind { ForwardRetries result self.old self.new }
        ensures linked { has_link self.new.reaching ≡ true → has_link self.old.reaching ≡ true }
    {
        let Reaching::Linked(link) = &mut self.reaching else {
            return false;
        };
        let Some(request) = link.take_back() else {
            return false;
        };
        self.reaching = Reaching::Waiting(request);
        true
    }

    /// Whether its request may wait for another link: its link has failed before it was known to work.
    pub(crate) fn may_retry(&self) -> bool
        ensures { result ≡ may_retry self.now.reaching }
    {
        match self.linked() {
            Some(link) => link.may_take_back(),
            None => false,
        }
    }

    /// The stream, where the link works and the origin hasn't ended it: our half is ended, and what waits is dropped.
    pub(crate) fn into_lingering(self) -> Option<S>
        ensures { is_some result ≡ lingers self }
    {
        if self.ended {
            return None;
        }
        match self.reaching {
            Reaching::Waiting(_) => None,
            Reaching::Linked(link) => link.into_lingering(),
            Reaching::Lost(_) => None,
        }
    }

    /// Whether the request waits for a link.
    pub fn is_waiting(&self) -> bool
        ensures { result ≡ is_waiting self.now.reaching }
    {
        matches!(self.reaching, Reaching::Waiting(_))
    }

    /// The link, if there is one, or one begins to be made.
    fn linked(&self) -> Option<&OriginLink<S>>
        ensures { option_copied result ≡ link_of self.now.reaching }
    {
        match &self.reaching {
            Reaching::Waiting(_) => None,
            Reaching::Linked(link) => Some(link),
            Reaching::Lost(_) => None,
        }
    }

    /// How it is getting on at its link.
    pub fn progress(&self) -> Option<ForwardProgress>
        ensures { result ≡ progress_at self.now.reaching }
    {
        match self.linked() {
            Some(link) => Some(link.progress),
            None => None,
        }
    }

    /// How many links were begun for it.
    pub fn attempts(&self) -> u32
        ensures { result ≡ self.now.attempts }
    {
        self.attempts
    }

    /// Whether there is a link, or one begins to be made.
    pub fn has_link(&self) -> bool
        ensures { result ≡ has_link self.now.reaching }
    {
        self.linked().is_some()
    }

    /// Whether there is a link that isn't known to work yet.
    pub fn is_opening(&self) -> bool
        ensures { result ≡ is_opening self.now.reaching }
    {
        match self.linked() {
            Some(link) => link.is_opening(),
            None => false,
        }
    }

    /// Whether octets wait to be written to a link.
    pub fn is_owed(&self) -> bool
        ensures { result ≡ is_linked_and self.now.reaching (λ link. is_owed link.flow) }
    {
        match self.linked() {
            Some(link) => link.flow.is_owed(),
            None => false,
        }
    }

    /// Whether octets wait to be written on a link that works, and may be taken now.
    pub(crate) fn may_be_written(&self) -> bool
        ensures { result ≡ may_be_written_on self.now.reaching }
    {
        match self.linked() {
            Some(link) => link.may_be_written(),
            None => false,
        }
    }

    /// Whether something is to be heard of it: its end wasn't told, and there is no link any more, or it has failed, or it
    /// works and a read may bring something.
    pub(crate) fn is_to_be_heard(&self) -> bool
        ensures { result ≡ is_forward_heard self.now }
    {
        !self.ended && self.brings_news()
    }

    fn brings_news(&self) -> bool
        ensures { result ≡ brings_news self.now.reaching }
    {
        match &self.reaching {
            Reaching::Waiting(_) => false,
            Reaching::Linked(link) => link.brings_news(),
            Reaching::Lost(_) => true,
        }
    }

    /// How many octets of memory are held for what is owed, and for a request that waits or may wait again.
    pub fn weight(&self) -> usize
        ensures { is_linked_and self.now.reaching (λ link. is_owed link.flow) ≡ true → 0 < result }
    {
        match &self.reaching {
            Reaching::Waiting(request) => weight_of(request),
            Reaching::Linked(link) => link.weight(),
            Reaching::Lost(_) => 0,
        }
    }

    /// Whether a read of a link may bring something now.
    pub fn is_readable(&self) -> bool
        ensures { result ≡ is_linked_and self.now.reaching (λ link. link.flow.readable) }
    {
        match self.linked() {
            Some(link) => link.flow.is_readable(),
            None => false,
        }
    }
}
