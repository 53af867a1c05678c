//! One link to the origin.

ghost use Rattle.std.specs.Prelude.{◌≡◌, ◌<◌, ◌&&◌, ◌||◌, not, true, false, ℕ, List, [], None, is_some, IfOk, IfSome, IsErr};
ghost use Rattle.hc_peers.specs.Behind.{left_to_read};

use hc_flow::{Emptying, Flow, ForwardProgress, Heard, Readiness, Stream, hear_flow, weight_of};
use hc_framing::MessageText;
use hc_order::Reason;
use std::alloc::{AllocError, Global};

/// A link to the origin, and the request, as long as the link isn't known to work.
#[derive(Drop)]
pub(crate) struct OriginLink<S: Stream> {
    pub(crate) flow: Flow<S>,
    /// The request once more: behind a link that fails before it is known to work, another one is tried.
    spare: Option<MessageText>,
    /// How the forward is getting on there.
    pub(crate) progress: ForwardProgress,
}

impl<S: Stream + Drop> OriginLink<S> {
    ghost use Rattle.hc_flow.specs.Hearings.{FailsOnly, GivesHeard, HasFailed, IsEndOf, IsRead};
    ghost use Rattle.hc_peers.specs.Behind.{IsOpeningLink, LinkIsHeard, LinkIsWritten, LinkLearns, QuietLink};
    ghost use Rattle.hc_peers.specs.Forwards.{IsLinked, IsUnused};
    ghost use Rattle.hc_flow.specs.Flows.{TellsOwed, is_owed, may_be_written};

    /// One that begins to be made, and owes the request. So the forward is getting on.
    pub(crate) fn opening(
        alloc: Global,
        stream: S,
        request: &MessageText,
        progress: ForwardProgress,
    ) -> Result<Self, AllocError>
        ensures linked { S.has_given stream [] → S.has_got stream [] → IfOk result (λ link. IsLinked S.has_given S.has_got link request.now []) }
        ensures behind { IfOk result (IsOpeningLink progress.begun progress.last) }
    {
        let spare = request.share()?;
        let mut flow = Flow::opening(alloc, stream);
        flow.send(request)?;
        Ok(OriginLink {
            flow,
            spare: Some(spare),
            progress,
        })
    }

    /// Whether it isn't known to work yet.
    pub(crate) fn is_opening(&self) -> bool
        ensures { result ≡ is_some self.now.spare }
    {
        self.spare.is_some()
    }

    /// What is heard there now: nothing, until it is known to work, but that it has failed.
    pub(crate) fn hear(
        &mut self,
        alloc: Global,
        buffer: &mut [u8],
        tick: u64,
    ) -> Result<Heard, AllocError>
        ensures heard { (sent heard : List ℕ) → IsLinked S.has_given S.has_got self.old sent heard
            → GivesHeard (IsLinked S.has_given S.has_got self.new sent) result heard }
        ensures reason { IsRead (HasFailed S.has_failed self.old.flow self.new.flow) result }
        ensures over { IsEndOf (S.has_ended self.new.flow.stream) result }
        ensures fails { FailsOnly S.has_failed (IsErr result) self.old.flow self.new.flow }
        ensures behind { LinkIsHeard result tick self.old self.new }
        ensures quiet { QuietLink result self.new }
        ensures begun { self.new.progress.begun ≡ self.old.progress.begun }
    {
        if self.is_opening() {
            if self.flow.has_failed() {
                return Ok(Heard::Lost(Reason::Reset));
            }
            return Ok(Heard::Nothing);
        }
        let heard = hear_flow(alloc, &mut self.flow, buffer)?;
        self.progress = self.progress.moved(heard.has_octets(), tick);
        Ok(heard)
    }

    /// Writes what is owed, as far as it is taken now: nothing, until the link is known to work.
    pub(crate) fn write(&mut self, tick: u64) -> Emptying
        ensures kept { (sent heard : List ℕ) → IsLinked S.has_given S.has_got self.old sent heard → IsLinked S.has_given S.has_got self.new sent heard }
        ensures owed { TellsOwed (Some result) (is_owed self.new.flow) }
        ensures fails { FailsOnly S.has_failed ⊥ self.old.flow self.new.flow }
        ensures behind { LinkIsWritten result tick self.old self.new }
        ensures begun { self.new.progress.begun ≡ self.old.progress.begun }
    {
        if self.is_opening() {
            if self.flow.has_failed() {
                return Emptying::Failed;
            }
            return Emptying::Later;
        }
        let before = self.flow.held();
        let emptying = self.flow.write();
        let still = self.flow.held();
        self.progress = self.progress.written(emptying, before, still, tick);
        emptying
    }

    /// What the system tells of it. It is known to work once something is told without a failure. Behind that a failure is
    /// left to the next read, since what came before it counts.
    pub(crate) fn learn(&mut self, readiness: Readiness)
        ensures kept { (sent heard : List ℕ) → IsLinked S.has_given S.has_got self.old sent heard → IsLinked S.has_given S.has_got self.new sent heard }
        ensures fails { FailsOnly S.has_failed ((is_some self.old.spare && readiness.failed) ≡ true) self.old.flow self.new.flow }
        ensures behind { LinkLearns readiness self.old self.new }
    {
        if !self.is_opening() {
            self.flow.learn(left_to_read(readiness));
            return;
        }
        self.flow.learn(readiness);
        if readiness.failed {
            return;
        }
        if readiness.writable | readiness.readable | readiness.ended {
            self.spare = None;
        }
    }

    /// Takes the request back, where the link has failed before it was known to work.
    pub(crate) fn take_back(&mut self) -> Option<MessageText>
        ensures kept { (sent heard : List ℕ) → IsLinked S.has_given S.has_got self.old sent heard → IsLinked S.has_given S.has_got self.new sent heard }
        ensures back { (sent heard : List ℕ) → IsLinked S.has_given S.has_got self.old sent heard
            → IfSome result (λ request. IsUnused S.has_given S.has_got self.old × (heard ≡ []) × (sent ≡ request)) }
        ensures can { is_some result ≡ (self.old.flow.failed && is_some self.old.spare) }
        ensures rest { self.new ≡ record self.old { spare = self.new.spare } }
        ensures none { result ≡ None → self.new ≡ self.old }
    {
        if !self.flow.has_failed() {
            return None;
        }
        self.spare.take()
    }

    /// Whether the request may be taken back.
    pub(crate) fn may_take_back(&self) -> bool
        ensures { result ≡ (self.now.flow.failed && is_some self.now.spare) }
    {
        self.flow.has_failed() && self.spare.is_some()
    }

    /// Whether it works, octets wait to be written, and may be taken now.
    pub(crate) fn may_be_written(&self) -> bool
        ensures { result ≡ (not (is_some self.now.spare) && may_be_written self.now.flow) }
    {
        !self.is_opening() && self.flow.may_be_written()
    }

    /// The stream, where the link works: our half is ended, and what waits is dropped.
    pub(crate) fn into_lingering(self) -> Option<S>
        ensures { is_some result ≡ (not (is_some self.spare) && not self.flow.failed) }
    {
        if self.is_opening() {
            return None;
        }
        if self.flow.has_failed() {
            return None;
        }
        let mut stream = self.flow.into_stream();
        stream.end();
        Some(stream)
    }

    /// Whether it has failed, or works and a read may bring something.
    pub(crate) fn brings_news(&self) -> bool
        ensures { result ≡ (self.now.flow.failed || (not (is_some self.now.spare) && self.now.flow.readable)) }
    {
        self.flow.has_failed() || (!self.is_opening() && self.flow.is_readable())
    }

    /// How many octets of memory are held for what is owed, and for the request.
    pub(crate) fn weight(&self) -> usize
        ensures { is_owed self.now.flow ≡ true → 0 < result }
    {
        match &self.spare {
            Some(request) => self.flow.weight().saturating_add(weight_of(request)),
            None => self.flow.weight(),
        }
    }
}

/// What is told of a link that works: that it has failed is left to be read, like an end.
fn left_to_read(readiness: Readiness) -> Readiness
    ensures { result ≡ left_to_read readiness }
{
    Readiness {
        readable: readiness.readable | readiness.failed,
        writable: readiness.writable,
        ended: readiness.ended | readiness.failed,
        failed: false,
    }
}
