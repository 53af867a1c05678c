//! One client's link.

ghost use Rattle.std.specs.Prelude.{◌≡◌, ◌⊎◌, ◌&&◌, ◌||◌, not, Bool, true, false, [], Some, None, nat_lt, length, IsErr};
ghost use Rattle.hc_peers.specs.Leaving.{left_behind};

use hc_flow::{Arrival, Emptying, Flow, Heard, Pace, Readiness, Stream, hear_flow, wants_turn};
use hc_framing::MessageText;
use hc_order::Reason;
use std::alloc::{AllocError, Global};

/// What decides how a client is heard.
#[derive(Clone, Copy)]
pub struct Hearing {
    /// Whether a request of the client awaits its reply.
    pub awaited: bool,
    /// Whether a stop ends the client.
    pub stops: bool,
    /// Whether it gives way to another client.
    pub gives_way: bool,
    /// Whether its time is over.
    pub late: bool,
    /// When it is heard.
    pub tick: u64,
}

/// One client's link, and what the cache was told of it.
#[derive(Drop)]
pub struct Client<S: Stream> {
    pub(crate) flow: Flow<S>,
    /// Whether the cache was told that the client sends no more.
    ended: bool,
    /// Whether the cache has closed the connection.
    closed: bool,
    /// Whether it was cut off, since so much was held.
    cut: bool,
    /// Whether a request of it awaited its reply when it was heard last, and nothing was sent to it since.
    waits: bool,
    /// Whether it stands among the turns.
    pub(crate) queued: bool,
    /// When the system first told that it has ended, or that its link has failed.
    left: Option<u64>,
    /// How it is getting on.
    pub(crate) pace: Pace,
}

impl<S: Stream> Client<S> {
    ghost use Rattle.hc_order.specs.Passages.{Passage, closing, ending, opened_with};
    ghost use Rattle.hc_flow.specs.Hearings.{FailsOnly, HasFailed, IsHeardInTurn, IsHeardOpen, IsRealEnd, KeepsHeard, KeepsSent, ends_by, goes_on, wants_turn};
    ghost use Rattle.hc_peers.specs.Hearings.{IsHeardFor, IsRead, IsToldAtOnce};
    ghost use Rattle.hc_flow.specs.Flows.{TellsOwed, is_owed, may_be_written};
    ghost use Rattle.hc_peers.specs.Behind.{ClientIsClosed, ClientIsDropped, ClientIsHeard, ClientIsLost, ClientIsSent, ClientIsWritten, ClientLearns, IsFreshClient, is_broken, is_client_heard, is_closing, may_be_read};
    ghost use Rattle.hc_peers.specs.Clients.{IsClient, may_go};
    ghost use Rattle.hc_peers.specs.Leaving.{has_left, left_behind};
    ghost use Rattle.hc_peers.specs.declared.client.Hearing.{Hearing};
    ghost use Rattle.hc_peers.specs.Times.{pace_behind};
    ghost use Rattle.hc_flow.specs.Passing.{Stays};

    /// One who has just connected, and has a turn.
    pub(crate) fn new(alloc: Global, stream: S, tick: u64) -> Self
        ensures kept { S.has_given stream [] → S.has_got stream [] → IsClient S.has_given S.has_got result (opened_with []) }
        ensures behind { IsFreshClient stream tick result }
        ensures left { result.left ≡ None }
    {
        Client {
            flow: Flow::new(alloc, stream),
            ended: false,
            closed: false,
            cut: false,
            waits: false,
            queued: true,
            left: None,
            pace: Pace::Idle(tick),
        }
    }

    /// What is heard of the client now. That it was cut off is told at once. So it is told that its time is over, and what is
    /// owed to it is lost; and that its link has failed. Else nothing is read while a reply is awaited, or octets wait to be
    /// written.
    pub(crate) fn hear(
        &mut self,
        alloc: Global,
        buffer: &mut [u8],
        hearing: Hearing,
    ) -> Result<Heard, AllocError>
        ensures kept { (passage : Passage) → IsClient S.has_given S.has_got self.old passage
            → KeepsHeard (IsClient S.has_given S.has_got self.new) result passage }
        ensures told { (passage : Passage) → IsClient S.has_given S.has_got self.old passage
            → IsHeardOpen passage.is_open passage.is_ended result }
        ensures in_turn { IsHeardInTurn hearing.awaited result }
        ensures owed { IsHeardInTurn (is_owed self.old.flow) result }
        ensures reason { IsHeardFor hearing self.old.cut (HasFailed S.has_failed self.old.flow self.new.flow) result }
        ensures over { IsRealEnd (S.has_ended self.new.flow.stream) result }
        ensures at_once { self.old.ended ≡ false → self.old.closed ≡ false → IsToldAtOnce self.old.cut hearing.late result }
        ensures fails { FailsOnly S.has_failed ((hearing.late ≡ true) ⊎ IsErr result) self.old.flow self.new.flow }
        ensures behind { ClientIsHeard hearing result self.old self.new }
        ensures got { Stays (S.has_got self.old.flow.stream) (S.has_got self.new.flow.stream) }
    {
        self.waits = hearing.awaited;
        if self.ended {
            return Ok(Heard::Nothing);
        }
        if self.closed {
            return Ok(Heard::Nothing);
        }
        if self.cut {
            return Ok(self.end(Reason::Held));
        }
        if hearing.late {
            self.lose();
            return Ok(self.end(Reason::Late));
        }
        if self.flow.has_failed() {
            return Ok(self.end(Reason::Reset));
        }
        if self.is_held_back(hearing.awaited) {
            return Ok(Heard::Nothing);
        }
        if hearing.stops {
            return Ok(self.end(Reason::Stop));
        }
        if hearing.gives_way {
            return Ok(self.end(Reason::Displaced));
        }
        self.read(alloc, buffer, hearing.tick)
    }

    /// Whether a reply is awaited, or octets wait to be written.
    fn is_held_back(&self, awaited: bool) -> bool
        ensures { result ≡ (awaited || is_owed self.now.flow) }
    {
        awaited || self.flow.is_owed()
    }

    /// The cache is told that the client sends no more.
    fn end(&mut self, reason: Reason) -> Heard
        ensures heard { result ≡ Heard.End reason }
        ensures rest { self.new ≡ record self.old { ended = true } }
        ensures kept { (passage : Passage) → IsClient S.has_given S.has_got self.old passage
            → IsClient S.has_given S.has_got self.new (ending passage) }
        ensures got { Stays (S.has_got self.old.flow.stream) (S.has_got self.new.flow.stream) }
    {
        self.ended = true;
        Heard::End(reason)
    }

    /// What a read brings. A link that fails at it ends the client, too.
    fn read(&mut self, alloc: Global, buffer: &mut [u8], tick: u64) -> Result<Heard, AllocError>
        ensures kept { self.old.closed ≡ false → (passage : Passage) → IsClient S.has_given S.has_got self.old passage
            → KeepsHeard (IsClient S.has_given S.has_got self.new) result passage }
        ensures over { IsRealEnd (S.has_ended self.new.flow.stream) result }
        ensures reason { (hearing : Hearing) (cut : Bool) → IsRead hearing → IsHeardFor hearing cut (HasFailed S.has_failed self.old.flow self.new.flow) result }
        ensures fails { FailsOnly S.has_failed (IsErr result) self.old.flow self.new.flow }
        ensures quiet { self.old.closed ≡ false → goes_on result self.new.flow.readable ≡ false → is_client_heard self.new ≡ false }
        ensures written { self.old.flow.failed ≡ false → may_be_written self.new.flow ≡ true → may_be_written self.old.flow ≡ true }
        ensures rest { self.new ≡ record self.old { flow = self.new.flow; ended = ends_by result self.old.ended; pace = pace_behind result tick self.old.pace } }
        ensures got { Stays (S.has_got self.old.flow.stream) (S.has_got self.new.flow.stream) }
    {
        match hear_flow(alloc, &mut self.flow, buffer)? {
            Heard::Octets(octets) => {
                self.pace = self.pace.asking(octets.len() as u64, tick);
                Ok(Heard::Octets(octets))
            }
            Heard::End(reason) => Ok(self.end(reason)),
            Heard::Lost(reason) => Ok(self.end(reason)),
            Heard::Nothing => Ok(Heard::Nothing),
        }
    }

    /// Octets are owed to the client. Where memory is refused, they aren't.
    pub(crate) fn send(&mut self, text: &MessageText, tick: u64) -> Result<(), AllocError>
        ensures kept { (passage : Passage) → IsClient S.has_given S.has_got self.old passage
            → KeepsSent (IsClient S.has_given S.has_got self.new) result text.now passage }
        ensures behind { ClientIsSent tick self.old self.new }
        ensures got { Stays (S.has_got self.old.flow.stream) (S.has_got self.new.flow.stream) }
    {
        self.waits = false;
        let sent = self.flow.send(text);
        self.pace = self.pace.owing(self.flow.is_owed(), tick);
        sent
    }

    /// The cache has closed the connection: behind what is owed the client finds an end. Returns whether it was open.
    pub(crate) fn close(&mut self) -> bool
        ensures kept { (passage : Passage) → IsClient S.has_given S.has_got self.old passage
            → IsClient S.has_given S.has_got self.new (closing passage) }
        ensures was { result ≡ not self.old.closed }
        ensures ends { self.new.flow.ends ≡ true }
        ensures behind { ClientIsClosed self.old self.new }
        ensures got { Stays (S.has_got self.old.flow.stream) (S.has_got self.new.flow.stream) }
    {
        let was_open = !self.closed;
        self.closed = true;
        self.flow.end_behind();
        was_open
    }

    /// Writes what is owed, as far as it is taken now.
    pub(crate) fn write(&mut self, tick: u64) -> Emptying
        ensures kept { (passage : Passage) → IsClient S.has_given S.has_got self.old passage → IsClient S.has_given S.has_got self.new passage }
        ensures owed { TellsOwed (Some result) (is_owed self.new.flow) }
        ensures fails { FailsOnly S.has_failed ⊥ self.old.flow self.new.flow }
        ensures behind { ClientIsWritten result tick self.old self.new }
    {
        let before = self.flow.held();
        let emptying = self.flow.write();
        let still = self.flow.held();
        self.pace = self.pace.written(emptying, before, still, tick);
        emptying
    }

    /// What the system tells of the link. Returns whether it has to get a turn for that now.
    pub(crate) fn learn(&mut self, readiness: Readiness, tick: u64) -> bool
        ensures kept { (passage : Passage) → IsClient S.has_given S.has_got self.old passage → IsClient S.has_given S.has_got self.new passage }
        ensures first { result ≡ (wants_turn readiness && not self.old.queued) }
        ensures behind { ClientLearns readiness tick self.old self.new }
        ensures got { Stays (S.has_got self.old.flow.stream) (S.has_got self.new.flow.stream) }
    {
        self.flow.learn(readiness);
        self.left = left_behind(readiness, tick, self.left);
        let wanted = wants_turn(readiness);
        let is_first = wanted & !self.queued;
        self.queued = wanted | self.queued;
        is_first
    }

    /// Whether it had left by that millisecond: the system had told that it has ended, or its link has failed.
    pub fn has_left(&self, by: u64) -> bool
        ensures { result ≡ has_left by (Some self.now) }
    {
        if self.flow.has_failed() {
            return true;
        }
        match self.left {
            Some(since) => since <= by,
            None => false,
        }
    }

    /// Its time is over: what is owed is lost.
    pub(crate) fn lose(&mut self)
        ensures kept { (passage : Passage) → IsClient S.has_given S.has_got self.old passage → IsClient S.has_given S.has_got self.new passage }
        ensures behind { ClientIsLost false self.old self.new }
        ensures got { Stays (S.has_got self.old.flow.stream) (S.has_got self.new.flow.stream) }
    {
        self.flow.lose();
    }

    /// It is cut off, since so much is held: what is owed is lost.
    pub(crate) fn cut_off(&mut self)
        ensures kept { (passage : Passage) → IsClient S.has_given S.has_got self.old passage → IsClient S.has_given S.has_got self.new passage }
        ensures behind { ClientIsLost true self.old self.new }
        ensures got { Stays (S.has_got self.old.flow.stream) (S.has_got self.new.flow.stream) }
    {
        self.lose();
        self.cut = true;
    }

    /// Reads what a client whose connection is closed still sends, and drops it. Returns whether nothing more comes.
    pub(crate) fn discard(&mut self, buffer: &mut [u8]) -> bool
        ensures kept { (passage : Passage) → IsClient S.has_given S.has_got self.old passage → IsClient S.has_given S.has_got self.new passage }
        ensures fails { FailsOnly S.has_failed ⊥ self.old.flow self.new.flow }
        ensures behind { ClientIsDropped result self.old self.new }
        ensures open { self.old.closed ≡ false → (result ≡ false) × (self.new ≡ self.old) }
        ensures got { Stays (S.has_got self.old.flow.stream) (S.has_got self.new.flow.stream) }
    {
        if !self.closed {
            return false;
        }
        match self.flow.read(buffer) {
            Arrival::Octets(_) => false,
            Arrival::End => true,
            Arrival::Later => false,
            Arrival::Failed => true,
        }
    }

    /// Whether the cache has closed the connection, and all that was owed was written, or is lost.
    pub(crate) fn may_go(&self) -> bool
        ensures { result ≡ may_go self.now }
    {
        self.closed && (self.flow.has_failed() || !self.flow.is_owed())
    }

    /// Whether the cache has closed the connection.
    pub fn is_closed(&self) -> bool
        ensures { result ≡ self.now.closed }
    {
        self.closed
    }

    /// How it is getting on.
    pub fn pace(&self) -> Pace
        ensures { result ≡ self.now.pace }
    {
        self.pace
    }

    /// Whether it was cut off.
    pub fn is_cut(&self) -> bool
        ensures { result ≡ self.now.cut }
    {
        self.cut
    }

    /// Its stream.
    pub fn stream(&self) -> &S
        ensures { result.now ≡ self.now.flow.stream }
    {
        self.flow.stream()
    }

    /// How many octets that were sent to it wait to be written.
    pub fn owed(&self) -> usize
        ensures { result ≡ length self.now.flow.outbox }
    {
        self.flow.held()
    }

    /// How many octets of memory are held for what is owed.
    pub fn weight(&self) -> usize
        ensures { nat_lt 0 result ≡ is_owed self.now.flow }
    {
        self.flow.weight()
    }

    /// Whether octets wait to be written to it, and may be taken now.
    pub(crate) fn may_be_written(&self) -> bool
        ensures { result ≡ may_be_written self.now.flow }
    {
        self.flow.may_be_written()
    }

    /// Whether something is to be heard of it: it may be read, or its link has failed, which isn't told yet.
    pub(crate) fn is_to_be_heard(&self) -> bool
        ensures { result ≡ is_client_heard self.now }
    {
        self.may_be_read() || self.is_broken()
    }

    /// Whether a read may bring something now, and isn't held back: nothing is owed to it; and where its connection is
    /// open, it hasn't ended, and none of its requests awaits its reply.
    fn may_be_read(&self) -> bool
        ensures { result ≡ may_be_read self.now }
    {
        self.flow.is_readable()
            && !self.flow.is_owed()
            && (self.closed || (!self.ended && !self.waits))
    }

    /// Whether its link has failed, which is to be told, or lets it go.
    fn is_broken(&self) -> bool
        ensures { result ≡ is_broken self.now }
    {
        self.flow.has_failed() && (self.closed || !self.ended)
    }

    /// Whether the cache has closed its connection, its link works, and all that was owed to it was written.
    pub(crate) fn is_closing(&self) -> bool
        ensures { result ≡ is_closing self.now }
    {
        self.closed && !self.flow.has_failed() && !self.flow.is_owed()
    }

    /// Whether octets of it wait to be read, as far as a look tells.
    pub fn has_octets(&self) -> bool
        ensures { result ≡ true → self.now.flow.failed ≡ false }
    {
        self.flow.has_octets()
    }

    /// Whether a read may bring something now.
    pub fn is_readable(&self) -> bool
        ensures { result ≡ self.now.flow.readable }
    {
        self.flow.is_readable()
    }
}

/// When a client has left, behind what the system tells of its link: as soon as that is told.
fn left_behind(readiness: Readiness, tick: u64, before: Option<u64>) -> Option<u64>
    ensures { result ≡ left_behind readiness tick before }
{
    if !(readiness.ended || readiness.failed) {
        return before;
    }
    match before {
        Some(since) => Some(since),
        None => Some(tick),
    }
}
