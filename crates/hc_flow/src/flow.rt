//! A stream, what waits to be written there, and what is known of it.

ghost use Rattle.std.specs.Prelude.{◌≡◌, ◌==◌, ◌||◌, ◌&&◌, not, true, false, ℕ, List, [], ◌++◌, length, OnOk, OnErr, if◌then◌else◌, nat_lt};

use crate::outbox::{Emptying, Outbox};
use crate::readiness::Readiness;
use crate::stream::{Arrival, Presence, Stream};
use hc_framing::MessageText;
use std::alloc::{AllocError, Global};

/// A stream, what waits to be written there, and what is known of it. What was sent is owed until it is written; once
/// the link has failed it is lost.
pub struct Flow<S: Stream> {
    stream: S,
    outbox: Outbox,
    /// Whether the link has failed.
    failed: bool,
    /// Whether a read may bring something now.
    readable: bool,
    /// Whether octets may be taken now.
    writable: bool,
    /// Whether the other side has closed its writing half.
    hung_up: bool,
    /// Whether our writing half is to be ended once nothing waits.
    ends: bool,
    /// Whether it was.
    ended: bool,
}

impl<S: Stream + Drop> Drop for Flow<S> {
    fn drop(self) {
        let Flow {
            stream,
            outbox,
            failed: _,
            readable: _,
            writable: _,
            hung_up: _,
            ends: _,
            ended: _,
        } = self;
        drop(stream);
        drop(outbox);
    }
}

impl<S: Stream> Flow<S> {
    ghost use Rattle.hc_flow.specs.Emptyings.{LeavesWaiting, is_ended_behind, is_failed_emptying, is_writable_behind};
    ghost use Rattle.hc_flow.specs.Flows.{FailsWithStream, FlowGave, FlowOwes, KeepsEnd, KeepsLink, OwesSent, ShowsOctets, is_owed, may_be_written};
    ghost use Rattle.hc_flow.specs.Passing.{Stays};
    ghost use Rattle.hc_flow.specs.Reads.{EndsRead, FitsBuffer, HearsArrival, KeepsWaiting, is_failed_read, is_readable_behind};

    /// That of a stream that is open: at first both reading and writing may be tried.
    pub fn new(alloc: Global, stream: S) -> Self
        ensures owes { S.has_got stream [] → FlowOwes S.has_got result [] }
        ensures gave { S.has_given stream [] → FlowGave S.has_given result [] }
        ensures stream { result.stream ≡ stream }
        ensures failed { result.failed ≡ false }
        ensures outbox { result.outbox ≡ [] }
        ensures ready { (result.readable ≡ true) × (result.writable ≡ true) }
        ensures halves { (result.hung_up ≡ false) × (result.ends ≡ false) × (result.ended ≡ false) }
    {
        Flow {
            stream,
            outbox: Outbox::new(alloc),
            failed: false,
            readable: true,
            writable: true,
            hung_up: false,
            ends: false,
            ended: false,
        }
    }

    /// That of a stream that isn't open yet: nothing is tried until it is told to be ready.
    pub fn opening(alloc: Global, stream: S) -> Self
        ensures owes { S.has_got stream [] → FlowOwes S.has_got result [] }
        ensures gave { S.has_given stream [] → FlowGave S.has_given result [] }
        ensures stream { result.stream ≡ stream }
        ensures failed { result.failed ≡ false }
        ensures outbox { result.outbox ≡ [] }
        ensures ready { (result.readable ≡ false) × (result.writable ≡ false) }
        ensures halves { (result.hung_up ≡ false) × (result.ends ≡ false) × (result.ended ≡ false) }
    {
        let mut flow = Flow::new(alloc, stream);
        flow.readable = false;
        flow.writable = false;
        flow
    }

    /// The stream.
    pub fn stream(&self) -> &S
        ensures { result.now ≡ self.now.stream }
    {
        &self.stream
    }

    /// Whether the link has failed.
    pub fn has_failed(&self) -> bool
        ensures { result ≡ self.now.failed }
    {
        self.failed
    }

    /// Whether a read may bring something now. Behind the end of what the other side sends it still may: a
    /// further read returns the end again.
    pub fn is_readable(&self) -> bool
        ensures { result ≡ self.now.readable }
    {
        self.readable
    }

    /// Whether our writing half was ended.
    pub fn has_ended(&self) -> bool
        ensures { result ≡ self.now.ended }
    {
        self.ended
    }

    /// Whether octets wait to be written.
    pub fn is_owed(&self) -> bool
        ensures { result ≡ not (length self.now.outbox == 0) }
    {
        !self.outbox.is_empty()
    }

    /// Whether octets wait to be written, and may be taken now. Once the link has failed none may.
    pub fn may_be_written(&self) -> bool
        ensures { result ≡ may_be_written self.now }
    {
        !self.failed && (self.is_owed() && self.writable)
    }

    /// How many octets wait to be written.
    pub fn held(&self) -> usize
        ensures { result ≡ length self.now.outbox }
    {
        self.outbox.len()
    }

    /// How many octets of memory are held for what waits: of what has more owners a share.
    pub fn weight(&self) -> usize
        ensures { nat_lt 0 result ≡ not (length self.now.outbox == 0) }
    {
        self.outbox.weight()
    }

    /// Whether octets of the other side wait to be read, as far as a look tells: never, once the link has failed.
    pub fn has_octets(&self) -> bool
        ensures { ShowsOctets S.may_show self.now result }
    {
        if self.failed {
            return false;
        }
        match self.stream.peek() {
            Presence::Octets => true,
            Presence::Later => false,
            Presence::Over => false,
        }
    }

    /// The stream. What waits is dropped.
    pub fn into_stream(self) -> S
        ensures { result ≡ self.stream }
    {
        let Flow {
            stream,
            outbox,
            failed: _,
            readable: _,
            writable: _,
            hung_up: _,
            ends: _,
            ended: _,
        } = self;
        drop(outbox);
        stream
    }

    /// The link has failed: what waits is lost.
    pub fn lose(&mut self)
        ensures owes { (sent : List ℕ) → FlowOwes S.has_got self.old sent → FlowOwes S.has_got self.new sent }
        ensures gave { (heard : List ℕ) → FlowGave S.has_given self.old heard → FlowGave S.has_given self.new heard }
        ensures stream { self.new.stream ≡ self.old.stream }
        ensures failed { self.new.failed ≡ true }
        ensures outbox { self.new.outbox ≡ [] }
        ensures ready { (self.new.readable ≡ self.old.readable) × (self.new.writable ≡ self.old.writable) }
        ensures ends { (self.new.hung_up ≡ self.old.hung_up) × (self.new.ends ≡ self.old.ends) × (self.new.ended ≡ self.old.ended) }
    {
        self.failed = true;
        self.outbox.clear();
    }

    /// Drops what waits: it isn't owed any more.
    pub fn drop_waiting(&mut self)
        ensures outbox { self.new.outbox ≡ [] }
        ensures link { KeepsLink self.old self.new }
        ensures gave { (heard : List ℕ) → FlowGave S.has_given self.old heard → FlowGave S.has_given self.new heard }
    {
        self.outbox.clear();
    }

    /// What the system tells of the link. That something may be read or written is only added to what is known.
    pub fn learn(&mut self, readiness: Readiness)
        ensures owes { (sent : List ℕ) → FlowOwes S.has_got self.old sent → FlowOwes S.has_got self.new sent }
        ensures gave { (heard : List ℕ) → FlowGave S.has_given self.old heard → FlowGave S.has_given self.new heard }
        ensures stream { self.new.stream ≡ self.old.stream }
        ensures failed { self.new.failed ≡ (self.old.failed || readiness.failed) }
        ensures outbox { self.new.outbox ≡ (if readiness.failed then [] else self.old.outbox) }
        ensures readable { self.new.readable ≡ (self.old.readable || (readiness.readable || readiness.ended)) }
        ensures writable { self.new.writable ≡ (self.old.writable || readiness.writable) }
        ensures hung_up { self.new.hung_up ≡ (self.old.hung_up || readiness.ended) }
        ensures ends { (self.new.ends ≡ self.old.ends) × (self.new.ended ≡ self.old.ended) }
    {
        self.readable |= readiness.readable | readiness.ended;
        self.writable |= readiness.writable;
        self.hung_up |= readiness.ended;
        if readiness.failed {
            self.lose();
        }
    }

    /// Puts a text behind all that waits. A link that has failed loses it.
    pub fn send(&mut self, text: &MessageText) -> Result<(), AllocError>
        ensures owes { (sent : List ℕ) → FlowOwes S.has_got self.old sent → OwesSent (FlowOwes S.has_got self.new) result text.now sent }
        ensures gave { (heard : List ℕ) → FlowGave S.has_given self.old heard → FlowGave S.has_given self.new heard }
        ensures ok { OnOk result (self.new.outbox ≡ (if self.old.failed then self.old.outbox else (self.old.outbox ++ text.now))) }
        ensures err { OnErr result (self.new.outbox ≡ self.old.outbox) }
        ensures link { KeepsLink self.old self.new }
    {
        if self.failed {
            return Ok(());
        }
        self.outbox.push(text)
    }

    /// Ends our writing half, if that is asked for, and it wasn't ended.
    fn end_once(&mut self)
        ensures owes { (sent : List ℕ) → FlowOwes S.has_got self.old sent → FlowOwes S.has_got self.new sent }
        ensures gave { (heard : List ℕ) → FlowGave S.has_given self.old heard → FlowGave S.has_given self.new heard }
        ensures got { Stays (S.has_got self.old.stream) (S.has_got self.new.stream) }
        ensures half { KeepsEnd S.was_ended self.old self.new }
        ensures fails { S.has_failed self.old.stream → S.has_failed self.new.stream }
        ensures ended { self.new.ended ≡ (self.old.ended || self.old.ends) }
        ensures same { (self.new.failed ≡ self.old.failed) × (self.new.outbox ≡ self.old.outbox) × (self.new.readable ≡ self.old.readable)
            × (self.new.writable ≡ self.old.writable) × (self.new.hung_up ≡ self.old.hung_up) × (self.new.ends ≡ self.old.ends) }
    {
        if self.ended {
            return;
        }
        if self.ends {
            self.stream.end();
            self.ended = true;
        }
    }

    /// Our writing half is ended behind what waits: at once, where nothing does.
    pub fn end_behind(&mut self)
        ensures owes { (sent : List ℕ) → FlowOwes S.has_got self.old sent → FlowOwes S.has_got self.new sent }
        ensures gave { (heard : List ℕ) → FlowGave S.has_given self.old heard → FlowGave S.has_given self.new heard }
        ensures got { Stays (S.has_got self.old.stream) (S.has_got self.new.stream) }
        ensures half { KeepsEnd S.was_ended self.old self.new }
        ensures fails { S.has_failed self.old.stream → S.has_failed self.new.stream }
        ensures ends { self.new.ends ≡ true }
        ensures ended { self.new.ended ≡ (self.old.ended || (not self.old.failed && (length self.old.outbox == 0))) }
        ensures same { (self.new.failed ≡ self.old.failed) × (self.new.outbox ≡ self.old.outbox) × (self.new.readable ≡ self.old.readable)
            × (self.new.writable ≡ self.old.writable) × (self.new.hung_up ≡ self.old.hung_up) }
    {
        self.ends = true;
        if self.failed {
            return;
        }
        if self.outbox.is_empty() {
            self.end_once();
        }
    }

    /// Writes what waits, as far as it is taken now. Where nothing waits any more, and that is asked for, our writing half
    /// is ended. Once the link has failed nothing is written.
    pub fn write(&mut self) -> Emptying
        ensures owes { (sent : List ℕ) → FlowOwes S.has_got self.old sent → FlowOwes S.has_got self.new sent }
        ensures gave { (heard : List ℕ) → FlowGave S.has_given self.old heard → FlowGave S.has_given self.new heard }
        ensures waits { LeavesWaiting result self.new.outbox }
        ensures failed { self.new.failed ≡ is_failed_emptying result }
        ensures half { KeepsEnd S.was_ended self.old self.new }
        ensures fails { FailsWithStream S.has_failed self.old self.new }
        ensures writable { self.new.writable ≡ is_writable_behind result self.old.writable }
        ensures ended { self.new.ended ≡ is_ended_behind result self.old.ended self.old.ends }
        ensures same { (self.new.readable ≡ self.old.readable) × (self.new.hung_up ≡ self.old.hung_up) × (self.new.ends ≡ self.old.ends) }
    {
        if self.failed {
            return Emptying::Failed;
        }
        if self.outbox.is_empty() {
            self.end_once();
            return Emptying::Emptied;
        }
        if !self.writable {
            return Emptying::Later;
        }
        match self.outbox.write_to(&mut self.stream) {
            Emptying::Emptied => {
                self.end_once();
                Emptying::Emptied
            }
            Emptying::Later => {
                self.writable = false;
                Emptying::Later
            }
            Emptying::Failed => {
                self.lose();
                Emptying::Failed
            }
        }
    }

    /// Reads what there is now, as far as the buffer takes it. Once the link has failed nothing is read.
    pub fn read(&mut self, buffer: &mut [u8]) -> Arrival
        ensures owes { (sent : List ℕ) → FlowOwes S.has_got self.old sent → FlowOwes S.has_got self.new sent }
        ensures gave { (heard : List ℕ) → FlowGave S.has_given self.old heard → HearsArrival (FlowGave S.has_given self.new) result buffer.new heard }
        ensures got { Stays (S.has_got self.old.stream) (S.has_got self.new.stream) }
        ensures octets { FitsBuffer result buffer.new }
        ensures failed { self.new.failed ≡ is_failed_read result }
        ensures over { EndsRead (S.has_ended self.new.stream) result }
        ensures half { KeepsEnd S.was_ended self.old self.new }
        ensures fails { FailsWithStream S.has_failed self.old self.new }
        ensures waits { KeepsWaiting result self.old.outbox self.new.outbox }
        ensures owed { is_owed self.new ≡ true → is_owed self.old ≡ true }
        ensures readable { self.new.readable ≡ is_readable_behind result self.old.readable self.old.hung_up (length buffer.new) }
        ensures same { (self.new.writable ≡ self.old.writable) × (self.new.hung_up ≡ self.old.hung_up) × (self.new.ends ≡ self.old.ends)
            × (self.new.ended ≡ self.old.ended) }
    {
        if self.failed {
            return Arrival::Failed;
        }
        if !self.readable {
            return Arrival::Later;
        }
        match self.stream.read(buffer) {
            Arrival::Octets(count) => {
                self.readable = self.hung_up | (count == buffer.len());
                Arrival::Octets(count)
            }
            Arrival::End => Arrival::End,
            Arrival::Later => {
                self.readable = false;
                Arrival::Later
            }
            Arrival::Failed => {
                self.lose();
                Arrival::Failed
            }
        }
    }
}
