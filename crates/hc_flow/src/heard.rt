//! What is heard at a link.

ghost use Rattle.std.specs.Prelude.{◌≡◌, ◌++◌, true, ℕ, List, IfOk, IsErr, OnErr, OnOk};
ghost use Rattle.hc_flow.specs.Flows.{FlowGave, FlowOwes, is_owed};
ghost use Rattle.hc_flow.specs.Passing.{Stays};
ghost use Rattle.hc_flow.specs.Hearings.{FailsOnly, FlowIsHeard, GivesHeard, HasFailed, IsEndOf, IsRead, has_octets, is_end, is_lost, wants_turn};

use crate::flow::Flow;
use crate::readiness::Readiness;
use crate::stream::{Arrival, Stream};
use hc_fields::Octets;
use hc_order::Reason;
use std::alloc::{AllocError, Global};

/// What is heard at a link.
#[derive(Drop)]
pub enum Heard {
    /// These octets came.
    Octets(Octets),
    /// The other side sends no more, told for that reason.
    End(Reason),
    /// There is no link any more, told for that reason.
    Lost(Reason),
    /// Nothing now.
    Nothing,
}

impl Heard {
    /// Whether octets came.
    pub fn has_octets(&self) -> bool
        ensures { result ≡ has_octets self.now }
    {
        match self {
            Heard::Octets(_) => true,
            Heard::End(_) => false,
            Heard::Lost(_) => false,
            Heard::Nothing => false,
        }
    }

    /// Whether the other side sends no more.
    pub fn is_end(&self) -> bool
        ensures { result ≡ is_end self.now }
    {
        match self {
            Heard::Octets(_) => false,
            Heard::End(_) => true,
            Heard::Lost(_) => false,
            Heard::Nothing => false,
        }
    }

    /// Whether there is no link any more.
    pub fn is_lost(&self) -> bool
        ensures { result ≡ is_lost self.now }
    {
        match self {
            Heard::Octets(_) => false,
            Heard::End(_) => false,
            Heard::Lost(_) => true,
            Heard::Nothing => false,
        }
    }
}

/// Reads what a link gives now, as much as the buffer takes. Where memory is refused for what was read, the link counts
/// as failed, since those octets are lost.
pub fn hear_flow<S: Stream>(
    alloc: Global,
    flow: &mut Flow<S>,
    buffer: &mut [u8],
) -> Result<Heard, AllocError>
    ensures owes { (sent : List ℕ) → FlowOwes S.has_got flow.old sent → FlowOwes S.has_got flow.new sent }
    ensures gave { (heard : List ℕ) → FlowGave S.has_given flow.old heard → GivesHeard (FlowGave S.has_given flow.new) result heard }
    ensures reason { IsRead (HasFailed S.has_failed flow.old flow.new) result }
    ensures over { IsEndOf (S.has_ended flow.new.stream) result }
    ensures fails { FailsOnly S.has_failed (IsErr result) flow.old flow.new }
    ensures leaves { FlowIsHeard result flow.old flow.new }
    ensures got { Stays (S.has_got flow.old.stream) (S.has_got flow.new.stream) }
{
    match flow.read(buffer) {
        Arrival::Octets(count) => heard_octets(alloc, flow, &buffer[..count]),
        Arrival::End => Ok(Heard::End(Reason::Peer)),
        Arrival::Later => Ok(Heard::Nothing),
        Arrival::Failed => Ok(Heard::Lost(Reason::Reset)),
    }
}

/// These octets were read from a link.
fn heard_octets<S: Stream>(
    alloc: Global,
    flow: &mut Flow<S>,
    octets: &[u8],
) -> Result<Heard, AllocError>
    ensures owes { (sent : List ℕ) → FlowOwes S.has_got flow.old sent → FlowOwes S.has_got flow.new sent }
    ensures gave { (heard : List ℕ) → FlowGave S.has_given flow.old (heard ++ octets.now)
        → GivesHeard (FlowGave S.has_given flow.new) result heard }
    ensures octets { IfOk result (λ heard. has_octets heard ≡ true) }
    ensures fails { OnOk result (flow.new.failed ≡ flow.old.failed) }
    ensures lost { OnErr result (flow.new.failed ≡ true) }
    ensures owed { is_owed flow.new ≡ true → is_owed flow.old ≡ true }
    ensures writable { flow.new.writable ≡ flow.old.writable }
    ensures got { Stays (S.has_got flow.old.stream) (S.has_got flow.new.stream) }
{
    match Octets::from_slice(alloc, octets) {
        Ok(octets) => Ok(Heard::Octets(octets)),
        Err(AllocError) => {
            flow.lose();
            Err(AllocError)
        }
    }
}

/// Whether what the system tells of a link asks for a turn of it: there is something to be heard.
pub fn wants_turn(readiness: Readiness) -> bool
    ensures { result ≡ wants_turn readiness }
{
    readiness.readable | (readiness.ended | readiness.failed)
}
