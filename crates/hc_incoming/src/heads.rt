//! The tests of a request's head.

ghost use Rattle.std.specs.Prelude.{◌≡◌, ◌≢◌, Err, IfOk};
ghost use Rattle.hc_head.specs.declared.head.RequestHead.{RequestHead};
ghost use Rattle.hc_head.specs.Targets.{GivesTarget};
ghost use Rattle.hc_framing.specs.declared.fault.FrameFault.TheVariants.{Memory};
ghost use Rattle.hc_incoming.specs.Requests.{expects};
ghost use Rattle.hc_incoming.specs.HeadParts.{GivesTested};

use crate::troubles::{Trouble, head_trouble};
use hc_framing::FrameFault;
use hc_head::{HeadFault, RequestHead, Target, Version, target};
use std::alloc::{AllocError, Global};

/// What the tests of a head say.
#[derive(Drop)]
pub(crate) enum Tested {
    /// It asks for the target.
    Served(Target),
    /// It is refused, and why.
    Refused(Trouble),
}

/// Whether the client waits for an interim response before it sends the body.
fn expects(head: &RequestHead) -> bool
    ensures { result ≡ expects head.now }
{
    head.version == Version::Http11 && head.fields.contains(b"expect")
}

/// What a fault of the target says of the head.
fn without_target(fault: HeadFault) -> Result<Tested, AllocError>
    ensures { (head : RequestHead) → GivesTarget (Err fault) head → GivesTested result head }
{
    if fault == HeadFault::Memory {
        return Err(AllocError);
    }
    Ok(Tested::Refused(head_trouble(fault)))
}

/// Tests a head: first its Host line, then its target, then whether it expects something.
pub(crate) fn test_head(alloc: Global, head: &RequestHead) -> Result<Tested, AllocError>
    ensures { GivesTested result head.now }
{
    match target(alloc, head) {
        Err(fault) => without_target(fault),
        Ok(target) => {
            if expects(head) {
                return Ok(Tested::Refused(Trouble::Expectation));
            }
            Ok(Tested::Served(target))
        }
    }
}

/// Tells refused memory from what is wrong with a message.
pub(crate) fn unless_memory(fault: FrameFault) -> Result<FrameFault, AllocError>
    ensures { IfOk result (λ met. (met ≡ fault) × (fault ≢ Memory)) }
{
    if fault == FrameFault::Memory {
        return Err(AllocError);
    }
    Ok(fault)
}
