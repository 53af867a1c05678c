//! Serving one connection.

ghost use Rattle.std.specs.Prelude.{ℕ, List, length};
ghost use Rattle.hc_connection.specs.Connections.{HasPassed};
ghost use Rattle.hc_order.specs.Log.{Move};
ghost use Rattle.hc_connection.specs.Sides.{Rests};
ghost use Rattle.hc_links.specs.Keeping.{KeepsRecorder};
ghost use Rattle.hc_drive.specs.Drives.{CountsServed, GivesDrive, LeavesIdle, LeavesOpened, LeavesResting, SaysFailed};
ghost use Rattle.hc_drive.specs.Rounds.{stage};

use crate::driving::drive;
use crate::fault::DriveFault;
use hc_connection::{Connection, a_connection_at_rest_leaves_a_cache_at_rest};
use hc_core::Core;
use hc_links::{Clock, Link, Origins};
use hc_order::what_may_happen_in_turn_is_served;
use hc_service::StepFault;
use std::alloc::Global;
use std::hash::BuildHasher;

/// Serves one connection to its end, and records that. What is told of a new one begins with its opening.
/// Where it was served before, nothing more happens, and the result tells again whether its client's link has
/// failed.
pub fn serve_connection<S: BuildHasher, C: Link, O: Origins, K: Clock, R: Link>(
    alloc: Global,
    core: &mut Core<S>,
    connection: &mut Connection<'_, C, O, K>,
    recorder: &mut R,
) -> Result<(), DriveFault>
    ensures serves { (log : List Move) (text : List ℕ)
        → HasPassed C.has_given C.has_got C.was_read C.count O.Link.has_given O.Link.has_got (K.may_tell connection.old.clock.now)
        connection.old.opened connection.old.peers.client connection.old.peers.forwards.links log
        → R.has_got recorder.old text
        → GivesDrive 1 (λ log. HasPassed C.has_given C.has_got C.was_read C.count O.Link.has_given O.Link.has_got (K.may_tell connection.new.clock.now)
        connection.new.opened connection.new.peers.client connection.new.peers.forwards.links log)
        (R.has_got recorder.new) (Rests connection.new.opened (length connection.new.peers.forwards.links.entries) connection.new.peers.client)
        result (stage core.old log text) core.new }
    ensures moments { (moment : ℕ) → K.may_tell connection.new.clock.now moment → K.may_tell connection.old.clock.now moment }
    ensures recorder { KeepsRecorder R.has_kept R.was_read recorder.old recorder.new }
    ensures rests { LeavesResting result (Rests connection.new.opened (length connection.new.peers.forwards.links.entries) connection.new.peers.client) }
    ensures count { CountsServed result (R.count recorder.old) (R.count recorder.new) }
    ensures idle { LeavesIdle result core.new }
    ensures failed { SaysFailed result connection.new.peers.client.failed }
    ensures opened { LeavesOpened result connection.new.opened }
{
    // Laws, which do nothing: what is proved below rests on them.
    what_may_happen_in_turn_is_served();
    a_connection_at_rest_leaves_a_cache_at_rest::<C, O, K>();
    drive(alloc, core, connection, recorder)?;
    // By this test the promise holds of any cache. One that was at rest before, and mirrored the log, is idle here.
    if !core.idle() {
        return Err(DriveFault::Core(StepFault::Failed));
    }
    if connection.has_failed() {
        return Err(DriveFault::Client);
    }
    Ok(())
}
