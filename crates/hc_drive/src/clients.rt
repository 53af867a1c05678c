//! Serving clients, one after another.

ghost use Rattle.std.specs.Prelude.{ℕ, List};
ghost use Rattle.hc_transcript.specs.Records.{opening};
ghost use Rattle.hc_service.specs.declared.settings.CoreSettings.{CoreSettings};
ghost use Rattle.hc_service.specs.Sending.{recorded_format};
ghost use Rattle.hc_service.specs.Settings.{AreGood};
ghost use Rattle.hc_service.specs.State.{new_state};
ghost use Rattle.hc_core.specs.Steps.{StandsFor};
ghost use Rattle.hc_links.specs.Keeping.{KeepsRecorder};
ghost use Rattle.hc_drive.specs.Clients.{ComeSince, CountsServing, GivesNext, GivesServing, GivesTranscript, KeepsIdle, LeftSince};

use crate::fault::{DriveFault, ServingFault};
use crate::serving::serve_connection;
use hc_connection::Connection;
use hc_core::Core;
use hc_links::{Clients, Clock, Link, Origins};
use hc_order::a_new_cache_mirrors_what_is_before;
use hc_service::{new_cache_agrees, runs_are_judged_right, runs_go_on};
use std::alloc::Global;
use std::hash::BuildHasher;

/// What clients are served by, beside a cache and its recorder.
#[derive(Clone, Copy)]
pub struct Surroundings<'a, O, K> {
    /// It opens links to the origin.
    pub origins: &'a O,
    /// It tells the time.
    pub clock: &'a K,
}

/// Serves the connection of that number of the next client, and hands its link back.
fn serve_next<S: BuildHasher, A: Clients, O: Origins, K: Clock, R: Link>(
    alloc: Global,
    core: &mut Core<S>,
    clients: &mut A,
    surroundings: &Surroundings<'_, O, K>,
    recorder: &mut R,
    number: u64,
) -> Result<(), ServingFault>
    ensures serves { (text : List ℕ) → R.has_got recorder.old text
        → GivesNext (K.may_tell surroundings.now.clock.now)
        (ComeSince (A.came clients.old) (A.came clients.new))
        (LeftSince (A.left clients.old) (A.left clients.new))
        (R.has_got recorder.new) result number core.old core.new text }
    ensures idle { KeepsIdle result core.old core.new }
    ensures count { CountsServing result (R.count recorder.old) (R.count recorder.new) }
    ensures recorder { KeepsRecorder R.has_kept R.was_read recorder.old recorder.new }
{
    let Ok(client) = clients.next() else {
        return Err(ServingFault::Clients);
    };
    let Surroundings { origins, clock } = *surroundings;
    let mut connection = Connection::new(alloc, number, client, origins, clock);
    match serve_connection(alloc, core, &mut connection, recorder) {
        Ok(()) => {
            clients.done(connection.into_client());
            Ok(())
        }
        // That is the client's own fault.
        Err(DriveFault::Client) => {
            clients.done(connection.into_client());
            Ok(())
        }
        Err(DriveFault::Recorder) => Err(ServingFault::Recorder),
        Err(DriveFault::Core(step)) => Err(ServingFault::Core(step)),
    }
}

/// Serves so many connections of clients, one after another, with numbers from 1. The next client is waited for once
/// the connection before was served to its end. A client whose link fails is served no further, and the next one is;
/// any other fault ends all.
///
/// Of a new cache the recording, if it was the opening of a transcript before, is a transcript to which the strictest
/// audit says yes, as far as records can be numbered; or a beginning of one, where the recorder failed or the cache
/// didn't serve an event. In any case it is that of what happened: the connections 1, 2, .., each with what its client
/// sent and what the cache answered, and no other.
///
/// Of a new cache any fault of the core says that memory was refused, that an event's moment was too large to be told,
/// or that 2^64 - 1 events of one connection were served, as far as records can be numbered.
pub fn serve_clients<S: BuildHasher, A: Clients, O: Origins, K: Clock, R: Link>(
    alloc: Global,
    core: &mut Core<S>,
    clients: &mut A,
    surroundings: &Surroundings<'_, O, K>,
    recorder: &mut R,
    count: u64,
) -> Result<(), ServingFault>
    ensures transcript { (settings : CoreSettings) → AreGood settings → StandsFor settings core.old (new_state settings)
        → R.has_got recorder.old (opening recorded_format) → GivesTranscript (R.has_got recorder.new) result }
    ensures serves { (text : List ℕ) → R.has_got recorder.old text
        → GivesServing (K.may_tell surroundings.now.clock.now)
        (ComeSince (A.came clients.old) (A.came clients.new))
        (LeftSince (A.left clients.old) (A.left clients.new))
        (R.has_got recorder.new) result count core.old core.new text }
    ensures idle { KeepsIdle result core.old core.new }
    ensures count { CountsServing result (R.count recorder.old) (R.count recorder.new) }
    ensures recorder { KeepsRecorder R.has_kept R.was_read recorder.old recorder.new }
{
    // Laws, which do nothing: what is proved below rests on them.
    runs_go_on();
    runs_are_judged_right();
    new_cache_agrees();
    a_new_cache_mirrors_what_is_before();
    'connections: for served in 0..count {
        serve_next(alloc, core, clients, surroundings, recorder, served + 1)?;
    }
    Ok(())
}
