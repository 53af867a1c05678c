//! Serving many clients at once, in batches.

ghost use Rattle.std.specs.Prelude.{◌≡◌, ℕ, true, List, [], IfErr, IfOk, Ok};
ghost use Rattle.hc_transcript.specs.Records.{opening};
ghost use Rattle.hc_service.specs.declared.settings.CoreOptions.{CoreOptions};
ghost use Rattle.hc_service.specs.declared.settings.CoreSettings.{CoreSettings};
ghost use Rattle.hc_service.specs.Sending.{recorded_format};
ghost use Rattle.hc_service.specs.Settings.{AreGood};
ghost use Rattle.hc_service.specs.State.{new_state_with};
ghost use Rattle.hc_core.specs.Steps.{StandsFor};
ghost use Rattle.hc_order.specs.Log.{Move};
ghost use Rattle.hc_links.specs.Keeping.{KeepsLimits, KeepsRecorder};
ghost use Rattle.hc_drive.specs.Carrying.{CountsRecorder, IsOfCarrying};
ghost use Rattle.hc_drive.specs.Crowds.{GivesCrowd, GivesPause, GivesRecording, telling};
ghost use Rattle.hc_drive.specs.Rounds.{stage};

use crate::asked::Asked;
use crate::fault::DriveFault;
use crate::recorder::flush;
use crate::rounds::round;
use crate::watcher::Watcher;
use hc_core::Core;
use hc_links::{Batches, Recorder};
use hc_order::{a_new_cache_mirrors_what_is_before, what_may_happen_in_turn_is_served};
use hc_service::{
    StepFault, agreement_is_ready, new_cache_agrees, runs_are_judged_right, runs_go_on,
    runs_keep_agreement, steps_are_runs,
};
use std::alloc::Global;
use std::hash::BuildHasher;

/// Behind a batch its records are kept for good, then what is owed leaves, all is looked at, and the next
/// batch is waited for. Returns whether all is served.
fn pause<S: BuildHasher, L: Batches, R: Recorder, V: Watcher<L, R>>(
    core: &Core<S>,
    links: &mut L,
    recorder: &mut R,
    watcher: &mut V,
) -> Result<bool, DriveFault>
    ensures tells { (log : List Move) → L.tells links.old log → L.tells links.new log }
    ensures got { (text : List ℕ) → R.has_got recorder.old text → R.has_got recorder.new text }
    ensures safe { GivesPause result (telling L.tells L.shows R.has_got R.has_kept links.old recorder.old)
        (telling L.tells L.shows R.has_got R.has_kept links.new recorder.new) }
    ensures over { result ≡ Ok true → L.over links.new }
    ensures limits { KeepsLimits L.most L.bounds L.may_tell links.old links.new }
    ensures recorder { KeepsRecorder R.has_kept R.was_read recorder.old recorder.new }
    ensures count { CountsRecorder result (R.count recorder.old) (R.count recorder.new) }
    ensures why { IfErr result IsOfCarrying }
    ensures watched { V.may_become watcher.old watcher.new }
{
    flush(recorder)?;
    links.deliver(&Asked { core })?;
    watcher.look(&*links, &Asked { core }, &*recorder);
    if links.is_over() {
        return Ok(true);
    }
    links.wait()?;
    Ok(false)
}

/// Rounds, with a pause behind each batch of them, until all is served.
fn serve_batches<S: BuildHasher, L: Batches, R: Recorder, V: Watcher<L, R>>(
    alloc: Global,
    core: &mut Core<S>,
    links: &mut L,
    recorder: &mut R,
    watcher: &mut V,
) -> Result<(), DriveFault>
    ensures serves { (log : List Move) (text : List ℕ) → L.tells links.old log → R.has_got recorder.old text
        → GivesCrowd (L.most links.old) (L.shows links.old log × R.has_kept recorder.old text) result
        (telling L.tells L.shows R.has_got R.has_kept links.new recorder.new) (stage core.old log text) core.new }
    ensures over { IfOk result (λ _. L.over links.new) }
    ensures limits { KeepsLimits L.most L.bounds L.may_tell links.old links.new }
    ensures recorder { KeepsRecorder R.has_kept R.was_read recorder.old recorder.new }
    ensures count { CountsRecorder result (R.count recorder.old) (R.count recorder.new) }
    ensures watched { V.may_become watcher.old watcher.new }
{
    // Laws, which do nothing: what is proved below rests on them.
    steps_are_runs();
    runs_keep_agreement();
    agreement_is_ready();
    runs_go_on();
    what_may_happen_in_turn_is_served();
    new_cache_agrees();
    a_new_cache_mirrors_what_is_before();
    'turns: for _ in 0..u64::MAX {
        if round(alloc, core, links, recorder, watcher)? {
            continue;
        }
        if pause(&*core, links, recorder, watcher)? {
            return Ok(());
        }
    }
    Err(DriveFault::Core(StepFault::Failed))
}

/// Serves clients at once, until the links are over: what happens is handed to the cache, and what the cache does is
/// carried out, batch by batch; the watcher hears and sees both. Behind each batch its records are flushed, before anything
/// of it is written to a client: so, as far as the links tell what was written, no client has seen a reply that the
/// recording lacks, whatever goes wrong. Then the watcher looks at the links, at the cache and at the recorder. Where all is served,
/// nothing is left open in the cache.
///
/// A recorder that has fallen silent (`Lapsing` of hc_connection) never fails, so all goes on: then what stands in its file
/// is a beginning of the recording, all of it for good where the recorder is full, and of what clients have seen since it
/// tells nothing. As long as it speaks, no client has seen a reply that the file lacks.
///
/// Of a new cache the recording, if it was the opening of a transcript before, is a transcript to which the strictest
/// audit says yes, as far as records can be numbered; or a beginning of one, where it ends by a fault. Of a new cache with
/// room for as many connections as the links have open at once, any fault says that memory was refused, that the recorder
/// failed, or, as `Failed`, that it went round 2^64 - 1 times: by a round for each event, or by a pause.
///
/// However it ends, there are no more links than there may be within the bounds that they had when it was called (`within`
/// of `bounds`). So it is behind each round and pause, too: each keeps the bounds and what is told, and nothing is told of
/// more links.
pub fn serve_crowd<S: BuildHasher, L: Batches, R: Recorder, V: Watcher<L, R>>(
    alloc: Global,
    core: &mut Core<S>,
    crowd: &mut L,
    recorder: &mut R,
    watcher: &mut V,
) -> Result<(), DriveFault>
    ensures transcript { (settings : CoreSettings) (options : CoreOptions) → AreGood settings → StandsFor settings core.old (new_state_with settings options)
        → L.tells crowd.old [] → R.has_got recorder.old (opening recorded_format)
        → GivesRecording result (R.has_got recorder.new) (R.has_kept recorder.new) }
    ensures serves { (log : List Move) (text : List ℕ) → L.tells crowd.old log → R.has_got recorder.old text
        → GivesCrowd (L.most crowd.old) (L.shows crowd.old log × R.has_kept recorder.old text) result
        (telling L.tells L.shows R.has_got R.has_kept crowd.new recorder.new) (stage core.old log text) core.new }
    ensures few { (log : List Move) (text : List ℕ) → L.tells crowd.old log → R.has_got recorder.old text → L.within (L.bounds crowd.old) crowd.new }
    ensures over { IfOk result (λ _. L.over crowd.new) }
    ensures limits { KeepsLimits L.most L.bounds L.may_tell crowd.old crowd.new }
    ensures recorder { KeepsRecorder R.has_kept R.was_read recorder.old recorder.new }
    ensures count { CountsRecorder result (R.count recorder.old) (R.count recorder.new) }
    ensures watched { V.may_become watcher.old watcher.new }
{
    // Laws, which do nothing: what is proved below rests on them.
    runs_are_judged_right();
    new_cache_agrees();
    serve_batches(alloc, core, crowd, recorder, watcher)
}
