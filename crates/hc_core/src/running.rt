//! Runs of a cache.

ghost use Rattle.std.specs.Prelude.{◌≡◌, ◌↔◌, [], IfOk, IsErrOf};
ghost use Rattle.hc_transcript.specs.Records.{opening};
ghost use Rattle.hc_service.specs.declared.settings.CoreSettings.{CoreSettings};
ghost use Rattle.hc_service.specs.Sending.{recorded_format};
ghost use Rattle.hc_service.specs.Settings.{AreGood};
ghost use Rattle.hc_service.specs.State.{new_state};
ghost use Rattle.hc_core.specs.Steps.{StandsFor};
ghost use Rattle.hc_core.specs.declared.fault.RunFault.TheVariants.{Settings};
ghost use Rattle.hc_core.specs.Runs.{IsRunOf};

use crate::fault::RunFault;
use crate::machine::Core;
use crate::outcome::Run;
use crate::recording::{Recording, new_recording, take_step};
use hc_fields::Octets;
use hc_service::{CoreSettings, Event, steps_are_runs, steps_end_ready};
use std::alloc::{AllocError, Global};
use std::hash::BuildHasher;

/// Hands the events, one after another, to a new cache of those settings. A step that serves no event is
/// passed over, unless memory is refused to it: then it is the last.
pub fn run(alloc: Global, settings: CoreSettings, events: Vec<Event>) -> Result<Run, RunFault>
    ensures ok { IfOk result (λ run. IsRunOf settings events.items run.results.items run.transcript) }
    // Only settings that no cache can have are refused, and all of these are.
    ensures settings { IsErrOf result Settings ↔ ¬ (AreGood settings) }
{
    let core = Core::new(alloc, settings)?;
    Ok(run_all(alloc, core, events)?)
}

/// Hands the events to the cache.
fn run_all<S: BuildHasher + Drop>(
    alloc: Global,
    mut core: Core<S>,
    events: Vec<Event>,
) -> Result<Run, AllocError>
    ensures { (settings : CoreSettings) → AreGood settings → StandsFor settings core (new_state settings)
        → IfOk result (λ run. IsRunOf settings events.items run.results.items run.transcript) }
{
    let mut recording = new_recording(alloc)?;
    take_steps(&mut core, events, &mut recording)?;
    Ok(finished(recording))
}

/// Hands the events to a new cache, and records that where nothing was recorded before.
fn take_steps<S: BuildHasher>(
    core: &mut Core<S>,
    events: Vec<Event>,
    recording: &mut Recording,
) -> Result<(), AllocError>
    ensures { (settings : CoreSettings) → AreGood settings → StandsFor settings core.old (new_state settings)
        → recording.old.results.items ≡ [] → recording.old.text.items ≡ opening recorded_format
        → IfOk result (λ _. IsRunOf settings events.items recording.new.results.items recording.new.text.items) }
{
    // Laws, which do nothing: what is proved below rests on them.
    steps_end_ready();
    steps_are_runs();
    'events: for event in events {
        if !take_step(core, event, recording)? {
            return Ok(());
        }
    }
    Ok(())
}

/// What came of the run.
fn finished(recording: Recording) -> Run
    ensures results { result.results ≡ recording.results }
    ensures transcript { result.transcript ≡ recording.text.items }
{
    Run {
        results: recording.results,
        transcript: Octets::from_vec(recording.text),
    }
}
