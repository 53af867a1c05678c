//! What a run has recorded so far.

ghost use Rattle.std.specs.Prelude.{◌≡◌, ◌∷◌, ◌++◌, [], IfOk, OnOk};
ghost use Rattle.hc_transcript.specs.Records.{opening};
ghost use Rattle.hc_service.specs.Sending.{recorded_format, records_of};
ghost use Rattle.hc_core.specs.Results.{records_in, texts_of};
ghost use Rattle.hc_core.specs.Recordings.{TakesStep};

use crate::machine::Core;
use crate::outcome::{StepResult, is_refusal};
use hc_service::{Action, Event};
use hc_transcript::{Format, Record, append_record};
use std::alloc::{AllocError, Global};
use std::hash::BuildHasher;

/// What the steps returned so far, and the text of the transcript so far.
#[derive(Drop)]
pub(crate) struct Recording {
    pub results: Vec<StepResult>,
    pub text: Vec<u8>,
}

/// Puts the text of the record at the end, if the action is one.
fn append_action(text: &mut Vec<u8>, action: &Action) -> Result<(), AllocError>
    ensures { OnOk result (text.new.items ≡ text.old.items ++ texts_of (records_of (action.now ∷ []))) }
{
    match action {
        Action::Record(record) => append_record(text, record, Format::Second),
        _ => Ok(()),
    }
}

/// Puts the texts of the records among the actions at the end, in order.
fn append_actions(text: &mut Vec<u8>, actions: &[Action]) -> Result<(), AllocError>
    ensures { OnOk result (text.new.items ≡ text.old.items ++ texts_of (records_of actions.now)) }
{
    for action in actions {
        append_action(text, action)?;
    }
    Ok(())
}

/// The same of what a step returned.
fn append_result(text: &mut Vec<u8>, answer: &StepResult) -> Result<(), AllocError>
    ensures { OnOk result (text.new.items ≡ text.old.items ++ texts_of (records_in answer.now)) }
{
    match answer {
        Ok(actions) => append_actions(text, actions.as_slice()),
        Err(_) => Ok(()),
    }
}

/// Where nothing has happened yet.
pub(crate) fn new_recording(alloc: Global) -> Result<Recording, AllocError>
    ensures results { IfOk result (λ recording. recording.results.items ≡ []) }
    ensures text { IfOk result (λ recording. recording.text.items ≡ opening recorded_format) }
{
    Ok(Recording {
        results: Vec::new(alloc),
        text: Vec::from_slice(alloc, Format::Second.opening())?,
    })
}

/// Hands the event to the cache, and returns whether the run goes on.
pub(crate) fn take_step<S: BuildHasher>(
    core: &mut Core<S>,
    event: Event,
    recording: &mut Recording,
) -> Result<bool, AllocError>
    ensures { IfOk result (λ goes_on. TakesStep event core.old core.new recording.old recording.new goes_on) }
{
    let answer = core.step(event);
    append_result(&mut recording.text, &answer)?;
    let ends = is_refusal(&answer);
    recording.results.push(answer)?;
    Ok(!ends)
}
