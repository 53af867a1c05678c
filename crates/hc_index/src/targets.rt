//! What is kept of all targets: each change is of one target alone.

ghost use Rattle.std.specs.Prelude.{◌≡◌, ◌<◌, IfOk, OnOk};
ghost use Rattle.hc_fields.specs.Numbers.{end_of_moments};
ghost use Rattle.hc_index.specs.Lists.{forward_seen};
ghost use Rattle.hc_index.specs.Maps.{AnswersAt, ChangesAt, ClosesAt, FailsAt, OpensAt};

use crate::at_target::AtTarget;
use crate::kept::RecordedForward;
use hc_framing::Message;
use hc_head::{ResponseHead, Target};
use hc_transcript::ToldCause;
use std::alloc::{AllocError, Global};
use std::collections::BTreeMap;

/// Opens the window of an exchange of that number and target, and says how many answers there were before it.
pub(crate) fn open_at(
    alloc: Global,
    targets: &mut BTreeMap<Target, AtTarget>,
    target: &Target,
    number: u64,
) -> Result<usize, AllocError>
    ensures { IfOk result (λ behind. ChangesAt target.now targets.old targets.new (OpensAt target.now number behind)) }
{
    if let Some(here) = targets.get_mut(target) {
        return here.open(number);
    }
    let mut here = AtTarget::new(alloc);
    let behind = here.open(number)?;
    targets.insert(target.copy(alloc)?, here)?;
    Ok(behind)
}

/// Closes the window of an exchange of that number and target.
pub(crate) fn close_at(
    targets: &mut BTreeMap<Target, AtTarget>,
    target: &Target,
    behind: usize,
    number: u64,
)
    ensures { ChangesAt target.now targets.old targets.new (ClosesAt target.now number) }
{
    let Some(here) = targets.get_mut(target) else {
        return;
    };
    here.close(behind, number);
    if here.is_nothing() {
        targets.remove(target);
    }
}

/// Takes in that a forward of that target failed.
pub(crate) fn fail_at(
    alloc: Global,
    targets: &mut BTreeMap<Target, AtTarget>,
    target: Target,
    position: u64,
) -> Result<(), AllocError>
    ensures { OnOk result (ChangesAt target targets.old targets.new (FailsAt target position)) }
{
    if let Some(here) = targets.get_mut(&target) {
        here.fail(position);
        return Ok(());
    }
    let mut here = AtTarget::new(alloc);
    here.fail(position);
    targets.insert(target, here)?;
    Ok(())
}

/// Takes in the response to a forward of that cause.
pub(crate) fn answer_at(
    targets: &mut BTreeMap<Target, AtTarget>,
    forward: RecordedForward,
    cause: ToldCause,
    position: u64,
    moment: u64,
    response: Message<ResponseHead>,
) -> Result<(), AllocError>
    requires { moment < end_of_moments }
    ensures { OnOk result (ChangesAt forward.target targets.old targets.new (AnswersAt (forward_seen forward) cause position moment response)) }
{
    if let Some(here) = targets.get_mut(&forward.target) {
        return here.answer(forward, cause, position, moment, response);
    }
    let alloc = forward.request.fields.alloc();
    let target = forward.target.copy(alloc)?;
    let mut here = AtTarget::new(alloc);
    here.answer(forward, cause, position, moment, response)?;
    if !here.is_nothing() {
        targets.insert(target, here)?;
    }
    Ok(())
}
