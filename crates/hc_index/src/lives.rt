//! What a response makes of the live responses.

ghost use Rattle.std.specs.Prelude.{◌≡◌, ◌<◌, ◌++◌, map, OnOk, OnErr};
ghost use Rattle.hc_fields.specs.Numbers.{end_of_moments};
ghost use Rattle.hc_head.specs.declared.head.Target.{Target};
ghost use Rattle.hc_rules.specs.Validators.{has_validator};
ghost use Rattle.hc_update.specs.Remnants.{is_lost};
ghost use Rattle.hc_history.specs.States.{begun_by, state_answered};
ghost use Rattle.hc_history.specs.Seen.{live_at, remaining};
ghost use Rattle.hc_index.specs.Lists.{forward_seen, live_in, may_change, targeted, targeted_answered};

use crate::kept::{LiveResponse, RecordedForward};
use hc_fields::Fields;
use hc_framing::Message;
use hc_head::{ResponseHead, StatusCode, same_target};
use hc_rules::{last_modified, may_store, tag};
use hc_update::{Stored, identifies, initial, invalidates};
use std::alloc::{AllocError, Global};

/// Whether a response with those fields can be validated.
fn has_validator(fields: &Fields) -> bool
    ensures { result ≡ has_validator fields.now }
{
    tag(fields).is_some() || last_modified(fields).is_some()
}

/// Whether nothing freshens it any more.
fn is_lost(state: &Stored) -> bool
    ensures { result ≡ is_lost state.now }
{
    state.invalid && !has_validator(&state.fields)
}

/// Leaves of it what has to be kept.
#[tactic(auto, unfolding(hc_history::specs::Seen::remaining))]
fn forget_lost(state: &mut Stored)
    ensures { state.new ≡ remaining state.old }
{
    if is_lost(state) {
        state.forget();
    }
}

/// Freshens or invalidates it, where the response to a forward of its target does so. Where memory was
/// refused, nothing has changed.
fn answer_state(
    alloc: Global,
    forward: &RecordedForward,
    position: u64,
    moment: u64,
    response: &Message<ResponseHead>,
    state: &mut Stored,
) -> Result<(), AllocError>
    requires { moment < end_of_moments }
    ensures ok { OnOk result (state.new ≡ state_answered (forward_seen forward.now) position moment response.now state.old) }
    ensures err { OnErr result (state.new ≡ state.old) }
{
    if identifies(alloc, state, &forward.request, &response.head)? {
        state.freshen(&response.head, forward.moment, moment, position)?;
    } else if invalidates(&forward.request.method, response.head.status) {
        state.invalidate();
    }
    Ok(())
}

/// What a response to a forward of any target makes of a live response.
fn answer_live(
    alloc: Global,
    forward: &RecordedForward,
    position: u64,
    moment: u64,
    response: &Message<ResponseHead>,
    live: &mut LiveResponse,
) -> Result<(), AllocError>
    requires { moment < end_of_moments }
    ensures { OnOk result (targeted live.new ≡ targeted_answered (forward_seen forward.now) position moment response.now (targeted live.old)) }
{
    if !same_target(&forward.target, &live.target) {
        return Ok(());
    }
    answer_state(alloc, forward, position, moment, response, &mut live.state)?;
    forget_lost(&mut live.state);
    Ok(())
}

/// Whether a response to a forward may freshen or invalidate a live response at all.
fn may_change(forward: &RecordedForward, response: &Message<ResponseHead>) -> bool
    ensures { result ≡ may_change forward.now.request.method response.now.head.status }
{
    response.head.status == StatusCode::NOT_MODIFIED
        || invalidates(&forward.request.method, response.head.status)
}

/// What a response to a forward makes of the live responses. It looks at none that it can't change.
#[tactic(auto, using(crate::proofs::LoopLemmas::seen_over_at))]
pub(crate) fn answer_lives(
    alloc: Global,
    forward: &RecordedForward,
    position: u64,
    moment: u64,
    response: &Message<ResponseHead>,
    lives: &mut Vec<LiveResponse>,
) -> Result<(), AllocError>
    requires { moment < end_of_moments }
    ensures { OnOk result (map targeted lives.new.items
        ≡ map (targeted_answered (forward_seen forward.now) position moment response.now) (map targeted lives.old.items)) }
{
    if !may_change(forward, response) {
        return Ok(());
    }
    for live in lives.iter_mut() {
        answer_live(alloc, forward, position, moment, response, live)?;
    }
    Ok(())
}

/// Keeps the response, if it may be stored.
pub(crate) fn begin_live(
    alloc: Global,
    forward: RecordedForward,
    position: u64,
    moment: u64,
    response: Message<ResponseHead>,
    lives: &mut Vec<LiveResponse>,
) -> Result<(), AllocError>
    requires { moment < end_of_moments }
    ensures { OnOk result ((target : Target) → live_in target lives.new.items
        ≡ live_in target lives.old.items ++ live_at target position (begun_by (forward_seen forward) moment response)) }
{
    if !may_store(&forward.request, &response.head) {
        return Ok(());
    }
    lives.push(LiveResponse {
        position,
        target: forward.target,
        state: initial(alloc, forward.request, forward.moment, response, moment)?,
    })?;
    Ok(())
}
