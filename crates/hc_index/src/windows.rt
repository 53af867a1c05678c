//! What the windows hold.

ghost use Rattle.std.specs.Prelude.{◌≡◌, ◌++◌, ◌&&◌, IfOk, drop, map};
ghost use Rattle.std.specs.List.{list_any};
ghost use Rattle.hc_history.specs.Windows.{may_be_for};
ghost use Rattle.hc_history.specs.Forwarded.{carries};
ghost use Rattle.hc_index.specs.Lists.{forward_seen};
ghost use Rattle.hc_index.specs.Windows.{answer_to, carries_told, told_seen};

use crate::kept::{RecordedForward, WindowAnswer};
use hc_framing::Message;
use hc_head::ResponseHead;
use hc_history::{ReplyClaim, carries, may_be_for};
use hc_transcript::ToldCause;
use std::alloc::AllocError;
use std::collections::VecDeque;

/// The response to a forward of that cause, as a window holds it.
pub(crate) fn window_answer(
    forward: &RecordedForward,
    cause: ToldCause,
    response: &Message<ResponseHead>,
) -> Result<WindowAnswer, AllocError>
    ensures { IfOk result (λ answer. told_seen answer ≡ answer_to (forward_seen forward.now) cause response.now) }
{
    Ok(WindowAnswer {
        cause,
        method: forward.request.method.clone()?,
        status: response.head.status,
        body: response.body.share()?,
    })
}

/// The two runs of the answers behind so many.
fn parts_behind(
    answers: &VecDeque<WindowAnswer>,
    before: usize,
) -> (&[WindowAnswer], &[WindowAnswer])
    ensures { result.0.now ++ result.1.now ≡ drop before answers.now.items }
{
    let (older, newer) = answers.as_slices();
    let more = before.saturating_sub(older.len()).min(newer.len());
    let (_, older) = older.split_at(before.min(older.len()));
    let (_, newer) = newer.split_at(more);
    (older, newer)
}

/// Whether the reply carries one of those answers that may be for its exchange.
fn carries_one_of(claim: &ReplyClaim<'_>, answers: &[WindowAnswer]) -> bool
    ensures { result ≡ list_any (λ one. may_be_for one.cause claim.now.exchange
        && carries claim.now one.method one.status one.body) answers.now }
{
    answers.iter().any(|one| {
        may_be_for(one.cause, claim.exchange)
            && carries(claim, &one.method, one.status, one.body.as_slice())
    })
}

/// Whether the reply carries one of the answers behind so many that may be for its exchange.
pub(crate) fn carries_one(
    claim: &ReplyClaim<'_>,
    answers: &VecDeque<WindowAnswer>,
    before: usize,
) -> bool
    ensures { result ≡ list_any (carries_told claim.now) (map told_seen (drop before answers.now.items)) }
{
    let (older, newer) = parts_behind(answers, before);
    carries_one_of(claim, older) || carries_one_of(claim, newer)
}
