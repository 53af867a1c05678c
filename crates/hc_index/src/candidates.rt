//! How far the responses get that a reply may carry, by what an index keeps of its target.

ghost use Rattle.std.specs.Prelude.{◌≡◌, List, find, option_copied, IfOk, IsPermutation};
ghost use Rattle.std.specs.List.Sorted.{IsSortedBy};
ghost use Rattle.std.specs.Ordering.{is_lt};
ghost use Rattle.hc_transcript.specs.Items.{Item};
ghost use Rattle.hc_history.specs.Candidates.{AreCandidates, is_before};
ghost use Rattle.hc_history.specs.Seen.{live_of};
ghost use Rattle.hc_index.specs.Lists.{candidate_of, candidates_in, live_in, stands_at, state_in};

use crate::kept::LiveResponse;
use hc_head::{Target, same_target};
use hc_history::{Candidate, ReplyClaim, passed};
use hc_update::Stored;
use std::alloc::{AllocError, Global};
use std::cmp::Ordering;

/// How far a live response gets.
fn candidate_of(
    alloc: Global,
    claim: &ReplyClaim<'_>,
    live: &LiveResponse,
) -> Result<Candidate, AllocError>
    ensures { IfOk result (λ candidate. candidate ≡ candidate_of claim.now live.now) }
{
    let passed = passed(alloc, claim, &live.target, &live.state)?;
    Ok(Candidate {
        position: live.position,
        passed,
    })
}

/// How far each live response of the claim's target gets, by rising position.
fn candidates_in(
    alloc: Global,
    claim: &ReplyClaim<'_>,
    lives: &[LiveResponse],
) -> Result<Vec<Candidate>, AllocError>
    ensures { IfOk result (λ candidates. candidates.items ≡ candidates_in claim.now lives.now) }
{
    let mut candidates = Vec::new(alloc);
    for live in lives {
        if !same_target(&live.target, claim.target) {
            continue;
        }
        candidates.push(candidate_of(alloc, claim, live)?)?;
    }
    Ok(candidates)
}

/// Which of two stands before the other: the one that passes more, or of equals the newer.
fn compare(one: &Candidate, other: &Candidate) -> Ordering
    ensures { is_lt result ≡ is_before one.now other.now }
{
    (other.passed, other.position).cmp(&(one.passed, one.position))
}

/// Puts the furthest first, and of equals the newest first.
fn put_in_order(candidates: &mut Vec<Candidate>)
    ensures moved { IsPermutation candidates.old.items candidates.new.items }
    ensures in_order { IsSortedBy is_before candidates.new.items }
{
    candidates.sort_unstable_by(|one, other| compare(one, other));
}

/// The candidates of a claim among the live responses, in their order.
pub(crate) fn candidates_among(
    alloc: Global,
    claim: &ReplyClaim<'_>,
    lives: &[LiveResponse],
) -> Result<Vec<Candidate>, AllocError>
    ensures { (h : List Item) → live_in claim.now.target lives.now ≡ live_of claim.now.target h
        → IfOk result (λ candidates. AreCandidates claim.now h candidates.items) }
{
    let mut candidates = candidates_in(alloc, claim, lives)?;
    put_in_order(&mut candidates);
    Ok(candidates)
}

/// The live response of that target at that position.
fn live_at<'a>(
    lives: &'a [LiveResponse],
    target: &Target,
    position: u64,
) -> Option<&'a LiveResponse>
    ensures { option_copied result ≡ find (stands_at target.now position) lives.now }
{
    lives.iter().find(|live| live.position == position && same_target(&live.target, target))
}

/// What is left of the response of that target at that position, among the live responses.
#[tactic(auto, using(crate::proofs::CandidateLemmas::state_among))]
pub(crate) fn response_among<'a>(
    lives: &'a [LiveResponse],
    target: &Target,
    position: u64,
) -> Option<&'a Stored>
    ensures { option_copied result ≡ state_in position (live_in target.now lives.now) }
{
    let live = live_at(lives, target, position)?;
    Some(&live.state)
}
