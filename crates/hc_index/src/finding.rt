//! What is found of a reply, by what an index keeps of its exchange and its target.

ghost use Rattle.std.specs.Prelude.{◌≡◌, ◌&&◌, nat_le, ℕ, ℤ, Bool, List, Option, IfOk, true, false};
ghost use Rattle.std.specs.List.{list_any};
ghost use Rattle.hc_transcript.specs.Items.{Item};
ghost use Rattle.hc_history.specs.Claims.{claim_of};
ghost use Rattle.hc_history.specs.Forwarded.{is_forwarded};
ghost use Rattle.hc_history.specs.Furthest.{furthest};
ghost use Rattle.hc_history.specs.Right.{IsFoundBy, IsFoundForwarded};
ghost use Rattle.hc_head.specs.Targets.{same_target};
ghost use Rattle.hc_history.specs.Seen.{Seen, IsSeenAs, live_of};
ghost use Rattle.hc_index.specs.Lists.{IsMostOrEnough, carried_by, ends_at, exchange_seen, live_in, passed_live};
ghost use Rattle.hc_index.specs.Windows.{carries_told};
ghost use Rattle.hc_index.specs.Opened.{Lends, answers_lent};

use crate::kept::LiveResponse;
use crate::opened::Opened;
use crate::windows::carries_one;
use hc_head::same_target;
use hc_history::{
    Among, Finding, Mark, MarkedReply, Reason, ReplyClaim, Settings, found_of_collapsed,
    found_of_forwarded, found_of_hit, found_of_inferred, found_of_unmarked, is_judged_collapsed,
    is_looked_at, passed, ttl_of,
};
use hc_transcript::Format;
use std::alloc::{AllocError, Global};

/// The number of filters; who passes them all is reused.
const FILTER_COUNT: u32 = 9;

/// How many filters a reply passes that went forward and carries a stored response.
const FORWARDED_COUNT: u32 = 7;

/// How many filters a reply passes that was collapsed.
const COLLAPSED_COUNT: u32 = 8;

/// What a reply to an open exchange claims.
pub(crate) fn claim_of<'a>(
    opened: &Opened<'a>,
    has_forward: bool,
    moment: u64,
    reply: &MarkedReply<'a>,
    settings: &'a Settings,
    format: Format,
) -> ReplyClaim<'a>
    ensures { (seen : Seen) (h : List Item) (e : ℕ) → IsSeenAs format seen h → Lends seen e opened.now → has_forward ≡ seen.has_forward e
        → result ≡ claim_of format settings.now (exchange_seen opened.now.exchange.now) moment reply.now h }
{
    let exchange = opened.exchange;
    ReplyClaim {
        format,
        exchange: exchange.number,
        request: &exchange.request,
        target: &exchange.target,
        since: exchange.position,
        reply: reply.reply(),
        moment,
        is_inferred: reply.infers(format, &settings.allowed, has_forward),
        ttl: ttl_of(reply.mark()),
        has_error: exchange.position < opened.error,
        has_failure: exchange.position < opened.failure,
        settings,
    }
}

/// Whether the reply went forward, isn't judged as collapsed and carries a response of its window.
pub(crate) fn is_carried(mark: Mark, claim: &ReplyClaim<'_>, opened: &Opened<'_>) -> bool
    ensures { result ≡ carried_by claim.now.format mark (list_any (carries_told claim.now) (answers_lent opened.now)) }
{
    match mark {
        Mark::Forwarded { collapsed } => !is_judged_collapsed(claim, collapsed)
            && carries_one(claim, opened.answers, opened.before),
        Mark::Hit { .. } | Mark::Both | Mark::Unmarked => false,
    }
}

/// Whether only what came in the window is looked at.
fn ends_at(among: Among) -> bool
    ensures { result ≡ ends_at among }
{
    match among {
        Among::InWindow => true,
        Among::Any | Among::Recent => false,
    }
}

/// Whether only what came in the window is looked at, and it is a response of the claim's target that came before: then
/// all older ones of the target did so, too.
fn is_before(claim: &ReplyClaim<'_>, among: Among, live: &LiveResponse) -> bool
    ensures { result ≡ (ends_at among && nat_le live.now.position claim.now.since && same_target live.now.target claim.now.target) }
{
    ends_at(among) && live.position <= claim.since && same_target(&live.target, claim.target)
}

/// How many filters a live response passes, if it is one of those.
fn passed_among(
    alloc: Global,
    claim: &ReplyClaim<'_>,
    among: Among,
    live: &LiveResponse,
) -> Result<u32, AllocError>
    ensures { IfOk result (λ n. n ≡ passed_live among claim.now live.now) }
{
    if is_looked_at(among, claim, live.position, &live.state) {
        passed(alloc, claim, &live.target, &live.state)
    } else {
        Ok(0)
    }
}

/// The most filters that one of those live responses passes. The newest is looked at first; behind one that passes
/// enough of them, or that came before the window where only what came in it is looked at, none is.
fn furthest(
    alloc: Global,
    claim: &ReplyClaim<'_>,
    among: Among,
    lives: &[LiveResponse],
    enough: u32,
) -> Result<u32, AllocError>
    ensures { (h : List Item) → live_in claim.now.target lives.now ≡ live_of claim.now.target h
        → IfOk result (λ n. IsMostOrEnough enough n (furthest among claim.now h)) }
{
    let mut most = 0;
    for live in lives.iter().rev() {
        if is_before(claim, among, live) {
            return Ok(most);
        }
        let here = passed_among(alloc, claim, among, live)?;
        if enough <= here {
            return Ok(here);
        }
        most = most.max(here);
    }
    Ok(most)
}

/// What is found of a hit.
fn found_of_hit_among(
    alloc: Global,
    claim: &ReplyClaim<'_>,
    lives: &[LiveResponse],
) -> Result<Finding, AllocError>
    ensures { (ttl : Option ℤ) (h : List Item) → live_in claim.now.target lives.now ≡ live_of claim.now.target h
        → IfOk result (IsFoundBy (Mark.Hit ttl) claim.now h) }
{
    let passed = furthest(alloc, claim, Among::Any, lives, FILTER_COUNT)?;
    Ok(found_of_hit(passed))
}

/// What is found of a reply that is judged as collapsed.
fn found_of_collapsed_among(
    alloc: Global,
    claim: &ReplyClaim<'_>,
    lives: &[LiveResponse],
) -> Result<Finding, AllocError>
    ensures { (h : List Item) → live_in claim.now.target lives.now ≡ live_of claim.now.target h
        → IfOk result (IsFoundForwarded true claim.now h) }
{
    let passed = furthest(alloc, claim, Among::InWindow, lives, COLLAPSED_COUNT)?;
    if COLLAPSED_COUNT <= passed {
        return Ok(Finding::Right);
    }
    Ok(found_of_collapsed(passed))
}

/// What is found of a reply that went forward without saying so, and carries no response of its window.
fn found_of_inferred_among(
    alloc: Global,
    claim: &ReplyClaim<'_>,
    lives: &[LiveResponse],
) -> Result<Finding, AllocError>
    ensures { (h : List Item) → live_in claim.now.target lives.now ≡ live_of claim.now.target h
        → claim.now.is_inferred ≡ true → is_forwarded claim.now h ≡ false
        → IfOk result (IsFoundForwarded false claim.now h) }
{
    let recent = furthest(alloc, claim, Among::Recent, lives, FORWARDED_COUNT)?;
    if FORWARDED_COUNT <= recent {
        return Ok(Finding::Right);
    }
    let passed = furthest(alloc, claim, Among::Any, lives, FILTER_COUNT)?;
    Ok(found_of_inferred(passed, recent))
}

/// What is found of a reply that went forward by itself, where it is told whether it carries a response of
/// its window.
fn found_of_forwarded_among(
    alloc: Global,
    claim: &ReplyClaim<'_>,
    lives: &[LiveResponse],
    carried: bool,
) -> Result<Finding, AllocError>
    ensures { (h : List Item) → live_in claim.now.target lives.now ≡ live_of claim.now.target h
        → is_forwarded claim.now h ≡ carried
        → IfOk result (IsFoundForwarded false claim.now h) }
{
    if carried {
        return Ok(Finding::Right);
    }
    if claim.is_inferred {
        return found_of_inferred_among(alloc, claim, lives);
    }
    let passed = furthest(alloc, claim, Among::Any, lives, FORWARDED_COUNT)?;
    if FORWARDED_COUNT <= passed {
        return Ok(Finding::Right);
    }
    Ok(found_of_forwarded(passed))
}

/// What is found of a reply that went forward, whose mark says whether it was collapsed; where it isn't judged
/// as such, it is told whether it carries a response of its window.
fn found_of_collapsed_or_forwarded(
    alloc: Global,
    claim: &ReplyClaim<'_>,
    lives: &[LiveResponse],
    collapsed: bool,
    carried: bool,
) -> Result<Finding, AllocError>
    ensures { (h : List Item) → live_in claim.now.target lives.now ≡ live_of claim.now.target h
        → carried_by claim.now.format (Mark.Forwarded collapsed) (is_forwarded claim.now h) ≡ carried
        → IfOk result (IsFoundBy (Mark.Forwarded collapsed) claim.now h) }
{
    if is_judged_collapsed(claim, collapsed) {
        return found_of_collapsed_among(alloc, claim, lives);
    }
    found_of_forwarded_among(alloc, claim, lives, carried)
}

/// What is found of a reply with that mark, where it is told of one that went forward by itself whether it
/// carries a response of its window.
pub(crate) fn found_by(
    alloc: Global,
    mark: Mark,
    claim: &ReplyClaim<'_>,
    lives: &[LiveResponse],
    carried: bool,
) -> Result<Finding, AllocError>
    ensures { (h : List Item) → live_in claim.now.target lives.now ≡ live_of claim.now.target h
        → carried_by claim.now.format mark (is_forwarded claim.now h) ≡ carried
        → IfOk result (IsFoundBy mark claim.now h) }
{
    match mark {
        Mark::Hit { .. } => found_of_hit_among(alloc, claim, lives),
        Mark::Forwarded { collapsed } => {
            found_of_collapsed_or_forwarded(alloc, claim, lives, collapsed, carried)
        }
        Mark::Both => Ok(Finding::Wrong(Reason::BothMarks)),
        Mark::Unmarked => Ok(found_of_unmarked(claim)),
    }
}
