//! What is found of one reply, by what is known of the history before it.

ghost use Rattle.std.specs.Prelude.{◌≡◌, ℤ, List, Option, false, true};
ghost use Rattle.hc_transcript.specs.Items.{Item};
ghost use Rattle.hc_history.specs.Claims.{Claim};
ghost use Rattle.hc_history.specs.Forwarded.{is_forwarded};
ghost use Rattle.hc_history.specs.Right.{IsFoundBy, IsFoundForwarded};
ghost use Rattle.hc_history.specs.Furthest.{furthest, IsReasonBehind};

use crate::among::Among;
use crate::claim::ReplyClaim;
use crate::reasons::Reason;
use crate::right::allows_unmarked;
use crate::verdicts::Finding;
use hc_status::Mark;

/// The number of filters; who passes them all is reused.
const FILTER_COUNT: u32 = 9;

/// How many filters a reply passes that went forward and carries a stored response.
const FORWARDED_COUNT: u32 = 7;

/// How many filters a reply passes that was collapsed.
const COLLAPSED_COUNT: u32 = 8;

/// The reason of the filter behind so many; none behind the last.
pub fn reason_behind(passed: u32) -> Option<Reason>
    ensures { IsReasonBehind passed result }
{
    match passed {
        0 => Some(Reason::NoResponse),
        1 => Some(Reason::Vary),
        2 => Some(Reason::Invalidated),
        3 => Some(Reason::NoExplicitFreshness),
        4 => Some(Reason::NotAllowed),
        5 => Some(Reason::Body),
        6 => Some(Reason::Fields),
        7 => Some(Reason::Age),
        8 => Some(Reason::Ttl),
        _ => None,
    }
}

/// What is found of a hit, where one earlier response passes so many filters at most.
pub fn found_of_hit(passed: u32) -> Finding
    ensures { (ttl : Option ℤ) (claim : Claim) (h : List Item) → passed ≡ furthest Among.Any claim h
        → IsFoundBy (Mark.Hit ttl) claim h result }
{
    match reason_behind(passed) {
        Some(why) => Finding::Wrong(why),
        None => Finding::Right,
    }
}

/// What is found of a reply that says that it went forward, isn't judged as collapsed and carries no response of
/// its window, where one earlier response passes so many filters at most.
pub fn found_of_forwarded(passed: u32) -> Finding
    ensures { (claim : Claim) (h : List Item) → claim.is_inferred ≡ false → is_forwarded claim h ≡ false
        → passed ≡ furthest Among.Any claim h → IsFoundForwarded false claim h result }
{
    if FORWARDED_COUNT <= passed {
        Finding::Right
    } else {
        Finding::Wrong(Reason::NotForwarded)
    }
}

/// What is found of a reply that went forward without saying so and carries no response of its window, where one
/// earlier response passes so many filters at most, and one that came or was validated in its window so many.
pub fn found_of_inferred(passed: u32, recent: u32) -> Finding
    ensures { (claim : Claim) (h : List Item) → claim.is_inferred ≡ true → is_forwarded claim h ≡ false
        → passed ≡ furthest Among.Any claim h → recent ≡ furthest Among.Recent claim h → IsFoundForwarded false claim h result }
{
    if FILTER_COUNT <= passed {
        return Finding::Right;
    }
    if FORWARDED_COUNT <= recent {
        Finding::Right
    } else {
        Finding::Wrong(Reason::NotForwarded)
    }
}

/// What is found of a reply that is judged as collapsed, where one response that came behind its request
/// passes so many filters at most.
pub fn found_of_collapsed(passed: u32) -> Finding
    ensures { (claim : Claim) (h : List Item) → passed ≡ furthest Among.InWindow claim h → IsFoundForwarded true claim h result }
{
    if COLLAPSED_COUNT <= passed {
        Finding::Right
    } else {
        Finding::Wrong(Reason::NotCollapsible)
    }
}

/// What is found of a reply without a mark.
pub fn found_of_unmarked(claim: &ReplyClaim<'_>) -> Finding
    ensures { (h : List Item) → IsFoundBy Mark.Unmarked claim.now h result }
{
    if allows_unmarked(claim.settings.unmarked, claim.status()) {
        Finding::Right
    } else {
        Finding::Wrong(Reason::Unmarked)
    }
}
