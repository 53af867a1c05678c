//! How the marks of replies count.

ghost use Rattle.std.specs.Prelude.{◌≡◌};
ghost use Rattle.hc_history.specs.Right.{allows_unmarked, is_judged_collapsed};

use crate::claim::ReplyClaim;
use crate::settings::UnmarkedReplies;
use hc_head::StatusCode;
use hc_transcript::Format;

/// Whether a reply of that status may be unmarked.
pub fn allows_unmarked(unmarked: UnmarkedReplies, status: StatusCode) -> bool
    ensures { result ≡ allows_unmarked unmarked status }
{
    match unmarked {
        UnmarkedReplies::Allow => true,
        UnmarkedReplies::ErrorsOnly => status.as_u16() >= 400,
    }
}

/// Whether a reply that went forward is judged as one that was collapsed, where its mark says so or doesn't:
/// the first format tells no causes, and passes that over.
pub fn is_judged_collapsed(claim: &ReplyClaim<'_>, collapsed: bool) -> bool
    ensures { result ≡ is_judged_collapsed claim.now.format collapsed }
{
    match claim.format {
        Format::First => false,
        Format::Second => collapsed,
    }
}
