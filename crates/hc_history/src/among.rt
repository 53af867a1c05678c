//! Among which responses it is looked for what a reply carries.

ghost use Rattle.std.specs.Prelude.{◌≡◌};
ghost use Rattle.hc_history.specs.Reused.{is_looked_at};

use crate::claim::ReplyClaim;
use crate::usable::validated_since;
use hc_update::Stored;

/// Among which earlier responses it is looked for what a reply carries.
#[derive(Clone, Copy, PartialEq, Eq)]
pub enum Among {
    /// All.
    Any,
    /// Those that came in its window.
    InWindow,
    /// Those that came in its window, and those that were validated there and are valid.
    Recent,
}

/// Whether the response at a position is one of those.
pub fn is_looked_at(among: Among, claim: &ReplyClaim<'_>, position: u64, state: &Stored) -> bool
    ensures { result ≡ is_looked_at among claim.now position state.now }
{
    match among {
        Among::Any => true,
        Among::InWindow => claim.since < position,
        Among::Recent => {
            claim.since < position
                || (!state.invalid && validated_since(claim.since, state.validated_at))
        }
    }
}
