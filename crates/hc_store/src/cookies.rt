//! Responses that set a cookie.

ghost use Rattle.std.specs.Prelude.{◌≡◌};
ghost use Rattle.hc_store.specs.Entries.{may_hold, sets_cookie};

use hc_update::Stored;

/// Whether a response has a Set-Cookie line.
fn sets_cookie(stored: &Stored) -> bool
    ensures { result ≡ sets_cookie stored.now }
{
    stored.fields.contains(b"set-cookie")
}

/// Whether a store may hold a response: one that sets a cookie only where it keeps such responses.
pub(crate) fn may_hold(keeps_cookies: bool, stored: &Stored) -> bool
    ensures { result ≡ may_hold keeps_cookies stored.now }
{
    keeps_cookies || !sets_cookie(stored)
}
