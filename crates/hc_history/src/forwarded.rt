//! What a reply that went forward carries.

ghost use Rattle.std.specs.Prelude.{◌≡◌};
ghost use Rattle.hc_history.specs.Windows.{may_be_for};
ghost use Rattle.hc_history.specs.Forwarded.{asks_the_same, carries, carries_part, carries_whole};

use crate::claim::{ReplyClaim, asks_head};
use crate::filters::has_body;
use crate::ranges::{is_no_part, is_part};
use hc_head::{Method, StatusCode, is_get};
use hc_transcript::ToldCause;

/// Whether a forward of that method asks what the request asks: by its method, or by GET for HEAD
/// (RFC 9110 section 9.3.2).
fn asks_the_same(claim: &ReplyClaim<'_>, method: &Method) -> bool
    ensures { result ≡ asks_the_same claim.now method.now }
{
    *method == claim.request.method || (asks_head(claim) && is_get(method))
}

/// Whether the reply has that status and that body.
fn carries_whole(claim: &ReplyClaim<'_>, status: StatusCode, body: &[u8]) -> bool
    ensures { result ≡ carries_whole claim.now status body.now }
{
    claim.status() == status && has_body(claim, body)
}

/// Whether the reply is a part of it, or says that there is no such part, where ranges are allowed.
fn carries_part(claim: &ReplyClaim<'_>, status: StatusCode, body: &[u8]) -> bool
    ensures { result ≡ carries_part claim.now status body.now }
{
    is_part(claim, status, body) || is_no_part(claim, status, body)
}

/// Whether a response of that status and that body, to that method, is what the reply carries.
pub fn carries(claim: &ReplyClaim<'_>, method: &Method, status: StatusCode, body: &[u8]) -> bool
    ensures { result ≡ carries claim.now method.now status body.now }
{
    asks_the_same(claim, method)
        && (carries_whole(claim, status, body) || carries_part(claim, status, body))
}

/// Whether a forward was made for the exchange of that number, as far as its cause is told.
pub fn may_be_for(told: ToldCause, exchange: u64) -> bool
    ensures { result ≡ may_be_for told exchange }
{
    match told {
        ToldCause::Untold => true,
        ToldCause::NoExchange => false,
        ToldCause::Exchange(cause) => cause == exchange,
    }
}
