//! What a request says of forwards.

ghost use Rattle.std.specs.Prelude.{◌≡◌, Some, codes};
ghost use Rattle.hc_fresh.specs.Lifetimes.{says};
ghost use Rattle.hc_service.specs.Reactions.{is_asked_after, wants_no_forward};
ghost use Rattle.hc_rules.specs.Validators.{has_validator};

use hc_directives::Directives;
use hc_fields::Fields;
use hc_head::{RequestHead, is_get};
use hc_rules::{Validator, validator};
use hc_service::Cause;
use hc_update::Stored;

/// Whether the client wants no forward (RFC 9111 section 5.2.1.7). It has no say where the store isn't
/// asked for the method's sake.
pub fn wants_no_forward(cause: Cause, asked: &RequestHead) -> bool
    ensures { result ≡ wants_no_forward cause asked.now }
{
    match cause {
        Cause::Method => false,
        Cause::Bypass => only_if_cached(asked),
        Cause::NoStore => only_if_cached(asked),
        Cause::UriMiss => only_if_cached(asked),
        Cause::VaryMiss => only_if_cached(asked),
        Cause::Stale => only_if_cached(asked),
        Cause::Request => only_if_cached(asked),
    }
}

fn only_if_cached(asked: &RequestHead) -> bool
    ensures { result ≡ says (codes "only-if-cached") asked.now.fields }
{
    Directives::read(&asked.fields).has(b"only-if-cached")
}

/// Whether a response with those fields can be validated.
fn has_validator(fields: &Fields) -> bool
    ensures { result ≡ has_validator fields.now }
{
    match validator(fields) {
        Validator::Tag(_) => true,
        Validator::Modified(_) => true,
        Validator::Neither => false,
    }
}

/// Whether a forward asks after the stored response that was chosen: for GET, where it has a validator (RFC 9111
/// section 4.3.1).
pub(crate) fn is_asked_after(asked: &RequestHead, stored: &Stored) -> bool
    ensures { result ≡ is_asked_after asked.now (Some stored.now) }
{
    is_get(&asked.method) && has_validator(&stored.fields)
}
