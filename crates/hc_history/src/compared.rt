//! Whether a reply has the fields of a stored response.

ghost use Rattle.std.specs.Prelude.{◌≡◌, ◌==◌, not, true, IfOk};
ghost use Rattle.std.specs.Option.{option_eq};
ghost use Rattle.std.specs.List.{list_all, list_any};
ghost use Rattle.std.specs.Str.{bytes_eq};
ghost use Rattle.hc_head.specs.Statuses.{not_modified};
ghost use Rattle.hc_fields.specs.Values.{joined_values, values_of};
ghost use Rattle.hc_history.specs.Allowing.{has_allowed_fields, has_its_values, may_be_added, is_joined, names_of_content};
ghost use Rattle.hc_history.specs.Filters.{is_exempt, rewritten_names, same_values};

use crate::claim::ReplyClaim;
use hc_fields::{FieldsView, Lines, is_among};
use hc_head::StatusCode;
use hc_rules::REPEATED_NAMES;
use hc_update::Stored;
use std::alloc::{AllocError, Global};

/// The fields that each cache writes anew.
const REWRITTEN: [&[u8]; 4] = [b"content-length", b"via", b"cache-status", b"age"];

/// The fields that say what a body is.
const OF_CONTENT: [&[u8]; 7] = [
    b"content-encoding",
    b"content-language",
    b"content-location",
    b"content-range",
    b"content-type",
    b"etag",
    b"last-modified",
];

/// Whether the reply says that what the client has still holds.
pub(crate) fn is_not_modified(claim: &ReplyClaim<'_>) -> bool
    ensures { result ≡ (claim.now.reply.head.status == not_modified) }
{
    claim.status() == StatusCode::NOT_MODIFIED
}

fn is_rewritten(name: &[u8]) -> bool
    ensures { result ≡ list_any (λ known. bytes_eq known name.now) rewritten_names }
{
    is_among(&REWRITTEN, name)
}

/// Whether a field isn't compared.
#[tactic(auto, using(crate::proofs::ComparedLemmas::exempt_in_any_order))]
fn is_exempt(claim: &ReplyClaim<'_>, name: &[u8]) -> bool
    ensures { result ≡ is_exempt claim.now name.now }
{
    // What Connection names takes a walk over the lines, so that is looked at last.
    is_rewritten(name)
        || claim.settings.ignored.contains(name)
        || claim.fields().left_out_of_store(name)
}

/// Whether both have the same list of values of a name.
fn same_values(one: &FieldsView<'_>, other: &FieldsView<'_>, name: &[u8]) -> bool
    ensures { result ≡ same_values one.now other.now name.now }
{
    let mut others = other.values(name);
    for value in one.values(name) {
        if others.next() != Some(value) {
            return false;
        }
    }
    others.next().is_none()
}

/// Whether a field of that name says what a body is (RFC 9110 section 8, and section 14.4 of parts).
pub fn is_of_content(name: &[u8]) -> bool
    ensures { result ≡ list_any (λ known. bytes_eq known name.now) names_of_content }
{
    is_among(&OF_CONTENT, name)
}

/// Whether a name may be the reply's alone (RFC 9110 sections 7.7 and 15.4.5).
fn may_be_added(claim: &ReplyClaim<'_>, state: &Stored, name: &[u8]) -> bool
    ensures { result ≡ may_be_added claim.now state.now name.now }
{
    claim.settings.allowed.added_fields && !state.fields.contains(name) && !is_of_content(name)
}

/// Whether both have the same values of a name where each side's lines are joined.
fn same_joined(
    alloc: Global,
    one: &FieldsView<'_>,
    other: &FieldsView<'_>,
    name: &[u8],
) -> Result<bool, AllocError>
    ensures { IfOk result (λ same. same
        ≡ option_eq bytes_eq (joined_values (values_of name.now one.now)) (joined_values (values_of name.now other.now))) }
{
    match (one.joined(alloc, name)?, other.joined(alloc, name)?) {
        (None, None) => Ok(true),
        (Some(one), Some(other)) => Ok(one.as_slice() == other.as_slice()),
        (None, Some(_)) | (Some(_), None) => Ok(false),
    }
}

/// Whether both have lines of a name that are the same where each side's are joined (RFC 9110 section 5.3).
fn is_joined(
    alloc: Global,
    claim: &ReplyClaim<'_>,
    state: &Stored,
    name: &[u8],
) -> Result<bool, AllocError>
    ensures { IfOk result (λ joined. joined ≡ is_joined claim.now state.now name.now) }
{
    if !claim.settings.allowed.joined_lines
        || name == b"set-cookie".as_slice()
        || !state.fields.contains(name)
    {
        return Ok(false);
    }
    same_joined(alloc, claim.fields(), &state.fields.lent(), name)
}

/// Whether a name isn't compared, or the reply has the values that the stored response has of it, or what is
/// allowed in their place.
fn has_its_values(
    alloc: Global,
    claim: &ReplyClaim<'_>,
    state: &Stored,
    name: &[u8],
) -> Result<bool, AllocError>
    ensures { IfOk result (λ has. has ≡ has_its_values claim.now state.now name.now) }
{
    if is_exempt(claim, name)
        || same_values(claim.fields(), &state.fields.lent(), name)
        || may_be_added(claim, state, name)
    {
        return Ok(true);
    }
    is_joined(alloc, claim, state, name)
}

/// Whether a name is compared, and the reply has other values of it than the stored response, and none that are
/// allowed in their place. It fails only where memory is refused.
pub fn differs(
    alloc: Global,
    claim: &ReplyClaim<'_>,
    state: &Stored,
    name: &[u8],
) -> Result<bool, AllocError>
    ensures { IfOk result (λ differs. differs ≡ not (has_its_values claim.now state.now name.now)) }
{
    let has = has_its_values(alloc, claim, state, name)?;
    Ok(!has)
}

/// Whether the reply has the values of each of those lines' names that is compared.
fn has_its_lines(
    alloc: Global,
    claim: &ReplyClaim<'_>,
    state: &Stored,
    fields: &FieldsView<'_>,
) -> Result<bool, AllocError>
    ensures { IfOk result (λ has. has ≡ list_all (λ line. has_its_values claim.now state.now line.name) fields.now) }
{
    let mut rest = fields.again();
    while let Some((name, _)) = rest.pass() {
        if !has_its_values(alloc, claim, state, name)? {
            return Ok(false);
        }
    }
    Ok(true)
}

/// Whether the reply has the values of each of the stored response's names that is compared, where it has those of its
/// own: of these none is looked at again.
fn has_lines_besides(
    alloc: Global,
    claim: &ReplyClaim<'_>,
    state: &Stored,
) -> Result<bool, AllocError>
    requires { list_all (λ line. has_its_values claim.now state.now line.name) claim.now.reply.head.fields ≡ true }
    ensures { IfOk result (λ has. has ≡ list_all (λ line. has_its_values claim.now state.now line.name) state.now.fields) }
{
    let mut rest = state.fields.lent();
    while let Some((name, _)) = rest.pass() {
        if !claim.fields().contains(name) && !has_its_values(alloc, claim, state, name)? {
            return Ok(false);
        }
    }
    Ok(true)
}

/// Whether the reply has the values of each of those names that is compared.
fn has_each(
    alloc: Global,
    claim: &ReplyClaim<'_>,
    state: &Stored,
    names: &[&[u8]],
) -> Result<bool, AllocError>
    ensures { IfOk result (λ has. has ≡ list_all (λ name. has_its_values claim.now state.now name.now) names.now) }
{
    for name in names {
        if !has_its_values(alloc, claim, state, name)? {
            return Ok(false);
        }
    }
    Ok(true)
}

/// Whether the reply has the fields of the stored response, but for those that aren't compared, or what is
/// allowed in their place. What the stored response has besides those of the reply counts too, but for a 304,
/// of which those count that it has to repeat.
pub(crate) fn has_allowed_fields(
    alloc: Global,
    claim: &ReplyClaim<'_>,
    state: &Stored,
) -> Result<bool, AllocError>
    ensures { IfOk result (λ has. has ≡ has_allowed_fields claim.now state.now) }
{
    let has = has_its_lines(alloc, claim, state, claim.fields())?;
    if !has {
        return Ok(false);
    }
    if is_not_modified(claim) {
        has_each(alloc, claim, state, &REPEATED_NAMES)
    } else {
        has_lines_besides(alloc, claim, state)
    }
}
