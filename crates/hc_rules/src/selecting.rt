//! Whether a stored response answers a request, by its Vary (RFC 9111 section 4.1).

ghost use Rattle.std.specs.Prelude.{◌≡◌, false, codes, IfOk, IsOk};
ghost use Rattle.std.specs.Bool.{beq};
ghost use Rattle.std.specs.Cmp.Lexicographic.{pointwise};
ghost use Rattle.std.specs.Str.{bytes_eq};
ghost use Rattle.hc_fields.specs.Values.{has_name};
ghost use Rattle.hc_rules.specs.Selecting.{agree, agree_by_members, agree_by_value, is_list_of_preferences, is_met, joined_lines, selects};

use hc_fields::{FieldsView, Lines, Members, Octets, is_among, is_token, trimmed};
use std::alloc::{AllocError, Global};

/// The fields that are compared as lists of members.
const PREFERENCES: [&[u8]; 4] = [
    b"accept",
    b"accept-charset",
    b"accept-encoding",
    b"accept-language",
];

fn is_list_of_preferences(name: &[u8]) -> bool
    ensures { result ≡ is_list_of_preferences name.now }
{
    is_among(&PREFERENCES, name)
}

/// Whether both requests have the field, or neither.
fn have_alike(name: &[u8], forwarded: &FieldsView<'_>, presented: &FieldsView<'_>) -> bool
    ensures { result ≡ beq (has_name name.now forwarded.now) (has_name name.now presented.now) }
{
    forwarded.contains(name) == presented.contains(name)
}

fn same_members(ones: Members<'_>, mut others: Members<'_>) -> bool
    ensures { result ≡ pointwise bytes_eq ones.entry others.entry }
{
    for one in ones {
        let Some(other) = others.next() else {
            return false;
        };
        if one != other {
            return false;
        }
    }
    others.next().is_none()
}

fn agree_by_members(name: &[u8], forwarded: &FieldsView<'_>, presented: &FieldsView<'_>) -> bool
    ensures { result ≡ agree_by_members name.now forwarded.now presented.now }
{
    have_alike(name, forwarded, presented)
        && same_members(forwarded.members(name), presented.members(name))
}

/// The lines of a name as one value, each trimmed.
fn joined_lines(
    alloc: Global,
    name: &[u8],
    fields: &FieldsView<'_>,
) -> Result<Option<Octets>, AllocError>
    ensures { IfOk result (λ o. o ≡ joined_lines name.now fields.now) }
{
    let mut values = fields.values(name);
    let Some(first) = values.next() else {
        return Ok(None);
    };
    let mut joined = Octets::from_slice(alloc, trimmed(first))?;
    for value in values {
        joined.extend_from_slice(b", ")?;
        joined.extend_from_slice(trimmed(value))?;
    }
    Ok(Some(joined))
}

fn agree_by_value(
    alloc: Global,
    name: &[u8],
    forwarded: &FieldsView<'_>,
    presented: &FieldsView<'_>,
) -> Result<bool, AllocError>
    ensures { IfOk result (λ a. a ≡ agree_by_value name.now forwarded.now presented.now) }
{
    let one = joined_lines(alloc, name, forwarded)?;
    let other = joined_lines(alloc, name, presented)?;
    match (one, other) {
        (None, None) => Ok(true),
        (Some(one), Some(other)) => Ok(one.as_slice() == other.as_slice()),
        (None, Some(_)) | (Some(_), None) => Ok(false),
    }
}

fn agree(
    alloc: Global,
    name: &[u8],
    forwarded: &FieldsView<'_>,
    presented: &FieldsView<'_>,
) -> Result<bool, AllocError>
    ensures { IfOk result (λ a. a ≡ agree name.now forwarded.now presented.now) }
{
    if is_list_of_preferences(name) {
        Ok(agree_by_members(name, forwarded, presented))
    } else {
        agree_by_value(alloc, name, forwarded, presented)
    }
}

/// Whether a member of Vary names a field, in any case, in which the requests agree.
pub fn is_met<F: Lines, P: Lines>(
    alloc: Global,
    member: &[u8],
    forwarded: &F,
    presented: &P,
) -> Result<bool, AllocError>
    ensures { IfOk result (λ m. m ≡ is_met (F.lines forwarded.now) (P.lines presented.now) member.now) }
{
    is_met_in(alloc, member, &forwarded.lent(), &presented.lent())
}

fn is_met_in(
    alloc: Global,
    member: &[u8],
    forwarded: &FieldsView<'_>,
    presented: &FieldsView<'_>,
) -> Result<bool, AllocError>
    ensures { IfOk result (λ m. m ≡ is_met forwarded.now presented.now member.now) }
{
    if !is_token(member) || member == b"*".as_slice() {
        return Ok(false);
    }
    let name = member.to_ascii_lowercase(alloc)?;
    agree(alloc, name.as_slice(), forwarded, presented)
}

/// Whether a response with those fields, which answered the first request as it was forwarded,
/// is selected by the second. Without a Vary line no memory is taken.
pub fn selects<L: Lines, F: Lines, P: Lines>(
    alloc: Global,
    fields: &L,
    forwarded: &F,
    presented: &P,
) -> Result<bool, AllocError>
    ensures answer { IfOk result (λ s. s ≡ selects (L.lines fields.now) (F.lines forwarded.now) (P.lines presented.now)) }
    ensures no_vary { has_name (codes "vary") (L.lines fields.now) ≡ false → IsOk result }
{
    selects_in(alloc, &fields.lent(), &forwarded.lent(), &presented.lent())
}

fn selects_in(
    alloc: Global,
    fields: &FieldsView<'_>,
    forwarded: &FieldsView<'_>,
    presented: &FieldsView<'_>,
) -> Result<bool, AllocError>
    ensures answer { IfOk result (λ s. s ≡ selects fields.now forwarded.now presented.now) }
    ensures no_vary { has_name (codes "vary") fields.now ≡ false → IsOk result }
{
    if !fields.contains(b"vary") {
        return Ok(true);
    }
    for member in fields.members(b"vary") {
        if !is_met_in(alloc, member, forwarded, presented)? {
            return Ok(false);
        }
    }
    Ok(true)
}
