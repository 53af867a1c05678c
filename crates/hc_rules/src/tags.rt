//! The validators of a response (RFC 9110 section 8.8).

ghost use Rattle.std.specs.Prelude.{◌≡◌, option_copied};
ghost use Rattle.std.specs.List.{list_all};
ghost use Rattle.hc_rules.specs.Validators.{IsValidator, are_tag_octets, between_quotes, is_entity_tag, is_opaque_tag, has_permitted_length, is_tag_octet, last_modified_of, tag_of, without_weak_mark};

use crate::validators::Validator;
use hc_fields::{FieldsView, Lines};

/// A longer value is no validator.
const LONGEST: usize = 1024;

fn has_permitted_length(value: &[u8]) -> bool
    ensures { result ≡ has_permitted_length value.now }
{
    value.len() <= LONGEST
}

#[tactic(auto, unfolding(crate::specs::Validators::is_tag_octet))]
fn is_tag_octet(octet: u8) -> bool
    ensures { result ≡ is_tag_octet octet }
{
    matches!(octet, 33 | 35..=126 | 128..=255)
}

fn has_tag_octets(text: &[u8]) -> bool
    ensures { result ≡ list_all is_tag_octet text.now }
{
    text.iter().all(|octet| is_tag_octet(*octet))
}

/// What stands between two quotes at the ends of the text.
fn between_quotes(text: &[u8]) -> Option<&[u8]>
    ensures { option_copied result ≡ between_quotes text.now }
{
    text.strip_prefix(b"\"")?.strip_suffix(b"\"")
}

fn is_opaque_tag(text: &[u8]) -> bool
    ensures { result ≡ is_opaque_tag text.now }
{
    match between_quotes(text) {
        Some(run) => has_tag_octets(run),
        None => false,
    }
}

/// The tag without the mark of a weak one (RFC 9110 section 8.8.3).
pub(crate) fn without_weak_mark(tag: &[u8]) -> &[u8]
    ensures { result.now ≡ without_weak_mark tag.now }
{
    tag.strip_prefix(b"W/".as_slice()).unwrap_or(tag)
}

fn is_entity_tag(value: &[u8]) -> bool
    ensures { result ≡ is_entity_tag value.now }
{
    has_permitted_length(value) && is_opaque_tag(without_weak_mark(value))
}

/// The entity-tag of a response (RFC 9110 section 8.8.3), with the mark of a weak one: its one ETag
/// line, of at most 1,024 octets.
pub fn tag<L: Lines>(fields: &L) -> Option<&[u8]>
    ensures { option_copied result ≡ tag_of (L.lines fields.now) }
{
    tag_in(&fields.lent())
}

pub(crate) fn tag_in<'a>(fields: &FieldsView<'a>) -> Option<&'a [u8]>
    ensures { option_copied result ≡ tag_of fields.now }
{
    fields.only(b"etag").filter(|value| is_entity_tag(value))
}

/// The Last-Modified of a response (RFC 9110 section 8.8.2), be it a date or not: its one line, of at
/// most 1,024 octets.
pub fn last_modified<L: Lines>(fields: &L) -> Option<&[u8]>
    ensures { option_copied result ≡ last_modified_of (L.lines fields.now) }
{
    last_modified_in(&fields.lent())
}

fn last_modified_in<'a>(fields: &FieldsView<'a>) -> Option<&'a [u8]>
    ensures { option_copied result ≡ last_modified_of fields.now }
{
    fields
        .only(b"last-modified")
        .filter(|value| has_permitted_length(value))
}

/// What a response is validated by: its entity-tag, else its Last-Modified.
pub fn validator<L: Lines>(fields: &L) -> Validator<'_>
    ensures { IsValidator result (L.lines fields.now) }
{
    validator_in(&fields.lent())
}

pub(crate) fn validator_in<'a>(fields: &FieldsView<'a>) -> Validator<'a>
    ensures { IsValidator result fields.now }
{
    if let Some(tag) = tag_in(fields) {
        return Validator::Tag(tag);
    }
    match last_modified_in(fields) {
        Some(date) => Validator::Modified(date),
        None => Validator::Neither,
    }
}
