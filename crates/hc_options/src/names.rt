//! The names of fields in a list of them.

ghost use Rattle.std.specs.Prelude.{◌≡◌, ◌≤◌, ◌∷◌, ◌++◌, [], ℕ, List, IfOk, OnOk, length};
ghost use Rattle.std.specs.Iterator.{YieldsFirstRef, item_count};
ghost use Rattle.std.specs.List.{list_all};
ghost use Rattle.std.specs.Option.{option_map_or};
ghost use Rattle.std.specs.Str.{str_to_ascii_lowercase};
ghost use Rattle.hc_fields.specs.Tokens.{is_token};
ghost use Rattle.hc_options.specs.Values.{between_commas, len_before_comma, names_of};

use hc_fields::{Octets, is_token};
use hc_history::FieldNames;
use std::alloc::{AllocError, Global};
use std::marker::Model;

/// An iterator over the texts between the commas of a list, which contracts see as the list of those that
/// are left.
#[derive(Drop)]
pub(crate) struct BetweenCommas<'a> {
    rest: Option<&'a [u8]>,
}

impl<'a> Model for BetweenCommas<'a> {
    ghost Value = { List (List ℕ) };

    ghost view = { λ texts. option_map_or (λ rest. between_commas rest.now) texts.rest [] };
}

/// How many octets stand before the first comma.
fn len_before_comma(list: &[u8]) -> usize
    ensures is { result ≡ len_before_comma list.now }
    ensures within { result ≤ length list.now }
{
    for (index, octet) in list.iter().enumerate() {
        if *octet == b',' {
            return index;
        }
    }
    list.len()
}

/// The text before the first comma, and what stands behind that comma.
fn split_first_text(list: &[u8]) -> (&[u8], Option<&[u8]>)
    ensures { between_commas list.now
        ≡ result.0.now ∷ option_map_or (λ rest. between_commas rest.now) result.1 [] }
{
    let (text, rest) = list.split_at(len_before_comma(list));
    match rest.split_first() {
        Some((_, behind)) => (text, Some(behind)),
        None => (text, None),
    }
}

impl<'a> Iterator for BetweenCommas<'a> {
    type Item = &'a [u8];

    ghost next_gives = { YieldsFirstRef (λ texts. texts) };

    ghost remaining = { item_count (λ texts. texts) };

    fn next(&mut self) -> Option<&'a [u8]> {
        let (text, rest) = split_first_text(self.rest?);
        self.rest = rest;
        Some(text)
    }
}

/// The texts between the commas of a list.
pub(crate) fn between_commas(list: &[u8]) -> BetweenCommas<'_>
    ensures { result ≡ between_commas list.now }
{
    BetweenCommas { rest: Some(list) }
}

/// Whether each text between the commas is a token.
fn are_tokens(list: &[u8]) -> bool
    ensures { result ≡ list_all is_token (between_commas list.now) }
{
    for text in between_commas(list) {
        if !is_token(text) {
            return false;
        }
    }
    true
}

/// The names of a list with commas between them, in lower case, where each of them is a token.
pub(crate) fn names_of(alloc: Global, list: &[u8]) -> Result<Option<FieldNames>, AllocError>
    ensures { IfOk result (λ names. names ≡ names_of list.now) }
{
    if !are_tokens(list) {
        return Ok(None);
    }
    let mut names = FieldNames::new(alloc);
    for name in between_commas(list) {
        push_name(alloc, name, &mut names)?;
    }
    Ok(Some(names))
}

/// Adds the name, in lower case.
fn push_name(alloc: Global, name: &[u8], names: &mut FieldNames) -> Result<(), AllocError>
    ensures { OnOk result (names.new ≡ names.old ++ str_to_ascii_lowercase name.now ∷ []) }
{
    names.push(Octets::from_vec(name.to_ascii_lowercase(alloc)?))
}
