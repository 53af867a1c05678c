//! What the options say that allow more than the strict rules.

ghost use Rattle.std.specs.Prelude.{◌≡◌, codes, IfOk, option_map};
ghost use Rattle.std.specs.List.{list_all, list_any};
ghost use Rattle.std.specs.Str.{bytes_eq};
ghost use Rattle.hc_options.specs.Allowing.{allow_by, allowed_words, has_word, is_word, normalized_by, normalized_of, words_of};
ghost use Rattle.hc_options.specs.Values.{between_commas};

use crate::names::{between_commas, names_of};
use hc_fields::is_among;
use hc_history::FieldNames;
use std::alloc::{AllocError, Global};

/// The words of `--allow`.
const WORDS: [&[u8]; 3] = [b"added-fields", b"joined-lines", b"ranges"];

/// What the words of `--allow` allow.
#[derive(Clone, Copy)]
pub(crate) struct AllowedWords {
    pub(crate) added_fields: bool,
    pub(crate) joined_lines: bool,
    pub(crate) ranges: bool,
}

/// Whether a word stands between the commas of a list.
fn has_word(list: &[u8], word: &[u8]) -> bool
    ensures { result ≡ has_word list.now word.now }
{
    for text in between_commas(list) {
        if text == word {
            return true;
        }
    }
    false
}

fn is_word(text: &[u8]) -> bool
    ensures { result ≡ is_word text.now }
{
    is_among(&WORDS, text)
}

/// Whether each text between the commas is one of the words.
fn are_words(list: &[u8]) -> bool
    ensures { result ≡ list_all is_word (between_commas list.now) }
{
    for text in between_commas(list) {
        if !is_word(text) {
            return false;
        }
    }
    true
}

/// What a list of words allows, where each is one; `all` allows what each of them does.
fn words_of(list: &[u8]) -> Option<AllowedWords>
    ensures { result ≡ words_of list.now }
{
    let all = list == b"all".as_slice();
    if !all && !are_words(list) {
        return None;
    }
    Some(AllowedWords {
        added_fields: all || has_word(list, b"added-fields"),
        joined_lines: all || has_word(list, b"joined-lines"),
        ranges: all || has_word(list, b"ranges"),
    })
}

/// What `--allow` allows, where its words are some.
pub(crate) fn allow_by(value: Option<&str>) -> Option<AllowedWords>
    ensures { result ≡ allow_by (option_map (λ text. text.now) value.entry) }
{
    match value {
        Some(text) => words_of(text.as_bytes()),
        None => Some(AllowedWords {
            added_fields: false,
            joined_lines: false,
            ranges: false,
        }),
    }
}

/// The names of a list with commas between them, where none of them is `*`.
fn normalized_of(alloc: Global, list: &[u8]) -> Result<Option<FieldNames>, AllocError>
    ensures { IfOk result (λ names. names ≡ normalized_of list.now) }
{
    if has_word(list, b"*") {
        return Ok(None);
    }
    names_of(alloc, list)
}

/// The names of `--normalized`, where they are names.
pub(crate) fn normalized_by(
    alloc: Global,
    value: Option<&str>,
) -> Result<Option<FieldNames>, AllocError>
    ensures { IfOk result (λ names. names ≡ normalized_by (option_map (λ text. text.now) value.entry)) }
{
    match value {
        Some(text) => normalized_of(alloc, text.as_bytes()),
        None => Ok(Some(FieldNames::new(alloc))),
    }
}
