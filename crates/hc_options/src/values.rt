//! What the values of options say.

ghost use Rattle.std.specs.Prelude.{◌≡◌, IfOk, option_map};
ghost use Rattle.hc_options.specs.Values.{count_by, count_of, count_or_zero, flag_by, ignored_by, number_of, number_within, octets_in, octets_of, size_from, unit_of, unmarked_by};

use crate::names::names_of;
use crate::rows::Takes;
use hc_fields::{LARGEST_NUMBER, decimal};
use hc_history::{FieldNames, UnmarkedReplies};
use hc_transcript::GREATEST_NUMBER;
use std::alloc::{AllocError, Global};

/// The number of an option that takes such numbers or sizes, where it is in its range; a size is in octets.
pub fn number_of(takes: Takes, text: &[u8]) -> Option<u64>
    ensures { result ≡ number_of takes text.now }
{
    match takes {
        Takes::Number(least, most) => number_within(least, most, text),
        Takes::Size(least) => size_from(least, text),
        Takes::AnyText
        | Takes::FileName
        | Takes::Count
        | Takes::AllowedWords
        | Takes::Names
        | Takes::VaryNames
        | Takes::CacheName
        | Takes::Positions
        | Takes::OriginAddress => None,
    }
}

// The number that one or more digits write, where it is in that range, and at most 999999999999.
fn number_within(least: u64, most: u64, text: &[u8]) -> Option<u64>
    ensures { result ≡ number_within least most text.now }
{
    let number = decimal(text)?;
    let greatest = most.min(GREATEST_NUMBER);
    if number < least || number > greatest {
        return None;
    }
    Some(number)
}

// As many octets as the digits say, by themselves or with a unit, where they are at least that many.
fn size_from(least: u64, text: &[u8]) -> Option<u64>
    ensures { result ≡ size_from least text.now }
{
    let octets = octets_of(text)?;
    if octets < least {
        return None;
    }
    Some(octets)
}

// As many octets as the digits say, or as many units where the letter of one ends them.
fn octets_of(text: &[u8]) -> Option<u64>
    ensures { result ≡ octets_of text.now }
{
    let (letter, digits) = text.split_last()?;
    match unit_of(*letter) {
        Some(unit) => octets_in(unit, digits),
        None => octets_in(1, text),
    }
}

// The unit that a letter stands for.
fn unit_of(letter: u8) -> Option<u64>
    ensures { result ≡ unit_of letter }
{
    match letter {
        b'k' | b'K' => Some(1_024),
        b'm' | b'M' => Some(1_048_576),
        b'g' | b'G' => Some(1_073_741_824),
        _ => None,
    }
}

// As many of these units as one or more digits write, where that is not too great.
fn octets_in(unit: u64, text: &[u8]) -> Option<u64>
    ensures { result ≡ octets_in unit text.now }
{
    let octets = decimal(text)?.checked_mul(unit)?;
    if octets > GREATEST_NUMBER {
        return None;
    }
    Some(octets)
}

/// The seconds, or whatever else is counted, that one or more digits write, where they are not too many.
pub(crate) fn count_of(text: &[u8]) -> Option<u32>
    ensures { result ≡ count_of text.now }
{
    let count = decimal(text)?;
    if count > u64::from(LARGEST_NUMBER) {
        return None;
    }
    Some(count as u32)
}

/// The same of an option that says 0 where it isn't given.
pub(crate) fn count_or_zero(value: Option<&str>) -> Option<u32>
    ensures { result ≡ count_or_zero (option_map (λ text. text.now) value.entry) }
{
    match value {
        Some(text) => count_of(text.as_bytes()),
        None => Some(0),
    }
}

/// The same of an option that may be left out.
pub(crate) fn count_by(value: Option<&str>) -> Option<Option<u32>>
    ensures { result ≡ count_by (option_map (λ text. text.now) value.entry) }
{
    let Some(text) = value else {
        return Some(None);
    };
    let count = count_of(text.as_bytes())?;
    Some(Some(count))
}

/// The names of `--ignore`, where they are names.
pub(crate) fn ignored_by(
    alloc: Global,
    value: Option<&str>,
) -> Result<Option<FieldNames>, AllocError>
    ensures { IfOk result (λ names. names ≡ ignored_by (option_map (λ text. text.now) value.entry)) }
{
    match value {
        Some(text) => names_of(alloc, text.as_bytes()),
        None => Ok(Some(FieldNames::new(alloc))),
    }
}

/// What `--errors-only` says. A flag that was given has the value `true`.
pub(crate) fn unmarked_by(value: Option<&str>) -> UnmarkedReplies
    ensures { result ≡ unmarked_by (option_map (λ text. text.now) value.entry) }
{
    match value {
        Some("true") => UnmarkedReplies::ErrorsOnly,
        _ => UnmarkedReplies::Allow,
    }
}

/// Whether a flag was given: it has the value `true` then.
pub(crate) fn flag_by(value: Option<&str>) -> bool
    ensures { result ≡ flag_by (option_map (λ text. text.now) value.entry) }
{
    value == Some("true")
}
