//! Integers and decimals (RFC 8941 section 4.2.4).

ghost use Rattle.std.specs.Prelude.{◌≡◌, ◌<◌, ◌^◌, IfOk, IfErr, IfSome, Some, None, if◌then◌else◌};
ghost use Rattle.std.specs.List.{list_all};
ghost use Rattle.std.specs.Char.{is_ascii_digit};
ghost use Rattle.std.specs.Str.Parse.{digits_value};
ghost use Rattle.hc_status.specs.Reading.{integer_of, is_digits, is_negative, makes_decimal, number_of, number_with, unsigned};
ghost use Rattle.hc_status.specs.Answers.{Lacks};

use crate::fault::SfFault;
use crate::items::Bare;
use crate::scan::digits_len;
use hc_fields::{Octets, decimal};
use std::alloc::Global;

/// The most digits of an integer.
const INTEGER_DIGITS: usize = 15;

/// The most digits of a decimal before its point.
const WHOLE_DIGITS: usize = 12;

/// The most digits of a decimal behind its point.
const FRACTION_DIGITS: usize = 3;

fn are_digits(text: &[u8]) -> bool
    ensures { result ≡ list_all is_ascii_digit text.now }
{
    text.iter().all(|octet| octet.is_ascii_digit())
}

/// Whether the text is one digit or more, and at most so many.
fn is_digits(text: &[u8], most: usize) -> bool
    ensures { result ≡ is_digits most text.now }
{
    !text.is_empty() && text.len() <= most && are_digits(text)
}

fn is_negative(text: &[u8]) -> bool
    ensures { result ≡ is_negative text.now }
{
    text.first() == Some(&b'-')
}

/// The text without its minus.
fn unsigned(text: &[u8]) -> &[u8]
    ensures { result.now ≡ unsigned text.now }
{
    match text.split_first() {
        Some((b'-', behind)) => behind,
        _ => text,
    }
}

fn magnitude(digits: &[u8]) -> Option<u64>
    ensures value { result ≡ (if is_digits 15 digits.now then Some (digits_value 10 digits.now) else None) }
    ensures small { IfSome result (λ n. n < 10 ^ 15) }
{
    if is_digits(digits, INTEGER_DIGITS) {
        decimal(digits)
    } else {
        None
    }
}

fn integer(negative: bool, digits: &[u8]) -> Result<Bare, SfFault>
    ensures ok { IfOk result (λ bare. integer_of negative digits.now ≡ Some bare) }
    ensures err { IfErr result (λ fault. Lacks fault (integer_of negative digits.now)) }
{
    let Some(value) = magnitude(digits) else {
        return Err(SfFault::Syntax);
    };
    let value = value as i64;
    Ok(Bare::Integer(if negative { -value } else { value }))
}

fn makes_decimal(whole: &[u8], point: u8, fraction: &[u8]) -> bool
    ensures { result ≡ makes_decimal whole.now point fraction.now }
{
    point == b'.' && is_digits(whole, WHOLE_DIGITS) && is_digits(fraction, FRACTION_DIGITS)
}

fn number_with(alloc: Global, text: &[u8], whole: &[u8], behind: &[u8]) -> Result<Bare, SfFault>
    ensures ok { IfOk result (λ bare. number_with text.now whole.now behind.now ≡ Some bare) }
    ensures err { IfErr result (λ fault. Lacks fault (number_with text.now whole.now behind.now)) }
{
    let Some((point, fraction)) = behind.split_first() else {
        return integer(is_negative(text), whole);
    };
    if !makes_decimal(whole, *point, fraction) {
        return Err(SfFault::Syntax);
    }
    Ok(Bare::Decimal(Octets::from_slice(alloc, text)?))
}

/// The number that the text is, all of it.
#[tactic(auto, unfolding(crate::specs::Reading::number_of))]
pub(crate) fn number_of(alloc: Global, text: &[u8]) -> Result<Bare, SfFault>
    ensures ok { IfOk result (λ bare. number_of text.now ≡ Some bare) }
    ensures err { IfErr result (λ fault. Lacks fault (number_of text.now)) }
{
    let digits = unsigned(text);
    let (whole, behind) = digits.split_at(digits_len(digits));
    number_with(alloc, text, whole, behind)
}
