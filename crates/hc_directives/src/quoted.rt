//! Quoted strings (RFC 9110 section 5.6.4).

ghost use Rattle.std.specs.Prelude.{◌≡◌, ℕ, List, false, option_map};
ghost use Rattle.std.specs.Iterator.{YieldsFirst, item_count};
ghost use Rattle.hc_fields.specs.Numbers.{number_of};
ghost use Rattle.hc_directives.specs.QuotedStrings.{is_escapable, is_plain, is_quoted_text, quoted_text, unescaped};
ghost use Rattle.hc_directives.specs.QuotedSteps.{escaped_behind};

use hc_fields::LARGEST_NUMBER;
use std::marker::Model;

/// Whether the octet may stand behind a backslash.
fn is_escapable(octet: u8) -> bool
    ensures { result ≡ is_escapable octet }
{
    matches!(octet, b'\t' | 32..=126 | 128..=255)
}

/// Whether the octet may stand alone in a quoted string.
fn is_plain(octet: u8) -> bool
    ensures { result ≡ is_plain octet }
{
    is_escapable(octet) && octet != b'"' && octet != b'\\'
}

/// Whether the octet behind this one is escaped, or `None` where this one may not stand.
fn escaped_behind(escaped: bool, octet: u8) -> Option<bool>
    ensures { result ≡ escaped_behind escaped octet }
{
    if escaped {
        is_escapable(octet).then_some(false)
    } else if octet == b'\\' {
        Some(true)
    } else {
        is_plain(octet).then_some(false)
    }
}

fn is_quoted_text(text: &[u8]) -> bool
    ensures { result ≡ is_quoted_text false text.now }
{
    let mut escaped = false;
    for octet in text {
        let Some(behind) = escaped_behind(escaped, *octet) else {
            return false;
        };
        escaped = behind;
    }
    !escaped
}

/// The text of a quoted string, between its quotes, if that is what the octets are.
pub(crate) fn quoted_text(octets: &[u8]) -> Option<&[u8]>
    ensures { option_map (λ text. text.now) result ≡ quoted_text octets.now }
{
    let text = octets.strip_prefix(b"\"")?.strip_suffix(b"\"")?;
    is_quoted_text(text).then_some(text)
}

/// An iterator over what the text of a quoted string says, which contracts see as the list of the
/// octets that are left.
#[derive(Drop)]
struct Unescaped<'a> {
    rest: &'a [u8],
}

impl<'a> Model for Unescaped<'a> {
    ghost Value = { List ℕ };

    ghost view = { λ u. unescaped u.rest.now };
}

impl Iterator for Unescaped<'_> {
    type Item = u8;

    ghost next_gives = { YieldsFirst (λ octets. octets) };

    ghost remaining = { item_count (λ octets. octets) };

    fn next(&mut self) -> Option<u8> {
        let (mut octet, mut rest) = self.rest.split_first()?;
        if *octet == b'\\' {
            (octet, rest) = rest.split_first()?;
        }
        self.rest = rest;
        Some(*octet)
    }
}

/// The number that the text of a quoted string says; a value over `LARGEST_NUMBER` is that number.
pub(crate) fn quoted_number(text: &[u8]) -> Option<u32>
    ensures { result ≡ number_of (unescaped text.now) }
{
    let mut number: Option<u32> = None;
    for octet in (Unescaped { rest: text }) {
        if !octet.is_ascii_digit() {
            return None;
        }
        let value = u64::from(number.unwrap_or(0)) * 10 + u64::from(octet - b'0');
        number = Some(value.min(u64::from(LARGEST_NUMBER)) as u32);
    }
    number
}
