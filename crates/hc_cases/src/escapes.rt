//! Octets in the texts of cases.
ghost use Rattle.std.specs.Prelude.{◌<◌, ◌+◌, length, IfSome};

use crate::asking::Unanswered;
use std::alloc::Global;

/// The octets that a text stands for: `\r`, `\n`, `\t` and `\s` (a space) are one octet each, so is
/// `\xHH`, and any other character behind a backslash is itself.
pub fn unescaped(alloc: Global, text: &[u8]) -> Result<Vec<u8>, Unanswered> {
    let mut octets = Vec::new(alloc);
    let mut rest = text;
    'octets: while let Some((octet, behind)) = first_octet(rest) {
        octets.push(octet)?;
        rest = behind;
    }
    Ok(octets)
}

// The first octet that the text stands for, and the text behind it.
fn first_octet(text: &[u8]) -> Option<(u8, &[u8])>
    ensures { IfSome result (λ (octet, behind). length behind.now < length text.now) }
{
    let (first, rest) = text.split_first()?;
    if *first == b'\\' {
        let (mark, behind) = rest.split_first()?;
        return marked(*mark, behind);
    }
    Some((*first, rest))
}

// The octet that a backslash and the mark stand for, and the text behind it.
fn marked(mark: u8, behind: &[u8]) -> Option<(u8, &[u8])>
    ensures { IfSome result (λ (octet, rest). length rest.now < length behind.now + 1) }
{
    match mark {
        b'r' => Some((b'\r', behind)),
        b'n' => Some((b'\n', behind)),
        b't' => Some((b'\t', behind)),
        b's' => Some((b' ', behind)),
        b'x' => coded(behind),
        _ => Some((mark, behind)),
    }
}

// The octet that two hexadecimal digits are, and the text behind them.
fn coded(text: &[u8]) -> Option<(u8, &[u8])>
    ensures { IfSome result (λ (octet, rest). length rest.now < length text.now) }
{
    let (high, rest) = text.split_first()?;
    let (low, behind) = rest.split_first()?;
    Some((digit(*high)? * 16 + digit(*low)?, behind))
}

fn digit(octet: u8) -> Option<u8>
    ensures { IfSome result (λ value. value < 16) }
{
    match octet {
        b'0'..=b'9' => Some(octet - b'0'),
        b'a'..=b'f' => Some(octet - b'a' + 10),
        _ => None,
    }
}
