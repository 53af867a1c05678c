//! Values, whatever they have, as printable ASCII without a double quote.

ghost use Rattle.std.specs.Prelude.{◌≡◌, ◌++◌, OnOk};
ghost use Rattle.std.specs.List.{flat_map, list_all};
ghost use Rattle.hc_access.specs.Values.{hexadecimal, is_plain, octet_text, quoted, value_text};

use std::alloc::AllocError;

/// The hexadecimal digits.
const DIGITS: &[u8; 16] = b"0123456789ABCDEF";

/// Whether an octet stands for itself.
fn is_plain(octet: u8) -> bool
    ensures { result ≡ is_plain octet }
{
    (32..=126).contains(&octet) && (octet != b'"' && octet != b'\\')
}

/// A hexadecimal digit; a zero for a number that is none.
fn hexadecimal(digit: u8) -> u8
    ensures { result ≡ hexadecimal digit }
{
    match DIGITS.get(usize::from(digit)) {
        Some(text) => *text,
        None => b'0',
    }
}

/// Puts an octet at the end: itself, or `\xHH`.
fn push_octet(octet: u8, out: &mut Vec<u8>) -> Result<(), AllocError>
    ensures { OnOk result (out.new.items ≡ out.old.items ++ octet_text octet) }
{
    if is_plain(octet) {
        out.push(octet)?;
        return Ok(());
    }
    out.extend_from_slice(&[
        b'\\',
        b'x',
        hexadecimal(octet / 16),
        hexadecimal(octet % 16),
    ])
}

/// Puts octets at the end, each itself or `\xHH`.
fn push_octets(octets: &[u8], out: &mut Vec<u8>) -> Result<(), AllocError>
    ensures { OnOk result (out.new.items ≡ out.old.items ++ flat_map octet_text octets.now) }
{
    for octet in octets {
        push_octet(*octet, out)?;
    }
    Ok(())
}

/// Puts a value at the end: printable ASCII as it is, but a double quote and a backslash, and any other octet, as `\x22`; a
/// hyphen where it is empty.
pub(crate) fn push_value(value: &[u8], out: &mut Vec<u8>) -> Result<(), AllocError>
    ensures { OnOk result (out.new.items ≡ out.old.items ++ value_text value.now) }
{
    if value.is_empty() {
        out.push(b'-')?;
        return Ok(());
    }
    if are_plain(value) {
        return out.extend_from_slice(value);
    }
    push_octets(value, out)
}

/// Whether each octet stands for itself.
fn are_plain(octets: &[u8]) -> bool
    ensures { result ≡ list_all is_plain octets.now }
{
    for octet in octets {
        if !is_plain(*octet) {
            return false;
        }
    }
    true
}

/// Puts a value at the end in double quotes, so that it ends where it ends, whatever it has.
pub(crate) fn push_quoted(value: &[u8], out: &mut Vec<u8>) -> Result<(), AllocError>
    ensures { OnOk result (out.new.items ≡ out.old.items ++ quoted value.now) }
{
    out.push(b'"')?;
    push_value(value, out)?;
    out.push(b'"')?;
    Ok(())
}
