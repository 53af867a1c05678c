//! Octets that may be any.

ghost use Rattle.std.specs.Prelude.{◌≡◌, ◌++◌, take, OnOk, string_bytes};
ghost use Rattle.hc_shown.specs.Octets.{IsShown, all_text, first_text, length_text, octet_text, octets_text};

use std::alloc::AllocError;
use std::fmt::Write;

/// How many octets of a value are shown at most.
pub const SHOWN: usize = 200;

/// Puts an octet at the end: printable ASCII as it is, but a double quote or a backslash after a backslash; any other
/// by what stands for it after a backslash.
pub(crate) fn push_octet(octet: u8, out: &mut String) -> Result<(), AllocError>
    ensures { OnOk result (string_bytes out.new ≡ string_bytes out.old ++ octet_text octet) }
{
    if octet == b'\'' {
        return out.push_str("'");
    }
    for shown in octet.escape_ascii() {
        out.push(char::from(shown))?;
    }
    Ok(())
}

/// At most so many of the octets, the first ones.
pub(crate) fn first(octets: &[u8], most: usize) -> &[u8]
    ensures { result.now ≡ take most octets.now }
{
    &octets[..octets.len().min(most)]
}

/// Puts at most so many of the octets at the end, the first ones, and doesn't say how many there are.
pub(crate) fn push_first(octets: &[u8], most: usize, out: &mut String) -> Result<(), AllocError>
    ensures { OnOk result (string_bytes out.new ≡ string_bytes out.old ++ first_text most octets.now) }
{
    for octet in first(octets, most) {
        push_octet(*octet, out)?;
    }
    Ok(())
}

/// Puts a length at the end.
pub(crate) fn push_length(length: usize, out: &mut String) -> Result<(), AllocError>
    ensures { OnOk result (string_bytes out.new ≡ string_bytes out.old ++ length_text length) }
{
    write!(out, "({length} octets)")
}

/// Says the length of what was cut.
pub(crate) fn push_all(length: usize, out: &mut String) -> Result<(), AllocError>
    ensures { OnOk result (string_bytes out.new ≡ string_bytes out.old ++ all_text length) }
{
    write!(out, "...({length} octets)")
}

/// Puts octets at the end: printable ASCII as it is, but `"` and `\` after a `\`; a line feed, a carriage return and
/// a tab as `\n`, `\r` and `\t`; any other octet as `\x1b`. After so many as are shown it is cut, and says how many
/// there are, as `abc...(12345 octets)`.
pub fn push_octets(octets: &[u8], out: &mut String) -> Result<(), AllocError>
    ensures text { OnOk result (string_bytes out.new ≡ string_bytes out.old ++ octets_text octets.now) }
    // That is printable ASCII alone, and not much.
    ensures shown { OnOk result (IsShown (octets_text octets.now)) }
{
    push_first(octets, SHOWN, out)?;
    if octets.len() <= SHOWN {
        return Ok(());
    }
    push_all(octets.len(), out)
}
