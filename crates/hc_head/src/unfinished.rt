//! What octets may still become that end within a head.

ghost use Rattle.std.specs.Prelude.{◌≡◌, MatchBool};
ghost use Rattle.hc_head.specs.Unfinished.{behind_blank, behind_space, has_low_status, MayBecomeText, NeverText, HasHopelessTarget, MayHaveTarget};

/// How many octets stand before a status: the version and a space (RFC 9112 section 4).
const BEFORE_STATUS: usize = 9;

/// The octets behind the empty lines that may stand before a head (RFC 9112 section 2.2).
fn behind_blank(octets: &[u8]) -> &[u8]
    ensures { result.now ≡ behind_blank octets.now }
{
    let mut rest = octets;
    while let Some((b'\r' | b'\n', behind)) = rest.split_first() {
        rest = behind;
    }
    rest
}

/// The octets behind the first space.
fn behind_space(octets: &[u8]) -> &[u8]
    ensures { result.now ≡ behind_space octets.now }
{
    let mut rest = octets;
    while let Some((octet, behind)) = rest.split_first() {
        rest = behind;
        if *octet == b' ' {
            break;
        }
    }
    rest
}

/// Whether the first digit of a status has come, and is 0.
pub(crate) fn has_low_status(octets: &[u8]) -> bool
    ensures { result ≡ has_low_status octets.now }
{
    behind_blank(octets).get(BEFORE_STATUS) == Some(&b'0')
}

/// Whether octets can follow that make the text UTF-8.
fn may_become_text(text: &[u8]) -> bool
    ensures { MatchBool result (MayBecomeText text.now) (NeverText text.now) }
{
    match str::from_utf8(text) {
        Ok(_) => true,
        Err(fault) => fault.error_len().is_none(),
    }
}

/// Whether the octets end in a target that never becomes UTF-8.
pub(crate) fn has_hopeless_target(octets: &[u8]) -> bool
    ensures { MatchBool result (HasHopelessTarget octets.now) (MayHaveTarget octets.now) }
{
    let target = behind_space(behind_blank(octets));
    !target.contains(&b' ') && !may_become_text(target)
}
